//! What is read.

ghost use Rattle.std.specs.Prelude.{◌≡◌, ◌++◌, List, Option, ℕ, is_some, true, false, IfOk, IfSome, OnOk};
ghost use Rattle.std.specs.Fmt.{decimal};
ghost use Rattle.trace_command.specs.Requests.{Request};
ghost use Rattle.tracer_specification.specs.Settings.{declared_events, is_there};
ghost use Rattle.trace_instance.specs.Instances.{InstanceStandsFor};
ghost use Rattle.mount_tree.specs.Children.{owner_is_there};
ghost use Rattle.mount_tree.specs.NodePaths.{owner_name};
ghost use Rattle.mount_tree.specs.ScenesAfter.{scene_after};
ghost use Rattle.mount_stub_files.specs.ToolTexts as texts;
ghost use Rattle.mount_stub_files.specs.private.Flags.{flagged_line, flagged_lines};

use crate::config::{cpu_mask, ring_kilobytes, total_kilobytes};
use itoa::Buffer;
use kernel_pages::{format_text, header_event, header_page, id_text, print_format};
use mount_tree::{Event, File, LayoutFile, Node, Owner, Scene, ToolFile, TopTool};
use std::alloc::{AllocError, Global};
use trace_command::{Config, EventFile};
use trace_format::Catalog;
use trace_instance::Instance;
use trace_lex::Text;

/// What `README` shows.
const README: &str = "\
A tracer with the files of Linux tracefs.

  synthetic_events                  declares events: echo 'tick u64 n' > synthetic_events
  events/synthetic/EVENT/enable     1 or 0: whether it is recorded
  events/synthetic/EVENT/filter     which of them are: echo 'n > 5' > filter
  events/synthetic/EVENT/trigger    snapshot and hist triggers: echo hist:keys=n > trigger
  events/synthetic/EVENT/hist       the histograms
  events/synthetic/EVENT/format     how a record is laid out
  events/synthetic/EVENT/inject     makes an event: echo n=5 > inject
  set_event                         the events that are recorded: echo synthetic:tick >> set_event
  trace, trace_pipe                 the records: to look at, to consume
  tracing_on                        1 or 0: whether to record
  snapshot                          1 takes one, 0 frees it
  per_cpu/cpuN/                     the records and the counts of a CPU
  options/overwrite                 1 or 0: whether to overwrite older records
  instances/                        mkdir and rmdir make and remove instances with the same files
";

/// A line with this text.
fn line(alloc: Global, text: &[u8]) -> Result<Text, AllocError>
    ensures { IfOk result (λ line. line ≡ texts.line text.now) }
{
    let mut out = Vec::from_slice(alloc, text)?;
    out.push(b'\n')?;
    Ok(Text::from(out))
}

/// A line with this number.
fn number_line(alloc: Global, number: u64) -> Result<Text, AllocError>
    ensures { IfOk result (λ line. line ≡ texts.line (decimal number)) }
{
    line(alloc, Buffer::new().format(number).as_bytes())
}

/// Appends the line of an event.
fn push_event(out: &mut Vec<u8>, name: &[u8]) -> Result<(), AllocError>
    ensures { OnOk result (out.new.items ≡ out.old.items ++ texts.event_line name.now) }
{
    out.extend_from_slice(b"synthetic:".as_slice())?;
    out.extend_from_slice(name)?;
    out.push(b'\n')?;
    Ok(())
}

/// Appends the line of an event, if it is enabled.
fn push_enabled(out: &mut Vec<u8>, instance: &Instance, event: &Event) -> Result<(), AllocError>
    ensures { OnOk result (out.new.items ≡ out.old.items ++ flagged_line instance.now.enabled event.now) }
{
    if instance.is_enabled(usize::from(event.index)) {
        push_event(out, event.name.as_bytes())
    } else {
        Ok(())
    }
}

fn push_all_enabled(
    out: &mut Vec<u8>,
    instance: &Instance,
    events: &[Event],
) -> Result<(), AllocError>
    ensures { OnOk result (out.new.items ≡ out.old.items ++ flagged_lines instance.now.enabled events.now) }
{
    for event in events {
        push_enabled(out, instance, event)?;
    }
    Ok(())
}

fn push_events(out: &mut Vec<u8>, events: &[Event]) -> Result<(), AllocError>
    ensures { OnOk result (out.new.items ≡ out.old.items ++ texts.event_lines events.now) }
{
    for event in events {
        push_event(out, event.name.as_bytes())?;
    }
    Ok(())
}

/// The events that there are.
fn all_events(alloc: Global, scene: &Scene) -> Result<Text, AllocError>
    ensures { IfOk result (λ text. text ≡ texts.event_lines scene.now.events) }
{
    let mut out = Vec::new(alloc);
    push_events(&mut out, scene.events())?;
    Ok(Text::from(out))
}

/// Those that an instance records.
fn enabled_events(alloc: Global, scene: &Scene, instance: &Instance) -> Result<Text, AllocError>
    ensures { IfOk result (λ text. text ≡ flagged_lines instance.now.enabled scene.now.events) }
{
    let mut out = Vec::new(alloc);
    push_all_enabled(&mut out, instance, scene.events())?;
    Ok(Text::from(out))
}

// What a file of an instance shows that is there.
#[tactic(auto, unfolding(crate::specs::ToolTexts::cpu_mask))]
fn tool_file_text(
    alloc: Global,
    config: &Config,
    scene: &Scene,
    instance: &Instance,
    file: ToolFile,
) -> Result<Text, AllocError>
    ensures { (name : Option (List ℕ)) (past : List Request) → scene.now ≡ scene_after config.now.cpus past
        → InstanceStandsFor config.now name past instance.now → IfOk result (λ text. text ≡ texts.tool_file_text config.now name past file) }
{
    match file {
        ToolFile::AvailableTracers | ToolFile::CurrentTracer => line(alloc, b"nop".as_slice()),
        ToolFile::SetEvent => enabled_events(alloc, scene, instance),
        ToolFile::TraceClock => line(alloc, b"[counter]".as_slice()),
        ToolFile::TimestampMode => line(alloc, b"[delta] absolute".as_slice()),
        ToolFile::BufferSizeKb => number_line(alloc, ring_kilobytes(config)),
        ToolFile::BufferTotalSizeKb => number_line(alloc, total_kilobytes(config, scene.cpus())),
        ToolFile::TracingCpumask => line(alloc, cpu_mask(scene.cpus()).as_bytes()),
    }
}

// What a file shows that the top instance alone has.
#[tactic(auto, unfolding(crate::specs::ToolTexts::readme))]
fn top_tool_text(alloc: Global, scene: &Scene, file: TopTool) -> Result<Text, AllocError>
    ensures { (cpus : ℕ) (past : List Request) → scene.now ≡ scene_after cpus past → IfOk result (λ text. text ≡ texts.top_tool_text past file) }
{
    match file {
        TopTool::AvailableEvents => all_events(alloc, scene),
        TopTool::Readme => Text::from_slice(alloc, README.as_bytes()),
        TopTool::SavedCmdlines | TopTool::PrintkFormats => Ok(Text::new(alloc)),
        TopTool::TracingThresh => line(alloc, b"0".as_slice()),
    }
}

/// What a file shows that says how binary pages are laid out.
fn layout_text(file: LayoutFile) -> &'static [u8]
    ensures { result.now ≡ texts.layout_text file }
{
    match file {
        LayoutFile::HeaderPage => header_page(),
        LayoutFile::HeaderEvent => header_event(),
        LayoutFile::PrintFormat => print_format(),
    }
}

/// What `format` of the event at this index shows, if there is one.
fn event_format(alloc: Global, catalog: &Catalog, event: u8) -> Result<Option<Text>, AllocError>
    ensures { IfOk result (λ text. text ≡ texts.event_format catalog.now event) }
{
    let number = u16::from(event) + 1;
    match catalog.def(number) {
        Some(def) => Ok(Some(format_text(alloc, number, def)?)),
        None => Ok(None),
    }
}

// What a file of an instance that is there shows, if it is one of these files.
fn text_there(
    alloc: Global,
    config: &Config,
    catalog: &Catalog,
    scene: &Scene,
    instance: &Instance,
    file: File,
) -> Result<Option<Text>, AllocError>
    ensures { (name : Option (List ℕ)) (past : List Request) → scene.now ≡ scene_after config.now.cpus past
        → catalog.now ≡ declared_events past
        → InstanceStandsFor config.now name past instance.now → IfOk result (λ text. text ≡ texts.text_there config.now name past file) }
{
    match file {
        File::Tool(file) => Ok(Some(tool_file_text(alloc, config, scene, instance, file)?)),
        File::OfTop(file) => Ok(Some(top_tool_text(alloc, scene, file)?)),
        File::CpuSize(_) => Ok(Some(number_line(alloc, ring_kilobytes(config))?)),
        File::EventId(event) => Ok(Some(id_text(alloc, u16::from(event) + 1)?)),
        File::OfEvent(event, EventFile::Format) => event_format(alloc, catalog, event),
        File::Layout(file) => Ok(Some(Text::from_slice(alloc, layout_text(file))?)),
        _ => Ok(None),
    }
}

/// What a file of an instance shows; `None`, if it is none of these or is not there. `instance` is the owner's, or `None` if that isn't there.
pub fn text_of(
    alloc: Global,
    config: &Config,
    catalog: &Catalog,
    scene: &Scene,
    owner: Owner,
    instance: Option<&Instance>,
    file: File,
) -> Result<Option<Text>, AllocError>
    ensures { (past : List Request) → scene.now ≡ scene_after config.now.cpus past
        → catalog.now ≡ declared_events past
        → (owner_is_there scene.now owner ≡ true → is_some instance.entry ≡ is_there (owner_name scene.now owner) past)
        → IfSome instance.entry (λ kept. InstanceStandsFor config.now (owner_name scene.now owner) past kept.now)
        → IfOk result (λ text. text ≡ texts.tool_text config.now past owner file) }
{
    if scene.exists(Node::File(owner, file)) {
        match instance {
            Some(instance) => text_there(alloc, config, catalog, scene, instance, file),
            None => Ok(None),
        }
    } else {
        Ok(None)
    }
}
