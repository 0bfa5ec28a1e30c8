//! Writes.

ghost use Rattle.std.specs.Prelude.{◌≡◌, bytes_eq, length, option_copied};
ghost use Rattle.std.specs.List.{find, prefix_len};
ghost use Rattle.mount_tree.specs.declared.scene.Event.{Event as EventValue};
ghost use Rattle.mount_stub_files.specs.EventWords as events;
ghost use Rattle.mount_stub_files.specs.ToolWrites as writes;

use crate::config::{cpu_mask, ring_kilobytes};
use crate::word::{first_word, only_word, word_size};
use mount_tree::{Event, File, Node, Owner, Scene, ToolFile, TopTool};
use trace_command::{Config, EventFile, TopFile};
use trace_lex::written_number;

/// What a write to a file that tools ask for comes to.
#[derive(Clone, Copy)]
pub enum ToolWrite {
    /// The file is not there.
    Missing,
    /// It can't be set to that.
    Wrong,
    /// It is done, and nothing changes.
    Same,
    /// So many bytes of it are done by writing `1` or `0` to this file of the same instance.
    Switch { file: File, on: bool, size: usize },
}

/// A file that shows one text and takes no other.
fn write_fixed(shown: &[u8], bytes: &[u8]) -> ToolWrite
    ensures value { result ≡ writes.fixed_write shown.now bytes.now }
    ensures bound { writes.TakesAtMost (length bytes.now) result }
{
    if only_word(bytes) == shown {
        ToolWrite::Same
    } else {
        ToolWrite::Wrong
    }
}

/// A file that shows one number and takes no other.
fn write_number(shown: u64, bytes: &[u8]) -> ToolWrite
    ensures value { result ≡ writes.number_write shown bytes.now }
    ensures bound { writes.TakesAtMost (length bytes.now) result }
{
    match written_number(only_word(bytes)) {
        Some(number) => {
            if number == shown {
                ToolWrite::Same
            } else {
                ToolWrite::Wrong
            }
        }
        None => ToolWrite::Wrong,
    }
}

// ---- the words of `set_event`

/// Whether a word switches off.
fn is_off(word: &[u8]) -> bool
    ensures { result ≡ events.is_off word.now }
{
    match word {
        [first, ..] => *first == b'!',
        [] => false,
    }
}

/// What is named, without a `!` before it.
fn named(word: &[u8]) -> &[u8]
    ensures { result.now ≡ events.named word.now }
{
    if is_off(word) { &word[1..] } else { word }
}

/// How many bytes come before the first colon.
fn system_len(name: &[u8]) -> usize
    ensures { result ≡ prefix_len events.is_no_colon name.now }
{
    name.iter().take_while(|byte| **byte != b':').count()
}

/// Whether it means any.
fn is_any(name: &[u8]) -> bool
    ensures { result ≡ events.is_any name.now }
{
    name.is_empty() || name == b"*".as_slice()
}

/// Whether it is the one system that there is.
fn is_system(name: &[u8]) -> bool
    ensures { result ≡ events.is_system name.now }
{
    name == b"synthetic".as_slice()
}

fn event_called<'a>(events: &'a [Event], name: &[u8]) -> Option<&'a Event>
    ensures { option_copied result ≡ find (λ (e : EventValue). bytes_eq e.name name.now) events.now }
{
    events.iter().find(|event| event.name.as_bytes() == name)
}

/// The switch of the event of this name.
fn switch_of_event(scene: &Scene, name: &[u8]) -> Option<File>
    ensures { result ≡ events.switch_of_event scene.now name.now }
{
    match event_called(scene.events(), name) {
        Some(event) => Some(File::OfEvent(event.index, EventFile::Enable)),
        None => None,
    }
}

/// The switch of all events, if there are any.
fn switch_of_all(scene: &Scene) -> Option<File>
    ensures { result ≡ events.switch_of_all scene.now }
{
    if scene.events().is_empty() {
        None
    } else {
        Some(File::OfInstance(TopFile::EventsEnable))
    }
}

/// The switch of what a system's name and an event's name, with a colon between them, mean.
fn switch_of_both(scene: &Scene, system: &[u8], event: &[u8]) -> Option<File>
    ensures { result ≡ events.switch_of_both scene.now system.now event.now }
{
    if !(is_any(system) || is_system(system)) {
        return None;
    }
    if is_any(event) {
        switch_of_all(scene)
    } else {
        switch_of_event(scene, event)
    }
}

/// The switch of what a name means.
fn switch_of(scene: &Scene, name: &[u8]) -> Option<File>
    ensures { result ≡ events.switch_of scene.now name.now }
{
    let colon = system_len(name);
    if colon < name.len() {
        switch_of_both(scene, &name[..colon], &name[colon + 1..])
    } else if is_system(name) {
        switch_of_all(scene)
    } else {
        switch_of_event(scene, name)
    }
}

/// A write to `set_event`: its first word is done, whoever writes several writes the others again.
fn write_events(scene: &Scene, bytes: &[u8]) -> ToolWrite
    ensures value { result ≡ writes.events_write scene.now bytes.now }
    ensures bound { writes.TakesAtMost (length bytes.now) result }
{
    let word = first_word(bytes);
    if word.is_empty() {
        return ToolWrite::Same;
    }
    match switch_of(scene, named(word)) {
        Some(file) => ToolWrite::Switch {
            file,
            on: !is_off(word),
            size: word_size(bytes),
        },
        None => ToolWrite::Wrong,
    }
}

// A write to a file of an instance.
fn write_tool(config: &Config, scene: &Scene, file: ToolFile, bytes: &[u8]) -> ToolWrite
    ensures value { result ≡ writes.tool_file_write config.now scene.now file bytes.now }
    ensures bound { writes.TakesAtMost (length bytes.now) result }
{
    match file {
        ToolFile::CurrentTracer => write_fixed(b"nop".as_slice(), bytes),
        ToolFile::TraceClock => write_fixed(b"counter".as_slice(), bytes),
        ToolFile::TracingCpumask => write_fixed(cpu_mask(scene.cpus()).as_bytes(), bytes),
        ToolFile::BufferSizeKb => write_number(ring_kilobytes(config), bytes),
        ToolFile::SetEvent => write_events(scene, bytes),
        ToolFile::AvailableTracers | ToolFile::TimestampMode | ToolFile::BufferTotalSizeKb =>
            ToolWrite::Wrong,
    }
}

/// What a write of these bytes to a file of an instance comes to, where the tracer has this configuration and these events and instances.
pub fn write_of(config: &Config, scene: &Scene, owner: Owner, file: File, bytes: &[u8]) -> ToolWrite
    ensures value { result ≡ writes.tool_write config.now scene.now owner file bytes.now }
    ensures bound { writes.TakesAtMost (length bytes.now) result }
{
    if !scene.exists(Node::File(owner, file)) {
        return ToolWrite::Missing;
    }
    match file {
        File::Tool(file) => write_tool(config, scene, file, bytes),
        File::CpuSize(_) => write_number(ring_kilobytes(config), bytes),
        File::OfTop(TopTool::TracingThresh) => write_number(0, bytes),
        _ => ToolWrite::Wrong,
    }
}
