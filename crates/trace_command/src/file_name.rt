//! The files of the tracing tree, and their names in each folder.

ghost use Rattle.std.specs.Prelude.{◌≡◌, bytes_eq};
ghost use Rattle.std.specs.Option.{option_map};
ghost use Rattle.trace_command.specs.FileNames.{file_at};
ghost use Rattle.trace_command.specs.Paths as paths;

/// A file of an instance itself (ftrace.rst, "The File System"; events.rst, "Using Event Tracing").
#[derive(Clone, Copy)]
pub enum TopFile {
    Trace,
    TracePipe,
    Overwrite,
    TraceOptions,
    TracingOn,
    Snapshot,
    EventsEnable,
    EventsFilter,
}

/// A file of one of its CPUs.
#[derive(Clone, Copy)]
pub enum CpuFile {
    Trace,
    TracePipe,
    Stats,
}

/// A file of an event in it.
#[derive(Clone, Copy)]
pub enum EventFile {
    Enable,
    Filter,
    Trigger,
    Hist,
    Format,
}

/// A file as a path names it: a CPU by the digits of its number, an event by its name.
#[derive(Clone, Copy)]
pub enum FileName<'a> {
    /// The file of all declarations, which is at the top alone.
    SyntheticEvents,
    OfInstance(TopFile),
    OfCpu(&'a [u8], CpuFile),
    OfEvent(&'a [u8], EventFile),
}

/// Whether a part of a path is this word.
#[inline(always)]
pub(crate) fn is(part: &[u8], word: &[u8]) -> bool
    ensures { result ≡ bytes_eq part.now word.now }
{
    part == word
}

/// A file at the top.
#[tactic(auto, unfolding(crate::specs::Paths::top_file))]
pub(crate) fn top_file<'a>(name: &[u8]) -> Option<FileName<'a>>
    ensures { option_map file_at result ≡ paths.top_file name.now }
{
    if is(name, b"trace") {
        return Some(FileName::OfInstance(TopFile::Trace));
    }
    if is(name, b"trace_pipe") {
        return Some(FileName::OfInstance(TopFile::TracePipe));
    }
    if is(name, b"trace_options") {
        return Some(FileName::OfInstance(TopFile::TraceOptions));
    }
    if is(name, b"tracing_on") {
        return Some(FileName::OfInstance(TopFile::TracingOn));
    }
    if is(name, b"snapshot") {
        return Some(FileName::OfInstance(TopFile::Snapshot));
    }
    if is(name, b"synthetic_events") {
        return Some(FileName::SyntheticEvents);
    }
    None
}

/// A file of an option.
#[tactic(auto, unfolding(crate::specs::Paths::option_file))]
pub(crate) fn option_file(name: &[u8]) -> Option<TopFile>
    ensures { result ≡ paths.option_file name.now }
{
    if is(name, b"overwrite") {
        return Some(TopFile::Overwrite);
    }
    None
}

/// A file of all events, below `events`.
#[tactic(auto, unfolding(crate::specs::Paths::events_file))]
pub(crate) fn events_file(name: &[u8]) -> Option<TopFile>
    ensures { result ≡ paths.events_file name.now }
{
    if is(name, b"enable") {
        return Some(TopFile::EventsEnable);
    }
    None
}

/// A file of all events of the one system.
#[tactic(auto, unfolding(crate::specs::Paths::system_file))]
pub(crate) fn system_file(name: &[u8]) -> Option<TopFile>
    ensures { result ≡ paths.system_file name.now }
{
    if is(name, b"enable") {
        return Some(TopFile::EventsEnable);
    }
    if is(name, b"filter") {
        return Some(TopFile::EventsFilter);
    }
    None
}

/// A file of a CPU.
#[tactic(auto, unfolding(crate::specs::Paths::cpu_file))]
pub(crate) fn cpu_file(name: &[u8]) -> Option<CpuFile>
    ensures { result ≡ paths.cpu_file name.now }
{
    if is(name, b"stats") {
        return Some(CpuFile::Stats);
    }
    if is(name, b"trace") {
        return Some(CpuFile::Trace);
    }
    if is(name, b"trace_pipe") {
        return Some(CpuFile::TracePipe);
    }
    None
}

/// A file of an event.
#[tactic(auto, unfolding(crate::specs::Paths::event_file))]
pub(crate) fn event_file(name: &[u8]) -> Option<EventFile>
    ensures { result ≡ paths.event_file name.now }
{
    if is(name, b"enable") {
        return Some(EventFile::Enable);
    }
    if is(name, b"filter") {
        return Some(EventFile::Filter);
    }
    if is(name, b"trigger") {
        return Some(EventFile::Trigger);
    }
    if is(name, b"hist") {
        return Some(EventFile::Hist);
    }
    if is(name, b"format") {
        return Some(EventFile::Format);
    }
    None
}
