//! The files of an instance.

ghost use Rattle.std.specs.Prelude.{◌≡◌, ◌<◌, [], get_or, length, map, slice_get};
ghost use Rattle.file_list.specs.FileKinds.{access_of_file, kind_of_file, takes_lines};
ghost use Rattle.file_list.specs.FileTable.{file_at, file_index, file_name, file_of, file_parent, is_listed};

use crate::access::Access;
use crate::files::{FILES, LayoutFile, ToolFile, TopTool};
use crate::folder::Folder;
use trace_command::{CpuFile, EventFile, TopFile};

/// A file of an instance.
#[derive(Clone, Copy)]
pub enum File {
    /// `synthetic_events`, which the top instance alone has.
    SyntheticEvents,
    /// A file of the instance itself, or of all its events. The switch of all events is `events/enable`.
    OfInstance(TopFile),
    /// The switch of all events by its other path, `events/synthetic/enable`.
    SystemEnable,
    /// A file of a CPU, by its number.
    OfCpu(u8, CpuFile),
    /// A file of an event, by its index.
    OfEvent(u8, EventFile),
    /// The file `inject` of an event, by its index.
    Inject(u8),
    /// A file that tools ask for.
    Tool(ToolFile),
    /// A file that tools ask for, which the top instance alone has.
    OfTop(TopTool),
    /// The file `buffer_size_kb` of a CPU, by its number.
    CpuSize(u8),
    /// The file `id` of an event, by its index.
    EventId(u8),
    /// `error_log`: the last commands that were refused.
    ErrorLog,
    /// A file that says how binary pages are laid out.
    Layout(LayoutFile),
    /// The file `trace_pipe_raw` of a CPU, by its number.
    RawPipe(u8),
}

/// How a file is read and written.
#[derive(Clone, Copy, Debug, PartialEq, Eq)]
pub enum FileKind {
    /// Read whole, or only written.
    Text,
    /// The records of an instance or of a CPU: read whole, and a write of anything clears them.
    Trace,
    /// A read consumes records.
    Pipe,
    /// A read consumes records, and gives them as a binary page.
    RawPipe,
    /// A write emits an event.
    Inject,
    /// One that tools ask for, which a mount makes itself, so that no command reads it: read whole.
    Tool,
    /// The last commands that were refused: read whole, and cleared by opening it to be emptied.
    ErrorLog,
}

impl File {
    /// The file in this row of `FILES`, if there are so many.
    pub fn at(row: usize) -> Option<File>
        ensures { result ≡ file_at row }
    {
        file_in(&FILES, row)
    }

    /// Its name.
    pub fn name(self) -> &'static str
        ensures { result.now ≡ file_name self }
    {
        name_in(&FILES, self.row())
    }

    /// How it can be used.
    pub fn access(self) -> Access
        ensures { result ≡ access_of_file self }
    {
        access_in(&FILES, self.row())
    }

    /// The folder that it is in.
    pub fn parent(self) -> Folder
        ensures { result ≡ file_parent self }
    {
        match self {
            File::OfInstance(TopFile::Overwrite) => Folder::Options,
            File::OfInstance(TopFile::EventsEnable) => Folder::Events,
            File::OfInstance(TopFile::EventsFilter) | File::SystemEnable => Folder::Synthetic,
            File::SyntheticEvents
            | File::OfInstance(_)
            | File::Tool(_)
            | File::OfTop(_)
            | File::ErrorLog => Folder::Root,
            File::OfCpu(cpu, _) | File::CpuSize(cpu) | File::RawPipe(cpu) => Folder::Cpu(cpu),
            File::OfEvent(event, _) | File::Inject(event) | File::EventId(event) => {
                Folder::Event(event)
            }
            File::Layout(LayoutFile::PrintFormat) => Folder::FtracePrint,
            File::Layout(_) => Folder::Events,
        }
    }

    /// The number of the CPU or the index of the event whose file it is; else 0.
    pub fn index(self) -> u8
        ensures { result ≡ file_index self }
    {
        match self {
            File::OfCpu(cpu, _) | File::CpuSize(cpu) | File::RawPipe(cpu) => cpu,
            File::OfEvent(event, _) | File::Inject(event) | File::EventId(event) => event,
            File::SyntheticEvents
            | File::OfInstance(_)
            | File::SystemEnable
            | File::Tool(_)
            | File::OfTop(_)
            | File::ErrorLog
            | File::Layout(_) => 0,
        }
    }

    /// The same file of the CPU or event at this index, if it is one of those.
    pub fn of(self, index: u8) -> File
        ensures { result ≡ file_of index self }
    {
        match self {
            File::OfCpu(_, file) => File::OfCpu(index, file),
            File::OfEvent(_, file) => File::OfEvent(index, file),
            File::Inject(_) => File::Inject(index),
            File::CpuSize(_) => File::CpuSize(index),
            File::EventId(_) => File::EventId(index),
            File::RawPipe(_) => File::RawPipe(index),
            File::SyntheticEvents
            | File::OfInstance(_)
            | File::SystemEnable
            | File::Tool(_)
            | File::OfTop(_)
            | File::ErrorLog
            | File::Layout(_) => self,
        }
    }

    /// Whether commands know it.
    pub fn is_listed(self) -> bool
        ensures { result ≡ is_listed self }
    {
        match self {
            File::SyntheticEvents
            | File::OfInstance(_)
            | File::SystemEnable
            | File::OfCpu(_, _)
            | File::OfEvent(_, _) => true,
            File::Inject(_)
            | File::Tool(_)
            | File::OfTop(_)
            | File::CpuSize(_)
            | File::EventId(_)
            | File::ErrorLog
            | File::Layout(_)
            | File::RawPipe(_) => false,
        }
    }

    /// How it is read and written.
    pub fn kind(self) -> FileKind
        ensures { result ≡ kind_of_file self }
    {
        match self {
            File::OfInstance(TopFile::Trace) | File::OfCpu(_, CpuFile::Trace) => FileKind::Trace,
            File::OfInstance(TopFile::TracePipe) | File::OfCpu(_, CpuFile::TracePipe) => {
                FileKind::Pipe
            }
            File::Inject(_) => FileKind::Inject,
            File::RawPipe(_) => FileKind::RawPipe,
            File::Tool(_)
            | File::OfTop(_)
            | File::CpuSize(_)
            | File::EventId(_)
            | File::Layout(_)
            | File::OfEvent(_, EventFile::Format) => FileKind::Tool,
            File::ErrorLog => FileKind::ErrorLog,
            File::SyntheticEvents
            | File::OfInstance(_)
            | File::SystemEnable
            | File::OfCpu(_, CpuFile::Stats)
            | File::OfEvent(_, _) => FileKind::Text,
        }
    }

    /// Whether a write of several lines is a command a line.
    pub fn takes_lines(self) -> bool
        ensures { result ≡ takes_lines self }
    {
        matches!(
            self,
            File::SyntheticEvents | File::OfEvent(_, EventFile::Trigger)
        )
    }
}

// What is in a row of a table: a file, its name, and how it can be used.

fn file_in(rows: &[(File, &'static str, Access)], row: usize) -> Option<File>
    ensures { result ≡ slice_get (map (λ r. r.0) rows.now) row }
{
    let row = rows.get(row)?;
    Some(row.0)
}

fn name_in(rows: &[(File, &'static str, Access)], row: usize) -> &'static str
    requires { row < length rows.now }
    ensures { result.now ≡ get_or (map (λ r. r.1.now) rows.now) row [] }
{
    rows[row].1
}

fn access_in(rows: &[(File, &'static str, Access)], row: usize) -> Access
    requires { row < length rows.now }
    ensures { result ≡ get_or (map (λ r. r.2) rows.now) row Access.Read }
{
    rows[row].2
}
