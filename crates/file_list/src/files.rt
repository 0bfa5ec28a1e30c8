//! The files and folders of a mounted tracer, those of `--list` among them: tables that code and definitions both read.
//!
//! `FILES` has each file once: what it is, its name, and how it can be used. Its place there and those of folders before it are what a mount's
//! numbers tell (mount_tree), so a running mount never moves one. Then come the lists of the folders, each in the order in which it is shown. In a
//! table the file of a CPU or of an event is that of the first one.

ghost use Rattle.std.specs.Prelude.{◌≡◌, ◌<◌};
ghost use Rattle.file_list.specs.FileTable.{file_row, items_of};

use crate::access::Access;
use crate::access::Access::{Both, Read, Write};
use crate::file::File;
use crate::file::File::{
    CpuSize, ErrorLog, EventId, Inject, Layout, OfCpu, OfEvent, OfInstance, OfTop, RawPipe,
    SyntheticEvents, SystemEnable, Tool,
};
use crate::folder::Folder;
use trace_command::{CpuFile, EventFile, TopFile};

/// A file of each instance that tools ask for, in the instance's own folder. Commands don't know it.
#[derive(Clone, Copy)]
pub enum ToolFile {
    /// `available_tracers`: the tracers that there are.
    AvailableTracers,
    /// `current_tracer`: which one runs.
    CurrentTracer,
    /// `set_event`: the events that are enabled.
    SetEvent,
    /// `trace_clock`: the clocks that there are.
    TraceClock,
    /// `timestamp_mode`: how a record has its time.
    TimestampMode,
    /// `buffer_size_kb`: the size of a CPU's ring, in kilobytes.
    BufferSizeKb,
    /// `buffer_total_size_kb`: the size of all CPUs' rings.
    BufferTotalSizeKb,
    /// `tracing_cpumask`: the CPUs that are traced.
    TracingCpumask,
}

/// A file that tools ask for and that the top instance alone has, in its own folder. Commands don't know it.
#[derive(Clone, Copy)]
pub enum TopTool {
    /// `available_events`: the events that were declared.
    AvailableEvents,
    /// `README`: what the files are.
    Readme,
    /// `saved_cmdlines`: the names of processes.
    SavedCmdlines,
    /// `printk_formats`: the formats of a kernel's own messages.
    PrintkFormats,
    /// `tracing_thresh`: the shortest latency that is recorded.
    TracingThresh,
}

/// A file of each instance, below its `events`, that says how a ring's binary pages are laid out. Commands don't know it.
#[derive(Clone, Copy)]
pub enum LayoutFile {
    /// `header_page`: where the time, the commit and the events of a page are.
    HeaderPage,
    /// `header_event`: the parts of an event's first word.
    HeaderEvent,
    /// `ftrace/print/format`: that of an event that Linux has itself.
    PrintFormat,
}

/// What a folder always has: a folder or a file.
#[derive(Clone, Copy)]
pub enum Item {
    Folder(Folder),
    File(File),
}

/// The folders, and the names of those that have one of their own.
pub const FOLDERS: [(Folder, &str); 10] = [
    (Folder::Root, ""),
    (Folder::Instances, "instances"),
    (Folder::Options, "options"),
    (Folder::PerCpu, "per_cpu"),
    (Folder::Cpu(0), ""),
    (Folder::Events, "events"),
    (Folder::Synthetic, "synthetic"),
    (Folder::Event(0), ""),
    (Folder::Ftrace, "ftrace"),
    (Folder::FtracePrint, "print"),
];

/// The files: the name of each, and how it can be used.
pub const FILES: [(File, &str, Access); 39] = [
    (SyntheticEvents, "synthetic_events", Both),
    (OfInstance(TopFile::Trace), "trace", Both),
    (OfInstance(TopFile::TracePipe), "trace_pipe", Read),
    (OfInstance(TopFile::Overwrite), "overwrite", Both),
    (OfInstance(TopFile::TraceOptions), "trace_options", Both),
    (OfInstance(TopFile::TracingOn), "tracing_on", Both),
    (OfInstance(TopFile::Snapshot), "snapshot", Both),
    (OfInstance(TopFile::EventsEnable), "enable", Both),
    (OfInstance(TopFile::EventsFilter), "filter", Write),
    (SystemEnable, "enable", Both),
    (OfCpu(0, CpuFile::Trace), "trace", Both),
    (OfCpu(0, CpuFile::TracePipe), "trace_pipe", Read),
    (OfCpu(0, CpuFile::Stats), "stats", Read),
    (OfEvent(0, EventFile::Enable), "enable", Both),
    (OfEvent(0, EventFile::Filter), "filter", Both),
    (OfEvent(0, EventFile::Trigger), "trigger", Both),
    (OfEvent(0, EventFile::Hist), "hist", Read),
    (OfEvent(0, EventFile::Format), "format", Read),
    (Inject(0), "inject", Write),
    (Tool(ToolFile::AvailableTracers), "available_tracers", Read),
    (Tool(ToolFile::CurrentTracer), "current_tracer", Both),
    (Tool(ToolFile::SetEvent), "set_event", Both),
    (Tool(ToolFile::TraceClock), "trace_clock", Both),
    (Tool(ToolFile::TimestampMode), "timestamp_mode", Read),
    (Tool(ToolFile::BufferSizeKb), "buffer_size_kb", Both),
    (
        Tool(ToolFile::BufferTotalSizeKb),
        "buffer_total_size_kb",
        Read,
    ),
    (Tool(ToolFile::TracingCpumask), "tracing_cpumask", Both),
    (OfTop(TopTool::AvailableEvents), "available_events", Read),
    (OfTop(TopTool::Readme), "README", Read),
    (OfTop(TopTool::SavedCmdlines), "saved_cmdlines", Read),
    (OfTop(TopTool::PrintkFormats), "printk_formats", Read),
    (OfTop(TopTool::TracingThresh), "tracing_thresh", Both),
    (CpuSize(0), "buffer_size_kb", Both),
    (EventId(0), "id", Read),
    (ErrorLog, "error_log", Both),
    (Layout(LayoutFile::HeaderPage), "header_page", Read),
    (Layout(LayoutFile::HeaderEvent), "header_event", Read),
    (Layout(LayoutFile::PrintFormat), "format", Read),
    (RawPipe(0), "trace_pipe_raw", Read),
];

/// What the mounted folder has. The folder of another instance has what is not of the top one alone.
pub const ROOT: [Item; 24] = [
    Item::File(SyntheticEvents),
    Item::File(OfInstance(TopFile::Snapshot)),
    Item::File(OfInstance(TopFile::TracingOn)),
    Item::File(OfInstance(TopFile::Trace)),
    Item::File(OfInstance(TopFile::TracePipe)),
    Item::Folder(Folder::Options),
    Item::File(OfInstance(TopFile::TraceOptions)),
    Item::Folder(Folder::Events),
    Item::Folder(Folder::PerCpu),
    Item::File(Tool(ToolFile::AvailableTracers)),
    Item::File(Tool(ToolFile::CurrentTracer)),
    Item::File(Tool(ToolFile::SetEvent)),
    Item::File(Tool(ToolFile::TraceClock)),
    Item::File(Tool(ToolFile::TimestampMode)),
    Item::File(Tool(ToolFile::BufferSizeKb)),
    Item::File(Tool(ToolFile::BufferTotalSizeKb)),
    Item::File(Tool(ToolFile::TracingCpumask)),
    Item::File(ErrorLog),
    Item::Folder(Folder::Instances),
    Item::File(OfTop(TopTool::AvailableEvents)),
    Item::File(OfTop(TopTool::Readme)),
    Item::File(OfTop(TopTool::SavedCmdlines)),
    Item::File(OfTop(TopTool::PrintkFormats)),
    Item::File(OfTop(TopTool::TracingThresh)),
];

pub const OPTIONS: [Item; 1] = [Item::File(OfInstance(TopFile::Overwrite))];

pub const EVENTS: [Item; 5] = [
    Item::File(OfInstance(TopFile::EventsEnable)),
    Item::Folder(Folder::Synthetic),
    Item::Folder(Folder::Ftrace),
    Item::File(Layout(LayoutFile::HeaderPage)),
    Item::File(Layout(LayoutFile::HeaderEvent)),
];

/// What `events/ftrace` has: the folder of an event that Linux has itself, and that clients of binary pages look for.
pub const FTRACE: [Item; 1] = [Item::Folder(Folder::FtracePrint)];

pub const FTRACE_PRINT: [Item; 1] = [Item::File(Layout(LayoutFile::PrintFormat))];

/// What `events/synthetic` has before the folders of events.
pub const SYNTHETIC: [Item; 2] = [
    Item::File(SystemEnable),
    Item::File(OfInstance(TopFile::EventsFilter)),
];

pub const CPU: [Item; 5] = [
    Item::File(OfCpu(0, CpuFile::Stats)),
    Item::File(OfCpu(0, CpuFile::Trace)),
    Item::File(OfCpu(0, CpuFile::TracePipe)),
    Item::File(CpuSize(0)),
    Item::File(RawPipe(0)),
];

pub const EVENT: [Item; 7] = [
    Item::File(OfEvent(0, EventFile::Format)),
    Item::File(OfEvent(0, EventFile::Enable)),
    Item::File(OfEvent(0, EventFile::Filter)),
    Item::File(OfEvent(0, EventFile::Trigger)),
    Item::File(OfEvent(0, EventFile::Hist)),
    Item::File(Inject(0)),
    Item::File(EventId(0)),
];

impl File {
    /// Its row in `FILES`.
    pub fn row(self) -> usize
        ensures row { result ≡ file_row self }
        ensures bound { result < 39 }
    {
        match self {
            File::SyntheticEvents => 0,
            File::OfInstance(file) => 1 + file as usize,
            File::SystemEnable => 9,
            File::OfCpu(_, file) => 10 + file as usize,
            File::OfEvent(_, file) => 13 + file as usize,
            File::Inject(_) => 18,
            File::Tool(file) => 19 + file as usize,
            File::OfTop(file) => 27 + file as usize,
            File::CpuSize(_) => 32,
            File::EventId(_) => 33,
            File::ErrorLog => 34,
            File::Layout(file) => 35 + file as usize,
            File::RawPipe(_) => 38,
        }
    }
}

impl Folder {
    /// What it always has, in the order in which it is listed: in the top instance, or in another one.
    pub fn items(self, is_top: bool) -> &'static [Item]
        ensures { result.now ≡ items_of self is_top }
    {
        match self {
            Folder::Root => { if is_top { &ROOT } else { &ROOT[1..18] } }
            Folder::Options => &OPTIONS,
            Folder::Cpu(_) => &CPU,
            Folder::Events => &EVENTS,
            Folder::Synthetic => &SYNTHETIC,
            Folder::Event(_) => &EVENT,
            Folder::Ftrace => &FTRACE,
            Folder::FtracePrint => &FTRACE_PRINT,
            Folder::Instances | Folder::PerCpu => &[],
        }
    }
}
