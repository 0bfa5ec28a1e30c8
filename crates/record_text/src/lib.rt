//! The texts of a tracer's files: `stats`, `format`, `synthetic_events`, `trace`, `trace_pipe` and `snapshot`, after "The File System" and
//! "Snapshot" of ftrace.rst, "Event formats" of events.rst and "Synthetic events" of histogram.rst.
//!
//! Each call returns its text.
#![tactic(auto)]

pub mod append;
mod declaration;
mod field;
mod format;
pub mod laws;
mod pipe;
mod record;
mod snapshot;
mod stats;
mod trace;
mod trace_copies;

pub use declaration::declaration_text;
pub use format::format_text;
pub use pipe::pipe_text;
pub use snapshot::{copied_snapshot_text, snapshot_copy, snapshot_text};
pub use stats::stats_text;
pub use trace::trace_text;
pub use trace_copies::{CpuCopy, TraceCopy, trace_copy};
