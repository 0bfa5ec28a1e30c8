//! The texts of a tracer's files: an event's `trigger` and `hist`, after "Event triggers" of events.rst and "hist triggers" of histogram.rst, and all
//! those of record_text.
//!
//! Each call returns its text.
#![tactic(auto)]

mod entry;
mod hist;
mod hist_line;
pub mod laws;
mod trigger;

pub use hist::{CopiedHist, copied_hist_text, copy_hists, hist_text};
pub use record_text::{
    declaration_text, format_text, pipe_text, snapshot_text, stats_text, trace_text,
};
pub use trigger::{Shown, trigger_text};
