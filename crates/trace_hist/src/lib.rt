//! Histograms of hist triggers: counts and sums of an event's emissions by key (histogram.rst).
//!
//! A `HistSpec` is what a trigger says (trace_trigger reads it), and a `Hist` is its histogram; both have it, by a `SharedSpec`. Contracts say what a histogram holds by the list of
//! the rows that were counted into it; `specs/Groups.antt` says from scratch what such a list comes to.
#![tactic(auto)]

mod counts;
mod hist;
mod hist_copy;
pub mod laws;
mod shared;
mod sort;
mod totals;

pub use hist::Hist;
pub use hist_copy::HistCopy;
pub use hist_entries::HistRow;
pub use shared::SharedSpec;
pub use totals::Totals;
pub use trace_format::Text;
pub use trace_trigger::{Action, HistSpec, Key, Modifier, SortKey, TriggerFault};
