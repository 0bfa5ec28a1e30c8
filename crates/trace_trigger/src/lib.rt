//! Texts that are written to an event's `trigger` file: snapshot triggers, and hist triggers with their keys, values and sort keys.
#![tactic(auto)]

mod attribute;
mod condition;
mod fault;
pub mod hist_laws;
mod hist_parts;
pub mod laws;
mod meaning;
mod offset;
mod parts;
mod piece;
mod read;
mod size;
mod spec;
mod trigger;
mod written_lists;

pub use fault::{HistCause, OperatorCause, TextCause, TriggerFault};
pub use spec::{Action, HistSpec, SortKey};
pub use trace_format::{Key, Modifier, SortRule, SortSource};
pub use trigger::{SnapshotTrigger, TriggerText};
