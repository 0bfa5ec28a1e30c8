//! The last writes that were refused, of each instance of a mounted tracer, as its `error_log` shows them.
#![tactic(auto)]

mod blame;
mod error;
mod laws;
mod log;
mod text;

pub use laws::{caret_stands_under, examples_are_shown, keeps_last_eight};
pub use log::ErrorLog;
