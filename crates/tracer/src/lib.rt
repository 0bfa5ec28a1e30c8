//! A tracer that keeps no history: it runs commands one after another in memory that does not grow with their number.
#![tactic(auto)]

mod discard;
pub mod laws;
mod tracer;

pub use tracer::{MOST_DONE, Tracer};
