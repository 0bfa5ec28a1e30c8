//! The state that a book's commands lead to: the events, the clock and the instances; and running a command on it, in two phases.
#![tactic(auto)]

mod change;
mod emission;
mod late;
mod make;
mod plan;
mod prepare;
mod reach;
mod resolve;
mod row;
mod state;
mod take;
mod waiting;
mod wanted;

pub use change::Change;
pub use emission::ValuesEmission;
pub use late::PreparedLate;
pub use plan::EventPlan;
pub use state::{Named, Prepared, State};
