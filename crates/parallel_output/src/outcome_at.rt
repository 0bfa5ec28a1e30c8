//! The outcome of a command of a part.

use trace_script::Outcome;

/// The outcome of a command of a part, and the number of its line.
#[derive(Drop)]
pub struct OutcomeAt {
    pub number: usize,
    pub outcome: Outcome,
}
