//! What a parallel part prints: its threads' lines and what their commands came to, put together before any of it is written.
#![tactic(auto)]

mod outcome_at;
mod transcript;

pub use outcome_at::OutcomeAt;
pub use transcript::Transcript;
