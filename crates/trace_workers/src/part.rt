//! The result of a part of a block.

use trace_command::{Refusal, Reply};

/// A part's replies. If a block returns it, every command has one.
#[derive(Drop)]
pub struct Part {
    /// The caller's number of its commands in the history.
    pub by: u32,
    /// The answer to each command, in order.
    pub replies: Vec<Result<Reply, Refusal>>,
}
