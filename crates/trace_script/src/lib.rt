//! Lines of a script read as what they ask for, and outcomes rendered as the bytes that are printed for them.
#![tactic(auto)]

mod bytes;
mod change;
mod command;
mod cut;
mod emission;
mod fault;
mod first;
pub mod laws;
mod line;
mod marked;
mod number;
mod outcome;
mod prefix;
mod read;
mod token;
mod tokens;

pub use change::{Change, change_of, declared};
pub use command::writes_are_as_written;
pub use cut::LineRoom;
pub use emission::{EmissionHead, plain_emission, plain_pairs};
pub use fault::{LineError, ScriptFault};
pub use first::{FirstCommand, first_emission};
pub use line::{
    Line, commands_are_as_written, faults_come_in_order, lines_are_as_written, may_end, prepare,
};
pub use outcome::{Outcome, render};
pub use read::first_read;
pub use token::tokens_are_as_written;
