//! A book that callers share through a lock: what it has to be, and a call, by which one of them has it run a command.
#![tactic(auto)]

mod book;
mod call;
mod joining;

pub use book::SharedBook;
pub use call::{ask, ask_in_line, try_ask};
pub use joining::join;
