//! What a tracer is asked and what it answers: commands, replies, refusals, the entries of a history, and the files that paths name.
#![tactic(auto)]

mod address;
mod borrowed;
mod command;
mod file_name;
pub mod laws;
mod pairs;
mod refusal;

pub use address::{Address, address_of, instance_of};
pub use borrowed::{BorrowedPairs, Bytes};
pub use command::{Command, CommandOf, Config, Entry, OwnedCommand, Reply};
pub use file_name::{CpuFile, EventFile, FileName, TopFile};
pub use pairs::{LentPairs, Pairs};
pub use refusal::{Limit, Refusal};
