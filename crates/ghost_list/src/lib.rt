//! A list that only clauses read.
#![tactic(auto)]

mod list;

pub use list::{GhostList, Lists};
