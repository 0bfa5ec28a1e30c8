//! A run of several threads, from a new book to its history at the end.
#![tactic(auto)]

mod history;

pub use history::history_of;
