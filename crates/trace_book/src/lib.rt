//! The book: it runs a tracer's commands, and keeps their history and the state that it leads to. Callers can share it through a lock (shared_book).
#![tactic(auto)]

mod book;
mod logged;
mod one_caller;
mod shared;

pub use book::Book;
pub use command_log::{CommandRef, Entries, EntryRef, PairRefs};
pub use one_caller::Tracer;
pub use shared_book::ask;
pub use trace_command::{Command, Config, Entry, OwnedCommand, Pairs, Refusal, Reply};
pub use trace_format::{BorrowedPair, Pair};
pub use trace_instance::Instance;
pub use trace_lex::Text;
pub use tracer_specification::laws;
