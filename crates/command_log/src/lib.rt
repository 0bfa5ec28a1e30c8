//! A history of commands, kept as bytes.
#![tactic(auto)]

mod chunk;
mod decode;
mod encode;
mod entries;
mod entry_ref;
mod history;
mod pair_refs;
mod short;

pub use entries::Entries;
pub use entry_ref::{CommandRef, EntryRef};
pub use history::History;
pub use pair_refs::PairRefs;
