//! Entries of histograms: what a hist trigger reads of an emission, the table from keys to counts and sums, and in which order entries come
//! (histogram.rst).
//!
//! A row has a key, of the cells that the trigger's keys have in it, and numbers that are summed. The table has an entry for each key. Which rows are
//! counted, and what a histogram shows, is up to trace_hist.
#![tactic(auto)]

mod bucket;
mod cell;
mod compare;
mod entries;
mod entries_copy;
mod entry;
mod entry_table;
mod flat_cells;
mod hints;
mod key_cell;
pub mod laws;
mod next;
mod number;
mod tally;

pub use compare::{compare_keys, sum_at};
pub use entries::{Entries, count_row, shown_with};
pub use entries_copy::{EntriesCopy, copy_entries};
pub use entry::HistRow;
pub use entry_table::EntryTable;
pub use key_cell::KeyCell;
pub use next::Next;
pub use tally::Tally;
