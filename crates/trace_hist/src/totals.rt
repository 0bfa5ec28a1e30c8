//! Totals: how many rows a histogram counted.

/// What a histogram comes to.
#[derive(Clone, Copy, PartialEq, Eq)]
pub struct Totals {
    /// How many rows were counted into entries.
    pub hits: u64,
    /// How many entries there are.
    pub entries: u64,
    /// How many rows came while there was no room for another entry.
    pub dropped: u64,
}
