//! A copy of entries, for a reader that makes rows of them while the histogram goes on counting.
//!
//! It is taken in a few blocks of memory, however many entries there are: what has a length of its own in each entry follows that of the entry before.
//!
//! ```text
//!   stands for   ["ab", 7]: 3 rows, [30]        ["c", 7]: 1 row, [5]
//!   heads        {cells 2, rows 3, sums 1}      {cells 2, rows 1, sums 1}
//!   cells        "ab"   7                       "c"   7
//!   sums         30                             5
//! ```

ghost use Rattle.std.specs.Prelude.{◌≡◌, ◌≤◌, length, map, take, IfOk};
ghost use Rattle.hist_entries.specs.EntriesCopies.{cell_count, sum_count, entries_of};
ghost use Rattle.hist_entries.specs.KeptEntries.{entries_in};
ghost use Rattle.hist_entries.specs.PrintOrder as order;

use crate::entries::Entries;
use crate::entry::HistRow;
use crate::flat_cells::{FlatCells, UnreadCells};
use std::alloc::{AllocError, Global};
use std::marker::Model;

/// What is kept of a copied entry beside its cells and sums: how many these are, and how many rows were counted.
#[derive(Clone, Copy)]
pub(crate) struct Head {
    pub(crate) cells: usize,
    pub(crate) hitcount: u64,
    pub(crate) sums: usize,
}

/// A copy of entries, seen as the list of them.
#[derive(Drop)]
pub struct EntriesCopy {
    heads: Vec<Head>,
    cells: FlatCells,
    sums: Vec<i128>,
}

impl Model for EntriesCopy {
    ghost use Rattle.std.specs.Prelude.{List};
    ghost use Rattle.hist_entries.specs.HistEntries.{Entry};

    ghost Value = { List Entry };

    ghost use Rattle.hist_entries.specs.EntriesCopies.{entries_of, AreAll};

    ghost view = { λ c. entries_of c.heads.items c.cells c.sums.items };

    ghost invariant = { λ c. AreAll c.heads.items c.cells c.sums.items };
}

/// How many cells and sums the first entry has. All entries of a histogram have as many.
fn first_head(entries: &Entries) -> Head {
    match entries.get_index(0) {
        Some((key, tally)) => Head {
            cells: key.len(),
            hitcount: tally.hitcount,
            sums: tally.sums.len(),
        },
        None => Head {
            cells: 0,
            hitcount: 0,
            sums: 0,
        },
    }
}

/// Copies the first so many entries, in first-seen order. The only error is that memory is refused.
pub fn copy_entries(
    alloc: Global,
    entries: &Entries,
    count: usize,
) -> Result<EntriesCopy, AllocError>
    requires { count ≤ length entries.now.entries }
    ensures { IfOk result (λ copy. copy ≡ take count (entries_in entries.now.entries)) }
{
    let first = first_head(entries);
    let mut heads = Vec::with_capacity(alloc, count)?;
    let mut cells = FlatCells::with_capacity(alloc, count.saturating_mul(first.cells))?;
    let mut sums = Vec::with_capacity(alloc, count.saturating_mul(first.sums))?;
    for index in 0..count {
        let Some((key, tally)) = entries.get_index(index) else {
            unreachable!()
        };
        cells.push_key(key)?;
        sums.extend_from_slice(&tally.sums)?;
        heads.push_reserved(Head {
            cells: key.len(),
            hitcount: tally.hitcount,
            sums: tally.sums.len(),
        });
    }
    Ok(EntriesCopy { heads, cells, sums })
}

/// The rows of entries with these heads, of which these are all cells and sums.
fn rows_of(
    alloc: Global,
    heads: &[Head],
    mut cells: UnreadCells<'_>,
    mut sums: &[i128],
) -> Result<Vec<HistRow>, AllocError>
    requires cells { cell_count heads.now ≡ length cells }
    requires sums { sum_count heads.now ≡ length sums.now }
    ensures { IfOk result (λ rows. map order.row_in rows.items ≡ entries_of heads.now cells.entry sums.entry.now) }
{
    let mut rows = Vec::with_capacity(alloc, heads.len())?;
    for head in heads {
        let keys = cells.next_values(alloc, head.cells)?;
        let (own, rest) = sums.split_at(head.sums);
        rows.push_reserved(HistRow {
            keys,
            hitcount: head.hitcount,
            sums: Vec::from_slice(alloc, own)?,
        });
        sums = rest;
    }
    Ok(rows)
}

impl EntriesCopy {
    /// The entries, to be shown, in first-seen order. The only error is that memory is refused.
    pub fn rows(&self, alloc: Global) -> Result<Vec<HistRow>, AllocError>
        ensures { IfOk result (λ rows. map order.row_in rows.items ≡ self.now) }
    {
        rows_of(alloc, &self.heads, self.cells.unread(), &self.sums)
    }
}
