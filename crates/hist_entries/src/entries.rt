//! The table of entries: from keys, in first-seen order, to what is kept of their rows.

ghost use Rattle.std.specs.Prelude.{◌≡◌, ℕ, ◌+◌, ◌<◌, ◌≤◌, ◌++◌, ◌∷◌, [], map, length, take, slice_get, Some, false, IsTrue, IfOk, IfSome, IfNone, OnOk, OnErr};
ghost use Rattle.std.specs.List.{IsDistinct};
ghost use Rattle.indexmap.specs.IndexMap.{spare};
ghost use Rattle.hist_entries.specs.Hits.{number_at};
ghost use Rattle.hist_entries.specs.HistEntries.{is_among, same_cell, same_key};
ghost use Rattle.hist_entries.specs.RowPlaces.{entry_keys, most_rows};
ghost use Rattle.hist_entries.specs.KeptEntries.{datum_in, datum_read, cells_in, entry_in, entries_in, empty_entry, AreCounted, key_of, counted_at};

use crate::cell::key_cell;
use crate::key_cell::{KeyCell, RowCell, borrowed, keep};
use crate::tally::Tally;
use indexmap::IndexMap;
use std::alloc::{AllocError, Global};
use trace_format::{Emission, Key, Operand};

/// A key has the cells of the trigger's keys, in the order in which it names them.
pub type Entries = IndexMap<Vec<KeyCell<'static>>, Tally>;

/// The index of the entry of a key.
fn index_of_cells<'a>(
    entries: &IndexMap<Vec<KeyCell<'a>>, Tally>,
    cells: &[KeyCell<'a>],
) -> Option<usize>
    ensures known { IfSome result (λ index. slice_get (entry_keys (entries_in entries.now.entries)) index ≡ Some (map datum_in cells.now)) }
    ensures new { IfNone result (is_among (entry_keys (entries_in entries.now.entries)) (map datum_in cells.now) ≡ false) }
{
    entries.get_index_of(cells)
}

/// The index of the entry of a key of one cell. It is out of line, since a function fills the room of all its cells with zeros first.
#[inline(never)]
fn index_of_one(entries: &Entries, key: &Key, emission: &Emission) -> Option<usize>
    ensures known { IfSome result (λ index. slice_get (entry_keys (entries_in entries.now.entries)) index
        ≡ Some (key_of (key.now ∷ []) emission.now)) }
    ensures new { IfNone result (is_among (entry_keys (entries_in entries.now.entries))
        (key_of (key.now ∷ []) emission.now) ≡ false) }
{
    let cells = [borrowed(key_cell(key, emission))];
    index_of_cells(entries, &cells)
}

/// The same of a key of two cells.
#[inline(never)]
fn index_of_two(entries: &Entries, first: &Key, second: &Key, emission: &Emission) -> Option<usize>
    ensures known { IfSome result (λ index. slice_get (entry_keys (entries_in entries.now.entries)) index
        ≡ Some (key_of (first.now ∷ second.now ∷ []) emission.now)) }
    ensures new { IfNone result (is_among (entry_keys (entries_in entries.now.entries))
        (key_of (first.now ∷ second.now ∷ []) emission.now) ≡ false) }
{
    let cells = [
        borrowed(key_cell(first, emission)),
        borrowed(key_cell(second, emission)),
    ];
    index_of_cells(entries, &cells)
}

/// The same of a key of three cells.
#[inline(never)]
fn index_of_three(
    entries: &Entries,
    first: &Key,
    second: &Key,
    third: &Key,
    emission: &Emission,
) -> Option<usize>
    ensures known { IfSome result (λ index. slice_get (entry_keys (entries_in entries.now.entries)) index
        ≡ Some (key_of (first.now ∷ second.now ∷ third.now ∷ []) emission.now)) }
    ensures new { IfNone result (is_among (entry_keys (entries_in entries.now.entries))
        (key_of (first.now ∷ second.now ∷ third.now ∷ []) emission.now) ≡ false) }
{
    let cells = [
        borrowed(key_cell(first, emission)),
        borrowed(key_cell(second, emission)),
        borrowed(key_cell(third, emission)),
    ];
    index_of_cells(entries, &cells)
}

/// The index of the entry of an emission's key, which is looked up where it lies in the row.
pub(crate) fn index_of(entries: &Entries, keys: &[Key], emission: &Emission) -> Option<usize>
    requires { length keys.now ≤ 3 }
    ensures known { IfSome result (λ index. slice_get (entry_keys (entries_in entries.now.entries)) index ≡ Some (key_of keys.now emission.now)) }
    ensures new { IfNone result (is_among (entry_keys (entries_in entries.now.entries)) (key_of keys.now emission.now) ≡ false) }
{
    match keys {
        [] => index_of_cells(entries, &[]),
        [key] => index_of_one(entries, key, emission),
        [first, second] => index_of_two(entries, first, second, emission),
        [first, second, third, ..] => index_of_three(entries, first, second, third, emission),
    }
}

/// Whether a kept cell is a row's.
fn is_cell<'a>(kept: &KeyCell<'static>, cell: RowCell<'a>) -> bool
    ensures { result ≡ same_cell (datum_in kept.now) (datum_read cell.entry) }
{
    match (kept, cell) {
        (KeyCell::Num(left), RowCell::Num(right)) => *left == right,
        (KeyCell::Text(left), RowCell::Text(right)) => left.as_slice() == right,
        _ => false,
    }
}

/// Whether kept cells are those that keys have in an emission.
fn is_key_of(cells: &[KeyCell<'static>], keys: &[Key], emission: &Emission) -> bool
    ensures { result ≡ same_key (map datum_in cells.now) (key_of keys.now emission.now) }
{
    match (cells, keys) {
        ([], []) => true,
        ([cell, cells @ ..], [key, keys @ ..]) => {
            is_cell(cell, key_cell(key, emission)) && is_key_of(cells, keys, emission)
        }
        _ => false,
    }
}

/// Whether the entry at an index is that of an emission's key.
pub(crate) fn has_key_at(entries: &Entries, index: usize, keys: &[Key], emission: &Emission) -> bool
    ensures { IsTrue result → slice_get (entry_keys (entries_in entries.now.entries)) index ≡ Some (key_of keys.now emission.now) }
{
    match entries.get_index(index) {
        Some((cells, _)) => is_key_of(cells, keys, emission),
        None => false,
    }
}

/// Whether kept cells are a row's cell alone.
fn is_only_cell<'a>(cells: &[KeyCell<'static>], cell: RowCell<'a>) -> bool
    ensures { result ≡ same_key (map datum_in cells.now) (datum_read cell.entry ∷ []) }
{
    match cells {
        [kept] => is_cell(kept, cell),
        _ => false,
    }
}

/// Whether the entry at an index is that of a key of this one cell.
pub(crate) fn has_cell_at<'a>(entries: &Entries, index: usize, cell: RowCell<'a>) -> bool
    ensures { IsTrue result → slice_get (entry_keys (entries_in entries.now.entries)) index ≡ Some (datum_read cell.entry ∷ []) }
{
    match entries.get_index(index) {
        Some((cells, _)) => is_only_cell(cells, cell),
        None => false,
    }
}

/// The cells of an emission's key, to keep.
fn kept_key(
    alloc: Global,
    keys: &[Key],
    emission: &Emission,
) -> Result<Vec<KeyCell<'static>>, AllocError>
    ensures { IfOk result (λ cells. cells_in cells ≡ key_of keys.now emission.now) }
{
    let mut cells = Vec::with_capacity(alloc, keys.len())?;
    for key in keys {
        cells.push_reserved(keep(alloc, key_cell(key, emission))?);
    }
    Ok(cells)
}

/// Takes out the entries that follow the first so many.
pub(crate) fn keep_first(entries: &mut Entries, kept: usize)
    ensures { entries_in entries.new.entries ≡ take kept (entries_in entries.old.entries) }
{
    if kept < entries.len() {
        entries.truncate(kept);
    }
}

/// Puts an entry of no rows in last, where there is room for it.
fn put_last(entries: &mut Entries, key: Vec<KeyCell<'static>>, tally: Tally)
    requires room { 0 < spare entries.old }
    requires new { is_among (entry_keys (entries_in entries.old.entries)) (cells_in key) ≡ false }
    ensures { entries.new.entries ≡ entries.old.entries ++ (key.entry, tally) ∷ [] }
{
    let Ok(_) = entries.insert(key, tally) else {
        unreachable!()
    };
}

/// Puts an entry of no rows in, for an emission's key, after the first so many entries and in place of those that follow them. Memory is taken
/// before anything changes. It is out of line, since a row of a key that is known comes by the call.
#[inline(never)]
pub(crate) fn reserve_entry(
    entries: &mut Entries,
    alloc: Global,
    kept: usize,
    width: usize,
    keys: &[Key],
    emission: &Emission,
) -> Result<(), AllocError>
    requires new { is_among (entry_keys (entries_in entries.old.entries)) (key_of keys.now emission.now) ≡ false }
    ensures ok { OnOk result (entries_in entries.new.entries ≡ take kept (entries_in entries.old.entries)
        ++ empty_entry width (key_of keys.now emission.now) ∷ []) }
    ensures err { OnErr result (entries.new.entries ≡ entries.old.entries) }
{
    entries.reserve(1)?;
    let key = kept_key(alloc, keys, emission)?;
    let tally = Tally::new(alloc, width)?;
    entries.truncate(kept);
    put_last(entries, key, tally);
    Ok(())
}

/// How many entries are shown, where the entry at an index is one of them: all, if it isn't yet, since at most the last is not shown.
pub fn shown_with(entries: &Entries, shown: usize, index: usize) -> usize
    ensures below { index < shown → result ≡ shown }
    ensures above { shown ≤ index → result ≡ length entries.now.entries }
{
    if index < shown { shown } else { entries.len() }
}

/// Counts a row of an emission in the entry at an index.
pub fn count_row(entries: &mut Entries, index: usize, operands: &[Operand], emission: &Emission)
    requires index { index < length entries.old.entries }
    requires counted { AreCounted most_rows (entries_in entries.old.entries) }
    ensures entries { entries_in entries.new.entries
        ≡ counted_at (map (number_at emission.now) operands.now) index (entries_in entries.old.entries) }
    ensures counted { (rows : ℕ) → AreCounted rows (entries_in entries.old.entries) → AreCounted (rows + 1) (entries_in entries.new.entries) }
    ensures distinct { IsDistinct same_key (entry_keys (entries_in entries.new.entries)) }
{
    let Some(tally) = entries.get_index_mut(index) else {
        unreachable!()
    };
    tally.count(operands, emission);
}
