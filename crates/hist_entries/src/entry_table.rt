//! The entries of a histogram, as it keeps them.

ghost use Rattle.std.specs.Prelude.{◌≡◌, ◌<◌, ◌≤◌, false, [], length, take, drop, IfOk, OnErr};
ghost use Rattle.hist_entries.specs.HistEntries.{is_among};
ghost use Rattle.hist_entries.specs.RowPlaces.{IsPlaceOf, entry_keys};
ghost use Rattle.hist_entries.specs.KeptEntries.{entries_in, place_in, IsEnd, key_of, StayKept};
ghost use Rattle.hist_entries.specs.private.Indexes.{IsIndexOf};

use crate::cell::key_cell;
use crate::entries::{Entries, has_cell_at, has_key_at, index_of, keep_first, reserve_entry};
use crate::hints::{Hints, fingerprint_of, fingerprint_of_cell};
use crate::next::Next;
use indexmap::IndexMap;
use std::alloc::{AllocError, Global};
use trace_format::{Emission, Key};

/// The entries of a histogram, with hints of where they are.
#[derive(Drop)]
pub struct EntryTable {
    /// How many entries there may be.
    pub size: usize,
    /// How many sums each has.
    pub width: usize,
    /// In first-seen order.
    pub entries: Entries,
    /// How many are shown. Those that follow, at most one, are reserved.
    pub shown: usize,
    hints: Hints,
}

impl EntryTable {
    /// Of no entries, with room for so many of so many sums.
    pub fn new(alloc: Global, size: usize, width: usize) -> EntryTable
        ensures size { result.size ≡ size }
        ensures width { result.width ≡ width }
        ensures entries { result.entries.entries ≡ [] }
        ensures shown { result.shown ≡ 0 }
    {
        EntryTable {
            size,
            width,
            entries: IndexMap::new(alloc),
            shown: 0,
            hints: Hints::new(alloc),
        }
    }

    /// Finds the entry of an emission's key. A new key gets an entry of no rows after those that are shown, if there is room for it. An entry that was
    /// reserved for another key is taken out.
    pub fn reserve(
        &mut self,
        alloc: Global,
        keys: &[Key],
        emission: &Emission,
    ) -> Result<Next, AllocError>
        requires few { length keys.now ≤ 3 }
        requires shown { self.old.shown ≤ length self.old.entries.entries }
        requires size { length self.old.entries.entries ≤ self.old.size }
        requires end { IsEnd self.old.width (drop self.old.shown (entries_in self.old.entries.entries)) }
        ensures rest { self.new ≡ record self.old { entries = self.new.entries; hints = self.new.hints } }
        ensures stays { StayKept self.old.shown self.old.size self.old.width self.old.entries.entries self.new.entries.entries }
        ensures place { IfOk result (λ next. IsPlaceOf (place_in (entries_in self.new.entries.entries) next) self.old.size
            (take self.old.shown (entries_in self.old.entries.entries)) (key_of keys.now emission.now)) }
        ensures err { OnErr result (self.new.entries.entries ≡ self.old.entries.entries) }
        ensures room { OnErr result (self.old.shown < self.old.size) }
        ensures new { OnErr result (is_among (entry_keys (entries_in self.old.entries.entries)) (key_of keys.now emission.now) ≡ false) }
    {
        if let Some(index) = index_of_key(&self.entries, &mut self.hints, keys, emission) {
            if index < self.shown {
                keep_first(&mut self.entries, self.shown);
            }
            return Ok(Next::At(index));
        }
        if self.shown >= self.size {
            return Ok(Next::Dropped);
        }
        self.hints.make_room(alloc, self.shown)?;
        reserve_entry(
            &mut self.entries,
            alloc,
            self.shown,
            self.width,
            keys,
            emission,
        )?;
        Ok(Next::At(self.shown))
    }

    /// Forgets all entries. The memory that was taken stays.
    pub fn clear(&mut self)
        ensures size { self.new.size ≡ self.old.size }
        ensures width { self.new.width ≡ self.old.width }
        ensures entries { self.new.entries.entries ≡ [] }
        ensures shown { self.new.shown ≡ 0 }
    {
        self.entries.clear();
        self.shown = 0;
    }
}

/// The index of the entry of an emission's key: the one of which there is a hint, if that is right, else the one that is looked up. A key of one cell,
/// which most are, is read once for both.
fn index_of_key(
    entries: &Entries,
    hints: &mut Hints,
    keys: &[Key],
    emission: &Emission,
) -> Option<usize>
    requires { length keys.now ≤ 3 }
    ensures { IsIndexOf result (key_of keys.now emission.now) (entry_keys (entries_in entries.now.entries)) }
{
    let [key] = keys else {
        return index_of_cells(entries, hints, keys, emission);
    };
    let cell = key_cell(key, emission);
    let fingerprint = fingerprint_of_cell(cell);
    match hints.get(fingerprint) {
        Some(index) if has_cell_at(entries, index, cell) => Some(index),
        _ => look_up(entries, hints, fingerprint, keys, emission),
    }
}

/// The same of a key of any cells.
#[inline(never)]
fn index_of_cells(
    entries: &Entries,
    hints: &mut Hints,
    keys: &[Key],
    emission: &Emission,
) -> Option<usize>
    requires { length keys.now ≤ 3 }
    ensures { IsIndexOf result (key_of keys.now emission.now) (entry_keys (entries_in entries.now.entries)) }
{
    let fingerprint = fingerprint_of(keys, emission);
    match hints.get(fingerprint) {
        Some(index) if has_key_at(entries, index, keys, emission) => Some(index),
        _ => look_up(entries, hints, fingerprint, keys, emission),
    }
}

/// The same without a look at the hint, which is noted anew.
#[inline(never)]
fn look_up(
    entries: &Entries,
    hints: &mut Hints,
    fingerprint: u64,
    keys: &[Key],
    emission: &Emission,
) -> Option<usize>
    requires { length keys.now ≤ 3 }
    ensures { IsIndexOf result (key_of keys.now emission.now) (entry_keys (entries_in entries.now.entries)) }
{
    let index = index_of(entries, keys, emission)?;
    hints.set(fingerprint, index);
    Some(index)
}
