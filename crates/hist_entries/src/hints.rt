//! Hints: where the entry of a key may be.
//!
//! To look a key up in the table of entries costs a hash of all its cells and a walk through the table's groups. So a row's key is compared first with
//! one entry, the one that the hint for the key names:
//!
//! ```text
//!   fingerprint of the key --> slot --> index of an entry --> are these its cells? --> yes: found; no: looked up, and the slot noted anew
//! ```
//!
//! A hint may be of another key, or of an entry that is gone: it is never believed, only asked. So there is nothing to keep true of hints, and a wrong
//! one costs no more than a look-up.

ghost use Rattle.std.specs.Prelude.{◌≡◌, []};

use crate::cell::key_cell;
use crate::key_cell::RowCell;
use std::alloc::{AllocError, Global};
use std::marker::Model;
use trace_format::{Emission, Key};

// 2^64 divided by the golden ratio: the products of numbers in a row lie far apart.
const MULTIPLIER: u64 = 0x9e37_79b9_7f4a_7c15;

// How many slots there are at least for each entry, so that few of them share one.
const SLOTS_PER_ENTRY: usize = 4;

// How many slots there are at first: a power of two.
const FIRST_SLOTS: usize = 64;

/// For each slot, the index of an entry, which may have a key whose fingerprint leads to the slot.
#[derive(Drop)]
pub struct Hints {
    // None, or as many as a power of two.
    slots: Vec<u32>,
    // A fingerprint's bits but those that tell its slot: the highest.
    shift: u32,
}

impl Model for Hints {
    ghost use Rattle.std.specs.Prelude.{ℕ, List};

    ghost Value = { List ℕ };

    ghost view = { λ h. h.slots.items };
}

impl Hints {
    /// No hints, and no slots for any.
    pub fn new(alloc: Global) -> Hints
        ensures { result ≡ [] }
    {
        Hints {
            slots: Vec::new(alloc),
            shift: 0,
        }
    }

    fn slot(&self, fingerprint: u64) -> usize {
        fingerprint.wrapping_shr(self.shift) as usize
    }

    /// The index at which the entry of a key with this fingerprint may be.
    pub(crate) fn get(&self, fingerprint: u64) -> Option<usize> {
        let index = self.slots.get(self.slot(fingerprint))?;
        Some(*index as usize)
    }

    /// Notes where the entry of a key with this fingerprint is.
    pub(crate) fn set(&mut self, fingerprint: u64, index: usize) {
        let slot = self.slot(fingerprint);
        if let Some(hint) = self.slots.get_mut(slot) {
            *hint = u32::try_from(index).unwrap_or(0);
        }
    }

    /// Makes room for the hints of one more entry than there are. Where the slots become more, nothing is noted in them.
    pub(crate) fn make_room(&mut self, alloc: Global, entries: usize) -> Result<(), AllocError> {
        let count = self.slots.len();
        if entries < count / SLOTS_PER_ENTRY {
            return Ok(());
        }
        let count = count.saturating_mul(2).max(FIRST_SLOTS);
        self.slots = vec![in alloc; 0; count]?;
        self.shift = count.leading_zeros() + 1;
        Ok(())
    }
}

/// A number that most keys have alone.
pub(crate) fn fingerprint_of(keys: &[Key], emission: &Emission) -> u64 {
    let mut fingerprint = 0;
    for key in keys {
        fingerprint = and_cell(fingerprint, key_cell(key, emission));
    }
    fingerprint
}

/// That of a key of one cell.
pub(crate) fn fingerprint_of_cell<'a>(cell: RowCell<'a>) -> u64 {
    and_cell(0, cell)
}

/// That of a key with one cell more.
fn and_cell<'a>(fingerprint: u64, cell: RowCell<'a>) -> u64 {
    (fingerprint ^ cell_bits(cell)).wrapping_mul(MULTIPLIER)
}

fn cell_bits<'a>(cell: RowCell<'a>) -> u64 {
    match cell {
        RowCell::Num(number) => (number.cast_unsigned() & u128::from(u64::MAX)) as u64,
        RowCell::Text(bytes) => text_bits(bytes),
    }
}

/// The first eight bytes and the last eight, or all bytes of a shorter string.
fn text_bits(bytes: &[u8]) -> u64 {
    match (bytes.first_chunk(), bytes.last_chunk()) {
        (Some(first), Some(last)) => {
            u64::from_le_bytes(*first).wrapping_mul(MULTIPLIER) ^ u64::from_le_bytes(*last)
        }
        _ => bytes
            .iter()
            .fold(0, |bits: u64, byte| bits << 8 | u64::from(*byte)),
    }
}
