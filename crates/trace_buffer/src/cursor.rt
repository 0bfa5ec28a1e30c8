//! Reads of all CPUs' kept records in pipe order, with nothing consumed: a cursor for each CPU stands at its next record, and each read moves
//! the cursor whose record is the earliest.

ghost use Rattle.std.specs.Prelude.{◌≡◌, ◌<◌, ◌≤◌, ◌∷◌, map, length, IfOk};
ghost use Rattle.page_ring.specs.Reading.{reading};
ghost use Rattle.trace_buffer.specs.CpuReadings.{taken_reading};
ghost use Rattle.trace_buffer.specs.private.Nexts.{first_time, next_of, taken_in_order};

use crate::taken::Taken;
use crate::times::{Next, sooner, time_of};
use page_ring::{Kept, KeptRecords};
use std::alloc::{AllocError, Global};
use std::marker::Model;

/// The records that a ring keeps, as a list that is read from the front.
#[derive(Drop)]
pub(crate) struct Cursor<'a> {
    first: Option<Kept<'a>>,
    rest: KeptRecords<'a>,
}

impl<'a> Model for Cursor<'a> {
    ghost use Rattle.std.specs.Prelude.{List};
    ghost use Rattle.page_ring.specs.Account.{Reading};

    ghost Value = { List Reading };

    ghost use Rattle.trace_buffer.specs.private.Ahead.{readings_ahead, IsAtEnd};

    ghost view = { readings_ahead };

    ghost invariant = { IsAtEnd };
}

impl<'a> Cursor<'a> {
    pub(crate) fn new(records: KeptRecords<'a>) -> Cursor<'a>
        ensures { result ≡ records.entry }
    {
        let mut rest = records;
        let first = rest.next();
        Cursor { first, rest }
    }

    // When the first record was written.
    fn first_time(&self) -> Option<u64>
        ensures { result ≡ first_time self.now }
    {
        match self.first {
            Some(kept) => Some(time_of(kept.rec)),
            None => None,
        }
    }

    // Moves past the first record, and gives it.
    fn advance(&mut self) -> Kept<'a>
        requires { 0 < length self.old }
        ensures { self.old ≡ reading result ∷ self.new }
    {
        let first = self.first.unwrap();
        self.first = self.rest.next();
        first
    }
}

// The lowest CPU whose first record is the earliest.
fn next_read(cursors: &[Cursor<'_>]) -> Option<Next>
    requires { length cursors.now ≤ 8 }
    ensures { result ≡ next_of 0 cursors.now }
{
    let mut next = None;
    for cpu in (0..cursors.len() as u32).rev() {
        next = sooner(cpu, cursors[cpu as usize].first_time(), next);
    }
    next
}

/// What so many reads take, or as many as there are records, with room at first for `count`.
pub(crate) fn read_in_order<'a>(
    alloc: Global,
    mut cursors: Vec<Cursor<'a>>,
    limit: u64,
    count: usize,
) -> Result<Vec<Taken<'a>>, AllocError>
    requires { length cursors.items ≤ 8 }
    ensures { IfOk result (λ records. map taken_reading records.items
        ≡ taken_in_order limit cursors.entry.items) }
{
    let mut records = Vec::with_capacity(alloc, count)?;
    for _read in 0..limit {
        let Some(next) = next_read(&cursors) else {
            return Ok(records);
        };
        let kept = cursors[next.cpu as usize].advance();
        records.push(Taken::new(next.cpu, kept))?;
    }
    Ok(records)
}
