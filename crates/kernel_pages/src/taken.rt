//! The page of records that consuming reads take.
//!
//! The records are gone through once: each is laid out in a scratch buffer, and if it fits, its event is appended to the events so far. The first that
//! doesn't fit ends the page.

ghost use Rattle.std.specs.Prelude.{◌≡◌, ℕ, ◌≤◌, ◌<◌, ◌+◌, ◌^◌, ◌∷◌, ◌++◌, take, length, map, IfOk};
ghost use Rattle.trace_buffer.specs.CpuReadings.{taken_reading};
ghost use Rattle.kernel_pages.specs.Pages as pages;
ghost use Rattle.kernel_pages.specs.Rows.{rows_of};
ghost use Rattle.kernel_pages.specs.Taking.{taken_after, taken_of};

use crate::event::push_event;
use crate::page::{Page, fill_page, page_with};
use crate::record::write_data;
use crate::room::{MOST_DATA, ROOM, lost_size, room_after, room_left};
use std::alloc::{AllocError, Global};
use trace_buffer::Taken;
use trace_format::{Catalog, Text};

/// Appends the events of the first records, of as many as can follow a record of a time where so much room is left, and returns how many these are.
fn push_further(
    events: &mut Vec<u8>,
    scratch: &mut Vec<u8>,
    catalog: &Catalog,
    room: usize,
    time: u64,
    taken: &[Taken<'_>],
) -> Result<usize, AllocError>
    ensures count { IfOk result (λ count. count
        ≡ taken_after room time (rows_of catalog.now (map taken_reading taken.now))) }
    ensures events { IfOk result (λ count. events.new.items ≡ events.old.items
        ++ pages.events_from time (take count (rows_of catalog.now (map taken_reading taken.now)))) }
    ensures few { IfOk result (λ count. count ≤ length taken.now) }
{
    let mut left = room;
    let mut last = time;
    let mut count = 0;
    for record in taken {
        let time = write_data(catalog, record.rec, scratch)?;
        let Some(room) = room_after(left, last, record.lost, time, scratch) else {
            return Ok(count);
        };
        push_event(events, time - last, scratch)?;
        left = room;
        last = time;
        count += 1;
    }
    Ok(count)
}

/// The page of a record, and of the first ones after it, of as many as one page can tell.
fn page_from(
    alloc: Global,
    catalog: &Catalog,
    first: &Taken<'_>,
    further: &[Taken<'_>],
) -> Result<Page, AllocError>
    requires { 1 + length further.now < 2 ^ 64 }
    ensures bytes { IfOk result (λ page. page.bytes
        ≡ pages.page_of (take page.taken (rows_of catalog.now (map taken_reading (first.now ∷ further.now))))) }
    ensures taken { IfOk result (λ page. page.taken
        ≡ taken_of (rows_of catalog.now (map taken_reading (first.now ∷ further.now)))) }
    ensures rows { IfOk result (λ page. page.taken ≤ 1 + length further.now) }
    ensures fits { IfOk result (λ page. pages.IsOnePage
        (take page.taken (rows_of catalog.now (map taken_reading (first.now ∷ further.now))))) }
    ensures all { IfOk result (λ page. (n : ℕ) → n ≤ 1 + length further.now
        → pages.IsOnePage (take n (rows_of catalog.now (map taken_reading (first.now ∷ further.now))))
        → n ≤ page.taken) }
    ensures some { IfOk result (λ page. 0 < page.taken) }
{
    let mut events = Vec::with_capacity(alloc, ROOM)?;
    let mut scratch = Vec::with_capacity(alloc, MOST_DATA)?;
    let time = write_data(catalog, first.rec, &mut scratch)?;
    let Some(left) = room_left(ROOM - lost_size(first.lost), 0, scratch.len()) else {
        unreachable!()
    };
    push_event(&mut events, 0, &scratch)?;
    let count = push_further(&mut events, &mut scratch, catalog, left, time, further)?;
    let bytes = page_with(alloc, time, first.lost, &events)?;
    Ok(Page {
        bytes: Text::from(bytes),
        taken: 1 + count,
    })
}

/// The page of the first records that consuming reads take, of as many as one page can tell, as `fill_page` makes it of their rows.
pub fn page_of_taken(
    alloc: Global,
    catalog: &Catalog,
    taken: &[Taken<'_>],
) -> Result<Page, AllocError>
    ensures bytes { IfOk result (λ page. page.bytes
        ≡ pages.page_of (take page.taken (rows_of catalog.now (map taken_reading taken.now)))) }
    ensures taken { IfOk result (λ page. page.taken
        ≡ taken_of (rows_of catalog.now (map taken_reading taken.now))) }
    ensures rows { IfOk result (λ page. page.taken ≤ length taken.now) }
    ensures fits { IfOk result (λ page. pages.IsOnePage
        (take page.taken (rows_of catalog.now (map taken_reading taken.now)))) }
    ensures all { IfOk result (λ page. (n : ℕ) → n ≤ length taken.now
        → pages.IsOnePage (take n (rows_of catalog.now (map taken_reading taken.now)))
        → n ≤ page.taken) }
    ensures some { IfOk result (λ page. 0 < length taken.now → 0 < page.taken) }
{
    match taken.split_first() {
        Some((first, further)) => page_from(alloc, catalog, first, further),
        None => fill_page(alloc, &[]),
    }
}
