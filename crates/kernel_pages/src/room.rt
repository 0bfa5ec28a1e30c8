//! How many rows a page has room for.

ghost use Rattle.std.specs.Prelude.{◌≡◌, ◌≤◌, ◌<◌, ◌-◌, ◌^◌, length, IfSome};
ghost use Rattle.kernel_pages.specs.Pages.{lost_bytes};
ghost use Rattle.kernel_pages.specs.Taking as taking;

use crate::page_row::PageRow;

/// How many bytes of a page follow its head.
pub(crate) const ROOM: usize = 4080;

/// The first delta that takes a time extend.
pub(crate) const FIRST_EXTENDED: u64 = 1 << 27;

/// The first delta that no time extend tells.
const FIRST_UNTOLD: u64 = 1 << 59;

/// The most bytes of data whose words an event's head counts.
pub(crate) const MOST_SHORT: usize = 112;

/// The most bytes of data that a record of a ring is told with.
pub(crate) const MOST_DATA: usize = 4056;

/// How many bytes an event has before its data.
fn event_head_size(delta: u64, size: usize) -> usize
    ensures { result ≡ taking.event_head_size delta size }
{
    let extend = if delta < FIRST_EXTENDED { 0 } else { 8 };
    let head = if size <= MOST_SHORT { 4 } else { 8 };
    extend + head
}

/// The room that data of a size leaves, if there is room for them.
#[tactic(auto, unfolding(crate::specs::Taking::room_left))]
pub(crate) fn room_left(room: usize, delta: u64, size: usize) -> Option<usize>
    ensures { result ≡ taking.room_left room delta size }
{
    let left = room.checked_sub(size)?;
    left.checked_sub(event_head_size(delta, size))
}

/// The room that a row leaves which follows a row of a time, if it can.
#[tactic(auto, unfolding(crate::specs::Taking::room_after))]
pub(crate) fn room_after(
    room: usize,
    last: u64,
    lost: u64,
    time: u64,
    bytes: &[u8],
) -> Option<usize>
    ensures room { result ≡ taking.room_after room last (record { time = time; lost = lost; bytes = bytes.now }) }
    ensures told { IfSome result (λ _. (last ≤ time) × (time - last < 2 ^ 59)) }
{
    if lost != 0 || time < last || time - last >= FIRST_UNTOLD {
        return None;
    }
    room_left(room, time - last, bytes.len())
}

/// How many rows can follow a row of a time, if so much room is left.
fn count_after(room: usize, time: u64, rows: &[PageRow]) -> usize
    ensures count { result ≡ taking.taken_after room time rows.now }
    ensures bound { result ≤ length rows.now }
{
    let mut left = room;
    let mut last = time;
    let mut count = 0;
    for row in rows {
        match room_after(left, last, row.lost, row.time, row.bytes.as_bytes()) {
            Some(room) => left = room,
            None => return count,
        }
        last = row.time;
        count += 1;
    }
    count
}

/// How many bytes tell the number of lost records.
pub(crate) fn lost_size(lost: u64) -> usize
    ensures { result ≡ length (lost_bytes lost) }
{
    if lost == 0 { 0 } else { 8 }
}

/// How many of the rows one page takes.
pub(crate) fn count_taken(rows: &[PageRow]) -> usize
    ensures count { result ≡ taking.taken_of rows.now }
    ensures bound { result ≤ length rows.now }
{
    let Some((first, further)) = rows.split_first() else {
        return 0;
    };
    match room_left(
        ROOM - lost_size(first.lost),
        0,
        first.bytes.as_bytes().len(),
    ) {
        Some(left) => 1 + count_after(left, first.time, further),
        None => 0,
    }
}
