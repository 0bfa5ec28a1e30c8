//! The bytes of an event on a page.

ghost use Rattle.std.specs.Prelude.{◌≡◌, ◌<◌, ◌≤◌, ◌-◌, ◌^◌, ◌++◌, length, OnOk};
ghost use Rattle.std.specs.Int.{w32, to_le_bytes};
ghost use Rattle.kernel_pages.specs.Pages as pages;

use crate::page_row::PageRow;
use crate::room::{FIRST_EXTENDED, MOST_SHORT};
use std::alloc::AllocError;

/// The `type_len` of a time extend.
const TIME_EXTEND: u32 = 30;

/// Appends a word, its low byte first.
fn push_word(out: &mut Vec<u8>, word: u32) -> Result<(), AllocError>
    ensures { OnOk result (out.new.items ≡ out.old.items ++ to_le_bytes w32 word) }
{
    out.extend_from_slice(&word.to_le_bytes())
}

/// Appends data of so many ticks after the event before.
fn push_data(out: &mut Vec<u8>, delta: u32, bytes: &[u8]) -> Result<(), AllocError>
    requires delta { delta < 2 ^ 27 }
    requires size { length bytes.now ≤ 4080 }
    ensures { OnOk result (out.new.items ≡ out.old.items ++ pages.data_event delta bytes.now) }
{
    if bytes.len() <= MOST_SHORT {
        push_word(out, (bytes.len() / 4) as u32 + 32 * delta)?;
    } else {
        push_word(out, 32 * delta)?;
        push_word(out, bytes.len() as u32 + 4)?;
    }
    out.extend_from_slice(bytes)
}

/// Appends a time extend.
fn push_extend(out: &mut Vec<u8>, delta: u64) -> Result<(), AllocError>
    requires { delta < 2 ^ 59 }
    ensures { OnOk result (out.new.items ≡ out.old.items ++ pages.extend_event delta) }
{
    push_word(out, TIME_EXTEND + 32 * (delta % FIRST_EXTENDED) as u32)?;
    push_word(out, (delta / FIRST_EXTENDED) as u32)
}

/// Appends data with a time extend before them where their delta needs one.
#[tactic(auto, unfolding(crate::specs::Pages::event_bytes))]
pub(crate) fn push_event(out: &mut Vec<u8>, delta: u64, bytes: &[u8]) -> Result<(), AllocError>
    requires delta { delta < 2 ^ 59 }
    requires size { length bytes.now ≤ 4080 }
    ensures { OnOk result (out.new.items ≡ out.old.items ++ pages.event_bytes delta bytes.now) }
{
    if delta < FIRST_EXTENDED {
        return push_data(out, delta as u32, bytes);
    }
    push_extend(out, delta)?;
    push_data(out, 0, bytes)
}

/// Appends the events of rows, the first after a given time.
pub(crate) fn push_events(out: &mut Vec<u8>, time: u64, rows: &[PageRow]) -> Result<(), AllocError>
    requires in_time { pages.InTime time rows.now }
    requires size { length (pages.events_from time rows.now) ≤ 4080 }
    ensures { OnOk result (out.new.items ≡ out.old.items ++ pages.events_from time rows.now) }
{
    let mut last = time;
    for row in rows {
        push_event(out, row.time - last, row.bytes.as_bytes())?;
        last = row.time;
    }
    Ok(())
}
