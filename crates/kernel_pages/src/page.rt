//! A ring's binary page.

ghost use Rattle.std.specs.Prelude.{◌≡◌, ℕ, ◌≤◌, ◌<◌, ◌+◌, ◌++◌, take, length, slice_get, List, IfOk, IfSome, OnOk};
ghost use Rattle.std.specs.Int.{w64, to_le_bytes};
ghost use Rattle.kernel_pages.specs.Pages as pages;
ghost use Rattle.kernel_pages.specs.Taking.{taken_of};
ghost use Rattle.kernel_pages.specs.declared.page_row.PageRow.{PageRow};

use crate::event::push_events;
use crate::page_row::PageRow;
use crate::room::{ROOM, count_taken};
use std::alloc::{AllocError, Global};
use trace_format::Text;

/// How many bytes a page has.
pub const PAGE_SIZE: usize = 4096;

/// In a commit: records were lost before the page.
const MISSED_EVENTS: u64 = 1 << 31;

/// In a commit: the number of lost records follows the events.
const MISSED_STORED: u64 = 1 << 30;

/// A page, and how many rows it tells.
#[derive(Drop)]
pub struct Page {
    /// The page's bytes.
    pub bytes: Text,
    /// How many of the rows it took.
    pub taken: usize,
}

/// When a page of these rows begins.
fn first_time(rows: &[PageRow]) -> u64
    ensures { result ≡ pages.first_time rows.now }
{
    match rows.first() {
        Some(row) => row.time,
        None => 0,
    }
}

/// How many records were lost before a page of these rows.
fn lost_before(rows: &[PageRow]) -> u64
    ensures { result ≡ pages.lost_before rows.now }
{
    match rows.first() {
        Some(row) => row.lost,
        None => 0,
    }
}

/// Appends a number, its low byte first.
fn push_number(out: &mut Vec<u8>, number: u64) -> Result<(), AllocError>
    ensures { OnOk result (out.new.items ≡ out.old.items ++ to_le_bytes w64 number) }
{
    out.extend_from_slice(&number.to_le_bytes())
}

/// Appends the number of lost records, if there are any.
fn push_lost(out: &mut Vec<u8>, lost: u64) -> Result<(), AllocError>
    ensures { OnOk result (out.new.items ≡ out.old.items ++ pages.lost_bytes lost) }
{
    if lost == 0 {
        return Ok(());
    }
    push_number(out, lost)
}

/// The length of the events, and whether records were lost before them.
fn commit_of(size: usize, lost: u64) -> u64
    requires { size ≤ 4080 }
    ensures { result ≡ pages.commit_of size lost }
{
    if lost == 0 {
        size as u64
    } else {
        size as u64 + (MISSED_STORED + MISSED_EVENTS)
    }
}

/// The page of events, the first of them at a time, and so many records lost before it.
#[tactic(auto, unfolding(crate::specs::Pages::page_of))]
pub(crate) fn page_with(
    alloc: Global,
    time: u64,
    lost: u64,
    events: &[u8],
) -> Result<Vec<u8>, AllocError>
    requires { length events.now + length (pages.lost_bytes lost) ≤ 4080 }
    ensures { (rows : List PageRow) → pages.first_time rows ≡ time → pages.lost_before rows ≡ lost
        → pages.events_of rows ≡ events.now → IfOk result (λ page. page.items ≡ pages.page_of rows) }
{
    let mut page = Vec::with_capacity(alloc, PAGE_SIZE)?;
    push_number(&mut page, time)?;
    push_number(&mut page, commit_of(events.len(), lost))?;
    page.extend_from_slice(events)?;
    push_lost(&mut page, lost)?;
    page.resize(PAGE_SIZE, 0)?;
    Ok(page)
}

/// The page of rows that are one page.
fn page_of(alloc: Global, rows: &[PageRow]) -> Result<Vec<u8>, AllocError>
    requires { pages.IsOnePage rows.now }
    ensures { IfOk result (λ page. page.items ≡ pages.page_of rows.now) }
{
    let time = first_time(rows);
    let mut events = Vec::with_capacity(alloc, ROOM)?;
    push_events(&mut events, time, rows)?;
    page_with(alloc, time, lost_before(rows), &events)
}

/// The page of the first rows, of as many as one page can tell; with no row an empty page. The rest are for the pages after it, so the number of
/// records lost before them is told there.
pub fn fill_page(alloc: Global, rows: &[PageRow]) -> Result<Page, AllocError>
    ensures bytes { IfOk result (λ page. page.bytes ≡ pages.page_of (take page.taken rows.now)) }
    ensures taken { IfOk result (λ page. page.taken ≡ taken_of rows.now) }
    ensures rows { IfOk result (λ page. page.taken ≤ length rows.now) }
    ensures fits { IfOk result (λ page. pages.IsOnePage (take page.taken rows.now)) }
    // Nothing that fits is left out.
    ensures all { IfOk result (λ page. (n : ℕ)
        → n ≤ length rows.now → pages.IsOnePage (take n rows.now) → n ≤ page.taken) }
    // Nor does a page take none while there are rows, of which each fits.
    ensures some { IfOk result (λ page. IfSome (slice_get rows.now 0)
        (λ row. length row.bytes ≤ 4056 → 0 < page.taken)) }
{
    let taken = count_taken(rows);
    let bytes = page_of(alloc, &rows[..taken])?;
    Ok(Page {
        bytes: Text::from(bytes),
        taken,
    })
}
