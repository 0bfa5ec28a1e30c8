//! The ring of one CPU: pages in a circle, which a writer fills, and the reader page outside it (docs/RING.md has more pictures).
//!
//! ```text
//!     reader page         circle
//!                         head page             tail page
//!      [. . 3 4]          [5 6 7] [8 9 a]  ..   [b c  ]
//!           |              |                         |
//!           read next      lost next                 put next
//! ```
//!
//! - A put goes onto the tail page. If it doesn't fit there, the tail moves on to the next page. If that is the head page, its unread records are lost
//!   with it and the page after it is the head page; or, without `overwrite`, the record is dropped and the tail stays.
//! - A read takes the first unread record of the reader page. If none is left there, the reader page changes places with the head page first. So the
//!   page that is being read can't be overwritten, and the circle has all its pages for the writer.
//! - If only the tail page has records, it is the page that is swapped out. It is the reader page and the tail page in one until the tail moves on.
//!
//! Which page a record is on depends on sizes alone, so `specs/Cut.antt` says it of the list of accepted records. The code has P + 1 pages of bytes for
//! a circle of P, all made by `new`, and no other storage for records: `page.rt` has one of them, and `pages.rt` tells which of them is where. What the
//! ring shows of all records together is counted as it changes.
//!
//! A public call and its step (`put` and `put_step`) are one body and two proofs: the step says what becomes of the visible facts, by the pages, and the
//! public clause what that means for the list of all puts and reads, by the step alone.
#![tactic(auto)]

ghost use Rattle.std.specs.Prelude.{◌≡◌, ℕ, ◌+◌, ◌<◌, ◌≤◌, ◌^◌, ◌%◌, [], ◌∷◌, ◌++◌, length, List, not, ◌&&◌, nat_le, nat_lt, All, IfOk, IsNone};
ghost use Rattle.std.specs.Option.{option_map};
ghost use Rattle.trace_record.specs.Record.{IsRecord, timestamp};
ghost use Rattle.page_ring.specs.Events as event;
ghost use Rattle.page_ring.specs.Account.{put_answer, readings_of, stats_of, has_waiting, first, first_timestamp};
ghost use Rattle.page_ring.specs.Copies.{copied_of};
ghost use Rattle.page_ring.specs.Pages.{kept_in};
ghost use Rattle.std.specs.List.{AllByRecursion};
ghost use Rattle.page_ring.specs.Shown.{StandsFor, offered, most_offered};
ghost use Rattle.page_ring.specs.private.Step.{after_put, put_answer_shown, without_first, readings_shown, stats_shown, overrun_by, left_by, appended, moved};

use crate::kept_records::KeptRecords;
use crate::pages::Pages;
use crate::ring_copy::RingCopy;
use std::alloc::{AllocError, Global};
use std::marker::Model;
use trace_record::timestamp;

/// What became of a record that was put (the two modes of "The Generic Ring Buffer" in
/// ring-buffer-design.rst).
#[derive(Clone, Copy, Debug, PartialEq, Eq)]
pub enum Put {
    /// It is kept, and no kept record was lost.
    Kept,
    /// It is kept, and so many kept records were lost by it.
    KeptLosing(u64),
    /// It was dropped, since overwriting is off and it would have cost a kept record.
    Dropped,
}

/// What `per_cpu/cpuN/stats` shows of a ring ("The File System" of ftrace.rst).
#[derive(Clone, Copy, Debug, PartialEq, Eq)]
pub struct RingStats {
    /// How many records are kept.
    pub entries: u64,
    /// How many were lost to overwriting.
    pub overrun: u64,
    /// How many bytes the kept records take, heads included.
    pub bytes: u64,
    /// The timestamp of the first kept record, 0 where none is.
    pub oldest: u64,
    /// How many puts were dropped.
    pub dropped: u64,
    /// How many records were consumed.
    pub read: u64,
}

/// A kept record, as a consuming read finds it.
#[derive(Clone, Copy)]
pub struct Kept<'a> {
    /// How many accepted records lie between it and the one consumed before it.
    pub lost: u64,
    /// Its bytes.
    pub rec: &'a [u8],
}

/// A ring of records for one CPU ("The Generic Ring Buffer" of ring-buffer-design.rst). It takes its memory when it is made, and none afterwards.
#[derive(Drop)]
pub struct Ring {
    page_count: u64,
    page_bytes: u64,
    pages: Pages,
    // The page of the last record taken, and the number after it.
    reader_page: Option<u64>,
    next: u64,
    // The running counts.
    entries: u64,
    bytes: u64,
    accepted: u64,
    dropped: u64,
    read: u64,
}

impl Model for Ring {
    ghost use Rattle.page_ring.specs.Shown.{Seen};

    ghost Value = { Seen };

    ghost use Rattle.page_ring.specs.Sound.{seen, IsSound};

    ghost view = { seen };

    ghost invariant = { IsSound };
}

impl Ring {
    ghost use Rattle.page_ring.specs.Reading.{reading};

    /// An empty ring of so many pages in a circle, each for so many bytes of records. The only error
    /// is that memory is refused.
    pub fn new(alloc: Global, pages: u32, page_bytes: u32) -> Result<Ring, AllocError>
        requires pages { (2 ≤ pages) × (pages ≤ 1024) }
        requires page_bytes { (64 ≤ page_bytes) × (page_bytes ≤ 4080) × (page_bytes % 8 ≡ 0) }
        ensures stands { IfOk result (λ ring. StandsFor ring []) }
        ensures pages { IfOk result (λ ring. ring.pages ≡ pages) }
        ensures page_bytes { IfOk result (λ ring. ring.page_bytes ≡ page_bytes) }
        ensures offered { IfOk result (λ ring. offered ring ≡ 0) }
    {
        Ok(Ring {
            page_count: pages as u64,
            page_bytes: page_bytes as u64,
            pages: Pages::new(alloc, pages, page_bytes)?,
            reader_page: None,
            next: 0,
            entries: 0,
            bytes: 0,
            accepted: 0,
            dropped: 0,
            read: 0,
        })
    }

    /// Writes a record on the tail page, or where it doesn't fit there on the next page. Where that
    /// is the head page, the head page is lost whole with `overwrite`, and without it the record is
    /// dropped; a later, smaller one may still fit the tail page. It takes no memory.
    pub fn put(&mut self, rec: &[u8], overwrite: bool) -> Put
        requires is_record { IsRecord rec.now }
        requires fits { length rec.now ≤ self.old.page_bytes }
        requires few { offered self.old < most_offered }
        ensures stands { (events : List event.Event) → StandsFor self.old events
            → StandsFor self.new (events ++ event.Put rec.now overwrite ∷ []) }
        ensures answer { (events : List event.Event) → StandsFor self.old events
            → result ≡ put_answer self.old.pages self.old.page_bytes events rec.now overwrite }
        ensures pages { self.new.pages ≡ self.old.pages }
        ensures page_bytes { self.new.page_bytes ≡ self.old.page_bytes }
        ensures offered { offered self.new ≡ offered self.old + 1 }
    {
        self.put_step(rec, overwrite)
    }

    // The same, by the visible facts alone.
    fn put_step(&mut self, rec: &[u8], overwrite: bool) -> Put
        requires is_record { IsRecord rec.now }
        requires fits { length rec.now ≤ self.old.page_bytes }
        requires few { offered self.old < most_offered }
        ensures shown { self.new.shown
            ≡ after_put self.old.pages self.old.page_bytes self.old.shown rec.now overwrite }
        ensures answer { result
            ≡ put_answer_shown self.old.pages self.old.page_bytes self.old.shown rec.now overwrite }
        ensures two_pages { 2 ≤ self.old.pages }
        ensures pages { self.new.pages ≡ self.old.pages }
        ensures page_bytes { self.new.page_bytes ≡ self.old.page_bytes }
    {
        if self.fits_tail(rec.len()) {
            self.append(rec);
            return Put::Kept;
        }
        if self.has_to_drop(overwrite) {
            self.refuse();
            return Put::Dropped;
        }
        let lost = self.move_tail();
        self.append(rec);
        if lost == 0 {
            Put::Kept
        } else {
            Put::KeptLosing(lost)
        }
    }

    // Whether a record of this length fits the tail page; there it overwrites nothing.
    fn fits_tail(&self, len: usize) -> bool
        requires { len ≤ self.now.page_bytes }
        ensures fits { result ≡ nat_le (self.now.shown.last_filled + len) self.now.page_bytes }
        ensures none { overrun_by self.now.pages self.now.shown self.now.shown.last_page ≡ [] }
        ensures two_pages { 2 ≤ self.now.pages }
        ensures all { left_by self.now.pages self.now.shown self.now.shown.last_page
            ≡ self.now.shown.kept }
    {
        self.pages.tail.filled() + len as u64 <= self.page_bytes
    }

    // Whether a record is dropped that doesn't fit the tail page.
    fn has_to_drop(&self, overwrite: bool) -> bool
        ensures { result ≡ not overwrite && nat_lt 0
            (length (overrun_by self.now.pages self.now.shown (self.now.shown.last_page + 1))) }
    {
        if overwrite {
            return false;
        }
        self.pages.head_is_in_the_way(self.page_count)
    }

    fn refuse(&mut self)
        requires { offered self.old < most_offered }
        ensures shown { self.new.shown
            ≡ record self.old.shown { dropped = self.old.shown.dropped + 1 } }
        ensures pages { self.new.pages ≡ self.old.pages }
        ensures page_bytes { self.new.page_bytes ≡ self.old.page_bytes }
    {
        self.dropped += 1;
    }

    // One more record on the tail page.
    fn append(&mut self, rec: &[u8])
        requires is_record { IsRecord rec.now }
        requires fits { self.old.shown.last_filled + length rec.now ≤ self.old.page_bytes }
        requires few { offered self.old < most_offered }
        ensures shown { self.new.shown ≡ appended self.old.shown rec.now }
        ensures pages { self.new.pages ≡ self.old.pages }
        ensures page_bytes { self.new.page_bytes ≡ self.old.page_bytes }
    {
        self.pages.append(rec);
        self.entries += 1;
        self.bytes += rec.len() as u64;
        self.accepted += 1;
    }

    // Moves the tail on to the next page. Where that is the head page, its unread records are lost: tells how many.
    fn move_tail(&mut self) -> u64
        requires { 0 < self.old.shown.last_filled }
        ensures shown { self.new.shown ≡ moved self.old.pages self.old.shown }
        ensures lost { result
            ≡ length (overrun_by self.old.pages self.old.shown (self.old.shown.last_page + 1)) }
        ensures pages { self.new.pages ≡ self.old.pages }
        ensures page_bytes { self.new.page_bytes ≡ self.old.page_bytes }
    {
        let (lost, lost_bytes) = self.pages.move_tail(self.page_count, self.reader_page);
        self.entries -= lost;
        self.bytes -= lost_bytes;
        lost
    }

    /// The first kept record, which the next consuming read takes. Nothing is swapped.
    pub fn peek(&self) -> Option<Kept<'_>>
        ensures { (events : List event.Event) → StandsFor self.now events
            → option_map reading result
            ≡ first (readings_of self.now.pages self.now.page_bytes events) }
    {
        self.peek_step()
    }

    fn peek_step(&self) -> Option<Kept<'_>>
        ensures { option_map reading result ≡ first (readings_shown self.now.shown) }
    {
        match self.pages.first() {
            Some(record) => Some(Kept {
                lost: record.number - self.next,
                rec: record.bytes,
            }),
            None => None,
        }
    }

    /// The timestamp of the first kept record, in ticks of the clock.
    pub fn peek_ts(&self) -> Option<u64>
        ensures { (events : List event.Event) → StandsFor self.now events
            → result ≡ option_map (λ r. timestamp r.rec)
            (first (readings_of self.now.pages self.now.page_bytes events)) }
    {
        self.peek_ts_step()
    }

    fn peek_ts_step(&self) -> Option<u64>
        ensures { result
            ≡ option_map (λ r. timestamp r.rec) (first (readings_shown self.now.shown)) }
    {
        match self.pages.first() {
            Some(record) => Some(timestamp(record.bytes)),
            None => None,
        }
    }

    /// Consumes the first kept record, and tells how many were lost before it. Where the reader
    /// page has nothing unread, it is swapped with the head page first. With nothing kept it is
    /// `None`, and nothing changes.
    pub fn take(&mut self) -> Option<u64>
        ensures stands { (events : List event.Event) → StandsFor self.old events
            → StandsFor self.new (events ++ event.Take ∷ []) }
        ensures answer { (events : List event.Event) → StandsFor self.old events
            → result ≡ option_map (λ r. r.lost)
            (first (readings_of self.old.pages self.old.page_bytes events)) }
        ensures none { (events : List event.Event) → IsNone result → StandsFor self.old events
            → StandsFor self.new events }
        ensures pages { self.new.pages ≡ self.old.pages }
        ensures page_bytes { self.new.page_bytes ≡ self.old.page_bytes }
        ensures offered { offered self.new ≡ offered self.old }
    {
        self.take_step()
    }

    fn take_step(&mut self) -> Option<u64>
        ensures shown { self.new.shown ≡ without_first self.old.shown }
        ensures answer { result ≡ option_map (λ r. r.lost) (first (readings_shown self.old.shown)) }
        ensures none { IsNone result → self.new.shown ≡ self.old.shown }
        ensures pages { self.new.pages ≡ self.old.pages }
        ensures page_bytes { self.new.page_bytes ≡ self.old.page_bytes }
    {
        let taken = self.pages.take_first()?;
        let lost = taken.number - self.next;
        self.entries -= 1;
        self.bytes -= taken.size;
        self.read += 1;
        self.next = taken.number + 1;
        self.reader_page = Some(taken.page);
        Some(lost)
    }

    /// The kept records in order, as consuming reads would find them. Nothing is consumed.
    pub fn kept(&self) -> KeptRecords<'_>
        ensures records { (events : List event.Event) → StandsFor self.now events
            → result ≡ readings_of self.now.pages self.now.page_bytes events }
        ensures few { length result ≤ 2 ^ 32 }
    {
        self.kept_step()
    }

    fn kept_step(&self) -> KeptRecords<'_>
        ensures records { result ≡ readings_shown self.now.shown }
        ensures few { length result ≤ 2 ^ 32 }
    {
        KeptRecords::new(self.next, self.pages.unread())
    }

    /// A copy of what the ring shows, for a reader that lets go of the ring before it looks at the records. It takes memory for the bytes of the kept
    /// records, at most those of the ring's pages. The only error is that memory is refused.
    pub fn copy(&self, alloc: Global) -> Result<RingCopy, AllocError>
        ensures { IfOk result (λ copy. (events : List event.Event) → StandsFor self.now events
            → copy ≡ copied_of self.now.pages self.now.page_bytes events) }
    {
        self.copy_step(alloc)
    }

    fn copy_step(&self, alloc: Global) -> Result<RingCopy, AllocError>
        ensures { IfOk result (λ copy. copy
            ≡ record { stats = stats_shown self.now.shown; readings = readings_shown self.now.shown }) }
    {
        let pages = self.pages.copy(alloc)?;
        Ok(RingCopy::new(self.stats_step(), self.next, pages))
    }

    /// Whether a record waits to be read: whether a consuming read would take one. Nothing is consumed.
    pub fn has_waiting(&self) -> bool
        ensures { (events : List event.Event) → StandsFor self.now events
            → result ≡ has_waiting self.now.pages self.now.page_bytes events }
    {
        self.has_waiting_step()
    }

    fn has_waiting_step(&self) -> bool
        ensures { result ≡ nat_lt 0 (length (readings_shown self.now.shown)) }
    {
        self.entries > 0
    }

    /// Empties the ring: it is as when it was new, statistics too.
    pub fn clear(&mut self)
        ensures stands { StandsFor self.new [] }
        ensures pages { self.new.pages ≡ self.old.pages }
        ensures page_bytes { self.new.page_bytes ≡ self.old.page_bytes }
        ensures offered { offered self.new ≡ 0 }
    {
        self.pages.clear();
        self.reader_page = None;
        self.next = 0;
        self.entries = 0;
        self.bytes = 0;
        self.accepted = 0;
        self.dropped = 0;
        self.read = 0;
    }

    /// The statistics of all events since the ring was made or last cleared.
    pub fn stats(&self) -> RingStats
        ensures { (events : List event.Event) → StandsFor self.now events
            → result ≡ stats_of self.now.pages self.now.page_bytes events }
    {
        self.stats_step()
    }

    fn stats_step(&self) -> RingStats
        ensures { result ≡ stats_shown self.now.shown }
    {
        RingStats {
            entries: self.entries,
            overrun: self.accepted - self.entries - self.read,
            bytes: self.bytes,
            oldest: oldest(&self.pages),
            dropped: self.dropped,
            read: self.read,
        }
    }
}

// The timestamp of the first unread record, 0 where there is none.
fn oldest(pages: &Pages) -> u64
    requires circle { All (λ p. 0 < length p.records) pages.now.circle.items }
    requires records { AllByRecursion (λ r. 16 ≤ length r.bytes) (kept_in pages.now) }
    ensures { result ≡ first_timestamp (kept_in pages.now) }
{
    match pages.first() {
        Some(r) => timestamp(r.bytes),
        None => 0,
    }
}
