//! A page of a ring: a buffer of bytes, made once, in which records lie one after the other.
//!
//! ```text
//!     first byte              read cursor              fill              room
//!      |                       |                        |                 |
//!      [ 24 read ][ 40 read    ][ 24 unread ][ 32 unread ]  . . free . .  ]
//! ```
//!
//! A put writes at the fill, and moves it on by the record's length. A read takes the record at the read cursor, and moves that on. The length
//! of a record is the one that its head tells, so nothing is kept beside the bytes but how many records are unread and the number of the first
//! of them: the accepted records of a page follow each other.

ghost use Rattle.std.specs.Prelude.{◌≡◌, ℕ, ◌+◌, ◌<◌, ◌≤◌, ◌^◌, [], ◌∷◌, ◌++◌, List, length, MatchOption, IfOk};
ghost use Rattle.trace_record.specs.Record.{IsRecord};
ghost use Rattle.page_ring.specs.StoredPage.{Stored, empty_page};

use std::alloc::{AllocError, Global};
use std::marker::Model;
use trace_record::told_length;

/// A record where it lies on its page, with its number among the accepted ones.
#[derive(Clone, Copy)]
pub struct StoredRecord<'a> {
    pub number: u64,
    pub bytes: &'a [u8],
}

/// A page: its number, the bytes of the records that came onto it, and which of these are unread.
#[derive(Drop)]
pub struct Page {
    number: u64,
    // The records, from the first byte on. Its length is the page's fill; it never grows past the capacity that it was made with.
    bytes: Vec<u8>,
    // The read cursor: where the first unread record begins.
    cursor: usize,
    // The number of the first unread record, or of the next one to come where all are read.
    first: u64,
    // How many records are unread.
    unread: u64,
}

impl Model for Page {
    ghost use Rattle.page_ring.specs.StoredPage.{StoredPage};

    ghost Value = { StoredPage };

    ghost use Rattle.page_ring.specs.PageBytes.{seen_page, IsPage};

    ghost view = { seen_page };

    ghost invariant = { IsPage };
}

impl Page {
    ghost use Rattle.page_ring.specs.PageReads.{lent, AppendsTo, TakesFrom};

    /// A page with no records, and memory for so many bytes of them. The only error is that memory is refused.
    pub fn new(alloc: Global, room: usize) -> Result<Page, AllocError>
        ensures { IfOk result (λ page. page ≡ empty_page 0 0 room) }
    {
        Ok(Page {
            number: 0,
            bytes: Vec::with_capacity(alloc, room)?,
            cursor: 0,
            first: 0,
            unread: 0,
        })
    }

    /// Makes this the page of a number, with no records; the next to come has the number `first`. The buffer stays.
    pub fn begin(&mut self, number: u64, first: u64)
        ensures { self.new ≡ empty_page number first self.old.room }
    {
        self.number = number;
        self.bytes.clear();
        self.cursor = 0;
        self.first = first;
        self.unread = 0;
    }

    /// A page with the same number and the same unread records, and no more bytes than theirs. The only error is that memory is refused.
    pub fn copy(&self, alloc: Global) -> Result<Page, AllocError>
        ensures number { IfOk result (λ page. page.number ≡ self.now.number) }
        ensures records { IfOk result (λ page. page.records ≡ self.now.records) }
    {
        Ok(Page {
            number: self.number,
            bytes: Vec::from_slice(alloc, &self.bytes[self.cursor..])?,
            cursor: 0,
            first: self.first,
            unread: self.unread,
        })
    }

    /// The page's number.
    pub fn number(&self) -> u64
        ensures { result ≡ self.now.number }
    {
        self.number
    }

    /// How many bytes of records came onto the page.
    pub fn filled(&self) -> u64
        ensures { result ≡ self.now.filled }
    {
        self.bytes.len() as u64
    }

    /// How many records are unread.
    pub fn unread(&self) -> u64
        ensures { result ≡ length self.now.records }
    {
        self.unread
    }

    /// The number of the next record to come.
    pub fn next(&self) -> u64
        ensures { result ≡ self.now.next }
    {
        self.first + self.unread
    }

    /// Writes a record at the fill.
    pub fn append(&mut self, rec: &[u8])
        requires is_record { IsRecord rec.now }
        requires room { self.old.filled + length rec.now ≤ self.old.room }
        requires few { self.old.next + 1 < 2 ^ 64 }
        ensures { AppendsTo self.old self.new rec.now }
    {
        self.bytes.extend_from_slice(rec).unwrap();
        self.unread += 1;
    }

    /// The unread records in order.
    pub fn records(&self) -> PageRecords<'_>
        ensures { result ≡ self.now.records }
    {
        PageRecords {
            bytes: &self.bytes[self.cursor..],
            number: self.first,
            left: self.unread,
        }
    }

    /// The first unread record.
    pub fn first(&self) -> Option<StoredRecord<'_>>
        ensures { MatchOption result (self.now.records ≡ [])
            (λ r. (rest : List Stored) × (self.now.records ≡ lent r ∷ rest)) }
    {
        self.records().next_record()
    }

    /// Reads past the first unread record, and tells its number and its length in bytes.
    pub fn take_first(&mut self) -> Option<(u64, u64)>
        ensures { MatchOption result ((self.old.records ≡ []) × (self.new ≡ self.old))
            (λ taken. TakesFrom self.old self.new taken.0 taken.1) }
    {
        if self.unread == 0 {
            return None;
        }
        let number = self.first;
        let length = told_length(&self.bytes[self.cursor..]);
        self.cursor += length;
        self.first += 1;
        self.unread -= 1;
        Some((number, length as u64))
    }
}

/// An iterator over the unread records of a page, seen as the list of those that are left.
#[derive(Drop)]
pub struct PageRecords<'a> {
    // The bytes of the records that are left, the number of the first, and how many they are.
    bytes: &'a [u8],
    number: u64,
    left: u64,
}

impl<'a> Model for PageRecords<'a> {
    ghost use Rattle.std.specs.Prelude.{List};
    ghost use Rattle.page_ring.specs.StoredPage.{Stored};

    ghost Value = { List Stored };

    ghost use Rattle.page_ring.specs.PageRecords.{records_left, IsRun};

    ghost view = { records_left };

    ghost invariant = { IsRun };
}

impl<'a> PageRecords<'a> {
    ghost use Rattle.page_ring.specs.PageReads.{lent};

    /// The next record.
    pub fn next_record(&mut self) -> Option<StoredRecord<'a>>
        ensures { MatchOption result ((self.old ≡ []) × (self.new ≡ []))
            (λ r. self.old ≡ lent r ∷ self.new) }
    {
        if self.left == 0 {
            return None;
        }
        let (bytes, rest) = self.bytes.split_at(told_length(self.bytes));
        let number = self.number;
        self.bytes = rest;
        self.number += 1;
        self.left -= 1;
        Some(StoredRecord { number, bytes })
    }
}
