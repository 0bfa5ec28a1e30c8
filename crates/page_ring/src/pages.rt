//! The pages of a ring: the reader page, the circle and the tail page. docs/RING.md has pictures.
#![tactic(auto)]

ghost use Rattle.std.specs.Prelude.{◌≡◌, ℕ, ◌+◌, ◌<◌, ◌≤◌, ◌^◌, [], ◌∷◌, ◌++◌, length, flat_map, All, MatchOption, IfOk};
ghost use Rattle.trace_record.specs.Record.{IsRecord};
ghost use Rattle.page_ring.specs.Account.{is_reader_page};
ghost use Rattle.page_ring.specs.Pages.{stored};
ghost use Rattle.page_ring.specs.StoredPage.{empty_page};

use crate::page::{Page, PageRecords, StoredRecord};
use std::alloc::{AllocError, Global};
use std::collections::{VecDeque, vec_deque};
use std::mem;

/// The pages of a ring whose circle has P pages: P + 1 buffers in all, made once.
///
/// `reader` is the reader page, outside the circle; `circle` the pages of the circle before the tail page, head page first; `tail` the tail page,
/// where records are written; `spare` the free ones. A reader page that is still the tail page is kept at `tail`, and `reader` is a free buffer.
#[derive(Drop)]
pub struct Pages {
    pub reader: Page,
    pub circle: VecDeque<Page>,
    pub tail: Page,
    pub spare: VecDeque<Page>,
}

/// A record that was read: its page, its number among the accepted ones, and its length in bytes.
#[derive(Clone, Copy)]
pub struct Taken {
    pub page: u64,
    pub number: u64,
    pub size: u64,
}

impl Pages {
    ghost use Rattle.page_ring.specs.StoredPage.{Stored};
    ghost use Rattle.page_ring.specs.PageReads.{lent};
    ghost use Rattle.page_ring.specs.Pages.{kept_in, head_is_in_the_way, unread_in, IsCircle, IsFirst};
    ghost use Rattle.page_ring.specs.PageBuffers.{HasBuffers, SameBuffers, IsNew, IsCleared, FreesPage};
    ghost use Rattle.page_ring.specs.Sound.{IsArranged};
    ghost use Rattle.page_ring.specs.Writes.{MovesTail, MovesInCircle, LosesHead, Appends};
    ghost use Rattle.page_ring.specs.Reads.{SwapsReader, NothingUnread, TakesFirst};
    ghost use Rattle.page_ring.specs.Unread.{unread_left};

    /// Empty pages for a circle of so many, each with memory for so many bytes. The only error is that memory is refused.
    pub fn new(alloc: Global, pages: u32, page_bytes: u32) -> Result<Pages, AllocError>
        requires { 1 ≤ pages }
        ensures { IfOk result (IsNew pages page_bytes) }
    {
        let mut spare = VecDeque::with_capacity(alloc, pages as usize)?;
        for _page in 1..pages {
            spare.push_back_reserved(Page::new(alloc, page_bytes as usize)?);
        }
        Ok(Pages {
            reader: Page::new(alloc, page_bytes as usize)?,
            circle: VecDeque::with_capacity(alloc, pages as usize)?,
            tail: Page::new(alloc, page_bytes as usize)?,
            spare,
        })
    }

    /// Pages with the same unread records, and no spare ones. The only error is that memory is refused.
    pub fn copy(&self, alloc: Global) -> Result<Pages, AllocError>
        ensures { IfOk result (λ copy. kept_in copy ≡ kept_in self.now) }
    {
        Ok(Pages {
            reader: self.reader.copy(alloc)?,
            circle: copied(alloc, &self.circle)?,
            tail: self.tail.copy(alloc)?,
            spare: VecDeque::new(alloc),
        })
    }

    /// Drops all records. The buffers stay.
    pub fn clear(&mut self)
        requires { (pages : ℕ) × HasBuffers pages self.old }
        ensures { IsCleared self.old self.new }
    {
        self.free_circle();
        self.reader.begin(0, 0);
        self.tail.begin(0, 0);
    }

    // Frees the pages of the circle.
    fn free_circle(&mut self)
        requires { (pages : ℕ) × HasBuffers pages self.old }
        ensures circle { self.new.circle.items ≡ [] }
        ensures reader { self.new.reader ≡ self.old.reader }
        ensures tail { self.new.tail ≡ self.old.tail }
        ensures buffers { SameBuffers self.old self.new }
    {
        while let Some(page) = self.circle.pop_front() {
            self.spare.push_front_reserved(page);
        }
    }

    /// Moves the tail on to the next page. If the head page is in the way, its records are lost and its buffer is that of the new tail page.
    /// The old tail page stays in the circle, or outside as the reader page. Tells how many records and bytes were lost.
    pub fn move_tail(&mut self, pages: u64, reader_page: Option<u64>) -> (u64, u64)
        requires two_pages { 2 ≤ pages }
        requires small { self.old.tail.number + pages + 1 < 2 ^ 64 }
        requires arranged { IsArranged pages reader_page self.old }
        requires buffers { HasBuffers pages self.old }
        ensures moves { MovesTail pages reader_page self.old self.new }
        ensures lost { LosesHead pages self.old result.0 result.1 }
    {
        if is_at(reader_page, self.tail.number()) {
            self.leave_reader_page();
            return (0, 0);
        }
        self.move_in_circle(pages)
    }

    // Moves the tail on from the reader page. The reader page's own buffer, which waited until now, is that of the new tail page.
    fn leave_reader_page(&mut self)
        requires { self.old.tail.number + 1 < 2 ^ 64 }
        ensures { self.new ≡ record self.old {
          reader = self.old.tail;
          tail = empty_page (self.old.tail.number + 1) self.old.tail.next self.old.reader.room;
        } }
    {
        let number = self.tail.number() + 1;
        let first = self.tail.next();
        mem::swap(&mut self.reader, &mut self.tail);
        self.tail.begin(number, first);
    }

    // Moves the tail on from a page of the circle.
    fn move_in_circle(&mut self, pages: u64) -> (u64, u64)
        requires two_pages { 2 ≤ pages }
        requires small { self.old.tail.number + pages + 1 < 2 ^ 64 }
        requires circle { (low : ℕ) × (low ≤ self.old.tail.number)
            × IsCircle pages self.old.tail.number low self.old.circle.items }
        requires buffers { HasBuffers pages self.old }
        ensures moves { MovesInCircle pages self.old self.new }
        ensures lost { LosesHead pages self.old result.0 result.1 }
    {
        let (mut next, lost, lost_bytes) = self.free_page(pages);
        next.begin(self.tail.number() + 1, self.tail.next());
        let old = mem::replace(&mut self.tail, next);
        self.circle.push_back_reserved(old);
        (lost, lost_bytes)
    }

    // The page that is written next: the head page if it is in the way, or else a spare one. Tells how many records and bytes go with it.
    fn free_page(&mut self, pages: u64) -> (Page, u64, u64)
        requires two_pages { 2 ≤ pages }
        requires small { self.old.tail.number + pages + 1 < 2 ^ 64 }
        requires circle { (low : ℕ) × (low ≤ self.old.tail.number)
            × IsCircle pages self.old.tail.number low self.old.circle.items }
        requires buffers { HasBuffers pages self.old }
        ensures frees { FreesPage pages self.old self.new result.0 }
        ensures lost { LosesHead pages self.old result.1 result.2 }
    {
        if self.head_is_in_the_way(pages) {
            let head = self.circle.pop_front().unwrap();
            let (lost, lost_bytes) = (head.unread(), head.filled());
            return (head, lost, lost_bytes);
        }
        (self.spare.pop_front().unwrap(), 0, 0)
    }

    /// Whether the head page has to go where the tail moves on, in a circle of so many pages.
    pub fn head_is_in_the_way(&self, pages: u64) -> bool
        requires small { self.now.tail.number + pages + 1 < 2 ^ 64 }
        requires circle { (low : ℕ)
            × IsCircle pages self.now.tail.number low self.now.circle.items }
        ensures { result ≡ head_is_in_the_way pages self.now.tail.number self.now.circle.items }
    {
        match self.circle.front() {
            Some(head) => head.number() + pages <= self.tail.number() + 1,
            None => false,
        }
    }

    /// Writes a record at the end of the tail page.
    pub fn append(&mut self, rec: &[u8])
        requires is_record { IsRecord rec.now }
        requires room { self.old.tail.filled + length rec.now ≤ self.old.tail.room }
        requires few { self.old.tail.next + 1 < 2 ^ 64 }
        ensures { Appends self.old self.new rec.now }
    {
        self.tail.append(rec);
    }

    /// The first unread record.
    pub fn first(&self) -> Option<StoredRecord<'_>>
        requires { All (λ p. 0 < length p.records) self.now.circle.items }
        ensures { MatchOption result (kept_in self.now ≡ [])
            (λ r. IsFirst (lent r) (kept_in self.now)) }
    {
        if let Some(r) = self.reader.first() {
            return Some(r);
        }
        if let Some(head) = self.circle.front() {
            return head.first();
        }
        self.tail.first()
    }

    // If the reader page has nothing unread, the head page becomes the reader page, and the old reader page's buffer is free.
    fn swap_reader(&mut self)
        requires full { All (λ p. 0 < length p.records) self.old.circle.items }
        requires buffers { (pages : ℕ) × HasBuffers pages self.old }
        ensures { SwapsReader self.old self.new }
    {
        if self.reader.unread() == 0 {
            if let Some(head) = self.circle.pop_front() {
                let old = mem::replace(&mut self.reader, head);
                self.spare.push_front_reserved(old);
            }
        }
    }

    /// Reads past the first unread record.
    pub fn take_first(&mut self) -> Option<Taken>
        requires full { All (λ p. 0 < length p.records) self.old.circle.items }
        requires buffers { (pages : ℕ) × HasBuffers pages self.old }
        ensures { MatchOption result (NothingUnread self.old self.new)
            (λ taken. TakesFirst self.old self.new taken) }
    {
        self.swap_reader();
        if let Some((number, size)) = self.reader.take_first() {
            let page = self.reader.number();
            return Some(Taken { page, number, size });
        }
        let (number, size) = self.tail.take_first()?;
        let page = self.tail.number();
        Some(Taken { page, number, size })
    }

    /// The unread records, oldest first.
    pub fn unread(&self) -> Unread<'_>
        ensures { unread_left result ≡ unread_in self.now }
    {
        Unread {
            page: self.reader.records(),
            circle: self.circle.iter(),
            tail: self.tail.records(),
        }
    }
}

/// An iterator over the unread records of pages.
#[derive(Drop)]
pub struct Unread<'a> {
    page: PageRecords<'a>,
    circle: vec_deque::Iter<'a, Page>,
    tail: PageRecords<'a>,
}

impl<'a> Unread<'a> {
    ghost use Rattle.page_ring.specs.PageReads.{lent};
    ghost use Rattle.page_ring.specs.Unread.{unread_left};

    /// The next unread record.
    pub fn next_unread(&mut self) -> Option<StoredRecord<'a>>
        ensures { MatchOption result ((unread_left self.old ≡ []) × (unread_left self.new ≡ []))
            (λ r. unread_left self.old ≡ lent r ∷ unread_left self.new) }
    {
        'pages: loop {
            if let Some(record) = self.page.next_record() {
                return Some(record);
            }
            match self.circle.next() {
                Some(page) => self.page = page.records(),
                None => return self.tail.next_record(),
            }
        }
    }
}

// Copies of pages in order.
fn copied(alloc: Global, pages: &VecDeque<Page>) -> Result<VecDeque<Page>, AllocError>
    ensures { IfOk result (λ copies. flat_map stored copies.items ≡ flat_map stored pages.now.items) }
{
    let mut copies = VecDeque::with_capacity(alloc, pages.len())?;
    for page in pages.iter() {
        copies.push_back(page.copy(alloc)?)?;
    }
    Ok(copies)
}

fn is_at(reader_page: Option<u64>, number: u64) -> bool
    ensures { result ≡ is_reader_page reader_page number }
{
    match reader_page {
        Some(page) => page == number,
        None => false,
    }
}
