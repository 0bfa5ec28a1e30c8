//! A copy of what a ring shows, for a reader that makes its text while the ring goes on.
//!
//! Only the bytes of unread records are copied, page by page, so a copy takes at most the memory of the ring's pages. It has no page to write on.

ghost use Rattle.std.specs.Prelude.{◌≡◌, ◌≤◌, ◌^◌, length};
ghost use Rattle.page_ring.specs.Account.{readings_from};
ghost use Rattle.page_ring.specs.Pages.{kept_in};
ghost use Rattle.page_ring.specs.Shown.{most_offered};
ghost use Rattle.page_ring.specs.Sound.{IsRising};

use crate::kept_records::KeptRecords;
use crate::pages::Pages;
use crate::rings::RingStats;
use std::marker::Model;

/// What a ring showed when it was copied: its statistics and its kept records.
#[derive(Drop)]
pub struct RingCopy {
    stats: RingStats,
    // The number after that of the last record taken.
    next: u64,
    // Without spare ones.
    pages: Pages,
}

impl Model for RingCopy {
    ghost use Rattle.page_ring.specs.Copies.{Copied};

    ghost Value = { Copied };

    ghost use Rattle.page_ring.specs.RingCopies.{copied, IsCopy};

    ghost view = { copied };

    ghost invariant = { IsCopy };
}

impl RingCopy {
    // The copy with these statistics and pages, where the number after that of the last record taken is given.
    pub(crate) fn new(stats: RingStats, next: u64, pages: Pages) -> RingCopy
        requires rising { IsRising next most_offered (kept_in pages) }
        requires few { length (kept_in pages) ≤ 2 ^ 32 }
        ensures { result ≡ record { stats = stats; readings = readings_from next (kept_in pages) } }
    {
        RingCopy { stats, next, pages }
    }

    /// The statistics of the ring.
    pub fn stats(&self) -> RingStats
        ensures { result ≡ self.now.stats }
    {
        self.stats
    }

    /// The kept records in order, as consuming reads of the ring would have found them.
    pub fn kept(&self) -> KeptRecords<'_>
        ensures records { result ≡ self.now.readings }
        ensures few { length result ≤ 2 ^ 32 }
    {
        KeptRecords::new(self.next, self.pages.unread())
    }
}
