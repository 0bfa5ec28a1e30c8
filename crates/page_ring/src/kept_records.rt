//! The kept records of a ring, lent one after another from its pages.
#![tactic(auto)]

ghost use Rattle.std.specs.Prelude.{◌≡◌, map};
ghost use Rattle.std.specs.Iterator.{YieldsFirstBy, item_count};
ghost use Rattle.page_ring.specs.Account.{readings_from};
ghost use Rattle.page_ring.specs.Pages.{on_page};
ghost use Rattle.page_ring.specs.Shown.{most_offered};
ghost use Rattle.page_ring.specs.Sound.{IsRising};
ghost use Rattle.page_ring.specs.Unread.{unread_left};

use crate::pages::Unread;
use crate::rings::Kept;
use std::marker::Model;

/// The kept records of a ring, seen as the list of readings that are left.
#[derive(Drop)]
pub struct KeptRecords<'a> {
    // The number after that of the record before.
    next: u64,
    unread: Unread<'a>,
}

impl<'a> Model for KeptRecords<'a> {
    ghost use Rattle.std.specs.Prelude.{List};
    ghost use Rattle.page_ring.specs.Account.{Reading};

    ghost Value = { List Reading };

    ghost use Rattle.page_ring.specs.KeptRecords.{readings_left, IsInOrder};

    ghost view = { readings_left };

    ghost invariant = { IsInOrder };
}

impl<'a> KeptRecords<'a> {
    // The records that are left on the pages, where the number after that of the record before is given.
    pub(crate) fn new(next: u64, unread: Unread<'a>) -> KeptRecords<'a>
        requires { IsRising next most_offered (map (on_page 0) (unread_left unread)) }
        ensures { result ≡ readings_from next (map (on_page 0) (unread_left unread.entry)) }
    {
        KeptRecords { next, unread }
    }
}

impl<'a> Iterator for KeptRecords<'a> {
    ghost use Rattle.page_ring.specs.Reading.{reading};

    type Item = Kept<'a>;

    ghost next_gives = { YieldsFirstBy reading (λ rest. rest) };

    ghost remaining = { item_count (λ rest. rest) };

    fn next(&mut self) -> Option<Kept<'a>> {
        match self.unread.next_unread() {
            Some(record) => {
                let lost = record.number - self.next;
                self.next = record.number + 1;
                Some(Kept {
                    lost,
                    rec: record.bytes,
                })
            }
            None => None,
        }
    }
}
