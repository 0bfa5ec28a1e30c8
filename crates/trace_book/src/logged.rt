//! What a lock sees of a book.

ghost use Rattle.shared_book.specs.Bases.{numbers_of};

use crate::book::Book;
use ticket_lock::Logged;

/// A lock sees a book's history, and as its base, which no call changes, the configuration.
impl Logged for Book {
    type Entry = trace_command::Entry;

    ghost entries = { λ book. book.entries };

    ghost base = { λ book. numbers_of book.config };

    ghost ticket = { λ entry. entry.ticket };

    ghost by = { λ entry. entry.by };
}
