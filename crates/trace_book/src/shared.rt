//! A book as threads and sessions share it.

ghost use Rattle.std.specs.Prelude.{refl};

use crate::book::Book;
use shared_book::SharedBook;
use std::alloc::Global;
use trace_command::{Command, Config, Refusal, Reply};

impl SharedBook for Book {
    ghost made_with = { λ book. book.config };

    fn start(alloc: Global, config: Config) -> Result<Book, Refusal> {
        Book::new(alloc, config)
    }

    #[inline(always)]
    fn answer(&mut self, ticket: u64, by: u32, command: &Command<'_>) -> Result<Reply, Refusal> {
        self.ask(ticket, by, command)
    }

    ghost tickets = { refl };

    ghost callers = { refl };

    ghost bases = { λ _. refl };
}
