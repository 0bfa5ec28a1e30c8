//! A book for one caller.

ghost use Rattle.std.specs.Prelude.{◌≡◌, ◌+◌, ◌<◌, ◌-◌, ◌^◌, [], ◌∷◌, ◌++◌, All, IfOk, IfErr, OnOk, OnErr, Err, ◌≢◌};
ghost use Rattle.trace_command.specs.Configs.{IsInRange};
ghost use Rattle.trace_command.specs.Refusals.{OrMemory, IsFoundEarly};
ghost use Rattle.trace_command.specs.Requests.{request_of};
ghost use Rattle.tracer_specification.specs.History.{answer_to, IsLegal};
ghost use Rattle.tracer_specification.specs.LateMemory.{TakesMemoryLate};

use crate::book::Book;
use std::alloc::Global;
use std::marker::Model;
use trace_command::{Command, Config, Refusal, Reply};

/// The caller's number in the history.
const CALLER: u32 = 0;

/// A book and its next ticket, for a single caller, whose commands get the tickets 0, 1, 2 and so on.
#[derive(Drop)]
pub struct Tracer {
    book: Book,
    next: u64,
}

impl Model for Tracer {
    ghost use Rattle.std.specs.Prelude.{All, ◌<◌};
    ghost use Rattle.trace_book.specs.BookSeen.{TracerSeen};

    ghost Value = { TracerSeen };

    ghost view = { λ t. record { book = t.book; next = t.next } };

    ghost invariant = { λ t. All (λ entry. entry.ticket < t.next) t.book.entries };
}

impl Tracer {
    /// A tracer with no history. Fails as [`Book::new`] does.
    pub fn new(alloc: Global, config: Config) -> Result<Tracer, Refusal>
        ensures made { IfOk result (λ tracer. tracer ≡ record { book = record { config = config; entries = [] }; next = 0 }) }
        ensures in_range { OnOk result (IsInRange config) }
        ensures out_of_range { ¬ IsInRange config → IfErr result (λ r. r ≡ Refusal.BadValue) }
        ensures refused { IfErr result (λ r. r ≢ Refusal.Memory → (r ≡ Refusal.BadValue) × ¬ IsInRange config) }
    {
        Ok(Tracer {
            book: Book::new(alloc, config)?,
            next: 0,
        })
    }

    // The next ticket, and the one after it.
    fn draw(&mut self) -> Result<u64, Refusal>
        ensures drawn { IfOk result (λ ticket. (ticket ≡ self.old.next) × (self.new.next ≡ self.old.next + 1) × (self.old.next < 2 ^ 64 - 1)) }
        ensures worn { IfErr result (λ r. (r ≡ Refusal.Worn) × (self.old.next ≡ 2 ^ 64 - 1) × (self.new ≡ self.old)) }
        ensures book { self.new.book ≡ self.old.book }
        ensures tickets { All (λ entry. entry.ticket < self.old.next) self.old.book.entries }
    {
        let ticket = self.next;
        let Some(next) = ticket.checked_add(1) else {
            return Err(Refusal::Worn);
        };
        self.next = next;
        Ok(ticket)
    }

    /// Runs a command with the next ticket, as [`Book::ask`] does. A refused command uses its ticket up too. `Worn` if no ticket is left, after
    /// 2^64 - 1 commands; then nothing changes.
    pub fn ask(&mut self, command: &Command<'_>) -> Result<Reply, Refusal>
        ensures worn { self.old.next ≡ 2 ^ 64 - 1 → (result ≡ Err Refusal.Worn) × (self.new ≡ self.old) }
        ensures next { self.old.next < 2 ^ 64 - 1 → self.new.next ≡ self.old.next + 1 }
        ensures reply { self.old.next < 2 ^ 64 - 1 → OrMemory result (answer_to self.old.book.config self.old.book.entries command.now) }
        ensures early { self.old.next < 2 ^ 64 - 1 → IsFoundEarly (answer_to self.old.book.config self.old.book.entries command.now)
            → result ≡ answer_to self.old.book.config self.old.book.entries command.now }
        ensures late_memory { self.old.next < 2 ^ 64 - 1 → TakesMemoryLate (request_of command.now)
            → IfErr (answer_to self.old.book.config self.old.book.entries command.now) (λ r. result ≡ Err r) }
        ensures done { OnOk result (self.new.book.entries
            ≡ self.old.book.entries ++ record { ticket = self.old.next; by = 0; command = command.now } ∷ []) }
        ensures refused { OnErr result (self.new.book.entries ≡ self.old.book.entries) }
        ensures config { self.new.book.config ≡ self.old.book.config }
        ensures legal { self.old.next < 2 ^ 64 - 1 → IsLegal self.new.book.config self.new.book.entries }
    {
        let ticket = self.draw()?;
        self.book.ask(ticket, CALLER, command)
    }

    /// The book.
    pub fn book(&self) -> &Book
        ensures { result.now ≡ self.now.book }
    {
        &self.book
    }
}
