//! What a book has to be, so that callers can share it through a lock.

ghost use Rattle.std.specs.Prelude.{◌≡◌, ◌≢◌, ◌<◌, [], ◌∷◌, ◌++◌, All, Err, IfOk, IfErr, OnOk, OnErr};
ghost use Rattle.trace_command.specs.Configs.{IsInRange};
ghost use Rattle.trace_command.specs.Refusals.{OrMemory, IsFoundEarly};
ghost use Rattle.trace_command.specs.Requests.{request_of};
ghost use Rattle.trace_command.specs.declared.command.Config.{Config};
ghost use Rattle.trace_command.specs.declared.command.Entry.{Entry};
ghost use Rattle.trace_command.specs.declared.refusal.Refusal.TheVariants as refusal;
ghost use Rattle.tracer_specification.specs.History.{answer_to, IsLegal};
ghost use Rattle.tracer_specification.specs.LateMemory.{TakesMemoryLate};
ghost use Rattle.shared_book.specs.Asks.{caller_of};
ghost use Rattle.shared_book.specs.Bases.{numbers_of};

use std::alloc::Global;
use ticket_lock::Logged;
use trace_command::{Command, Config, Entry, Refusal, Reply};

/// A tracer and the history of the commands done, which callers can share through a lock. What runs over one, as threads and sessions do, is proved over
/// this trait, and so doesn't wait for the proof of a tracer.
pub trait SharedBook: Logged<Entry = Entry> + Drop + Sized {
    // The configuration that it was made with.
    ghost made_with: { Self → Config };

    /// A book with no history. Refused only if a number of the configuration is out of range, or with `Memory`.
    fn start(alloc: Global, config: Config) -> Result<Self, Refusal>
        ensures made { IfOk result (λ book. (made_with book ≡ config) × (Self.entries book ≡ [])) }
        ensures refused { IfErr result (λ r. r ≢ refusal.Memory → ¬ IsInRange config) };

    /// Runs a command, or refuses it. The answer is the one that the history gives. A command that is done becomes the history's next entry, under
    /// this ticket and caller's number; a refused one changes nothing. The history stays legal. If an allocation is refused, `Memory` may replace the
    /// answer, but no refusal that is found early, and none of a command that allocates late (`TakesMemoryLate`).
    fn answer(&mut self, ticket: u64, by: u32, command: &Command<'_>) -> Result<Reply, Refusal>
        requires { All (λ (entry : Entry). entry.ticket < ticket) (Self.entries self.old) }
        ensures reply { OrMemory result (answer_to (made_with self.old) (Self.entries self.old) command.now) }
        ensures early { IsFoundEarly (answer_to (made_with self.old) (Self.entries self.old) command.now)
            → result ≡ answer_to (made_with self.old) (Self.entries self.old) command.now }
        ensures late_memory { TakesMemoryLate (request_of command.now)
            → IfErr (answer_to (made_with self.old) (Self.entries self.old) command.now) (λ r. result ≡ Err r) }
        ensures done { OnOk result (Self.entries self.new
            ≡ Self.entries self.old ++ record { ticket = ticket; by = by; command = command.now } ∷ []) }
        ensures refused { OnErr result (Self.entries self.new ≡ Self.entries self.old) }
        ensures config { made_with self.new ≡ made_with self.old }
        ensures legal { IsLegal (made_with self.new) (Self.entries self.new) };

    // A lock sees its entries' tickets and callers, and as its base the configuration.
    ghost tickets: { Self.ticket ≡ (λ (entry : Entry). entry.ticket) };

    ghost callers: { Self.by ≡ caller_of };

    ghost bases: { (book : Self) → Self.base book ≡ numbers_of (made_with book) };
}
