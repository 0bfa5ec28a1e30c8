//! The book: a history of commands, and the tracer that they led to.
//!
//! A command runs in the tracer's two phases (`Tracer`, tracer), and between them its entry is written ahead:
//!
//! ```text
//!   prepare   looks      what can be refused is found, HistoryFull last; the memory of the change is allocated
//!             writes     the entry is written ahead, which may be refused memory
//!   commit    changes    the change is made
//!             records    the entry counts
//! ```
//!
//! An emission's entry counts before it is delivered, which can't fail.
//!
//! So a command that is refused leaves nothing, and one that is done leaves its entry.

ghost use Rattle.std.specs.Prelude.{◌≡◌, ◌<◌, [], ◌∷◌, ◌++◌, All, is_some, IfOk, IfErr, IfSome, OnOk, OnErr, ◌≢◌};
ghost use Rattle.std.specs.List.{slice_get};
ghost use Rattle.std.specs.Option.{option_map};
ghost use Rattle.trace_command.specs.FileNames.{bytes_now};
ghost use Rattle.trace_command.specs.Configs.{IsInRange};
ghost use Rattle.tracer_specification.specs.History.{answer_to, past_of, IsLegal};
ghost use Rattle.tracer_specification.specs.LateMemory.{TakesMemoryLate};
ghost use Rattle.trace_command.specs.Refusals.{OrMemory, IsFoundEarly};
ghost use Rattle.trace_command.specs.Requests.{request_of};
ghost use Rattle.tracer_specification.specs.Settings.{instance_names, is_there, now_of, ticks};
ghost use Rattle.trace_instance.specs.Instances.{InstanceStandsFor};
ghost use Rattle.trace_command.specs.declared.refusal.Refusal.TheVariants as refusal;
ghost use Rattle.trace_book.specs.private.BookCalls.{IsBookCall};

use command_log::{Entries, History};
use std::alloc::Global;
use std::marker::Model;
use trace_command::{Command, Config, Refusal, Reply};
use trace_instance::Instance;
use tracer::Tracer;

/// A tracer and the history of the commands done. Commands name files as in ftrace.rst and run one at a time.
#[derive(Drop)]
pub struct Book {
    live: Tracer,
    history: History,
}

impl Model for Book {
    ghost use Rattle.trace_book.specs.BookSeen.{BookSeen};

    ghost Value = { BookSeen };

    ghost use Rattle.trace_book.specs.Books.{seen, IsSound};

    ghost view = { seen };

    ghost invariant = { IsSound };
}

impl Book {
    /// A book with no history. Refused with `BadValue` exactly if a number of the configuration is out of range, otherwise only with `Memory`.
    pub fn new(alloc: Global, config: Config) -> Result<Book, Refusal>
        ensures made { IfOk result (λ book. (book.config ≡ config) × (book.entries ≡ [])) }
        ensures in_range { OnOk result (IsInRange config) }
        ensures out_of_range { ¬ IsInRange config → IfErr result (λ r. r ≡ refusal.BadValue) }
        ensures refused { IfErr result (λ r. r ≢ refusal.Memory → (r ≡ refusal.BadValue) × ¬ IsInRange config) }
    {
        let live = Tracer::new(alloc, config)?;
        Ok(Book {
            live,
            history: History::new(alloc),
        })
    }

    /// Runs a command, or refuses it. The answer is the one that the history gives. A command that is done becomes the history's next entry, under
    /// this ticket and caller's number; a refused one changes nothing. The history stays legal.
    ///
    /// If an allocation is refused, `Memory` may replace the answer, but never `NoSuchFile`, `NotReadable`, `NotWritable`, `BadValue`, `BadTrigger`,
    /// `NoSuchEvent`, `InstanceExists`, `NoSuchInstance` or `NoSuchCpu`, and never a refusal of a command that allocates late (`TakesMemoryLate`): `rmdir`,
    /// or a write of anything but a declaration, a filter that doesn't clear, a trigger with a filter, or a hist trigger.
    #[inline(always)]
    pub fn ask(&mut self, ticket: u64, by: u32, command: &Command<'_>) -> Result<Reply, Refusal>
        requires { All (λ entry. entry.ticket < ticket) self.old.entries }
        ensures reply { OrMemory result (answer_to self.old.config self.old.entries command.now) }
        ensures early { IsFoundEarly (answer_to self.old.config self.old.entries command.now)
            → result ≡ answer_to self.old.config self.old.entries command.now }
        ensures late_memory { TakesMemoryLate (request_of command.now)
            → IfErr (answer_to self.old.config self.old.entries command.now) (λ r. result ≡ Err r) }
        ensures done { OnOk result (self.new.entries
            ≡ self.old.entries ++ record { ticket = ticket; by = by; command = command.now } ∷ []) }
        ensures refused { OnErr result (self.new.entries ≡ self.old.entries) }
        ensures config { self.new.config ≡ self.old.config }
        ensures legal { IsLegal self.new.config self.new.entries }
    {
        match command {
            Command::Emit { .. } => self.run_emission(ticket, by, command),
            _ => self.run_other(ticket, by, &command.again()),
        }
    }

    // As `ask`, for an emission, with its clauses in one word. It is inlined, so that an emission's parts and its answer are not moved.
    #[inline(always)]
    fn run_emission(
        &mut self,
        ticket: u64,
        by: u32,
        command: &Command<'_>,
    ) -> Result<Reply, Refusal>
        requires rises { All (λ entry. entry.ticket < ticket) self.old.entries }
        requires emits { ticks (request_of command.now) ≡ 1 }
        ensures { IsBookCall self.old self.new (record { ticket = ticket; by = by; command = command.now }) result }
    {
        let limit = self.live.config().history_limit;
        self.live.prepare_emission(limit, command)?;
        self.history.write_ahead(ticket, by, command)?;
        self.history.append_written();
        self.live.deliver();
        Ok(Reply::Done)
    }

    // As `ask`, for a command other than an emission.
    #[inline(never)]
    fn run_other(&mut self, ticket: u64, by: u32, command: &Command<'_>) -> Result<Reply, Refusal>
        requires rises { All (λ entry. entry.ticket < ticket) self.old.entries }
        requires other { ticks (request_of command.now) ≡ 0 }
        ensures { IsBookCall self.old self.new (record { ticket = ticket; by = by; command = command.now }) result }
    {
        let limit = self.live.config().history_limit;
        let prepared = self.live.prepare(limit, command)?;
        self.history.write_ahead(ticket, by, command)?;
        let reply = self.live.carry_out(prepared)?;
        self.history.append_written();
        Ok(reply)
    }

    /// The history, oldest entry first. It is legal: tickets rise, and each entry was done after those before it.
    pub fn entries(&self) -> Entries<'_>
        ensures entries { result ≡ self.now.entries }
        ensures legal { IsLegal self.now.config self.now.entries }
    {
        self.history.entries()
    }

    /// The clock: the number of emissions done.
    pub fn now(&self) -> u64
        ensures { result ≡ now_of (past_of self.now.entries) }
    {
        self.live.now()
    }

    /// The name of the instance at this index, from 0, in order of creation, not counting the top one; `None` beyond the last one.
    pub fn instance_name(&self, index: usize) -> Option<&[u8]>
        ensures { option_map bytes_now result ≡ slice_get (instance_names (past_of self.now.entries)) index }
    {
        self.live.instance_name(index)
    }

    /// The instance with this name, or the top one if no name is given. `Some` exactly if the history has it.
    pub fn instance(&self, name: Option<&[u8]>) -> Option<&Instance>
        ensures there { is_some result ≡ is_there (option_map bytes_now name.entry) (past_of self.now.entries) }
        ensures stands { IfSome result (λ instance.
            InstanceStandsFor self.now.config (option_map bytes_now name.entry) (past_of self.now.entries) instance.now) }
    {
        self.live.instance(name)
    }
}
