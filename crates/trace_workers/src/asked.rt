//! What a worker asks when its turn comes: a command, or something smaller that stands for one until then.

ghost use Rattle.std.specs.Prelude.{◌≡◌, IfOk};
ghost use Rattle.trace_command.specs.Commands.{Command};
ghost use Rattle.trace_workers.specs.Readies.{command_of};

use shared_book::SharedBook;
use std::alloc::{AllocError, Global};
use ticket_lock::Pass;
use trace_command::OwnedCommand;
use trace_format::BorrowedPair;

/// A command that a worker can ask at once.
#[derive(Drop)]
pub enum Ready<'a> {
    /// A command.
    Command(OwnedCommand),
    /// An emission whose strings lie elsewhere.
    Emission {
        event: &'a [u8],
        cpu: u32,
        pid: i32,
        pairs: Vec<BorrowedPair<'a>>,
    },
}

/// What asks for a command. A part can keep its commands as lines of a script, and make each of them only when its turn comes.
///
/// It is read while the caller has its pass, which a turn at the lock takes from it: never while the caller holds the lock. Then the caller asks for the
/// command.
pub trait Asked {
    /// The command that it asks for.
    ghost command: { Self → Command };

    /// The command, ready to be asked. It fails only if memory is refused.
    fn read<'r, B: SharedBook>(self, alloc: Global, pass: &Pass<B>) -> Result<Ready<'r>, AllocError>
    where
        Self: 'r,
        ensures { IfOk result (λ ready. command_of ready ≡ command self) };
}

impl Asked for OwnedCommand {
    ghost command = { λ command. command };

    fn read<'r, B: SharedBook>(
        self,
        _alloc: Global,
        _pass: &Pass<B>,
    ) -> Result<Ready<'r>, AllocError>
    where
        Self: 'r,
    {
        Ok(Ready::Command(self))
    }
}
