//! Commands, their replies, and the entries of a history.

ghost use Rattle.std.specs.Prelude.{◌≡◌, IfOk, Some, None, true, false};
ghost use Rattle.trace_command.specs.declared.command.CommandOf.TheVariants as commands;
ghost use Rattle.trace_command.specs.Commands.{pairs_of};
ghost use Rattle.trace_command.specs.Configs.{IsInRange};

use crate::borrowed::{BorrowedPairs, Bytes};
use crate::pairs::{LentPairs, Pairs};
use std::alloc::{AllocError, Global};
use trace_format::BorrowedPair;
use trace_lex::Text;

/// What is asked of a tracer, with strings of the type `S` and pairs of the type `P`.
#[derive(Clone, PartialEq, Eq, Drop)]
pub enum CommandOf<S, P> {
    /// An event happens on a CPU, in a process.
    Emit {
        event: S,
        cpu: u32,
        pid: i32,
        pairs: P,
    },
    /// Makes the instance of this path.
    Mkdir(S),
    /// Removes the instance of this path.
    Rmdir(S),
    /// Writes the text to a file, by `>` or, to append, by `>>`.
    Write {
        path: S,
        append: bool,
        text: S,
    },
    /// Reads a file; of a pipe at most `limit` records.
    Read {
        path: S,
        limit: Option<u64>,
    },
}

/// A command whose strings and pairs lie elsewhere, as in the line of a script.
pub type Command<'a> = CommandOf<Bytes<'a>, BorrowedPairs<'a>>;

/// A command with strings and pairs of its own.
pub type OwnedCommand = CommandOf<Text, Pairs>;

impl<'a> CommandOf<Bytes<'a>, BorrowedPairs<'a>> {
    /// What `echo TEXT > PATH` asks: a write that replaces.
    pub fn write(path: &'a [u8], text: &'a [u8]) -> Command<'a>
        ensures { result ≡ commands.Write path.now false text.now }
    {
        CommandOf::Write {
            path: Bytes::new(path),
            append: false,
            text: Bytes::new(text),
        }
    }

    /// What `echo TEXT >> PATH` asks: a write that appends.
    pub fn append(path: &'a [u8], text: &'a [u8]) -> Command<'a>
        ensures { result ≡ commands.Write path.now true text.now }
    {
        CommandOf::Write {
            path: Bytes::new(path),
            append: true,
            text: Bytes::new(text),
        }
    }

    /// What `cat PATH` asks: a read to the end.
    pub fn read(path: &'a [u8]) -> Command<'a>
        ensures { result ≡ commands.Read path.now None }
    {
        CommandOf::Read {
            path: Bytes::new(path),
            limit: None,
        }
    }

    /// What `take LIMIT PATH` asks: a read of at most so many records.
    pub fn take(path: &'a [u8], limit: u64) -> Command<'a>
        ensures { result ≡ commands.Read path.now (Some limit) }
    {
        CommandOf::Read {
            path: Bytes::new(path),
            limit: Some(limit),
        }
    }

    /// What `mkdir PATH` asks: an instance made.
    pub fn mkdir(path: &'a [u8]) -> Command<'a>
        ensures { result ≡ commands.Mkdir path.now }
    {
        CommandOf::Mkdir(Bytes::new(path))
    }

    /// What `rmdir PATH` asks: an instance removed.
    pub fn rmdir(path: &'a [u8]) -> Command<'a>
        ensures { result ≡ commands.Rmdir path.now }
    {
        CommandOf::Rmdir(Bytes::new(path))
    }

    /// An emission of the event of this name on a CPU, in a process.
    #[inline]
    pub fn emit(event: &'a [u8], cpu: u32, pid: i32, pairs: &'a [BorrowedPair<'a>]) -> Command<'a>
        ensures { result ≡ commands.Emit event.now cpu pid pairs.now }
    {
        CommandOf::Emit {
            event: Bytes::new(event),
            cpu,
            pid,
            pairs: BorrowedPairs::new(pairs),
        }
    }
}

impl<'a> CommandOf<Bytes<'a>, BorrowedPairs<'a>> {
    /// The same command once more. Where this one is handed on by reference to code that is not inlined, the compiler has to put it into memory, and no
    /// longer knows which command it is; where the other is, it does.
    #[inline]
    pub fn again(&self) -> Command<'a>
        ensures { result ≡ self.now }
    {
        match self {
            CommandOf::Emit {
                event,
                cpu,
                pid,
                pairs,
            } => Command::emit(event.as_bytes(), *cpu, *pid, pairs.as_slice()),
            CommandOf::Mkdir(path) => Command::mkdir(path.as_bytes()),
            CommandOf::Rmdir(path) => Command::rmdir(path.as_bytes()),
            CommandOf::Write { path, append, text } => write_of(
                path.as_bytes(),
                *append,
                text.as_bytes(),
            ),
            CommandOf::Read { path, limit } => read_of(path.as_bytes(), *limit),
        }
    }

    /// The same with strings and pairs of its own.
    pub fn copied(&self, alloc: Global) -> Result<OwnedCommand, AllocError>
        ensures { IfOk result (λ copy. copy ≡ self.now) }
    {
        match self {
            CommandOf::Emit {
                event,
                cpu,
                pid,
                pairs,
            } => Ok(CommandOf::Emit {
                event: event.copied(alloc)?,
                cpu: *cpu,
                pid: *pid,
                pairs: pairs.copied(alloc)?,
            }),
            CommandOf::Mkdir(path) => Ok(CommandOf::Mkdir(path.copied(alloc)?)),
            CommandOf::Rmdir(path) => Ok(CommandOf::Rmdir(path.copied(alloc)?)),
            CommandOf::Write { path, append, text } => Ok(CommandOf::Write {
                path: path.copied(alloc)?,
                append: *append,
                text: text.copied(alloc)?,
            }),
            CommandOf::Read { path, limit } => Ok(CommandOf::Read {
                path: path.copied(alloc)?,
                limit: *limit,
            }),
        }
    }
}

impl CommandOf<Text, Pairs> {
    /// The pairs of an emission, lent, for `lent`. It fails only if memory is refused; of at most one pair none is taken.
    pub fn lend_pairs(&self, alloc: Global) -> Result<LentPairs<'_>, AllocError>
        ensures { IfOk result (λ lent. lent ≡ pairs_of self.now) }
    {
        match self {
            CommandOf::Emit { pairs, .. } => pairs.lend(alloc),
            _ => Ok(LentPairs::none(alloc)),
        }
    }

    /// The same by reference; the pairs are those that it lent.
    pub fn lent<'a>(&'a self, pairs: &'a [BorrowedPair<'a>]) -> Command<'a>
        requires { pairs.now ≡ pairs_of self.now }
        ensures { result ≡ self.now }
    {
        match self {
            CommandOf::Emit {
                event,
                cpu,
                pid,
                ..
            } => { Command::emit(event.as_bytes(), *cpu, *pid, pairs) }
            CommandOf::Mkdir(path) => Command::mkdir(path.as_bytes()),
            CommandOf::Rmdir(path) => Command::rmdir(path.as_bytes()),
            CommandOf::Write { path, append, text } => CommandOf::Write {
                path: Bytes::new(path.as_bytes()),
                append: *append,
                text: Bytes::new(text.as_bytes()),
            },
            CommandOf::Read { path, limit } => CommandOf::Read {
                path: Bytes::new(path.as_bytes()),
                limit: *limit,
            },
        }
    }
}

// A write.
fn write_of<'a>(path: &'a [u8], append: bool, text: &'a [u8]) -> Command<'a>
    ensures { result ≡ commands.Write path.now append text.now }
{
    CommandOf::Write {
        path: Bytes::new(path),
        append,
        text: Bytes::new(text),
    }
}

// A read.
fn read_of<'a>(path: &'a [u8], limit: Option<u64>) -> Command<'a>
    ensures { result ≡ commands.Read path.now limit }
{
    CommandOf::Read {
        path: Bytes::new(path),
        limit,
    }
}

/// The answer to a command that was done.
#[derive(Clone, Debug, PartialEq, Eq, Drop)]
pub enum Reply {
    Done,
    Text(Text),
}

/// A command that was done: its ticket, and its caller's number.
#[derive(Clone, PartialEq, Eq, Drop)]
pub struct Entry {
    pub ticket: u64,
    pub by: u32,
    pub command: OwnedCommand,
}

/// What a book is made with.
#[derive(Clone, Copy, PartialEq, Eq)]
pub struct Config {
    /// The number of CPUs, from 1 to 8.
    pub cpus: u32,
    /// The pages of each CPU's ring, from 2 to 1,024.
    pub pages: u32,
    /// The bytes of a page, from 64 to 4,080 and a multiple of 8.
    pub page_bytes: u32,
    /// The most entries that the history may have, from 1 to 2^32.
    pub history_limit: u64,
}

impl Config {
    /// Whether each number is in its range, so that a book can be made with it.
    pub fn is_in_range(&self) -> bool
        ensures yes { result ≡ true → IsInRange self.now }
        ensures no { result ≡ false → ¬ IsInRange self.now }
    {
        (1..=8).contains(&self.cpus)
            && (2..=1024).contains(&self.pages)
            && (64..=4080).contains(&self.page_bytes)
            && self.page_bytes % 8 == 0
            && self.history_limit >= 1
            && self.history_limit <= 1 << 32
    }
}
