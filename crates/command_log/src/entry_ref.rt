//! Entries where a history keeps them: their strings are slices of its bytes.

ghost use Rattle.std.specs.Prelude.{◌≡◌, IfOk};
ghost use Rattle.command_log.specs.EntryRefs.{command_shown, entry_shown};

use crate::pair_refs::PairRefs;
use std::alloc::{AllocError, Global};
use trace_command::{Entry, OwnedCommand};
use trace_lex::Text;

/// An entry of a history, read where it lies, so that no memory is taken.
#[derive(Drop)]
pub struct EntryRef<'a> {
    pub ticket: u64,
    pub by: u32,
    pub command: CommandRef<'a>,
}

/// A command of a history, read where it lies: its strings and pairs are slices of the history's bytes.
#[derive(Drop)]
pub enum CommandRef<'a> {
    Emit {
        event: &'a [u8],
        cpu: u32,
        pid: i32,
        pairs: PairRefs<'a>,
    },
    Mkdir(&'a [u8]),
    Rmdir(&'a [u8]),
    Write {
        path: &'a [u8],
        append: bool,
        text: &'a [u8],
    },
    Read {
        path: &'a [u8],
        limit: Option<u64>,
    },
}

impl<'a> EntryRef<'a> {
    /// The entry, with strings of its own. It fails only if memory is refused.
    pub fn to_entry(&self, alloc: Global) -> Result<Entry, AllocError>
        ensures { IfOk result (λ entry. entry ≡ entry_shown self.now) }
    {
        let command = self.command.to_command(alloc)?;
        Ok(Entry {
            ticket: self.ticket,
            by: self.by,
            command,
        })
    }
}

impl<'a> CommandRef<'a> {
    /// The command, with strings of its own. It fails only if memory is refused.
    pub fn to_command(&self, alloc: Global) -> Result<OwnedCommand, AllocError>
        ensures { IfOk result (λ command. command ≡ command_shown self.now) }
    {
        match self {
            CommandRef::Emit {
                event,
                cpu,
                pid,
                pairs,
            } => Ok(OwnedCommand::Emit {
                event: Text::from_slice(alloc, event)?,
                cpu: *cpu,
                pid: *pid,
                pairs: pairs.to_pairs(alloc)?,
            }),
            CommandRef::Mkdir(path) => Ok(OwnedCommand::Mkdir(Text::from_slice(alloc, path)?)),
            CommandRef::Rmdir(path) => Ok(OwnedCommand::Rmdir(Text::from_slice(alloc, path)?)),
            CommandRef::Write { path, append, text } => Ok(OwnedCommand::Write {
                path: Text::from_slice(alloc, path)?,
                append: *append,
                text: Text::from_slice(alloc, text)?,
            }),
            CommandRef::Read { path, limit } => Ok(OwnedCommand::Read {
                path: Text::from_slice(alloc, path)?,
                limit: *limit,
            }),
        }
    }
}
