//! The history: entries as bytes, one after the other, in chunks.

ghost use Rattle.std.specs.Prelude.{◌≡◌, ◌+◌, ◌<◌, ◌^◌, [], ◌∷◌, ◌++◌, length, OnOk, OnErr};
ghost use Rattle.command_log.specs.ChunkSeen.{entries_of};

use crate::chunk::Chunk;
use crate::entries::Entries;
use std::alloc::{AllocError, Global};
use std::marker::Model;
use std::mem;
use trace_command::Command;

/// The entries of a history, seen as their list, and what is written ahead. An entry is written ahead first, which may be refused memory, and then
/// appended, which can't fail. One that is never appended makes way for the next.
#[derive(Drop)]
pub struct History {
    alloc: Global,
    // The chunks that are full, oldest first, and the one that is written.
    full: Vec<Chunk>,
    last: Chunk,
    // How many entries count.
    count: usize,
    // How many are written ahead: one or none.
    ahead: usize,
}

impl Model for History {
    ghost use Rattle.command_log.specs.HistorySeen.{HistorySeen};

    ghost Value = { HistorySeen };

    ghost use Rattle.command_log.specs.HistoryBytes.{seen_history, IsHistory};

    ghost view = { seen_history };

    ghost invariant = { IsHistory };
}

impl History {
    /// A history with no entries. It takes no memory yet.
    pub fn new(alloc: Global) -> History
        ensures { result ≡ record { entries = []; ahead = [] } }
    {
        History {
            alloc,
            full: Vec::new(alloc),
            last: Chunk::none(alloc),
            count: 0,
            ahead: 0,
        }
    }

    // Takes away what is written ahead, and sees to it that the last chunk has room.
    fn begin(&mut self) -> Result<(), AllocError>
        ensures { self.new ≡ record { entries = self.old.entries; ahead = [] } }
    {
        self.last.discard();
        self.ahead = 0;
        if self.last.is_full() {
            begin_chunk(self.alloc, &mut self.full, &mut self.last)?;
        }
        Ok(())
    }

    /// Writes an entry ahead, in place of what was. `Err` says that memory is refused; nothing is written ahead then. It is inlined, so that it is known
    /// which command it is.
    #[inline(always)]
    pub fn write_ahead(
        &mut self,
        ticket: u64,
        by: u32,
        command: &Command<'_>,
    ) -> Result<(), AllocError>
        ensures written { OnOk result (self.new.ahead
            ≡ record { ticket = ticket; by = by; command = command.now } ∷ []) }
        ensures refused { OnErr result (self.new.ahead ≡ []) }
        ensures entries { self.new.entries ≡ self.old.entries }
    {
        self.begin()?;
        if let Err(error) = self.last.write_entry(ticket, by, command) {
            self.last.discard();
            return Err(error);
        }
        self.ahead = 1;
        Ok(())
    }

    /// Appends what is written ahead to the entries.
    pub fn append_written(&mut self)
        requires { length self.old.entries + length self.old.ahead < 2 ^ 64 }
        ensures { self.new ≡ record { entries = self.old.entries ++ self.old.ahead; ahead = [] } }
    {
        self.last.keep(self.ahead);
        self.count += self.ahead;
        self.ahead = 0;
    }

    /// The entries, oldest first.
    pub fn entries(&self) -> Entries<'_>
        ensures { result ≡ self.now.entries }
    {
        Entries::new(self.alloc, &self.full, self.last.entries(), self.count)
    }
}

// Puts the last chunk after the full ones, and begins a new one.
#[cold]
#[inline(never)]
fn begin_chunk(alloc: Global, full: &mut Vec<Chunk>, last: &mut Chunk) -> Result<(), AllocError>
    ensures entries { entries_of full.new.items ++ last.new.entries ≡ entries_of full.old.items ++ last.old.entries }
    ensures begun { OnOk result (last.new.ahead ≡ []) }
    ensures refused { OnErr result (last.new ≡ last.old) }
{
    full.reserve(1)?;
    let next = Chunk::new(alloc)?;
    full.push_reserved(mem::replace(last, next));
    Ok(())
}
