//! The entries of a history, read from its bytes one by one.

ghost use Rattle.std.specs.Prelude.{◌≡◌, ◌==◌, [], ◌∷◌, ◌++◌, length, MatchOption, IfOk};
ghost use Rattle.std.specs.Iterator.{YieldsFirstBy, item_count};
ghost use Rattle.command_log.specs.ChunkSeen.{entries_of};
ghost use Rattle.command_log.specs.EntryRefs.{entry_shown};
ghost use Rattle.command_log.specs.PackedEntries.{entries_in};

use crate::chunk::Chunk;
use crate::decode::Reader;
use crate::entry_ref::EntryRef;
use std::alloc::{AllocError, Global};
use std::marker::Model;
use std::slice;
use trace_command::Entry;

/// The entries of a chunk, seen as the list of those that are left.
#[derive(Drop)]
pub(crate) struct ChunkEntries<'a> {
    bytes: &'a [u8],
    count: usize,
}

impl<'a> Model for ChunkEntries<'a> {
    ghost use Rattle.std.specs.Prelude.{List};
    ghost use Rattle.trace_command.specs.declared.command.Entry.{Entry};
    ghost use Rattle.command_log.specs.PackedEntries.{entries_in};

    ghost Value = { List Entry };

    ghost view = { λ entries. entries_in entries.count entries.bytes.now };
}

impl<'a> ChunkEntries<'a> {
    /// So many entries from the first byte on.
    pub(crate) fn new(bytes: &'a [u8], count: usize) -> ChunkEntries<'a>
        ensures { result ≡ entries_in count bytes.entry.now }
    {
        ChunkEntries { bytes, count }
    }

    /// The next entry.
    fn next_entry(&mut self) -> Option<EntryRef<'a>>
        ensures { MatchOption result ((self.old ≡ []) × (self.new ≡ [])) (λ entry. self.old ≡ entry_shown entry ∷ self.new) }
    {
        if self.count == 0 {
            return None;
        }
        let mut reader = Reader::new(self.bytes);
        let entry = reader.entry();
        self.bytes = reader.left();
        self.count -= 1;
        Some(entry)
    }
}

/// An iterator over the entries of a history, oldest first, seen as the list of those that are left. An entry is read where the history keeps it, so no
/// memory is taken.
#[derive(Drop)]
pub struct Entries<'a> {
    alloc: Global,
    // What is left of the chunk that is read, the full chunks after it, and the last one.
    chunk: ChunkEntries<'a>,
    full: slice::Iter<'a, Chunk>,
    last: ChunkEntries<'a>,
    // How many are left.
    left: usize,
}

impl<'a> Model for Entries<'a> {
    ghost use Rattle.std.specs.Prelude.{List};
    ghost use Rattle.trace_command.specs.declared.command.Entry.{Entry};

    ghost Value = { List Entry };

    ghost use Rattle.command_log.specs.EntriesLeft.{entries_left, IsCounted};

    ghost view = { entries_left };

    ghost invariant = { IsCounted };
}

impl<'a> Entries<'a> {
    /// The entries of full chunks and of the last one, so many in all.
    pub(crate) fn new(
        alloc: Global,
        full: &'a [Chunk],
        last: ChunkEntries<'a>,
        left: usize,
    ) -> Entries<'a>
        requires { left ≡ length (entries_of full.now ++ last) }
        ensures { result ≡ entries_of full.entry.now ++ last.entry }
    {
        Entries {
            alloc,
            chunk: ChunkEntries::new(&[], 0),
            full: full.iter(),
            last,
            left,
        }
    }

    /// How many are left.
    pub fn len(&self) -> usize
        ensures { result ≡ length self.now }
    {
        self.left
    }

    /// Whether none is left.
    pub fn is_empty(&self) -> bool
        ensures { result ≡ (length self.now == 0) }
    {
        self.left == 0
    }

    /// The next entry, or `None` if none is left.
    pub fn next_entry(&mut self) -> Option<EntryRef<'a>>
        ensures { MatchOption result ((self.old ≡ []) × (self.new ≡ [])) (λ entry. self.old ≡ entry_shown entry ∷ self.new) }
    {
        'step: loop {
            if let Some(entry) = self.chunk.next_entry() {
                self.left -= 1;
                return Some(entry);
            }
            match self.full.next() {
                Some(chunk) => self.chunk = chunk.entries(),
                None => {
                    let entry = self.last.next_entry()?;
                    self.left -= 1;
                    return Some(entry);
                }
            }
        }
    }

    /// All that are left, as a vector. It fails only if memory is refused.
    pub fn into_vec(self) -> Result<Vec<Entry>, AllocError>
        ensures { IfOk result (λ entries. entries.items ≡ self.entry) }
    {
        let alloc = self.alloc;
        let mut entries = Vec::with_capacity(alloc, self.left)?;
        for entry in self {
            entries.push(entry.to_entry(alloc)?)?;
        }
        Ok(entries)
    }
}

impl<'a> Iterator for Entries<'a> {
    type Item = EntryRef<'a>;

    ghost next_gives = { YieldsFirstBy entry_shown (λ entries. entries) };

    ghost remaining = { item_count (λ entries. entries) };

    fn next(&mut self) -> Option<EntryRef<'a>> {
        self.next_entry()
    }
}
