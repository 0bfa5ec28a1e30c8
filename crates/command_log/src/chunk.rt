//! A chunk of a history: bytes in which entries lie one after the other.
//!
//! ```text
//!     first byte                                mark               end         length     capacity
//!      |                                         |                  |             |           |
//!      [ entry ][ entry     ][ entry ]   ..      [ written ahead    ][ room       ]           ]
//! ```
//!
//! The entries up to the mark count. What is written ahead doesn't count yet: `keep` moves the mark to its end, `discard` takes it away. The room after
//! it has bytes of no meaning, so that most entries are written where they lie, and the vector isn't extended by each.

ghost use Rattle.std.specs.Prelude.{◌≡◌, ◌+◌, ◌<◌, ◌≤◌, ◌^◌, [], ◌∷◌, ◌++◌, length, take, true, false, nat_lt, Ok, IfOk, OnOk, OnErr};
ghost use Rattle.command_log.specs.EntryEncoding.{length_bytes, text_bytes, pairs_bytes, ArePairsShort};
ghost use Rattle.command_log.specs.PackedEntries.{entries_in, ArePacked};

use crate::entries::ChunkEntries;
use crate::short::{SHORT_BYTES, put_at, put_short};
use std::alloc::{AllocError, Global};
use std::marker::Model;
use trace_format::BorrowedPair;

/// A chunk is made with memory for so many bytes. It doesn't move, unless an entry is longer than 4,352 bytes.
const CHUNK_BYTES: usize = 66_560;

/// So many bytes of room are made at once.
const ROOM_BYTES: usize = 1024;

/// A chunk with less memory left than this is full: an entry that a line of 4,096 bytes asks for takes at most 4,352, and the room after it the rest.
const SPARE_BYTES: usize = 5376;

/// Bytes of entries, of which the last may be written ahead.
#[derive(Drop)]
pub(crate) struct Chunk {
    bytes: Vec<u8>,
    // The mark: so many bytes are of entries that count.
    filled: usize,
    // The end of what is written ahead.
    end: usize,
    // How many entries count.
    count: usize,
}

impl Model for Chunk {
    ghost use Rattle.command_log.specs.ChunkSeen.{ChunkSeen};

    ghost Value = { ChunkSeen };

    ghost use Rattle.command_log.specs.ChunkBytes.{seen_chunk, IsChunk};

    ghost view = { seen_chunk };

    ghost invariant = { IsChunk };
}

// Sees to it that a short entry has room at the end of what is written.
#[inline(always)]
fn make_room(bytes: &mut Vec<u8>, end: usize) -> Result<(), AllocError>
    requires { end ≤ length bytes.old.items }
    ensures kept { take end bytes.new.items ≡ take end bytes.old.items }
    ensures within { end ≤ length bytes.new.items }
    ensures room { OnOk result (end + SHORT_BYTES ≤ length bytes.new.items) }
{
    if bytes.len() - end < SHORT_BYTES {
        bytes.truncate(end);
        bytes.extend_from_slice(&[0; ROOM_BYTES])?;
    }
    Ok(())
}

impl Chunk {
    /// A chunk that is full from the beginning, and takes no memory.
    pub(crate) fn none(alloc: Global) -> Chunk
        ensures { result ≡ record { entries = []; ahead = []; room = 0 } }
    {
        Chunk {
            bytes: Vec::new(alloc),
            filled: 0,
            end: 0,
            count: 0,
        }
    }

    /// A chunk with no entries.
    pub(crate) fn new(alloc: Global) -> Result<Chunk, AllocError>
        ensures { IfOk result (λ chunk. chunk ≡ record { entries = []; ahead = []; room = 66560 }) }
    {
        Ok(Chunk {
            bytes: Vec::with_capacity(alloc, CHUNK_BYTES)?,
            filled: 0,
            end: 0,
            count: 0,
        })
    }

    /// Whether there is little room left.
    pub(crate) fn is_full(&self) -> bool
        ensures { result ≡ nat_lt self.now.room 5376 }
    {
        self.bytes.capacity() - self.end < SPARE_BYTES
    }

    /// Sees to it that there is room for several pieces.
    pub(crate) fn make_room(&mut self) -> Result<(), AllocError>
        ensures entries { self.new.entries ≡ self.old.entries }
        ensures ahead { self.new.ahead ≡ self.old.ahead }
    {
        make_room(&mut self.bytes, self.end)
    }

    /// Writes bytes ahead. Fails only if there is no room for them, and memory is refused.
    pub(crate) fn write(&mut self, bytes: &[u8]) -> Result<(), AllocError>
        ensures entries { self.new.entries ≡ self.old.entries }
        ensures ahead { OnOk result (self.new.ahead ≡ self.old.ahead ++ bytes.now) }
        ensures memory { OnErr result (self.old.room < length bytes.now) }
    {
        if self.bytes.len() - self.end >= bytes.len() {
            self.end = put_at(&mut self.bytes, self.end, bytes);
            return Ok(());
        }
        self.bytes.truncate(self.end);
        self.bytes.extend_from_slice(bytes)?;
        self.end = self.bytes.len();
        Ok(())
    }

    /// Writes one byte ahead.
    pub(crate) fn write_byte(&mut self, byte: u8) -> Result<(), AllocError>
        ensures entries { self.new.entries ≡ self.old.entries }
        ensures ahead { OnOk result (self.new.ahead ≡ self.old.ahead ++ byte ∷ []) }
    {
        self.write(&[byte])
    }

    /// Writes the entry of an emission with this head ahead, if it is short, or of a path, which has no pairs. Whether it is.
    #[inline(always)]
    pub(crate) fn write_short(
        &mut self,
        head: &[u8],
        event: &[u8],
        pairs: &[BorrowedPair<'_>],
    ) -> Result<bool, AllocError>
        requires { length head.now ≤ SHORT_BYTES }
        ensures entries { self.new.entries ≡ self.old.entries }
        ensures ahead { result ≡ Ok true → self.new.ahead
            ≡ self.old.ahead ++ (head.now ++ text_bytes event.now ++ length_bytes (length pairs.now) ++ pairs_bytes pairs.now) }
        ensures short { result ≡ Ok true → (length event.now < 2 ^ 64) × (length pairs.now < 2 ^ 64) × ArePairsShort pairs.now }
        ensures other { result ≡ Ok false → self.new.ahead ≡ self.old.ahead }
    {
        make_room(&mut self.bytes, self.end)?;
        match put_short(&mut self.bytes, self.end, head, event, pairs) {
            Some(end) => {
                self.end = end;
                Ok(true)
            }
            None => Ok(false),
        }
    }

    /// Takes away what is written ahead.
    pub(crate) fn discard(&mut self)
        ensures entries { self.new.entries ≡ self.old.entries }
        ensures ahead { self.new.ahead ≡ [] }
    {
        self.end = self.filled;
    }

    /// What is written ahead, which is so many entries, counts from now on.
    pub(crate) fn keep(&mut self, count: usize)
        requires packed { ArePacked count self.old.ahead }
        requires few { length self.old.entries + count < 2 ^ 64 }
        ensures { self.new ≡ record self.old { entries = self.old.entries ++ entries_in count self.old.ahead; ahead = [] } }
    {
        self.filled = self.end;
        self.count += count;
    }

    /// The entries that count.
    pub(crate) fn entries(&self) -> ChunkEntries<'_>
        ensures { result ≡ self.now.entries }
    {
        ChunkEntries::new(&self.bytes[..self.filled], self.count)
    }
}
