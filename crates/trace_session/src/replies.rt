//! Replies on their way to a device, which takes them in pieces of 8 KiB.

ghost use Rattle.std.specs.Prelude.{◌≡◌, ℕ, ◌+◌, ◌<◌, ◌≤◌, List, [], ◌++◌, length, take, IfOk, OnOk, OnErr, IsErrOf};
ghost use Rattle.std.specs.Io.KnownBytes.{Appends};
ghost use Rattle.script_reader.specs.Sources.{HasRisen};
ghost use Rattle.trace_session.specs.Devices.{AppendsFront, Passes};

use crate::device::Sink;
use script_reader::Stop;
use std::alloc::{AllocError, Global};
use std::marker::Model;

/// The bytes of a piece.
const PIECE_BYTES: usize = 8192;

/// Writes the first bytes of a nonempty string, and returns how many.
fn write_some<W: Sink>(writer: &mut W, text: &[u8]) -> Result<usize, Stop>
    requires { 0 < length text.now }
    ensures bytes { IfOk result (λ count. (0 < count) × (count ≤ length text.now)
        × Appends (W.contents writer.old) (W.contents writer.new) (take count text.now)) }
    ensures failures { OnOk result (W.failures writer.new ≡ W.failures writer.old) }
    ensures err { IsErrOf result Stop.Memory → ⊥ }
    ensures stopped { IsErrOf result Stop.Stopped → ⊥ }
    ensures failed { OnErr result (HasRisen (W.failures writer.old) (W.failures writer.new)
        × Appends (W.contents writer.old) (W.contents writer.new) []) }
    ensures heard { W.heard writer.new ≡ W.heard writer.old }
{
    match writer.write(text) {
        Ok(count) if count > 0 => Ok(count),
        _ => Err(Stop::Device),
    }
}

/// Writes a whole string.
#[tactic(auto, using(crate::proofs::DeviceLemmas::Appends_append))]
fn write_all<W: Sink>(writer: &mut W, text: &[u8]) -> Result<(), Stop>
    ensures bytes { OnOk result (Appends (W.contents writer.old) (W.contents writer.new) text.now) }
    ensures failures { OnOk result (W.failures writer.new ≡ W.failures writer.old) }
    ensures err { IsErrOf result Stop.Memory → ⊥ }
    ensures stopped { IsErrOf result Stop.Stopped → ⊥ }
    ensures failed { OnErr result (HasRisen (W.failures writer.old) (W.failures writer.new)
        × AppendsFront (W.contents writer.old) (W.contents writer.new) text.now) }
    ensures heard { W.heard writer.new ≡ W.heard writer.old }
{
    let mut rest = text;
    while !rest.is_empty() {
        let count = write_some(writer, rest)?;
        rest = &rest[count..];
    }
    Ok(())
}

/// Buffered replies, at most one piece. Contracts see their bytes.
#[derive(Drop)]
pub(crate) struct Replies {
    waiting: Vec<u8>,
}

impl Model for Replies {
    ghost use Rattle.std.specs.Prelude.{ℕ, List, ◌≤◌, vec_len, vec_capacity};

    ghost Value = { List ℕ };

    ghost view = { λ replies. replies.waiting.items };

    ghost invariant = { λ replies. (vec_len replies.waiting ≤ 8192) × (8192 ≤ vec_capacity replies.waiting) };
}

impl Replies {
    /// An empty buffer with room for one piece.
    pub(crate) fn new(alloc: Global) -> Result<Replies, AllocError>
        ensures { IfOk result (λ replies. replies ≡ []) }
    {
        Ok(Replies {
            waiting: Vec::with_capacity(alloc, PIECE_BYTES)?,
        })
    }

    /// Buffers a string that fits.
    fn keep(&mut self, text: &[u8])
        requires { length self.old + length text.now ≤ PIECE_BYTES }
        ensures { self.new ≡ self.old ++ text.now }
    {
        let Ok(()) = self.waiting.extend_from_slice(text) else {
            unreachable!()
        };
    }

    /// Writes what is buffered.
    pub(crate) fn flush<W: Sink>(&mut self, writer: &mut W) -> Result<(), Stop>
        ensures none { OnOk result (self.new ≡ []) }
        ensures bytes { OnOk result (Appends (W.contents writer.old) (W.contents writer.new) self.old) }
        ensures failures { OnOk result (W.failures writer.new ≡ W.failures writer.old) }
        ensures err { IsErrOf result Stop.Memory → ⊥ }
        ensures stopped { IsErrOf result Stop.Stopped → ⊥ }
        ensures failed { OnErr result (HasRisen (W.failures writer.old) (W.failures writer.new)
            × AppendsFront (W.contents writer.old) (W.contents writer.new) self.old) }
        ensures heard { W.heard writer.new ≡ W.heard writer.old }
    {
        write_all(writer, &self.waiting)?;
        self.waiting.clear();
        Ok(())
    }

    /// Adds a string. A full piece is written; the rest of the string is buffered, or written as well if it is a piece or more.
    pub(crate) fn add<W: Sink>(&mut self, writer: &mut W, text: &[u8]) -> Result<(), Stop>
        ensures bytes { OnOk result (Passes (W.contents writer.old) self.old (W.contents writer.new) self.new text.now) }
        ensures failures { OnOk result (W.failures writer.new ≡ W.failures writer.old) }
        ensures err { IsErrOf result Stop.Memory → ⊥ }
        ensures stopped { IsErrOf result Stop.Stopped → ⊥ }
        ensures failed { OnErr result (HasRisen (W.failures writer.old) (W.failures writer.new)
            × AppendsFront (W.contents writer.old) (W.contents writer.new) (self.old ++ text.now)) }
        ensures heard { W.heard writer.new ≡ W.heard writer.old }
    {
        let room = PIECE_BYTES - self.waiting.len();
        if text.len() < room {
            self.keep(text);
            return Ok(());
        }
        let (front, rest) = text.split_at(room);
        self.keep(front);
        self.flush(writer)?;
        if rest.len() < PIECE_BYTES {
            self.keep(rest);
            return Ok(());
        }
        write_all(writer, rest)?;
        Ok(())
    }
}
