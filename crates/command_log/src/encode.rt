//! How entries are written as bytes: `specs/EntryEncoding.antt` says it part by part.

ghost use Rattle.std.specs.Prelude.{◌≡◌, ◌≢◌, ◌<◌, ◌^◌, ℕ, ℤ, List, [], ◌∷◌, ◌++◌, length, OnOk};
ghost use Rattle.std.specs.Int.{w32, w64, to_le_bytes, cast_unsigned};
ghost use Rattle.trace_command.specs.declared.command.CommandOf.TheVariants as commands;
ghost use Rattle.trace_format.specs.declared.pair.Pair.{Pair};
ghost use Rattle.command_log.specs.PackedEntries.{IsOneEntry};
ghost use Rattle.command_log.specs.EntryEncoding.{length_bytes, text_bytes, pairs_bytes, other_bytes, ArePairsShort};

use crate::chunk::Chunk;
use std::alloc::AllocError;
use trace_command::Command;
use trace_format::BorrowedPair;

// Kinds of commands, as they are written.
const EMIT: u8 = 0;

const MKDIR: u8 = 1;

const RMDIR: u8 = 2;

const WRITE: u8 = 3;

const APPEND: u8 = 4;

const READ: u8 = 5;

const TAKE: u8 = 6;

// A length of 255 or more is written as this byte and eight more.
const LONG: u8 = 255;

// What the entry of an emission begins with.
#[inline(always)]
fn emission_head(ticket: u64, by: u32, cpu: u32, pid: i32) -> [u8; 21]
    ensures { result ≡ to_le_bytes w64 ticket ++ to_le_bytes w32 by ++ 0 ∷ [] ++ to_le_bytes w32 cpu ++ to_le_bytes w32 (cast_unsigned w32 pid) }
{
    let t = ticket.to_le_bytes();
    let b = by.to_le_bytes();
    let c = cpu.to_le_bytes();
    let p = pid.to_le_bytes();
    [
        t[0], t[1], t[2], t[3], t[4], t[5], t[6], t[7], b[0], b[1], b[2], b[3], EMIT, c[0], c[1],
        c[2], c[3], p[0], p[1], p[2], p[3],
    ]
}

// What the entry of any other command begins with.
#[inline(always)]
fn other_head(ticket: u64, by: u32, kind: u8, limit: u64) -> [u8; 21]
    ensures { result ≡ to_le_bytes w64 ticket ++ to_le_bytes w32 by ++ kind ∷ [] ++ to_le_bytes w64 limit }
{
    let t = ticket.to_le_bytes();
    let c = by.to_le_bytes();
    let l = limit.to_le_bytes();
    [
        t[0], t[1], t[2], t[3], t[4], t[5], t[6], t[7], c[0], c[1], c[2], c[3], kind, l[0], l[1],
        l[2], l[3], l[4], l[5], l[6], l[7],
    ]
}

impl Chunk {
    // A number of four bytes.
    fn write_number_of_four(&mut self, number: u32) -> Result<(), AllocError>
        ensures entries { self.new.entries ≡ self.old.entries }
        ensures ahead { OnOk result (self.new.ahead ≡ self.old.ahead ++ to_le_bytes w32 number) }
    {
        self.write(&number.to_le_bytes())
    }

    // A number of eight bytes.
    fn write_number_of_eight(&mut self, number: u64) -> Result<(), AllocError>
        ensures entries { self.new.entries ≡ self.old.entries }
        ensures ahead { OnOk result (self.new.ahead ≡ self.old.ahead ++ to_le_bytes w64 number) }
    {
        self.write(&number.to_le_bytes())
    }

    // A length.
    #[tactic(auto, unfolding(crate::specs::EntryEncoding::length_bytes))]
    fn write_length(&mut self, length: usize) -> Result<(), AllocError>
        ensures entries { self.new.entries ≡ self.old.entries }
        ensures ahead { OnOk result (self.new.ahead ≡ self.old.ahead ++ length_bytes length) }
    {
        if length < usize::from(LONG) {
            return self.write_byte(length as u8);
        }
        self.write_byte(LONG)?;
        self.write_number_of_eight(length as u64)
    }

    // A string.
    #[tactic(auto, unfolding(crate::specs::EntryEncoding::text_bytes))]
    fn write_text(&mut self, text: &[u8]) -> Result<(), AllocError>
        ensures entries { self.new.entries ≡ self.old.entries }
        ensures ahead { OnOk result (self.new.ahead ≡ self.old.ahead ++ text_bytes text.now) }
        ensures short { length text.now < 2 ^ 64 }
    {
        self.write_length(text.len())?;
        self.write(text)
    }

    // Pairs, one after the other.
    fn write_pairs(&mut self, pairs: &[BorrowedPair<'_>]) -> Result<(), AllocError>
        ensures entries { self.new.entries ≡ self.old.entries }
        ensures ahead { OnOk result (self.new.ahead ≡ self.old.ahead ++ pairs_bytes pairs.now) }
        ensures short { OnOk result (ArePairsShort pairs.now) }
    {
        for pair in pairs {
            self.write_text(pair.name())?;
            self.write_text(pair.value())?;
        }
        Ok(())
    }

    // Writes the entry of an emission with this head ahead, piece by piece. Where memory is refused, a part of it may be written all the same.
    #[cold]
    #[inline(never)]
    fn write_pieces(
        &mut self,
        head: &[u8],
        event: &[u8],
        pairs: &[BorrowedPair<'_>],
    ) -> Result<(), AllocError>
        ensures entries { self.new.entries ≡ self.old.entries }
        ensures ahead { OnOk result (self.new.ahead
            ≡ self.old.ahead ++ head.now ++ text_bytes event.now ++ length_bytes (length pairs.now) ++ pairs_bytes pairs.now) }
        ensures short { OnOk result ((length event.now < 2 ^ 64) × (length pairs.now < 2 ^ 64) × ArePairsShort pairs.now) }
    {
        self.write(head)?;
        self.write_text(event)?;
        self.write_length(pairs.len())?;
        self.write_pairs(pairs)
    }

    // Writes the entry of an emission ahead piece by piece, likewise.
    #[cold]
    #[inline(never)]
    fn write_long_emission(
        &mut self,
        ticket: u64,
        by: u32,
        event: &[u8],
        cpu: u32,
        pid: i32,
        pairs: &[BorrowedPair<'_>],
    ) -> Result<(), AllocError>
        requires { self.old.ahead ≡ [] }
        ensures entries { self.new.entries ≡ self.old.entries }
        ensures entry { OnOk result (IsOneEntry self.new.ahead
            (record { ticket = ticket; by = by; command = commands.Emit event.now cpu pid pairs.now })) }
    {
        let head = emission_head(ticket, by, cpu, pid);
        self.write_pieces(&head, event, pairs)
    }

    // Writes the entry of an emission ahead. Where memory is refused, a part of it may be written all the same. It is inlined, as most entries are of
    // emissions. The head is put together anew for one that isn't short, so that it need not lie in memory.
    #[inline(always)]
    fn write_emission(
        &mut self,
        ticket: u64,
        by: u32,
        event: &[u8],
        cpu: u32,
        pid: i32,
        pairs: &[BorrowedPair<'_>],
    ) -> Result<(), AllocError>
        requires { self.old.ahead ≡ [] }
        ensures entries { self.new.entries ≡ self.old.entries }
        ensures entry { OnOk result (IsOneEntry self.new.ahead
            (record { ticket = ticket; by = by; command = commands.Emit event.now cpu pid pairs.now })) }
    {
        let head = emission_head(ticket, by, cpu, pid);
        let is_short = self.write_short(&head, event, pairs)?;
        if is_short {
            return Ok(());
        }
        self.write_long_emission(ticket, by, event, cpu, pid, pairs)
    }

    // Writes the entry of a command with a text ahead: kind, no limit, path and text. Where memory is refused, a part may be written all the same.
    fn write_other(
        &mut self,
        ticket: u64,
        by: u32,
        kind: u8,
        path: &[u8],
        text: &[u8],
    ) -> Result<(), AllocError>
        requires { self.old.ahead ≡ [] }
        ensures entries { self.new.entries ≡ self.old.entries }
        ensures ahead { OnOk result (self.new.ahead ≡ to_le_bytes w64 ticket ++ to_le_bytes w32 by ++ other_bytes kind 0 path.now text.now) }
        ensures short { (length path.now < 2 ^ 64) × (length text.now < 2 ^ 64) }
    {
        // These do nothing, but that the proof knows how long both can be.
        let _path_length = path.len();
        let _text_length = text.len();
        self.make_room()?;
        self.write_number_of_eight(ticket)?;
        self.write_number_of_four(by)?;
        self.write_byte(kind)?;
        self.write_number_of_eight(0)?;
        self.write_text(path)?;
        self.write_text(text)
    }

    // Likewise of a command without a text, whose entry ends as that of an emission without pairs.
    fn write_path(
        &mut self,
        ticket: u64,
        by: u32,
        kind: u8,
        limit: u64,
        path: &[u8],
    ) -> Result<(), AllocError>
        requires { self.old.ahead ≡ [] }
        ensures entries { self.new.entries ≡ self.old.entries }
        ensures ahead { OnOk result (self.new.ahead ≡ to_le_bytes w64 ticket ++ to_le_bytes w32 by ++ other_bytes kind limit path.now []) }
        ensures short { length path.now < 2 ^ 64 }
    {
        // Does nothing, but that the proof knows how long it can be.
        let _length = path.len();
        let head = other_head(ticket, by, kind, limit);
        let is_short = self.write_short(&head, path, &[])?;
        if is_short {
            return Ok(());
        }
        self.write_pieces(&head, path, &[])
    }

    // Writes the entry of a read ahead, likewise.
    fn write_read(
        &mut self,
        ticket: u64,
        by: u32,
        path: &[u8],
        limit: Option<u64>,
    ) -> Result<(), AllocError>
        requires { self.old.ahead ≡ [] }
        ensures entries { self.new.entries ≡ self.old.entries }
        ensures entry { OnOk result (IsOneEntry self.new.ahead (record { ticket = ticket; by = by; command = commands.Read path.now limit })) }
    {
        match limit {
            None => self.write_path(ticket, by, READ, 0, path),
            Some(limit) => self.write_path(ticket, by, TAKE, limit, path),
        }
    }

    // Writes the entry of a command other than an emission ahead, likewise. It is kept out of line, so that an emission doesn't grow by it.
    #[inline(never)]
    fn write_other_entry(
        &mut self,
        ticket: u64,
        by: u32,
        command: &Command<'_>,
    ) -> Result<(), AllocError>
        requires begun { self.old.ahead ≡ [] }
        requires other { (event : List ℕ) (cpu : ℕ) (pid : ℤ) (pairs : List Pair) → command.now ≢ commands.Emit event cpu pid pairs }
        ensures entries { self.new.entries ≡ self.old.entries }
        ensures entry { OnOk result (IsOneEntry self.new.ahead (record { ticket = ticket; by = by; command = command.now })) }
    {
        match command {
            Command::Emit { .. } => unreachable!(),
            Command::Mkdir(path) => self.write_path(ticket, by, MKDIR, 0, path.as_bytes()),
            Command::Rmdir(path) => self.write_path(ticket, by, RMDIR, 0, path.as_bytes()),
            Command::Write {
                path,
                append: false,
                text,
            } => self.write_other(ticket, by, WRITE, path.as_bytes(), text.as_bytes()),
            Command::Write {
                path,
                append: true,
                text,
            } => self.write_other(ticket, by, APPEND, path.as_bytes(), text.as_bytes()),
            Command::Read { path, limit } => self.write_read(ticket, by, path.as_bytes(), *limit),
        }
    }

    /// Writes an entry ahead. Where memory is refused, a part of it may be written all the same. It is inlined, so that it is known which command it is.
    #[inline(always)]
    pub(crate) fn write_entry(
        &mut self,
        ticket: u64,
        by: u32,
        command: &Command<'_>,
    ) -> Result<(), AllocError>
        requires { self.old.ahead ≡ [] }
        ensures entries { self.new.entries ≡ self.old.entries }
        ensures entry { OnOk result (IsOneEntry self.new.ahead (record { ticket = ticket; by = by; command = command.now })) }
    {
        match command {
            Command::Emit {
                event,
                cpu,
                pid,
                pairs,
            } => { self.write_emission(ticket, by, event.as_bytes(), *cpu, *pid, pairs.as_slice()) }
            _ => self.write_other_entry(ticket, by, &command.again()),
        }
    }
}
