//! How entries are read from bytes: `specs/EntryDecoding.antt` says it part by part.

ghost use Rattle.std.specs.Prelude.{◌≡◌, slice_index, drop};
ghost use Rattle.std.specs.Int.{w32, w64, from_le_bytes, cast_signed};
ghost use Rattle.command_log.specs.EntryDecoding.{length_in, after_length, text_in, after_text, pairs_in, after_pairs, emission_in, after_emission, other_of, other_in, after_other, command_in, after_command, entry_in, after_entry};
ghost use Rattle.command_log.specs.EntryRefs.{command_shown, entry_shown};

use crate::entry_ref::{CommandRef, EntryRef};
use crate::pair_refs::PairRefs;
use std::marker::Model;
use trace_format::BorrowedPair;

/// Bytes that are read from the first one on, seen as those that are left.
#[derive(Drop)]
pub(crate) struct Reader<'a> {
    bytes: &'a [u8],
}

impl<'a> Model for Reader<'a> {
    ghost use Rattle.std.specs.Prelude.{List, ℕ};

    ghost Value = { List ℕ };

    ghost view = { λ reader. reader.bytes.now };
}

// A byte, or 0 past the end.
fn byte_at(bytes: &[u8], index: usize) -> u8
    ensures { result ≡ slice_index bytes.now index }
{
    bytes.get(index).copied().unwrap_or(0)
}

impl<'a> Reader<'a> {
    /// Reads these bytes.
    pub(crate) fn new(bytes: &'a [u8]) -> Reader<'a>
        ensures { result ≡ bytes.entry.now }
    {
        Reader { bytes }
    }

    /// The bytes that are left.
    pub(crate) fn left(&self) -> &'a [u8]
        ensures { result.now ≡ self.now }
    {
        self.bytes
    }

    // Passes over so many bytes.
    fn skip(&mut self, count: usize)
        ensures { self.new ≡ drop count self.old }
    {
        self.bytes = self.bytes.get(count..).unwrap_or(&[]);
    }

    // One byte.
    fn byte(&mut self) -> u8
        ensures value { result ≡ slice_index self.old 0 }
        ensures left { self.new ≡ drop 1 self.old }
    {
        let byte = byte_at(self.bytes, 0);
        self.skip(1);
        byte
    }

    // A number of four bytes.
    fn number_of_four(&mut self) -> u32
        ensures value { result ≡ from_le_bytes w32 self.old }
        ensures left { self.new ≡ drop 4 self.old }
    {
        let b = self.bytes;
        self.skip(4);
        u32::from_le_bytes([byte_at(b, 0), byte_at(b, 1), byte_at(b, 2), byte_at(b, 3)])
    }

    // A number of four bytes with a sign.
    fn signed_number(&mut self) -> i32
        ensures value { result ≡ cast_signed w32 (from_le_bytes w32 self.old) }
        ensures left { self.new ≡ drop 4 self.old }
    {
        let b = self.bytes;
        self.skip(4);
        i32::from_le_bytes([byte_at(b, 0), byte_at(b, 1), byte_at(b, 2), byte_at(b, 3)])
    }

    // A number of eight bytes.
    fn number_of_eight(&mut self) -> u64
        ensures value { result ≡ from_le_bytes w64 self.old }
        ensures left { self.new ≡ drop 8 self.old }
    {
        let b = self.bytes;
        self.skip(8);
        u64::from_le_bytes([
            byte_at(b, 0),
            byte_at(b, 1),
            byte_at(b, 2),
            byte_at(b, 3),
            byte_at(b, 4),
            byte_at(b, 5),
            byte_at(b, 6),
            byte_at(b, 7),
        ])
    }

    // A length.
    #[tactic(auto, unfolding(crate::specs::EntryDecoding::length_in, crate::specs::EntryDecoding::after_length))]
    fn length(&mut self) -> usize
        ensures value { result ≡ length_in self.old }
        ensures left { self.new ≡ after_length self.old }
    {
        let first = self.byte();
        if first == 255 {
            return self.number_of_eight() as usize;
        }
        usize::from(first)
    }

    // A string.
    #[tactic(auto, unfolding(crate::specs::EntryDecoding::text_in, crate::specs::EntryDecoding::after_text))]
    fn text(&mut self) -> &'a [u8]
        ensures value { result.now ≡ text_in self.old }
        ensures left { self.new ≡ after_text self.old }
    {
        let length = self.length();
        let text = self.bytes.get(..length).unwrap_or(self.bytes);
        self.skip(length);
        text
    }

    /// Reads a pair.
    pub(crate) fn pair(&mut self) -> BorrowedPair<'a>
        ensures value { result ≡ record { name = text_in self.old; value = text_in (after_text self.old) } }
        ensures left { self.new ≡ after_text (after_text self.old) }
    {
        let name = self.text();
        let value = self.text();
        BorrowedPair::new(name, value)
    }

    // So many pairs, which are passed over and can be read later.
    fn pairs(&mut self, count: usize) -> PairRefs<'a>
        ensures value { result ≡ pairs_in count self.old }
        ensures left { self.new ≡ after_pairs count self.old }
    {
        let pairs = PairRefs::new(self.bytes, count);
        for _index in 0..count {
            let _pair = self.pair();
        }
        pairs
    }

    // An emission, after its kind.
    #[tactic(auto, unfolding(crate::specs::EntryDecoding::emission_in, crate::specs::EntryDecoding::after_emission))]
    fn emission(&mut self) -> CommandRef<'a>
        ensures value { command_shown result ≡ emission_in self.old }
        ensures left { self.new ≡ after_emission self.old }
    {
        let cpu = self.number_of_four();
        let pid = self.signed_number();
        let event = self.text();
        let count = self.length();
        let pairs = self.pairs(count);
        CommandRef::Emit {
            event,
            cpu,
            pid,
            pairs,
        }
    }

    // Any other command, after its kind.
    #[tactic(auto, unfolding(crate::specs::EntryDecoding::other_in, crate::specs::EntryDecoding::after_other))]
    fn other(&mut self, kind: u8) -> CommandRef<'a>
        ensures value { command_shown result ≡ other_in kind self.old }
        ensures left { self.new ≡ after_other self.old }
    {
        let limit = self.number_of_eight();
        let path = self.text();
        let text = self.text();
        command_of(kind, limit, path, text)
    }

    // A command.
    #[tactic(auto, unfolding(crate::specs::EntryDecoding::command_in, crate::specs::EntryDecoding::after_command))]
    fn command(&mut self) -> CommandRef<'a>
        ensures value { command_shown result ≡ command_in self.old }
        ensures left { self.new ≡ after_command self.old }
    {
        let kind = self.byte();
        if kind == 0 {
            return self.emission();
        }
        self.other(kind)
    }

    /// Reads an entry.
    #[tactic(auto, unfolding(crate::specs::EntryDecoding::entry_in, crate::specs::EntryDecoding::after_entry))]
    pub(crate) fn entry(&mut self) -> EntryRef<'a>
        ensures value { entry_shown result ≡ entry_in self.old }
        ensures left { self.new ≡ after_entry self.old }
    {
        let ticket = self.number_of_eight();
        let by = self.number_of_four();
        let command = self.command();
        EntryRef {
            ticket,
            by,
            command,
        }
    }
}

// The command of a kind with these parts.
fn command_of<'a>(kind: u8, limit: u64, path: &'a [u8], text: &'a [u8]) -> CommandRef<'a>
    ensures { command_shown result ≡ other_of kind limit path.now text.now }
{
    match kind {
        1 => CommandRef::Mkdir(path),
        2 => CommandRef::Rmdir(path),
        3 => CommandRef::Write {
            path,
            append: false,
            text,
        },
        4 => CommandRef::Write {
            path,
            append: true,
            text,
        },
        5 => CommandRef::Read { path, limit: None },
        _ => CommandRef::Read {
            path,
            limit: Some(limit),
        },
    }
}
