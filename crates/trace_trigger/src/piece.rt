//! Strings that are cut at a byte, with the offset of each part.

ghost use Rattle.std.specs.Prelude.{◌≡◌, ◌<◌, ◌+◌, ◌^◌, IfOk, length};
ghost use Rattle.trace_trigger.specs.HistPieces.{pieces_of};

use std::alloc::{AllocError, Global};
use trace_format::Text;
use trace_lex::{len_before, rest_of};

/// A part of a string, and the offset of its first byte in the whole text.
#[derive(Drop)]
pub(crate) struct ListItem {
    pub(crate) at: usize,
    pub(crate) bytes: Text,
}

fn list_item(alloc: Global, at: usize, bytes: &[u8]) -> Result<ListItem, AllocError>
    ensures { IfOk result (λ item. item ≡ record { at = at; bytes = bytes.now }) }
{
    Ok(ListItem {
        at,
        bytes: Text::from_slice(alloc, bytes)?,
    })
}

/// The parts of a string that begins at an offset, between the bytes that separate them. There is one part more than separators.
pub(crate) fn cut_at(
    alloc: Global,
    separator: u8,
    at: usize,
    text: &[u8],
) -> Result<Vec<ListItem>, AllocError>
    requires { at + length text.now < 2 ^ 64 }
    ensures { IfOk result (λ pieces. pieces.items ≡ pieces_of separator at text.now) }
{
    let mut pieces = Vec::new(alloc);
    let mut from = 0;
    loop {
        let rest = rest_of(text, from);
        let len = len_before(separator, rest);
        let item = list_item(alloc, at + from, &rest[..len])?;
        pieces.push(item)?;
        if len == rest.len() {
            return Ok(pieces);
        }
        from += len + 1;
    }
}
