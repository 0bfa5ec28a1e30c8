//! What is wrong, and under it the line with a caret under one of its bytes.

ghost use Rattle.std.specs.Prelude.{◌≡◌, ◌++◌, [], IfOk, OnOk, map, codes};
ghost use Rattle.std.specs.Fmt.{decimal};
ghost use Rattle.refusal_explanations.specs.Layout.{shown_byte, pad_byte, shown_bytes, shown_line, pointer, column, meant_line, shown};

use crate::cut::up_to;
use itoa::Buffer;
use std::alloc::{AllocError, Global};

/// A line of a script, with what it goes by.
#[derive(Clone, Copy)]
pub struct ScriptLine<'a> {
    /// The name of the script.
    pub script: &'a [u8],
    /// The line's number, from 1.
    pub number: usize,
    /// The line, without a newline.
    pub text: &'a [u8],
}

/// The most bytes that the line of a command has. Of a longer one only so many bytes are shown that it fits a row of a terminal.
const MOST_BYTES: usize = 4096;

const SHOWN_BYTES: usize = 72;

/// A byte as it is shown: one that no line has is a `?`, so that nothing reaches a terminal but text.
fn shown_byte(byte: u8) -> u8
    ensures { result ≡ shown_byte byte }
{
    match byte {
        b'\t' | b' '..=b'~' => byte,
        _ => b'?',
    }
}

/// What stands above a blank before the caret: a tab under a tab, so that both are as wide, and else a space.
fn pad_byte(byte: u8) -> u8
    ensures { result ≡ pad_byte byte }
{
    if byte == b'\t' { b'\t' } else { b' ' }
}

/// Appends bytes as they are shown.
pub fn push_shown(out: &mut Vec<u8>, bytes: &[u8]) -> Result<(), AllocError>
    ensures { OnOk result (out.new.items ≡ out.old.items ++ shown_bytes bytes.now) }
{
    for byte in bytes {
        out.push(shown_byte(*byte))?;
    }
    Ok(())
}

/// Appends what stands before a caret under a line that begins with these bytes.
pub fn push_padding(out: &mut Vec<u8>, above: &[u8]) -> Result<(), AllocError>
    ensures { OnOk result (out.new.items ≡ out.old.items ++ map pad_byte above.now) }
{
    for byte in above {
        out.push(pad_byte(*byte))?;
    }
    Ok(())
}

/// Appends a line as it is shown.
#[tactic(auto, unfolding(crate::specs::Layout::shown_line))]
fn push_line(out: &mut Vec<u8>, line: &[u8]) -> Result<(), AllocError>
    ensures { OnOk result (out.new.items ≡ out.old.items ++ shown_line line.now) }
{
    if line.len() > MOST_BYTES {
        push_shown(out, up_to(SHOWN_BYTES, line))?;
        out.extend_from_slice(b" ..".as_slice())
    } else {
        push_shown(out, line)
    }
}

/// Appends the caret under a byte of a line; nothing, if it stands under none.
#[tactic(auto, unfolding(crate::specs::Layout::pointer))]
fn push_pointer(out: &mut Vec<u8>, line: &[u8], caret: Option<usize>) -> Result<(), AllocError>
    ensures { OnOk result (out.new.items ≡ out.old.items ++ pointer line.now caret) }
{
    let Some(at) = caret else {
        return Ok(());
    };
    out.extend_from_slice(b"  ".as_slice())?;
    push_padding(out, up_to(at, line))?;
    out.extend_from_slice(b"^\n".as_slice())
}

/// Appends a number.
fn push_number(out: &mut Vec<u8>, number: usize) -> Result<(), AllocError>
    ensures { OnOk result (out.new.items ≡ out.old.items ++ decimal number) }
{
    out.extend_from_slice(Buffer::new().format(number).as_bytes())
}

/// Appends the column of the byte above the caret.
#[tactic(auto, unfolding(crate::specs::Layout::column))]
fn push_column(out: &mut Vec<u8>, line: &[u8], caret: Option<usize>) -> Result<(), AllocError>
    ensures { OnOk result (out.new.items ≡ out.old.items ++ column line.now caret) }
{
    let Some(at) = caret else {
        return Ok(());
    };
    out.push(b':')?;
    push_number(out, up_to(at, line).len() + 1)
}

fn push_question(out: &mut Vec<u8>, meant: &[u8]) -> Result<(), AllocError>
    ensures { OnOk result (out.new.items ≡ out.old.items ++ codes "  did you mean `" ++ shown_bytes meant.now ++ codes "`?\n") }
{
    out.extend_from_slice(b"  did you mean `".as_slice())?;
    push_shown(out, meant)?;
    out.extend_from_slice(b"`?\n".as_slice())
}

/// Appends what was meant, if anything was.
#[tactic(auto, unfolding(crate::specs::Layout::meant_line))]
fn push_meant(out: &mut Vec<u8>, meant: &[u8]) -> Result<(), AllocError>
    ensures { OnOk result (out.new.items ≡ out.old.items ++ meant_line meant.now) }
{
    match meant {
        [] => Ok(()),
        [_, ..] => push_question(out, meant),
    }
}

/// What is wrong, the line, the caret under it, and what was meant.
#[tactic(auto, unfolding(crate::specs::Layout::shown))]
pub(crate) fn shown(
    alloc: Global,
    at: ScriptLine<'_>,
    caret: Option<usize>,
    name: &str,
    words: &[u8],
    meant: &[u8],
) -> Result<Vec<u8>, AllocError>
    ensures { IfOk result (λ text. text.items ≡ shown at.entry.script.now at.entry.number at.entry.text.now caret name.now words.now meant.now) }
{
    let mut text = Vec::new(alloc);
    push_shown(&mut text, at.script)?;
    text.push(b':')?;
    push_number(&mut text, at.number)?;
    push_column(&mut text, at.text, caret)?;
    text.extend_from_slice(b": ".as_slice())?;
    text.extend_from_slice(name.as_bytes())?;
    text.extend_from_slice(b": ".as_slice())?;
    push_shown(&mut text, words)?;
    text.extend_from_slice(b"\n  ".as_slice())?;
    push_line(&mut text, at.text)?;
    text.push(b'\n')?;
    push_pointer(&mut text, at.text, caret)?;
    push_meant(&mut text, meant)?;
    Ok(text)
}
