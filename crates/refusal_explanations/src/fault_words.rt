//! What is wrong with a line that is no command, in words.

ghost use Rattle.std.specs.Prelude.{◌≡◌};
ghost use Rattle.refusal_explanations.specs.FaultWords as words;

use crate::cut::{after, first_word};
use trace_lex::blanks_len;
use trace_script::ScriptFault;

/// Whether a line of a parallel part begins with this name.
fn is_block_word(name: &[u8]) -> bool
    ensures { result ≡ words.is_block_word name.now }
{
    name == b"parallel".as_slice() || name == b"thread".as_slice() || name == b"end".as_slice()
}

/// How a line of this name is written.
#[tactic(auto, unfolding(crate::specs::FaultWords::usage_words))]
fn usage_words(name: &[u8]) -> &'static str
    ensures { result.now ≡ words.usage_words name.now }
{
    if name == b"emit".as_slice() {
        "expected `emit CPU PID EVENT FIELD=VALUE ..`"
    } else if name == b"echo".as_slice() {
        "expected `echo WORD .. > PATH`, or `>>`"
    } else if name == b"cat".as_slice() {
        "expected `cat PATH`"
    } else if name == b"take".as_slice() {
        "expected `take N PATH`"
    } else if name == b"mkdir".as_slice() {
        "expected `mkdir PATH`"
    } else if name == b"rmdir".as_slice() {
        "expected `rmdir PATH`"
    } else if is_block_word(name) {
        "expected nothing more"
    } else {
        "too few words, or too many"
    }
}

/// What is wrong with a line that stands alone, and begins with a word of this name.
fn lone_words(name: &[u8], fault: ScriptFault) -> &'static str
    ensures { result.now ≡ words.lone_words name.now fault }
{
    match fault {
        ScriptFault::LineTooLong => "the line has over 4,096 bytes",
        ScriptFault::BadByte => "this byte is neither a tab nor one from 0x20 to 0x7e",
        ScriptFault::UnclosedQuote => "this quote is not closed",
        ScriptFault::UnknownCommand => "unknown command",
        ScriptFault::WrongWords => usage_words(name),
        ScriptFault::BadNumber => "expected a number in its range",
        ScriptFault::BlockOutOfPlace if name == b"parallel".as_slice() => {
            "only a script has parallel parts"
        }
        ScriptFault::BlockOutOfPlace => "no parallel part is open here",
        ScriptFault::TooManyThreads => "a parallel part has at most eight threads",
    }
}

/// What is wrong with a line that stands alone and is no command. A first word with quotes is none of those that a line begins with.
pub fn line_words(line: &[u8], fault: ScriptFault) -> &'static str
    ensures { result.now ≡ words.line_words line.now fault }
{
    lone_words(first_word(after(blanks_len(line), line)), fault)
}

fn block_words(is_next: bool, name: &[u8]) -> &'static str {
    match name {
        b"thread" | b"end" => "no parallel part is open here",
        b"parallel" if is_next => "no `end` follows",
        b"parallel" => "expected an `end` after each `parallel`, before the next one",
        _ => "expected `thread` before the first command of a part",
    }
}

/// What is wrong with a line of a script that is no command, and begins with a word of this name; and whether the line before it was heard: no line of a
/// part is heard before the part is done, so none is open then.
pub(crate) fn fault_words(is_next: bool, name: &[u8], fault: ScriptFault) -> &'static str {
    match fault {
        ScriptFault::BlockOutOfPlace => block_words(is_next, name),
        _ => lone_words(name, fault),
    }
}
