//! The parts of a trigger string: its attributes, and the text of its filter.

ghost use Rattle.std.specs.Prelude.{◌≡◌, ◌≤◌, ◌+◌, IfSome, length};
ghost use Rattle.std.specs.Option.{option_copied};
ghost use Rattle.trace_trigger.specs.HistTexts.{IsHistText};
ghost use Rattle.trace_trigger.specs.HistParts as parts;

use crate::parts::{after_blanks, cut_word};
use trace_lex::{blanks_len, rest_of};

/// The offset of what follows `hist:` or `!hist:`.
pub(crate) fn start_of(text: &[u8]) -> usize
    requires { IsHistText text.now }
    ensures value { result ≡ parts.start_of text.now }
    ensures bound { result ≤ length text.now }
{
    match text {
        [b'!', ..] => 6,
        _ => 5,
    }
}

/// The attributes, and what follows the first word and blanks after it.
#[tactic(auto, unfolding(crate::specs::HistParts::tail_of))]
pub(crate) fn cut(text: &[u8]) -> (&[u8], &[u8])
    requires { IsHistText text.now }
    ensures word { result.0.now ≡ parts.word_of text.now }
    ensures len { length result.0.now ≡ parts.word_len (parts.body_of text.now) }
    ensures tail { result.1.now ≡ parts.tail_of text.now }
    ensures bound { parts.start_of text.now + length result.0.now ≤ length text.now }
    ensures tail_bound { length result.1.now ≤ length text.now }
{
    let (word, rest) = cut_word(rest_of(text, start_of(text)));
    (word, after_blanks(rest))
}

/// The filter's text, if the string is `if`, blanks and something else.
pub(crate) fn condition_of(tail: &[u8]) -> Option<&[u8]>
    ensures value { option_copied result ≡ parts.condition_of tail.now }
    ensures bound { IfSome result (λ condition. length condition.now ≤ length tail.now) }
{
    let rest = tail.strip_prefix(b"if".as_slice())?;
    let condition = after_blanks(rest);
    if blanks_len(rest) > 0 && !condition.is_empty() {
        Some(condition)
    } else {
        None
    }
}
