//! The parts of a trigger text: its first word, and the text of its filter.

ghost use Rattle.std.specs.Prelude.{◌≡◌, ◌≤◌, ◌+◌, ◌-◌, ◌^◌, Option, Some, None, Ok, Err, IfOk, IfErr, IfSome, MatchResult, bytes_eq, length};
ghost use Rattle.std.specs.Option.{option_copied};
ghost use Rattle.std.specs.List.{prefix_len, list_all};
ghost use Rattle.trace_lex.specs.Blanks as blanks;
ghost use Rattle.trace_lex.specs.Decimals as decimals;
ghost use Rattle.trace_trigger.specs.Frames as frames;
ghost use Rattle.trace_trigger.specs.TriggerTexts as texts;
ghost use Rattle.trace_trigger.specs.TriggerAnswers.{IsBadText};

use crate::fault::{TextCause, TriggerFault};
use trace_lex::{blanks_len, decimal_number, is_blank, rest_of};

/// Whether a text has nothing but blanks.
pub(crate) fn is_blank_text(text: &[u8]) -> bool
    ensures { result ≡ list_all blanks.is_blank text.now }
{
    blanks_len(text) == text.len()
}

/// Whether a text begins so.
pub(crate) fn begins(beginning: &[u8], text: &[u8]) -> bool
    ensures { result ≡ texts.begins beginning.now text.now }
{
    text.starts_with(beginning)
}

/// Whether a text is this word.
pub(crate) fn is_word(text: &[u8], word: &[u8]) -> bool
    ensures { result ≡ bytes_eq text.now word.now }
{
    text == word
}

/// How many bytes come before the first blank.
fn word_len(text: &[u8]) -> usize
    ensures value { result ≡ prefix_len frames.is_unblank text.now }
    ensures bound { result ≤ length text.now }
{
    text.iter().take_while(|byte| !is_blank(**byte)).count()
}

/// The first word, and what follows it.
pub(crate) fn cut_word(text: &[u8]) -> (&[u8], &[u8])
    ensures word { result.0.now ≡ texts.word_of text.now }
    ensures len { length result.0.now ≡ prefix_len frames.is_unblank text.now }
    ensures rest { result.1.now ≡ texts.after_word text.now }
    ensures bound { length result.0.now + length result.1.now ≡ length text.now }
{
    text.split_at(word_len(text))
}

/// How often a trigger of this word takes a snapshot: `snapshot` without end, `snapshot:N` at most N times.
#[tactic(auto, unfolding(crate::specs::TriggerTexts::count_of))]
pub(crate) fn count_of(word: &[u8]) -> Result<Option<u32>, TriggerFault>
    ensures value { result ≡ texts.count_of word.now }
    ensures bad { IfErr result IsBadText }
{
    match word.strip_prefix(b"snapshot".as_slice()) {
        Some(rest) => count_after(rest),
        None => Err(TriggerFault::BadText {
            cause: TextCause::Kind,
        }),
    }
}

fn count_after(rest: &[u8]) -> Result<Option<u32>, TriggerFault>
    ensures value { result ≡ texts.count_after (Some rest.now) }
    ensures bad { IfErr result IsBadText }
{
    match rest {
        [] => Ok(None),
        [b':', digits @ ..] => count_from(digits),
        _ => Err(TriggerFault::BadText {
            cause: TextCause::AfterSnapshot,
        }),
    }
}

fn count_from(digits: &[u8]) -> Result<Option<u32>, TriggerFault>
    ensures value { result ≡ texts.count_from (decimals.up_to (2 ^ 32 - 1) (decimals.decimal_number digits.now)) }
    ensures bad { IfErr result IsBadText }
{
    match decimal_number(digits, u64::from(u32::MAX)) {
        Some(count) if count > 0 => Ok(Some(count as u32)),
        _ => Err(TriggerFault::BadText {
            cause: TextCause::Count,
        }),
    }
}

/// The text without the blanks at its beginning.
pub(crate) fn after_blanks(text: &[u8]) -> &[u8]
    ensures value { result.now ≡ frames.after_blanks text.now }
    ensures bound { length result.now ≤ length text.now }
{
    rest_of(text, blanks_len(text))
}

/// The text of a filter, if there is one: nothing but blanks, or blanks, `if`, blanks and that text.
#[tactic(auto, unfolding(crate::specs::TriggerTexts::condition_of))]
pub(crate) fn condition_of(text: &[u8]) -> Result<Option<&[u8]>, TriggerFault>
    ensures value { MatchResult result (λ condition. texts.condition_of text.now ≡ Ok (option_copied condition)) (λ fault. texts.condition_of text.now ≡ Err fault) }
    ensures bad { IfErr result IsBadText }
    ensures bound { IfOk result (λ condition. IfSome condition (λ filter. length filter.now ≤ length text.now)) }
{
    if is_blank_text(text) {
        return Ok(None);
    }
    match after_blanks(text).strip_prefix(b"if".as_slice()) {
        Some(rest) => Ok(Some(condition_after(rest)?)),
        None => Err(TriggerFault::BadText {
            cause: TextCause::Condition,
        }),
    }
}

/// Why this is no condition, of which what follows `if` and blanks is given.
fn condition_cause(filter: &[u8]) -> TextCause
    ensures { result ≡ texts.condition_cause filter.now }
{
    if filter.is_empty() {
        TextCause::Filter
    } else {
        TextCause::Condition
    }
}

fn condition_after(text: &[u8]) -> Result<&[u8], TriggerFault>
    ensures value { MatchResult result (λ filter. texts.condition_after (Some text.now) ≡ Ok (Some filter.now)) (λ fault. texts.condition_after (Some text.now) ≡ Err fault) }
    ensures bad { IfErr result IsBadText }
    ensures bound { IfOk result (λ filter. length filter.now ≤ length text.now) }
{
    let filter = after_blanks(text);
    if blanks_len(text) > 0 && !filter.is_empty() {
        Ok(filter)
    } else {
        Err(TriggerFault::BadText {
            cause: condition_cause(filter),
        })
    }
}
