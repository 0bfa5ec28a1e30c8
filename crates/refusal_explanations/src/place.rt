//! Where in a line, or in what was to be written, it is wrong.

ghost use Rattle.std.specs.Prelude.{◌≡◌, ◌≤◌, ◌<◌, ◌+◌, IfOk, IfSome, length, option_copied};
ghost use Rattle.refusal_explanations.specs.Places as places;

use crate::caret::{first_bare, pair_offset, starts, word_at, written_offset};
use crate::cut::{after, begins, first_word, word_len};
use std::alloc::{AllocError, Global};
use trace_command::{Command, Refusal};
use trace_lex::{blanks_len, rest_of};
use trace_trigger::TextCause;

// ---- a trigger

/// How many bytes the word and the blanks after it have.
fn after_gap(body: &[u8]) -> usize
    ensures value { result ≡ places.after_gap body.now }
    ensures bound { result ≤ length body.now }
{
    let word = word_len(body);
    word + blanks_len(rest_of(body, word))
}

pub(crate) fn is_bare_hist(body: &[u8]) -> bool
    ensures { result ≡ places.is_bare_hist body.now }
{
    first_word(body) == b"hist".as_slice()
}

/// Where all that follows an optional `!` is wrong.
fn body_offset(cause: TextCause, body: &[u8]) -> usize
    ensures value { result ≡ places.body_offset cause body.now }
    ensures bound { result ≤ length body.now + 9 }
{
    match cause {
        TextCause::Kind if is_bare_hist(body) => 4,
        TextCause::Kind => 0,
        TextCause::Count => 9,
        TextCause::AfterSnapshot => 8,
        TextCause::Condition => after_gap(body),
        TextCause::Filter => body.len(),
    }
}

pub(crate) fn mark_len(text: &[u8]) -> usize
    ensures value { result ≡ places.mark_len text.now }
    ensures bound { result ≤ 1 }
{
    if begins(b"!", text) { 1 } else { 0 }
}

/// Where a text is wrong that is no trigger.
fn trigger_offset(cause: TextCause, text: &[u8]) -> usize
    ensures { result ≡ places.trigger_offset cause text.now }
{
    let len = mark_len(text);
    len + body_offset(cause, after(len, text))
}

/// Whether an attribute, given with the `:` before it, begins here.
#[tactic(auto, unfolding(crate::specs::Places::is_attribute))]
fn is_attribute(attribute: &[u8], text: &[u8]) -> bool
    ensures { result ≡ places.is_attribute attribute.now text.now }
{
    begins(attribute, text)
}

/// Where an attribute, given with the `:` before it, is in a hist trigger, if it is there.
#[tactic(auto, using(crate::proofs::AttributeLemmas::attribute_here, crate::proofs::AttributeLemmas::attribute_later), unfolding(crate::specs::Places::attribute_at))]
pub(crate) fn attribute_at(attribute: &[u8], text: &[u8]) -> Option<usize>
    ensures value { result ≡ places.attribute_at attribute.now text.now }
    ensures bound { IfSome result (λ at. at < length text.now) }
{
    for (at, _) in text.iter().enumerate() {
        if is_attribute(attribute, rest_of(text, at)) {
            return Some(at);
        }
    }
    None
}

// ---- a write

/// The offset that a refusal names in what is written, if it names one.
fn named_offset(refusal: &Refusal) -> Option<usize>
    ensures { result ≡ places.named_offset refusal.now }
{
    match refusal {
        Refusal::BadDefinition { at, .. }
        | Refusal::FilterSyntax { at, .. }
        | Refusal::NoSuchField { at }
        | Refusal::WrongOperator { at, .. }
        | Refusal::HistSyntax { at, .. } => Some(*at),
        _ => None,
    }
}

/// The byte of what is written that is to blame, if one is, though the refusal names none.
fn other_offset(text: &[u8], refusal: &Refusal) -> Option<usize>
    ensures { result ≡ places.other_offset text.now refusal.now }
{
    match refusal {
        Refusal::BadSize => match attribute_at(b":size=", first_word(text)) {
            Some(at) => Some(at + 1),
            None => None,
        },
        Refusal::BadTrigger { cause } => Some(trigger_offset(*cause, text)),
        Refusal::BadValue
        | Refusal::EventExists
        | Refusal::TooBig
        | Refusal::TriggerExists
        | Refusal::NoSuchTrigger
        | Refusal::TooMany { .. }
        | Refusal::Busy => Some(blanks_len(text)),
        _ => None,
    }
}

/// The offset of the byte of a text that is to blame for the refusal of its write, or of its end; 0, if none is.
pub fn write_offset(text: &[u8], refusal: &Refusal) -> usize
    ensures value { result ≡ places.write_offset text.now refusal.now }
    ensures within { result ≤ length text.now }
{
    let other = other_offset(text, refusal);
    let at = named_offset(refusal).or(other).unwrap_or(0);
    if at < text.len() { at } else { text.len() }
}

/// The index of the pair that a refusal blames, if it blames one.
fn blamed_pair(refusal: &Refusal) -> Option<usize>
    ensures { result ≡ places.blamed_pair refusal.now }
{
    match refusal {
        Refusal::BadRow { row } => row.get().pair,
        _ => None,
    }
}

/// The offset of the byte that is to blame of a line that was written to `inject`: where the pair begins that its refusal blames, or, if it is no list of
/// pairs, the first word that is none; 0, if none is.
pub fn injection_offset(line: &[u8], refusal: Option<&Refusal>) -> usize
    ensures value { result ≡ places.injection_offset line.now (option_copied refusal.entry) }
    ensures within { result ≤ length line.now }
{
    let at = match refusal {
        None => first_bare(line),
        Some(refusal) => match blamed_pair(refusal) {
            Some(index) => word_at(line, index),
            None => None,
        },
    };
    at.unwrap_or(0)
}

/// Where in a line it is wrong, if its refusal names neither an offset nor a pair: of an emission the CPU, or the event; of other commands what is
/// written, or else the path, which comes last.
fn other_place(
    alloc: Global,
    line: &[u8],
    command: &Command<'_>,
    refusal: &Refusal,
) -> Result<Option<usize>, AllocError>
    ensures { IfOk result (λ place. place ≡ places.other_place line.now command.now refusal.now) }
{
    match (command, refusal) {
        (_, Refusal::HistoryFull | Refusal::Memory | Refusal::Worn) => Ok(None),
        (Command::Emit { .. }, Refusal::NoSuchCpu) => Ok(word_at(line, 1)),
        (Command::Emit { .. }, _) => Ok(word_at(line, 3)),
        (Command::Write { text, .. }, _) => match other_offset(text.as_bytes(), refusal) {
            Some(at) => written_offset(alloc, line, at),
            None => last_word(alloc, line),
        },
        _ => last_word(alloc, line),
    }
}

/// Where the last word of a line begins, if it has one.
fn last_word(alloc: Global, line: &[u8]) -> Result<Option<usize>, AllocError>
    ensures { IfOk result (λ place. place ≡ places.last_word line.now) }
{
    Ok(starts(alloc, line)?.last().copied())
}

/// The offset in a line of the byte that is to blame for a refusal of its command.
pub(crate) fn refusal_offset(
    alloc: Global,
    line: &[u8],
    command: &Command<'_>,
    refusal: &Refusal,
) -> Result<Option<usize>, AllocError>
    ensures { IfOk result (λ place. place ≡ places.refusal_place line.now command.now refusal.now) }
{
    match (named_offset(refusal), blamed_pair(refusal)) {
        (Some(at), _) => written_offset(alloc, line, at),
        (None, Some(pair)) => pair_offset(alloc, line, pair),
        (None, None) => other_place(alloc, line, command, refusal),
    }
}
