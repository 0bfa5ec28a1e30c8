//! What is wrong, in words: one table from refusals, and the causes that they carry. What follows the offset, or the file that is written, chooses only
//! among words for the same cause.

ghost use Rattle.std.specs.Prelude.{◌≡◌, IfOk, option_copied};
ghost use Rattle.refusal_explanations.specs.Words as words;

use crate::caret::is_quote;
use crate::cut::{after, begins, ends_with, first_word, part_before};
use crate::hist::hist_words;
use crate::left_out::{FIELDS, TRIGGERS, name_at, told_of};
use crate::place::{attribute_at, is_bare_hist, mark_len};
use crate::subject::{Subject, written_subject};
use std::alloc::{AllocError, Global};
use trace_command::{Command, Limit, Refusal};
use trace_filter::{FilterCause, is_sign};
use trace_format::{DeclarationCause, RowCause};
use trace_lex::blanks_len;
use trace_trigger::{OperatorCause, TextCause};

/// A name is due, and these bytes follow.
fn name_words(rest: &[u8]) -> &'static str
    ensures { result.now ≡ words.name_words rest.now }
{
    if ends_with(b',', part_before(b';', rest)) {
        "expected a field's name, and `;` in place of `,`"
    } else {
        "expected a field's name"
    }
}

/// What is wrong with a declaration where these bytes follow.
fn declaration_words(cause: DeclarationCause, rest: &[u8]) -> &'static str
    ensures { result.now ≡ words.declaration_words cause rest.now }
{
    match cause {
        DeclarationCause::EventName if begins(b"!", rest) => "a declared event can't be removed",
        DeclarationCause::EventName => "expected the event's name",
        DeclarationCause::FieldType if begins(b"char[", rest) => {
            "expected the length after the field's name, as `char name[16]`"
        }
        DeclarationCause::FieldType => "expected a type, as `u64` or `char`",
        DeclarationCause::UnsignedType => "expected `int` or `long`",
        DeclarationCause::StringField => {
            "expected a new field's name and its length from 1 to 64, as `name[16]`"
        }
        DeclarationCause::FieldName => name_words(rest),
        DeclarationCause::ReservedName => "this name is reserved",
        DeclarationCause::RepeatedName => "a field has this name already",
        DeclarationCause::Semicolon => "expected `;`",
    }
}

/// What is wrong where a value is due.
fn value_words(rest: &[u8]) -> &'static str
    ensures { result.now ≡ words.value_words rest.now }
{
    match rest {
        [quote, rest @ ..] if is_quote(*quote) && rest.contains(quote) => {
            "expected a number, without quotes"
        }
        [quote, ..] if is_quote(*quote) => "this quote is not closed",
        [] | [b'(' | b')' | b'&' | b'|', ..] => "expected a value",
        [b'0'..=b'9', ..] | [b'-', b'0'..=b'9', ..] => {
            "expected a number of 64 bits, as `10`, `0xa` or octal `012`"
        }
        [byte, ..] if is_sign(*byte) => "expected one operator and a number",
        _ => "expected a number",
    }
}

/// What is wrong after a value; one of only bytes of operators may be more of an operator, if a value follows.
fn joint_words(is_signs: bool, rest: &[u8]) -> &'static str
    ensures { result.now ≡ words.joint_words is_signs rest.now }
{
    match rest {
        [] => "expected `)`",
        [b')', ..] => "no `(` is open before this `)`",
        [b'&' | b'|' | b'(' | b'!', ..] => "expected `&&` or `||`",
        _ if is_signs => "expected one operator before this value",
        _ => "expected `&&` or `||`",
    }
}

/// What is wrong with a filter where these bytes follow.
fn filter_words(cause: FilterCause, rest: &[u8]) -> &'static str
    ensures { result.now ≡ words.filter_words cause rest.now }
{
    match cause {
        FilterCause::Operand => "expected a field, `!` or `(`",
        FilterCause::Operator => "expected an operator",
        FilterCause::Value => value_words(rest),
        FilterCause::Joint => joint_words(false, rest),
        FilterCause::JointAfterSigns => joint_words(true, rest),
    }
}

/// What doesn't go together where these bytes follow.
fn operator_words(cause: OperatorCause, rest: &[u8]) -> &'static str
    ensures { result.now ≡ words.operator_words cause rest.now }
{
    match cause {
        OperatorCause::Compared if begins(b"~", rest) => "a number doesn't take `~`",
        OperatorCause::Compared => "a string takes no operator but `==`, `!=` and `~`",
        OperatorCause::Modified => "a string takes no modifier",
        OperatorCause::Summed => "a string has no sum",
    }
}

fn no_field_words(subject: Subject) -> &'static str
    ensures { result.now ≡ words.no_field_words subject }
{
    match subject {
        Subject::AllFilters => "an event has no field of this name",
        _ => "the event has no field of this name",
    }
}

/// What is wrong where a name is no field's.
fn field_words(subject: Subject, rest: &[u8]) -> &'static str
    ensures { result.now ≡ words.field_words subject rest.now }
{
    told_of(&FIELDS, name_at(rest), no_field_words(subject))
}

/// What is wrong with a row at a name.
fn row_words(cause: RowCause) -> &'static str
    ensures { result.now ≡ words.row_words cause }
{
    match cause {
        RowCause::Unknown => "the event has no field of this name",
        RowCause::Repeated => "the field is repeated",
        RowCause::NoNumber => "its value is no number from -2^63 to 2^64 - 1",
        RowCause::OutOfRange => "its value is out of the range of its type",
        RowCause::BadByte => "its value has a byte that is not from 0x20 to 0x7e",
        RowCause::TooLong => "its value is too long",
        RowCause::Missing => "the field is missing",
    }
}

/// What there would be too many of.
fn limit_words(limit: Limit) -> &'static str
    ensures { result.now ≡ words.limit_words limit }
{
    match limit {
        Limit::Fields => "an event has at most 16 fields",
        Limit::Events => "there are 64 events already",
        Limit::Instances => "there are eight instances already",
        Limit::Triggers => "the event has four triggers already",
        Limit::Keys => "a hist trigger has at most three keys",
        Limit::Values => "a hist trigger has at most three values besides `hitcount`",
        Limit::SortKeys => "a hist trigger is sorted by at most two names",
        Limit::FilterBytes => "a filter has at most 1,024 bytes",
        Limit::Openings => "at most 16 `!` and `(` may be open",
    }
}

fn kind_words(body: &[u8]) -> &'static str
    ensures { result.now ≡ words.kind_words body.now }
{
    if blanks_len(body) > 0 {
        "no blank may come before `hist:` or `snapshot`"
    } else if is_bare_hist(body) {
        "expected `:keys=` and a field"
    } else {
        told_of(&TRIGGERS, name_at(body), "expected `hist:` or `snapshot`")
    }
}

fn body_words(cause: TextCause, body: &[u8]) -> &'static str
    ensures { result.now ≡ words.body_words cause body.now }
{
    match cause {
        TextCause::Kind => kind_words(body),
        TextCause::Count => "expected a count from 1 to 4,294,967,295",
        TextCause::AfterSnapshot => "expected a blank, or `:` and a count",
        TextCause::Condition => "expected `if`, a blank and a filter",
        TextCause::Filter => "expected a filter",
    }
}

/// What is wrong with what is written to a `trigger` file, which is neither a hist trigger nor a snapshot trigger.
#[tactic(auto, unfolding(crate::specs::Words::trigger_words))]
fn trigger_words(cause: TextCause, text: &[u8]) -> &'static str
    ensures { result.now ≡ words.trigger_words cause text.now }
{
    body_words(cause, after(mark_len(text), text))
}

fn unknown_words(subject: Subject) -> &'static str
    ensures { result.now ≡ words.unknown_words subject }
{
    match subject {
        Subject::Instance => "expected `instances/` and a name",
        _ => "no file has this path",
    }
}

fn path_words(subject: Subject, path: &[u8]) -> &'static str
    ensures { result.now ≡ words.path_words subject path.now }
{
    if begins(b"/sys/kernel/debug/tracing/", path) {
        "paths begin below `/sys/kernel/debug/tracing/`"
    } else {
        unknown_words(subject)
    }
}

#[tactic(auto, unfolding(crate::specs::Words::bad_value_words))]
fn bad_value_words(subject: Subject) -> &'static str
    ensures { result.now ≡ words.bad_value_words subject }
{
    match subject {
        Subject::Instance => "an instance can't have this name",
        Subject::Read => "only a pipe is read by `take`",
        Subject::Switch => "expected `0` or `1`",
        Subject::Options => "expected `overwrite` or `nooverwrite`",
        Subject::Number => "expected a decimal number below 2^64",
        _ => "the file doesn't take what is written",
    }
}

fn exists_words(text: &[u8]) -> &'static str
    ensures { result.now ≡ words.exists_words text.now }
{
    if begins(b"snapshot", text) {
        "the event has a snapshot trigger already"
    } else if attribute_at(b":name=", first_word(text)).is_some() {
        "expected a trigger that is new to the event and fits the table of its name"
    } else {
        "the event has this trigger already"
    }
}

fn no_trigger_words(text: &[u8]) -> &'static str
    ensures { result.now ≡ words.no_trigger_words text.now }
{
    if begins(b"!", text) {
        "the event has no such trigger: its `trigger` lists those that it has"
    } else {
        "expected `>>` and a trigger that the event's `trigger` lists, with its name, keys, values, sort and filter"
    }
}

/// What is wrong with a command about this that names this path and writes this.
#[tactic(auto, unfolding(crate::specs::Words::refusal_words))]
pub(crate) fn refusal_words(
    subject: Subject,
    path: &[u8],
    text: &[u8],
    refusal: &Refusal,
) -> &'static str
    ensures { result.now ≡ words.refusal_words subject path.now text.now refusal.now }
{
    match (refusal, subject) {
        (Refusal::NoSuchFile, _) => path_words(subject, path),
        (Refusal::NotReadable, _) => "the file can't be read",
        (Refusal::NotWritable, _) => "the file can't be written",
        (Refusal::BadValue, _) => bad_value_words(subject),
        (Refusal::BadTrigger { cause }, _) => trigger_words(*cause, text),
        (Refusal::NoSuchEvent, Subject::AllFilters) => "no event is declared",
        (Refusal::NoSuchEvent, _) => "no event of this name is declared",
        (Refusal::EventExists, _) => "an event of this name is declared already",
        (Refusal::BadDefinition { at, cause }, _) => declaration_words(*cause, after(*at, text)),
        (Refusal::TooBig, _) => "a record of the event would be longer than a page",
        (Refusal::FilterSyntax { at, cause }, _) => filter_words(*cause, after(*at, text)),
        (Refusal::NoSuchField { at }, _) => field_words(subject, after(*at, text)),
        (Refusal::WrongOperator { at, cause }, _) => operator_words(*cause, after(*at, text)),
        (Refusal::HistSyntax { at, cause }, _) => hist_words(*cause, after(*at, text)),
        (Refusal::BadSize, _) => "expected a size from 65 to 131072",
        (Refusal::TriggerExists, _) => exists_words(text),
        (Refusal::NoSuchTrigger, _) => no_trigger_words(text),
        (Refusal::TooMany { limit }, _) => limit_words(*limit),
        (Refusal::InstanceExists, _) => "there is an instance of this name already",
        (Refusal::NoSuchInstance, _) => "there is no instance of this name",
        (Refusal::Busy, Subject::Declaration) => {
            "an event is declared already; declare more by `>>`"
        }
        (Refusal::Busy, _) => "an event of the instance has a snapshot trigger",
        (Refusal::NoSuchCpu, _) => "no CPU has this number",
        (Refusal::BadRow { row }, _) => row_words(row.get().cause),
        (Refusal::HistoryFull, _) => "the history is full",
        (Refusal::Memory, _) => "out of memory",
        (Refusal::Worn, _) => "all tickets are drawn",
    }
}

/// What is wrong, in one sentence, with the write of this text to the file of this path, which was refused so.
pub fn write_words(path: &[u8], text: &[u8], refusal: &Refusal) -> &'static str
    ensures { result.now ≡ words.write_words path.now text.now refusal.now }
{
    refusal_words(written_subject(path), path, text, refusal)
}

/// What is wrong, in one sentence, with a line that was written to `inject`: by its refusal, or, if it is no list of pairs, by none.
pub fn injection_words(refusal: Option<&Refusal>) -> &'static str
    ensures { result.now ≡ words.injection_words (option_copied refusal.entry) }
{
    match refusal {
        None => "expected `NAME=VALUE ..`",
        Some(refusal) => refusal_words(Subject::Emission, b"", b"", refusal),
    }
}

/// What is wrong with a refused command.
pub fn command_words(command: &Command<'_>, refusal: &Refusal) -> &'static str
    ensures { result.now ≡ words.command_words command.now refusal.now }
{
    match command {
        Command::Emit { .. } => injection_words(Some(refusal)),
        Command::Mkdir(path) | Command::Rmdir(path) => {
            refusal_words(Subject::Instance, path.as_bytes(), b"", refusal)
        }
        Command::Write { path, text, .. } => {
            write_words(path.as_bytes(), text.as_bytes(), refusal)
        }
        Command::Read { path, .. } => refusal_words(Subject::Read, path.as_bytes(), b"", refusal),
    }
}

/// Words after the name of a field, if there is one.
fn named(alloc: Global, name: &[u8], told: &str) -> Result<Vec<u8>, AllocError>
    ensures { IfOk result (λ text. text.items ≡ words.named name.now told.now) }
{
    let mut text = Vec::from_slice(alloc, name)?;
    if !name.is_empty() {
        text.extend_from_slice(b": ".as_slice())?;
    }
    text.extend_from_slice(told.as_bytes())?;
    Ok(text)
}

/// The sentence of a refusal: its words, of an emission's row after the name of the field.
pub fn sentence(alloc: Global, refusal: &Refusal, told: &str) -> Result<Vec<u8>, AllocError>
    ensures { IfOk result (λ text. text.items ≡ words.sentence_of refusal.now told.now) }
{
    match refusal {
        Refusal::BadRow { row } => named(alloc, row.get().field.as_bytes(), told),
        _ => Vec::from_slice(alloc, told.as_bytes()),
    }
}
