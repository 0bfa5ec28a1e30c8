//! What is wrong with a hist trigger's text, in words.

ghost use Rattle.std.specs.Prelude.{◌≡◌};
ghost use Rattle.refusal_explanations.specs.Words as words;

use crate::cut::{begins, part_before};
use crate::left_out::{ATTRIBUTES, name_at, told_of};
use trace_trigger::HistCause;

/// An attribute is due, and these bytes follow: those that have a value, or all.
fn attribute_due(rest: &[u8]) -> &'static str
    ensures { result.now ≡ words.attribute_due rest.now }
{
    if part_before(b':', rest).contains(&b'=') {
        "expected `keys=`, `vals=`, `sort=`, `size=` or `name=`; variables are left out"
    } else {
        "expected `keys=`, `vals=`, `sort=`, `size=`, `name=`, `pause`, `continue` or `clear`"
    }
}

/// What is wrong with an attribute that begins so.
fn attribute_words(rest: &[u8]) -> &'static str
    ensures { result.now ≡ words.attribute_words rest.now }
{
    told_of(&ATTRIBUTES, name_at(rest), attribute_due(rest))
}

/// What is wrong with an item of a list that begins so: a variable, or else what is told.
fn item_words(rest: &[u8], other: &'static str) -> &'static str
    ensures { result.now ≡ words.item_words rest.now other.now }
{
    if begins(b"$", rest) {
        "variables are left out"
    } else {
        other
    }
}

/// What is wrong with a hist trigger where these bytes follow.
pub(crate) fn hist_words(cause: HistCause, rest: &[u8]) -> &'static str
    ensures { result.now ≡ words.hist_words cause rest.now }
{
    match cause {
        HistCause::Unknown => attribute_words(rest),
        HistCause::Size => "expected one `size=` and its digits",
        HistCause::Action => "there is an action already",
        HistCause::Repeated => "this attribute is there already",
        HistCause::Key { is_first: true } => item_words(
            rest,
            "expected a field, alone or with `.hex`, `.log2` or `.buckets=N`",
        ),
        HistCause::Key { is_first: false } => item_words(
            rest,
            "expected another field, alone or with `.hex`, `.log2` or `.buckets=N`",
        ),
        HistCause::Value { is_first: true } => {
            item_words(rest, "expected a field, without a modifier")
        }
        HistCause::Value { is_first: false } => {
            item_words(rest, "expected another field, without a modifier")
        }
        HistCause::Sort { is_first: true } => {
            "expected `hitcount`, a key or a value, alone or with `.ascending` or `.descending`"
        }
        HistCause::Sort { is_first: false } => {
            "expected another key or value, or `hitcount`, alone or with `.ascending` or `.descending`"
        }
        HistCause::Name => "expected a table's name",
        HistCause::NoKeys => "expected `:keys=` and a field",
        HistCause::Condition => "expected `if`, a blank and a filter",
    }
}
