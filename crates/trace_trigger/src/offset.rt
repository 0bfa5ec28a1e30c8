//! Where a trigger string breaks the grammar, and what is wrong there.

ghost use Rattle.std.specs.Prelude.{◌≡◌, ◌≤◌, ◌++◌, length};
ghost use Rattle.std.specs.List.{All};
ghost use Rattle.std.specs.Option.{is_some};
ghost use Rattle.trace_lex.specs.Decimals as decimals;
ghost use Rattle.trace_trigger.specs.HistAttributes.{IsLocated};
ghost use Rattle.trace_trigger.specs.HistOffsets as offsets;

use crate::attribute::{Attribute, Topic};
use crate::fault::HistCause;
use crate::hist_parts::condition_of;
use crate::piece::ListItem;
use crate::written_lists::{
    WrittenLists, is_direction, is_listed, is_named, is_same_topic, item_name, item_suffix,
};
use trace_format::Modifier;
use trace_lex::{all_digits, is_name};

/// What breaks the grammar, and its offset.
#[derive(Clone, Copy)]
pub(crate) struct Mistake {
    pub(crate) at: usize,
    pub(crate) cause: HistCause,
}

/// The mistake further left, if there is one; of two at one offset, the first given.
fn further_left(left: Option<Mistake>, right: Option<Mistake>) -> Option<Mistake>
    ensures { result ≡ offsets.further_left left right }
{
    match (left, right) {
        (Some(left), Some(right)) if right.at < left.at => Some(right),
        (Some(left), _) => Some(left),
        (None, right) => right,
    }
}

fn is_unknown(topic: Topic) -> bool
    ensures { result ≡ offsets.is_unknown topic }
{
    matches!(topic, Topic::Unknown)
}

/// Whether an attribute before this one is on the same topic.
fn is_repeated(before: &[Attribute], attribute: &Attribute) -> bool
    ensures { result ≡ offsets.is_repeated before.now attribute.now }
{
    for other in before {
        if is_same_topic(other.topic, attribute.topic) {
            return true;
        }
    }
    false
}

/// Whether a string is decimal digits, one at least.
fn is_decimal(text: &[u8]) -> bool
    ensures { result ≡ is_some (decimals.decimal_number text.now) }
{
    !text.is_empty() && all_digits(text)
}

/// Whether an attribute is a size that is not written in decimal digits.
fn is_bad_size(attribute: &Attribute) -> bool
    ensures { result ≡ offsets.is_bad_size attribute.now }
{
    is_same_topic(Topic::Size, attribute.topic) && !is_decimal(attribute.value.as_bytes())
}

fn is_wrong_attribute(before: &[Attribute], attribute: &Attribute) -> bool
    ensures { result ≡ offsets.is_wrong_attribute before.now attribute.now }
{
    is_unknown(attribute.topic) || is_repeated(before, attribute) || is_bad_size(attribute)
}

/// Why an attribute on this topic is wrong.
fn attribute_cause(topic: Topic) -> HistCause
    ensures { result ≡ offsets.attribute_cause topic }
{
    match topic {
        Topic::Unknown => HistCause::Unknown,
        Topic::Size => HistCause::Size,
        Topic::Asked(_) => HistCause::Action,
        Topic::Keys | Topic::Values | Topic::Sort | Topic::Name => HistCause::Repeated,
    }
}

/// The leftmost attribute that is wrong.
#[tactic(auto, unfolding(crate::specs::HistOffsets::attribute_mistakes))]
fn wrong_attribute(attributes: &[Attribute]) -> Option<Mistake>
    ensures { result ≡ offsets.leftmost (offsets.attribute_mistakes attributes.now) }
{
    let mut found = None;
    for (index, attribute) in attributes.iter().enumerate() {
        if is_wrong_attribute(&attributes[..index], attribute) {
            let mistake = Mistake {
                at: attribute.at,
                cause: attribute_cause(attribute.topic),
            };
            found = further_left(found, Some(mistake));
        }
    }
    found
}

/// Whether an attribute is a table's name that is none.
fn is_bad_name(attribute: &Attribute) -> bool
    ensures { result ≡ offsets.is_bad_name attribute.now }
{
    is_same_topic(Topic::Name, attribute.topic) && !is_name(attribute.value.as_bytes())
}

/// The leftmost table's name that is none.
#[tactic(auto, unfolding(crate::specs::HistOffsets::name_mistakes))]
fn wrong_name(attributes: &[Attribute]) -> Option<Mistake>
    requires { All IsLocated attributes.now }
    ensures { result ≡ offsets.leftmost (offsets.name_mistakes attributes.now) }
{
    let mut found = None;
    for attribute in attributes {
        if is_bad_name(attribute) {
            let mistake = Mistake {
                at: attribute.at + attribute.skip,
                cause: HistCause::Name,
            };
            found = further_left(found, Some(mistake));
        }
    }
    found
}

/// Whether an item is the first of its list, by those before it.
fn is_first(before: &[ListItem]) -> bool
    ensures { result ≡ offsets.is_first before.now }
{
    before.is_empty()
}

/// Whether a key has no name, has another suffix than a modifier, or has a name that stands in the list before.
fn is_wrong_key(before: &[ListItem], item: &ListItem) -> bool
    ensures { result ≡ offsets.is_wrong_key before.now item.now }
{
    let written = item.bytes.as_bytes();
    let name = item_name(written);
    !is_name(name) || Modifier::read(item_suffix(written)).is_none() || is_named(before, name)
}

fn key_mistake(before: &[ListItem], item: &ListItem) -> Mistake
    ensures { result ≡ offsets.key_mistake before.now item.now }
{
    Mistake {
        at: item.at,
        cause: HistCause::Key {
            is_first: is_first(before),
        },
    }
}

/// The leftmost key that is wrong.
#[tactic(auto, unfolding(crate::specs::HistOffsets::key_mistakes))]
fn wrong_key(keys: &[ListItem]) -> Option<Mistake>
    ensures { result ≡ offsets.leftmost (offsets.key_mistakes keys.now) }
{
    let mut found = None;
    for (index, item) in keys.iter().enumerate() {
        let before = &keys[..index];
        if is_wrong_key(before, item) {
            found = further_left(found, Some(key_mistake(before, item)));
        }
    }
    found
}

/// Whether a value is no name, or one that stands in the list before.
fn is_wrong_value(before: &[ListItem], item: &ListItem) -> bool
    ensures { result ≡ offsets.is_wrong_value before.now item.now }
{
    let name = item.bytes.as_bytes();
    !is_name(name) || is_listed(before, name)
}

fn value_mistake(before: &[ListItem], item: &ListItem) -> Mistake
    ensures { result ≡ offsets.value_mistake before.now item.now }
{
    Mistake {
        at: item.at,
        cause: HistCause::Value {
            is_first: is_first(before),
        },
    }
}

/// The leftmost value that is wrong.
#[tactic(auto, unfolding(crate::specs::HistOffsets::value_mistakes))]
fn wrong_value(values: &[ListItem]) -> Option<Mistake>
    ensures { result ≡ offsets.leftmost (offsets.value_mistakes values.now) }
{
    let mut found = None;
    for (index, item) in values.iter().enumerate() {
        let before = &values[..index];
        if is_wrong_value(before, item) {
            found = further_left(found, Some(value_mistake(before, item)));
        }
    }
    found
}

/// Whether a sort key can't be sorted by, has another suffix than a direction, or has a name that stands in the list before.
fn is_wrong_sort(written: &WrittenLists, before: &[ListItem], item: &ListItem) -> bool
    ensures { result ≡ offsets.is_wrong_sort written.now before.now item.now }
{
    let name = item_name(item.bytes.as_bytes());
    !written.is_sortable(name)
        || !is_direction(item_suffix(item.bytes.as_bytes()))
        || is_named(before, name)
}

fn sort_mistake(before: &[ListItem], item: &ListItem) -> Mistake
    ensures { result ≡ offsets.sort_mistake before.now item.now }
{
    Mistake {
        at: item.at,
        cause: HistCause::Sort {
            is_first: is_first(before),
        },
    }
}

/// The leftmost sort key that is wrong.
#[tactic(auto, using(crate::proofs::Mistakes::from_wrong, crate::proofs::Mistakes::from_right, crate::proofs::Mistakes::from_end), unfolding(crate::specs::HistOffsets::sort_mistakes))]
fn wrong_sort(written: &WrittenLists) -> Option<Mistake>
    ensures { result ≡ offsets.leftmost (offsets.sort_mistakes written.now) }
{
    let mut found = None;
    for (index, item) in written.sort.iter().enumerate() {
        let before = &written.sort[..index];
        if is_wrong_sort(written, before, item) {
            found = further_left(found, Some(sort_mistake(before, item)));
        }
    }
    found
}

/// The leftmost item that is wrong.
#[tactic(auto, using(crate::proofs::Mistakes::leftmost_append))]
fn wrong_item(written: &WrittenLists) -> Option<Mistake>
    ensures { result ≡ offsets.leftmost (offsets.list_mistakes written.now) }
{
    let names = further_left(wrong_key(&written.keys), wrong_value(&written.values));
    further_left(names, wrong_sort(written))
}

/// That there are no keys, at the first word's end.
fn lack_of_keys(end: usize, keys: &[ListItem]) -> Option<Mistake>
    ensures { result ≡ offsets.leftmost (offsets.keyless_mistakes end keys.now) }
{
    if keys.is_empty() {
        Some(Mistake {
            at: end,
            cause: HistCause::NoKeys,
        })
    } else {
        None
    }
}

/// What follows the first word, unless it is a condition or there is nothing.
fn wrong_tail(text: &[u8], tail: &[u8]) -> Option<Mistake>
    requires { length tail.now ≤ length text.now }
    ensures { result ≡ offsets.leftmost (offsets.tail_mistakes text.now tail.now) }
{
    if !tail.is_empty() && condition_of(tail).is_none() {
        Some(Mistake {
            at: text.len() - tail.len(),
            cause: HistCause::Condition,
        })
    } else {
        None
    }
}

/// The first mistake of a string, if it breaks the grammar: given where its first word ends, what follows that and blanks, and the attributes with
/// what they say.
#[tactic(auto, using(crate::proofs::Mistakes::leftmost_append))]
pub(crate) fn leftmost_mistake(
    text: &[u8],
    end: usize,
    tail: &[u8],
    attributes: &[Attribute],
    written: &WrittenLists,
) -> Option<Mistake>
    requires tail { length tail.now ≤ length text.now }
    requires located { All IsLocated attributes.now }
    ensures { result ≡ offsets.leftmost (offsets.attribute_mistakes attributes.now ++ offsets.name_mistakes attributes.now
        ++ offsets.list_mistakes written.now ++ offsets.keyless_mistakes end written.now.keys ++ offsets.tail_mistakes text.now tail.now) }
{
    let attributed = further_left(wrong_attribute(attributes), wrong_name(attributes));
    let listed = further_left(attributed, wrong_item(written));
    let worded = further_left(listed, lack_of_keys(end, &written.keys));
    further_left(worded, wrong_tail(text, tail))
}
