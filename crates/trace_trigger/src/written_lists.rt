//! What the attributes of a trigger say.

ghost use Rattle.std.specs.Prelude.{◌≡◌, IfOk, IfSome};
ghost use Rattle.std.specs.List.{All};
ghost use Rattle.std.specs.Option.{option_copied};
ghost use Rattle.trace_trigger.specs.HistAttributes.{IsLocated};
ghost use Rattle.trace_trigger.specs.HistLists as lists;
ghost use Rattle.trace_trigger.specs.declared.attribute.Topic.TheVariants as topics;

use crate::attribute::{Attribute, Topic};
use crate::parts::is_word;
use crate::piece::{ListItem, cut_at};
use crate::spec::Action;
use std::alloc::{AllocError, Global};
use std::marker::Model;
use trace_format::Text;
use trace_lex::{is_name, len_before, rest_of};

/// The name of the table, the lists of names, cut into items, and the rest of what the attributes say. Of several attributes on one topic the
/// first counts.
#[derive(Drop)]
pub(crate) struct WrittenLists {
    pub(crate) name: Option<Text>,
    pub(crate) keys: Vec<ListItem>,
    pub(crate) values: Vec<ListItem>,
    pub(crate) sort: Vec<ListItem>,
    pub(crate) size: Option<Text>,
    pub(crate) action: Action,
}

impl Model for WrittenLists {
    ghost use Rattle.trace_trigger.specs.HistLists.{Lists};

    ghost Value = { Lists };

    ghost view = { λ w. record {
      name = w.name;
      keys = w.keys.items;
      values = w.values.items;
      sort = w.sort.items;
      size = w.size;
      action = w.action;
    } };
}

impl WrittenLists {
    /// What attributes say.
    #[tactic(auto, unfolding(crate::specs::HistLists::lists_of))]
    pub(crate) fn of(alloc: Global, attributes: &[Attribute]) -> Result<WrittenLists, AllocError>
        requires { All IsLocated attributes.now }
        ensures { IfOk result (λ written. written ≡ lists.lists_of attributes.now) }
    {
        let name = value_of(first_about(Topic::Name, attributes))?;
        let size = value_of(first_about(Topic::Size, attributes))?;
        let (keys, values, sort) = items_of_each(alloc, attributes)?;
        Ok(WrittenLists {
            name,
            keys,
            values,
            sort,
            size,
            action: action_in(first_about(Topic::Asked(Action::Attach), attributes)),
        })
    }

    /// Whether entries may be sorted by a name: by `hitcount`, by the names of the keys, and by the values.
    pub(crate) fn is_sortable(&self, name: &[u8]) -> bool
        ensures { result ≡ lists.is_sortable self.now name.now }
    {
        is_hitcount(name)
            || is_name(name) && (is_named(&self.keys, name) || is_listed(&self.values, name))
    }
}

/// Whether two attributes are on one topic; `pause`, `continue` and `clear` are one.
pub(crate) fn is_same_topic(left: Topic, right: Topic) -> bool
    ensures { result ≡ lists.is_same_topic left right }
{
    match (left, right) {
        (Topic::Keys, Topic::Keys) => true,
        (Topic::Values, Topic::Values) => true,
        (Topic::Sort, Topic::Sort) => true,
        (Topic::Size, Topic::Size) => true,
        (Topic::Name, Topic::Name) => true,
        (Topic::Asked(_), Topic::Asked(_)) => true,
        _ => false,
    }
}

/// The first attribute on a topic.
fn first_about(topic: Topic, attributes: &[Attribute]) -> Option<&Attribute>
    ensures value { option_copied result ≡ lists.first_about topic attributes.now }
    ensures located { All IsLocated attributes.now → IfSome result (λ attribute. IsLocated attribute.now) }
{
    for attribute in attributes {
        if is_same_topic(topic, attribute.topic) {
            return Some(attribute);
        }
    }
    None
}

/// The items of the first list on a topic; none, if there is no such list.
fn items_about(
    alloc: Global,
    topic: Topic,
    attributes: &[Attribute],
) -> Result<Vec<ListItem>, AllocError>
    requires { All IsLocated attributes.now }
    ensures { IfOk result (λ items. items.items ≡ lists.items_in (lists.first_about topic attributes.now)) }
{
    match first_about(topic, attributes) {
        Some(attribute) => {
            let at = attribute.at + attribute.skip;
            cut_at(alloc, b',', at, attribute.value.as_bytes())
        }
        None => Ok(Vec::new(alloc)),
    }
}

/// The items of the keys, of the values, and of what is sorted by.
fn items_of_each(
    alloc: Global,
    attributes: &[Attribute],
) -> Result<(Vec<ListItem>, Vec<ListItem>, Vec<ListItem>), AllocError>
    requires { All IsLocated attributes.now }
    ensures keys { IfOk result (λ items. items.0.items ≡ lists.items_in (lists.first_about topics.Keys attributes.now)) }
    ensures values { IfOk result (λ items. items.1.items ≡ lists.items_in (lists.first_about topics.Values attributes.now)) }
    ensures sort { IfOk result (λ items. items.2.items ≡ lists.items_in (lists.first_about topics.Sort attributes.now)) }
{
    let keys = items_about(alloc, Topic::Keys, attributes)?;
    let values = items_about(alloc, Topic::Values, attributes)?;
    let sort = items_about(alloc, Topic::Sort, attributes)?;
    Ok((keys, values, sort))
}

/// A copy of the value of an attribute.
fn value_of(attribute: Option<&Attribute>) -> Result<Option<Text>, AllocError>
    ensures { IfOk result (λ value. value ≡ lists.value_of (option_copied attribute.entry)) }
{
    match attribute {
        Some(attribute) => Ok(Some(attribute.value.clone()?)),
        None => Ok(None),
    }
}

/// What an attribute asks for.
fn action_in(attribute: Option<&Attribute>) -> Action
    ensures { result ≡ lists.action_in (option_copied attribute.entry) }
{
    match attribute {
        Some(attribute) => match attribute.topic {
            Topic::Asked(action) => action,
            _ => Action::Attach,
        },
        None => Action::Attach,
    }
}

/// Whether an item of a list is this name.
pub(crate) fn is_listed(items: &[ListItem], name: &[u8]) -> bool
    ensures { result ≡ lists.is_listed items.now name.now }
{
    for item in items {
        if is_word(name, item.bytes.as_bytes()) {
            return true;
        }
    }
    false
}

/// Whether an item has this name, with whatever suffix.
pub(crate) fn is_named(items: &[ListItem], name: &[u8]) -> bool
    ensures { result ≡ lists.is_named items.now name.now }
{
    for item in items {
        if is_word(name, item_name(item.bytes.as_bytes())) {
            return true;
        }
    }
    false
}

pub(crate) fn is_hitcount(name: &[u8]) -> bool
    ensures { result ≡ lists.is_hitcount name.now }
{
    is_word(name, b"hitcount")
}

/// The name of a key or of a sort key: what comes before the first `.`.
pub(crate) fn item_name(written: &[u8]) -> &[u8]
    ensures { result.now ≡ lists.item_name written.now }
{
    &written[..len_before(b'.', written)]
}

/// A key's modifier, or a sort key's direction: the first `.` and what follows, or nothing.
pub(crate) fn item_suffix(written: &[u8]) -> &[u8]
    ensures { result.now ≡ lists.item_suffix written.now }
{
    rest_of(written, len_before(b'.', written))
}

pub(crate) fn is_descending(suffix: &[u8]) -> bool
    ensures { result ≡ lists.is_descending suffix.now }
{
    is_word(suffix, b".descending")
}

/// Whether a suffix says in which direction to sort, or nothing.
pub(crate) fn is_direction(suffix: &[u8]) -> bool
    ensures { result ≡ lists.is_direction suffix.now }
{
    suffix.is_empty() || is_word(suffix, b".ascending") || is_descending(suffix)
}
