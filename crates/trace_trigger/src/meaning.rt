//! What the names of a trigger come to in an event.

ghost use Rattle.std.specs.Prelude.{◌≡◌, Ok, MatchResult, IfOk, bytes_eq, [], map};
ghost use Rattle.std.specs.List.{position};
ghost use Rattle.trace_format.specs.declared.key.Key.{Key as KeySeen};
ghost use Rattle.trace_trigger.specs.HistMeanings as meanings;
ghost use Rattle.trace_trigger.specs.HistLists as lists;
ghost use Rattle.trace_trigger.specs.HistSpecs.{key_names};
ghost use Rattle.trace_trigger.specs.TriggerAnswers.{IsAnswered, IsTold};

use crate::fault::{OperatorCause, TriggerFault};
use crate::parts::is_word;
use crate::piece::ListItem;
use crate::size::rounded_size;
use crate::spec::SortKey;
use crate::written_lists::{WrittenLists, is_descending, is_hitcount, item_name, item_suffix};
use std::alloc::{AllocError, Global};
use trace_format::{Field, Key, Modifier, Operand, SortRule, SortSource, Text};
use trace_lex::decimal_number;

/// There are at most so many keys, and values besides `hitcount`.
const MOST_NAMES: usize = 3;

/// There are at most so many sort keys.
const MOST_SORT_KEYS: usize = 2;

/// How many entries there may be where nothing is said.
const DEFAULT_SIZE: u32 = 2048;

/// How many of the values are summed: all but `hitcount`.
fn summed_len(values: &[ListItem]) -> usize
    ensures { result ≡ meanings.summed_len values.now }
{
    values
        .iter()
        .filter(|value| !is_hitcount(value.bytes.as_bytes()))
        .count()
}

/// The values that are summed: all but `hitcount`.
pub(crate) fn summed(mut values: Vec<ListItem>) -> Vec<ListItem>
    ensures { result.items ≡ lists.summed_items values.items }
{
    values.retain(|value| !is_hitcount(value.bytes.as_bytes()));
    values
}

/// Whether there are too many keys, values or sort keys.
pub(crate) fn is_too_many(written: &WrittenLists) -> bool
    ensures { result ≡ meanings.is_too_many written.now }
{
    written.keys.len() > MOST_NAMES
        || summed_len(&written.values) > MOST_NAMES
        || written.sort.len() > MOST_SORT_KEYS
}

/// What there are too many of: keys, or else values, or else sort keys.
#[cold]
pub(crate) fn excess(written: &WrittenLists) -> TriggerFault
    ensures { result ≡ meanings.excess written.now }
{
    if written.keys.len() > MOST_NAMES {
        TriggerFault::TooManyKeys
    } else if summed_len(&written.values) > MOST_NAMES {
        TriggerFault::TooManyValues
    } else {
        TriggerFault::TooManySortKeys
    }
}

/// What a key means. It may be a number, or a string if it has no modifier.
fn key_operand(fields: &[Field], key: &ListItem) -> Result<Operand, TriggerFault>
    ensures { MatchResult result
        (λ operand. meanings.key_in fields.now key.now ≡ Ok (meanings.key_as key.now operand))
        (λ fault. meanings.key_in fields.now key.now ≡ Err fault) }
{
    let written = key.bytes.as_bytes();
    match Operand::named(fields, item_name(written)) {
        Some(operand) if operand.is_text() && !item_suffix(written).is_empty() => {
            Err(TriggerFault::WrongOperator {
                at: key.at,
                cause: OperatorCause::Modified,
            })
        }
        Some(operand) => Ok(operand),
        None => Err(TriggerFault::NoSuchField { at: key.at }),
    }
}

/// A key that means this.
fn key_as(alloc: Global, key: &ListItem, operand: Operand) -> Result<Key, AllocError>
    ensures { IfOk result (λ read. read ≡ meanings.key_as key.now operand) }
{
    let written = key.bytes.as_bytes();
    Ok(Key {
        written: key.bytes.clone()?,
        name: Text::from_slice(alloc, item_name(written))?,
        modifier: Modifier::read(item_suffix(written)).unwrap_or(Modifier::Plain),
        operand,
    })
}

/// A key; or the fault for which it means nothing.
fn key_in(alloc: Global, fields: &[Field], key: &ListItem) -> Result<Key, TriggerFault>
    ensures { IsAnswered result (meanings.key_in fields.now key.now) }
{
    let operand = key_operand(fields, key)?;
    Ok(key_as(alloc, key, operand)?)
}

/// The keys; or the fault of the first that means nothing.
pub(crate) fn keys_of(
    alloc: Global,
    fields: &[Field],
    keys: &[ListItem],
) -> Result<Vec<Key>, TriggerFault>
    ensures { MatchResult result
        (λ read. meanings.each (meanings.key_in fields.now) keys.now ≡ Ok read.items)
        (λ fault. IsTold fault (meanings.each (meanings.key_in fields.now) keys.now)) }
{
    let mut read = Vec::with_capacity(alloc, keys.len())?;
    for key in keys {
        read.push_reserved(key_in(alloc, fields, key)?);
    }
    Ok(read)
}

/// Where a value is found. It is a number.
fn value_source(fields: &[Field], value: &ListItem) -> Result<Operand, TriggerFault>
    ensures { result ≡ meanings.value_source fields.now value.now }
{
    match Operand::named(fields, value.bytes.as_bytes()) {
        Some(operand) if operand.is_text() => Err(TriggerFault::WrongOperator {
            at: value.at,
            cause: OperatorCause::Summed,
        }),
        Some(operand) => Ok(operand),
        None => Err(TriggerFault::NoSuchField { at: value.at }),
    }
}

/// Where each value is found; or the fault of the first that means nothing or is a string.
pub(crate) fn value_sources(
    alloc: Global,
    fields: &[Field],
    values: &[ListItem],
) -> Result<Vec<Operand>, TriggerFault>
    ensures { MatchResult result
        (λ sources. meanings.each (meanings.value_source fields.now) values.now ≡ Ok sources.items)
        (λ fault. IsTold fault (meanings.each (meanings.value_source fields.now) values.now)) }
{
    let mut sources = Vec::with_capacity(alloc, values.len())?;
    for value in values {
        sources.push_reserved(value_source(fields, value)?);
    }
    Ok(sources)
}

/// The number of entries that digits ask for, rounded, if there may be so many.
#[tactic(auto, using(crate::proofs::SizeLemmas::size_past))]
fn size_written(digits: &[u8]) -> Option<u32>
    ensures { result ≡ meanings.size_written digits.now }
{
    rounded_size(decimal_number(digits, u64::MAX)?)
}

/// How many entries there may be.
pub(crate) fn size_of(size: &Option<Text>) -> Result<u32, TriggerFault>
    ensures { result ≡ meanings.size_of size.now }
{
    match size {
        Some(digits) => size_written(digits.as_bytes()).ok_or(TriggerFault::BadSize),
        None => Ok(DEFAULT_SIZE),
    }
}

/// The names of items.
pub(crate) fn names_of(alloc: Global, items: &[ListItem]) -> Result<Vec<Text>, AllocError>
    ensures { IfOk result (λ names. names.items ≡ lists.names_of items.now) }
{
    let mut names = Vec::with_capacity(alloc, items.len())?;
    for item in items {
        names.push_reserved(item.bytes.clone()?);
    }
    Ok(names)
}

fn sort_key_of(alloc: Global, item: &ListItem) -> Result<SortKey, AllocError>
    ensures { IfOk result (λ key. key ≡ lists.sort_key_of item.now) }
{
    let written = item.bytes.as_bytes();
    Ok(SortKey {
        name: Text::from_slice(alloc, item_name(written))?,
        descending: is_descending(item_suffix(written)),
    })
}

/// The one sort key where none are written.
fn hitcount_alone(alloc: Global) -> Result<Vec<SortKey>, AllocError>
    ensures { IfOk result (λ keys. keys.items ≡ lists.sort_keys []) }
{
    let mut keys = Vec::with_capacity(alloc, 1)?;
    keys.push_reserved(SortKey {
        name: Text::from_slice(alloc, b"hitcount")?,
        descending: false,
    });
    Ok(keys)
}

/// The sort keys that are written.
fn written_sort_keys(alloc: Global, items: &[ListItem]) -> Result<Vec<SortKey>, AllocError>
    ensures { IfOk result (λ keys. keys.items ≡ map lists.sort_key_of items.now) }
{
    let mut keys = Vec::with_capacity(alloc, items.len())?;
    for item in items {
        keys.push_reserved(sort_key_of(alloc, item)?);
    }
    Ok(keys)
}

/// The sort keys; by `hitcount`, where none are written.
fn sort_keys(alloc: Global, items: &[ListItem]) -> Result<Vec<SortKey>, AllocError>
    ensures { IfOk result (λ keys. keys.items ≡ lists.sort_keys items.now) }
{
    if items.is_empty() {
        hitcount_alone(alloc)
    } else {
        written_sort_keys(alloc, items)
    }
}

/// The index of a name among others, if it is one of them.
fn index_of(names: &[Text], name: &[u8]) -> Option<usize>
    ensures { result ≡ meanings.index_of names.now name.now }
{
    for (index, other) in names.iter().enumerate() {
        if is_word(name, other.as_bytes()) {
            return Some(index);
        }
    }
    None
}

/// The index of the key of a name, if one has it.
fn index_of_key(keys: &[Key], name: &[u8]) -> Option<usize>
    ensures { result ≡ position (λ (key : KeySeen). bytes_eq name.now key.name) keys.now }
{
    for (index, key) in keys.iter().enumerate() {
        if is_word(name, key.name.as_bytes()) {
            return Some(index);
        }
    }
    None
}

/// What a name means that entries are sorted by: a value, if it is one, and otherwise `hitcount` or a key.
#[tactic(auto, using(crate::proofs::KeyLemmas::key_position))]
fn sort_source(keys: &[Key], values: &[Text], name: &[u8]) -> SortSource
    ensures { result ≡ meanings.sort_source (key_names keys.now) values.now name.now }
{
    if let Some(index) = index_of(values, name) {
        SortSource::Value(index)
    } else if is_hitcount(name) {
        SortSource::Hitcount
    } else {
        SortSource::Key(index_of_key(keys, name).unwrap_or(0))
    }
}

fn sort_rule(keys: &[Key], values: &[Text], key: &SortKey) -> SortRule
    ensures { result ≡ meanings.sort_rule (key_names keys.now) values.now key.now }
{
    SortRule {
        source: sort_source(keys, values, key.name.as_bytes()),
        descending: key.descending,
    }
}

/// What each sort key means.
fn sort_rules(
    alloc: Global,
    keys: &[Key],
    values: &[Text],
    sort: &[SortKey],
) -> Result<Vec<SortRule>, AllocError>
    ensures { IfOk result (λ rules. rules.items ≡ map (meanings.sort_rule (key_names keys.now) values.now) sort.now) }
{
    let mut rules = Vec::with_capacity(alloc, sort.len())?;
    for key in sort {
        rules.push_reserved(sort_rule(keys, values, key));
    }
    Ok(rules)
}

/// The sort keys, and what each means.
pub(crate) fn sort_of(
    alloc: Global,
    keys: &[Key],
    values: &[Text],
    items: &[ListItem],
) -> Result<(Vec<SortKey>, Vec<SortRule>), AllocError>
    ensures sort { IfOk result (λ found. found.0.items ≡ lists.sort_keys items.now) }
    ensures rules { IfOk result (λ found. found.1.items ≡ map (meanings.sort_rule (key_names keys.now) values.now) (lists.sort_keys items.now)) }
{
    let sort = sort_keys(alloc, items)?;
    let rules = sort_rules(alloc, keys, values, &sort)?;
    Ok((sort, rules))
}
