//! The reading of a trigger string, step by step.

ghost use Rattle.std.specs.Prelude.{◌≡◌, ◌≤◌, ◌+◌, IfOk, IfSome, length};
ghost use Rattle.std.specs.Option.{option_copied};
ghost use Rattle.trace_trigger.specs.TriggerAnswers.{IsAnswered};
ghost use Rattle.trace_trigger.specs.HistTexts as texts;
ghost use Rattle.trace_trigger.specs.HistTexts.{IsHistText, read_of};
ghost use Rattle.trace_trigger.specs.HistLists as lists;
ghost use Rattle.trace_trigger.specs.HistParts as parts;
ghost use Rattle.trace_trigger.specs.private.Meant.{meaning_of as meant, summed as summed_lists, spec_of_parts, rules_of};

use crate::attribute::attributes_at;
use crate::condition::read_filter;
use crate::fault::TriggerFault;
use crate::hist_parts::start_of;
use crate::meaning::{keys_of, names_of, size_of, sort_of, summed, value_sources};
use crate::offset::{Mistake, leftmost_mistake};
use crate::spec::{HistSpec, SortKey};
use crate::written_lists::WrittenLists;
use std::alloc::{AllocError, Global};
use std::marker::Model;
use trace_filter::Filter;
use trace_format::{EventDef, Key, Operand, SortRule, Text};

/// What the attributes of a string say, unless the string breaks the grammar. They are cut out already, and so is the tail, which is what follows
/// the first word and blanks.
#[tactic(auto, unfolding(crate::specs::HistTexts::read_of, crate::specs::HistOffsets::mistakes, crate::specs::HistParts::attributes_of))]
pub(crate) fn read_written(
    alloc: Global,
    text: &[u8],
    word: &[u8],
    tail: &[u8],
) -> Result<WrittenLists, TriggerFault>
    requires hist { IsHistText text.now }
    requires word { word.now ≡ parts.word_of text.now }
    requires len { length word.now ≡ parts.word_len (parts.body_of text.now) }
    requires bound { parts.start_of text.now + length word.now ≤ length text.now }
    requires tail { tail.now ≡ parts.tail_of text.now }
    requires tail_bound { length tail.now ≤ length text.now }
    ensures { IsAnswered result (read_of text.now) }
{
    let start = start_of(text);
    let attributes = attributes_at(alloc, start, word)?;
    let written = WrittenLists::of(alloc, &attributes)?;
    match leftmost_mistake(text, start + word.len(), tail, &attributes, &written) {
        Some(Mistake { at, cause }) => Err(TriggerFault::HistSyntax { at, cause }),
        None => Ok(written),
    }
}

/// What the keys, the summed values, the size and the filter of a trigger mean in an event.
#[derive(Drop)]
struct Meaning {
    keys: Vec<Key>,
    value_sources: Vec<Operand>,
    size: u32,
    filter: Option<Filter>,
}

impl Model for Meaning {
    ghost use Rattle.trace_trigger.specs.private.Meant.{Meant};

    ghost Value = { Meant };

    ghost view = { λ m. record { keys = m.keys.items; value_sources = m.value_sources.items; size = m.size; filter = m.filter } };
}

/// The meaning of a trigger whose values are all summed. The keys are looked up, then the values, the size and the filter.
#[tactic(auto, unfolding(crate::specs::private::Meant::meaning_of))]
fn meaning_of(
    alloc: Global,
    text: &[u8],
    written: &WrittenLists,
    condition: Option<&[u8]>,
    event: &EventDef,
) -> Result<Meaning, TriggerFault>
    requires { IfSome condition (λ filter. length filter.now ≤ length text.now) }
    ensures { IsAnswered result (meant event.now text.now (option_copied condition.entry) written.now) }
{
    let keys = keys_of(alloc, event.fields(), &written.keys)?;
    let value_sources = value_sources(alloc, event.fields(), &written.values)?;
    let size = size_of(&written.size)?;
    let filter = read_filter(alloc, text, condition, event)?;
    Ok(Meaning {
        keys,
        value_sources,
        size,
        filter,
    })
}

/// The same, with no `hitcount` among the values.
fn without_hitcount(written: WrittenLists) -> WrittenLists
    ensures { result ≡ summed_lists written }
{
    let WrittenLists {
        name,
        keys,
        values,
        sort,
        size,
        action,
    } = written;
    let values = summed(values);
    WrittenLists {
        name,
        keys,
        values,
        sort,
        size,
        action,
    }
}

/// Puts a trigger together.
fn assemble(
    written: WrittenLists,
    meaning: Meaning,
    values: Vec<Text>,
    sort: Vec<SortKey>,
    sort_sources: Vec<SortRule>,
) -> HistSpec
    requires { length meaning.keys ≤ 3 }
    ensures { result ≡ spec_of_parts written meaning values.items sort.items sort_sources.items }
{
    HistSpec {
        name: written.name,
        keys: meaning.keys,
        values,
        sort,
        size: meaning.size,
        action: written.action,
        filter: meaning.filter,
        value_sources: meaning.value_sources,
        sort_sources,
    }
}

/// The names of the values, the sort keys, and what each of these means.
fn values_and_sort(
    alloc: Global,
    keys: &[Key],
    written: &WrittenLists,
) -> Result<(Vec<Text>, Vec<SortKey>, Vec<SortRule>), AllocError>
    ensures values { IfOk result (λ shown. shown.0.items ≡ lists.names_of written.now.values) }
    ensures sort { IfOk result (λ shown. shown.1.items ≡ lists.sort_keys written.now.sort) }
    ensures rules { IfOk result (λ shown. shown.2.items ≡ rules_of keys.now written.now) }
{
    let values = names_of(alloc, &written.values)?;
    let (sort, sort_sources) = sort_of(alloc, keys, &values, &written.sort)?;
    Ok((values, sort, sort_sources))
}

/// The trigger of an event that attributes and a filter's text say.
#[tactic(auto, using(crate::proofs::MeantLaws::spec_told))]
pub(crate) fn spec_from(
    alloc: Global,
    text: &[u8],
    written: WrittenLists,
    condition: Option<&[u8]>,
    event: &EventDef,
) -> Result<HistSpec, TriggerFault>
    requires condition { option_copied condition ≡ parts.condition_of (parts.tail_of text.now) }
    requires bound { IfSome condition (λ filter. length filter.now ≤ length text.now) }
    requires few { length written.keys ≤ 3 }
    ensures { IsAnswered result (texts.spec_from event.now text.now written) }
{
    let written = without_hitcount(written);
    let meaning = meaning_of(alloc, text, &written, condition, event)?;
    let shown = values_and_sort(alloc, &meaning.keys, &written)?;
    let (values, sort, sort_sources) = shown;
    Ok(assemble(written, meaning, values, sort, sort_sources))
}
