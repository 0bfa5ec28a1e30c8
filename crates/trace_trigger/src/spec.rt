//! What a hist trigger says (histogram.rst, "hist triggers").

ghost use Rattle.std.specs.Prelude.{◌≡◌, ◌≢◌, ◌↔◌, ◌≤◌, Option, Some, None, Err, IsTrue, length, option_copied, bytes_eq};
ghost use Rattle.std.specs.Bool.{beq};
ghost use Rattle.trace_trigger.specs.TriggerAnswers.{IsAnswered};
ghost use Rattle.trace_trigger.specs.declared.fault.TextCause.{TextCause};
ghost use Rattle.trace_trigger.specs.HistSpecs.{written_of};
ghost use Rattle.trace_trigger.specs.HistTexts.{IsHistText, spec_of};
ghost use Rattle.trace_trigger.specs.SameSpecs.{IsSame, is_same, same_sort_key, same_text, is_passed, filter_text};
ghost use Rattle.trace_trigger.specs.FittingSpecs.{Fits, are_texts, is_fitting};
ghost use Rattle.std.specs.Cmp.Lexicographic.{pointwise};

use crate::fault::TriggerFault;
use crate::hist_parts::{condition_of, cut};
use crate::meaning::{excess, is_too_many};
use crate::read::{read_written, spec_from};
use std::alloc::Global;
use std::marker::Model;
use trace_filter::Filter;
use trace_format::{EventDef, Key, Operand, Row, SortRule, Text};

/// A key that entries are printed by.
#[derive(PartialEq, Eq, Drop)]
pub struct SortKey {
    /// `hitcount`, or one of the trigger's keys or values. A name that is both means the value.
    pub name: Text,
    /// Whether greater ones come first.
    pub descending: bool,
}

/// What a written trigger asks for.
#[derive(Clone, Copy, PartialEq, Eq)]
pub enum Action {
    /// To be attached, active.
    Attach,
    /// To be paused, or to be attached paused.
    Pause,
    /// To go on.
    Continue,
    /// To be emptied.
    Clear,
}

/// What a hist trigger says.
pub struct HistSpec {
    // The name of its table.
    pub(crate) name: Option<Text>,
    pub(crate) keys: Vec<Key>,
    pub(crate) values: Vec<Text>,
    pub(crate) sort: Vec<SortKey>,
    pub(crate) size: u32,
    pub(crate) action: Action,
    pub(crate) filter: Option<Filter>,
    // What the values mean, in order.
    pub(crate) value_sources: Vec<Operand>,
    // What the sort keys mean, in order.
    pub(crate) sort_sources: Vec<SortRule>,
}

impl Drop for HistSpec {
    // Not derived, so that no crate above proves the drops of its parts.
    fn drop(self) {
        let HistSpec {
            name: _,
            keys: _,
            values: _,
            sort: _,
            size: _,
            action: _,
            filter: _,
            value_sources: _,
            sort_sources: _,
        } = self;
    }
}

impl Model for HistSpec {
    ghost use Rattle.trace_trigger.specs.HistSpecs.{SpecSeen};

    ghost Value = { SpecSeen };

    ghost view = { λ s. record {
      name = s.name;
      keys = s.keys.items;
      values = s.values.items;
      sort = s.sort.items;
      size = s.size;
      action = s.action;
      filter = s.filter;
      value_sources = s.value_sources.items;
      sort_sources = s.sort_sources.items;
    } };

    ghost use Rattle.std.specs.Prelude.{◌≤◌, length};

    // A string that says more is refused.
    ghost invariant = { λ s. length s.keys.items ≤ 3 };
}

impl HistSpec {
    /// What a string says of a hist trigger of an event: `hist:` or `!hist:`, attributes joined by `:`, and after them perhaps `if` and a filter.
    /// One that breaks the grammar is refused for that, at the leftmost offset where it does. Then come too many names, the first wrong key, the
    /// first wrong value, the size, and last the filter.
    #[tactic(auto, unfolding(crate::specs::HistTexts::spec_of))]
    pub fn parse(alloc: Global, text: &[u8], event: &EventDef) -> Result<HistSpec, TriggerFault>
        requires { IsHistText text.now }
        // It is what the definition gives, unless memory is refused.
        ensures exact { IsAnswered result (spec_of event.now text.now) }
        // It is never refused as a string that is no trigger's.
        ensures known { (cause : TextCause) → result ≢ Err (TriggerFault.BadText cause) }
    {
        let (word, tail) = cut(text);
        let written = read_written(alloc, text, word, tail)?;
        if is_too_many(&written) {
            return Err(excess(&written));
        }
        spec_from(alloc, text, written, condition_of(tail), event)
    }

    /// The name of its table, which triggers of this name share.
    pub fn name(&self) -> Option<&[u8]>
        ensures { option_copied result ≡ self.now.name }
    {
        match &self.name {
            Some(name) => Some(name.as_bytes()),
            None => None,
        }
    }

    /// Its keys, in their order.
    pub fn keys(&self) -> &[Key]
        ensures value { result.now ≡ self.now.keys }
        ensures few { length result.now ≤ 3 }
    {
        &self.keys
    }

    /// The names of the values that are summed, as written, without `hitcount`.
    pub fn values(&self) -> &[Text]
        ensures { result.now ≡ self.now.values }
    {
        &self.values
    }

    /// What entries are printed by, the first key first.
    pub fn sort(&self) -> &[SortKey]
        ensures { result.now ≡ self.now.sort }
    {
        &self.sort
    }

    /// How many entries there may be.
    pub fn size(&self) -> u32
        ensures { result ≡ self.now.size }
    {
        self.size
    }

    /// What is asked for.
    pub fn action(&self) -> Action
        ensures { result ≡ self.now.action }
    {
        self.action
    }

    /// Which emissions are counted; with none, all.
    pub fn filter(&self) -> Option<&Filter>
        ensures { option_copied result ≡ self.now.filter }
    {
        self.filter.as_ref()
    }

    /// Where its values are found in an emission, in their order.
    pub fn value_sources(&self) -> &[Operand]
        ensures { result.now ≡ self.now.value_sources }
    {
        &self.value_sources
    }

    /// What its sort keys mean, in their order.
    pub fn sort_sources(&self) -> &[SortRule]
        ensures { result.now ≡ self.now.sort_sources }
    {
        &self.sort_sources
    }

    /// Whether two triggers of one event are the same: they have the same name, keys, values, sort keys and filter. Their sizes and what they ask
    /// for don't matter.
    #[tactic(auto, unfolding(crate::specs::SameSpecs::is_same))]
    pub fn same(&self, other: &HistSpec) -> bool
        ensures same { IsTrue result ↔ IsSame self.now other.now }
        ensures value { result ≡ is_same self.now other.now }
    {
        is_same_text(self.name(), other.name())
            && is_same_keys(&self.keys, &other.keys)
            && is_same_names(&self.values, &other.values)
            && is_same_sort(&self.sort, &other.sort)
            && is_same_text(text_of(&self.filter), text_of(&other.filter))
    }

    /// Whether two triggers, perhaps of two events, may count in one table: they have the same keys, each a string in both events or in neither,
    /// the same values and sort keys, and one size.
    #[tactic(auto, unfolding(crate::specs::FittingSpecs::is_fitting))]
    pub fn fits(&self, other: &HistSpec) -> bool
        ensures fits { IsTrue result ↔ Fits self.now other.now }
        ensures value { result ≡ is_fitting self.now other.now }
    {
        is_same_keys(&self.keys, &other.keys)
            && is_same_kinds(&self.keys, &other.keys)
            && is_same_names(&self.values, &other.values)
            && is_same_sort(&self.sort, &other.sort)
            && self.size == other.size
    }

    /// Whether the trigger counts a row of its event that is emitted on a CPU by a process. It takes no memory.
    pub fn passes(&self, row: &Row, cpu: u32, pid: i32) -> bool
        ensures { result ≡ is_passed self.now.filter
            (record { values = row.now.values; cpu = cpu; pid = pid }) }
    {
        match &self.filter {
            Some(filter) => filter.passes(row, cpu, pid),
            None => true,
        }
    }
}

/// Whether keys are the same, as written.
fn is_same_keys(left: &[Key], right: &[Key]) -> bool
    ensures value { result ≡ pointwise bytes_eq (written_of left.now) (written_of right.now) }
    ensures same { IsTrue result ↔ (written_of left.now ≡ written_of right.now) }
{
    are_written_alike(left, right)
}

fn are_written_alike(left: &[Key], right: &[Key]) -> bool
    ensures { result ≡ pointwise bytes_eq (written_of left.now) (written_of right.now) }
{
    match (left, right) {
        ([], []) => true,
        ([first, left @ ..], [second, right @ ..]) => {
            first.written == second.written && are_written_alike(left, right)
        }
        _ => false,
    }
}

/// Whether each key is a string in both lists or in neither.
fn is_same_kinds(left: &[Key], right: &[Key]) -> bool
    ensures value { result ≡ pointwise beq (are_texts left.now) (are_texts right.now) }
    ensures same { IsTrue result ↔ (are_texts left.now ≡ are_texts right.now) }
{
    are_alike_in_kind(left, right)
}

fn are_alike_in_kind(left: &[Key], right: &[Key]) -> bool
    ensures { result ≡ pointwise beq (are_texts left.now) (are_texts right.now) }
{
    match (left, right) {
        ([], []) => true,
        ([first, left @ ..], [second, right @ ..]) => {
            first.operand.is_text() == second.operand.is_text() && are_alike_in_kind(left, right)
        }
        _ => false,
    }
}

fn is_same_names(left: &[Text], right: &[Text]) -> bool
    ensures value { result ≡ pointwise bytes_eq left.now right.now }
    ensures same { IsTrue result ↔ (left.now ≡ right.now) }
{
    left == right
}

fn is_same_sort(left: &[SortKey], right: &[SortKey]) -> bool
    ensures value { result ≡ pointwise same_sort_key left.now right.now }
    ensures same { IsTrue result ↔ (left.now ≡ right.now) }
{
    left == right
}

/// The text of a filter, if there is one.
fn text_of(filter: &Option<Filter>) -> Option<&[u8]>
    ensures { option_copied result ≡ filter_text filter.now }
{
    match filter {
        Some(filter) => Some(filter.text()),
        None => None,
    }
}

/// Whether there are two texts that are the same, or none.
fn is_same_text(left: Option<&[u8]>, right: Option<&[u8]>) -> bool
    ensures value { result ≡ same_text (option_copied left.entry) (option_copied right.entry) }
    ensures same { IsTrue result ↔ (option_copied left.entry ≡ option_copied right.entry) }
{
    match (left, right) {
        (Some(left), Some(right)) => left == right,
        (None, None) => true,
        _ => false,
    }
}
