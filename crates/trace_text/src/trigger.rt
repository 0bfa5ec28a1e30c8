//! The text of an event's `trigger` file.

ghost use Rattle.std.specs.Prelude.{◌≡◌, ◌++◌, map, codes, option_copied, IfOk, OnOk};
ghost use Rattle.std.specs.List.{flat_map};
ghost use Rattle.trace_text.specs.ShownTriggers.{shown_trigger};
ghost use Rattle.trace_text.specs.TriggerText as texts;

use crate::hist_line::{push_condition, push_hist_line};
use record_text::append::{push, push_with_number};
use std::alloc::{AllocError, Global};
use trace_format::Text;
use trace_hist::{Hist, SharedSpec};

/// A trigger as its event's files show it, `trigger` and `hist`.
#[derive(Clone, Copy)]
pub enum Shown<'a> {
    /// A hist trigger and its histogram ("hist triggers" of histogram.rst). The line of the trigger and the names of keys and values are taken
    /// from the first; entries in print order, totals, and whether it is paused, from the second.
    Hist(&'a SharedSpec, &'a Hist),
    /// A trigger that takes snapshots ("snapshot" of events.rst, "Event triggers").
    Snapshot {
        /// How many snapshots it may still take; no number means no end.
        left: Option<u64>,
        /// The text of its filter, if it has one.
        filter: Option<&'a [u8]>,
    },
}

/// Appends how many snapshots are left.
fn push_left(out: &mut Vec<u8>, left: Option<u64>) -> Result<(), AllocError>
    ensures { OnOk result (out.new.items ≡ out.old.items ++ texts.left_text left) }
{
    let Some(left) = left else {
        return push(out, b"unlimited");
    };
    push_with_number(out, b"count=", left)
}

/// Appends what a trigger that takes snapshots says.
fn push_snapshot(
    out: &mut Vec<u8>,
    left: Option<u64>,
    filter: Option<&[u8]>,
) -> Result<(), AllocError>
    ensures { OnOk result (out.new.items ≡ out.old.items ++ codes "snapshot:"
        ++ texts.left_text left ++ texts.condition_text (option_copied filter.entry)) }
{
    push(out, b"snapshot:")?;
    push_left(out, left)?;
    push_condition(out, filter)
}

/// Appends the line of a trigger.
#[tactic(auto, unfolding(crate::specs::TriggerText::trigger_line))]
fn push_trigger_line(out: &mut Vec<u8>, trigger: &Shown<'_>) -> Result<(), AllocError>
    ensures { OnOk result (out.new.items
        ≡ out.old.items ++ texts.trigger_line (shown_trigger trigger.now)) }
{
    match *trigger {
        Shown::Hist(spec, hist) => push_hist_line(out, spec, hist.is_paused())?,
        Shown::Snapshot { left, filter } => push_snapshot(out, left, filter)?,
    }
    push(out, b"\n")
}

/// Appends the lines of all triggers.
fn push_trigger_lines(out: &mut Vec<u8>, shown: &[Shown<'_>]) -> Result<(), AllocError>
    ensures { OnOk result (out.new.items
        ≡ out.old.items ++ flat_map texts.trigger_line (map shown_trigger shown.now)) }
{
    for trigger in shown {
        push_trigger_line(out, trigger)?;
    }
    Ok(())
}

/// The lines of an event without a trigger, which name the kinds of triggers.
#[tactic(auto, unfolding(crate::specs::TriggerText::available_triggers))]
fn available_triggers(alloc: Global) -> Result<Text, AllocError>
    ensures { IfOk result (λ text. text ≡ texts.available_triggers) }
{
    Text::from_slice(
        alloc,
        b"# Available triggers:\n# hist snapshot\n".as_slice(),
    )
}

/// What an event's `trigger` file shows ("Event triggers" of events.rst): a line for each trigger, in the order of `shown`, which is to be
/// that in which they were attached; or, if there is none, two lines that name the kinds of triggers. A hist trigger's line has the name of its table,
/// if it has one, its lists as they were written, with `hitcount` first among the values, the size as it was rounded up, the filter, and whether it is
/// paused.
#[tactic(auto, unfolding(crate::specs::TriggerText::trigger_text))]
pub fn trigger_text(alloc: Global, shown: &[Shown<'_>]) -> Result<Text, AllocError>
    ensures { IfOk result (λ text. text ≡ texts.trigger_text (map shown_trigger shown.now)) }
{
    if shown.is_empty() {
        return available_triggers(alloc);
    }
    let mut text = Vec::new(alloc);
    push_trigger_lines(&mut text, shown)?;
    Ok(Text::from(text))
}
