//! The text of an event's `hist` file.

ghost use Rattle.std.specs.Prelude.{◌≡◌, ◌++◌, codes, map, IfOk, OnOk};
ghost use Rattle.std.specs.List.{flat_map, filter_map, join_by};
ghost use Rattle.hist_entries.specs.PrintOrder.{row_in, printed};
ghost use Rattle.trace_text.specs.CopiedHists as copied;
ghost use Rattle.trace_text.specs.CopiedHists.{shown_copy};
ghost use Rattle.trace_text.specs.EntryText.{entry_line};
ghost use Rattle.trace_text.specs.HistText as texts;
ghost use Rattle.trace_text.specs.ShownTriggers.{shown_hist, shown_trigger};

use crate::entry::push_entry_line;
use crate::hist_line::push_hist_line;
use crate::trigger::Shown;
use record_text::append::{push, push_number, push_three};
use std::alloc::{AllocError, Global};
use trace_format::Text;
use trace_hist::{Hist, HistCopy, HistRow, HistSpec, SharedSpec};

/// A hist trigger with a copy of its histogram. The line of the trigger and the names of keys and values are taken from the first; entries in print
/// order, totals, and whether it is paused, from the second.
#[derive(Drop)]
pub struct CopiedHist {
    pub spec: SharedSpec,
    pub hist: HistCopy,
}

/// Appends the lines before the entries, which show the trigger.
#[tactic(auto, unfolding(crate::specs::HistText::hist_head))]
fn push_hist_head(out: &mut Vec<u8>, spec: &HistSpec, hist: &HistCopy) -> Result<(), AllocError>
    ensures { OnOk result (out.new.items
        ≡ out.old.items ++ texts.hist_head (copied.shown_with spec.now hist.now)) }
{
    push(out, b"# event histogram\n#\n# trigger info: ")?;
    push_hist_line(out, spec, hist.is_paused())?;
    push(out, b"\n#\n\n")
}

/// Appends entries, a line each.
fn push_entries(out: &mut Vec<u8>, spec: &HistSpec, entries: &[HistRow]) -> Result<(), AllocError>
    ensures { OnOk result (out.new.items ≡ out.old.items
        ++ flat_map (entry_line spec.now.keys spec.now.values) (map row_in entries.now)) }
{
    for entry in entries {
        push_entry_line(out, spec, entry)?;
    }
    Ok(())
}

/// Appends the line of one of the totals.
#[tactic(auto, unfolding(crate::specs::HistText::total_line))]
fn push_total(out: &mut Vec<u8>, name: &str, count: u64) -> Result<(), AllocError>
    ensures { OnOk result (out.new.items ≡ out.old.items ++ texts.total_line name.now count) }
{
    push_three(out, b"    ", name.as_bytes(), b": ")?;
    push_number(out, count)?;
    push(out, b"\n")
}

/// Appends the totals.
#[tactic(auto, unfolding(crate::specs::HistText::totals_text))]
fn push_totals(out: &mut Vec<u8>, hist: &HistCopy) -> Result<(), AllocError>
    ensures { OnOk result (out.new.items ≡ out.old.items ++ texts.totals_text hist.now.table) }
{
    let totals = hist.totals();
    push(out, b"Totals:\n")?;
    push_total(out, "Hits", totals.hits)?;
    push_total(out, "Entries", totals.entries)?;
    push_total(out, "Dropped", totals.dropped)
}

/// Appends the entries of a histogram in print order.
fn push_rows(out: &mut Vec<u8>, spec: &HistSpec, hist: &HistCopy) -> Result<(), AllocError>
    ensures { OnOk result (out.new.items ≡ out.old.items ++ flat_map (entry_line spec.now.keys spec.now.values)
        (printed hist.now.spec.sort_sources hist.now.table.entries)) }
{
    let entries = hist.rows(*out.allocator())?;
    push_entries(out, spec, &entries)
}

/// Appends a trigger with its entries and totals.
#[tactic(auto, unfolding(crate::specs::HistText::one_hist))]
fn push_hist(out: &mut Vec<u8>, shown: &CopiedHist) -> Result<(), AllocError>
    ensures { OnOk result (out.new.items
        ≡ out.old.items ++ texts.one_hist (shown_copy shown.now)) }
{
    push_hist_head(out, &shown.spec, &shown.hist)?;
    push_rows(out, &shown.spec, &shown.hist)?;
    push(out, b"\n")?;
    push_totals(out, &shown.hist)
}

/// Appends the histograms of hist triggers with an empty line between each two.
fn push_hists(out: &mut Vec<u8>, hists: &[CopiedHist]) -> Result<(), AllocError>
    ensures { OnOk result (out.new.items ≡ out.old.items
        ++ join_by texts.one_hist (codes "\n") (map shown_copy hists.now)) }
{
    let mut is_first = true;
    for hist in hists {
        if !is_first {
            push(out, b"\n")?;
        }
        push_hist(out, hist)?;
        is_first = false;
    }
    Ok(())
}

// A copy of a hist trigger with its histogram.
fn copy_hist(spec: &SharedSpec, hist: &Hist) -> Result<CopiedHist, AllocError>
    ensures { IfOk result (λ copy. shown_copy copy ≡ shown_hist spec.now hist.now) }
{
    let spec = spec.share()?;
    let hist = hist.copy()?;
    Ok(CopiedHist { spec, hist })
}

/// Copies of the hist triggers among these, each with its histogram, in this order. The only error is that memory is refused.
pub fn copy_hists(alloc: Global, shown: &[Shown<'_>]) -> Result<Vec<CopiedHist>, AllocError>
    ensures { IfOk result (λ hists. map shown_copy hists.items ≡ filter_map texts.hist_of (map shown_trigger shown.now)) }
{
    let mut hists = Vec::new(alloc);
    for trigger in shown {
        let Shown::Hist(spec, hist) = *trigger else {
            continue;
        };
        hists.push(copy_hist(spec, hist)?)?;
    }
    Ok(hists)
}

/// What an event's `hist` file showed ("hist triggers" of histogram.rst) when these copies were made: each hist trigger with its entries in print order
/// and its totals, with an empty line between each two, in the order in which they were attached. Without a hist trigger it is empty.
#[tactic(auto, unfolding(crate::specs::CopiedHists::copied_hist_text))]
pub fn copied_hist_text(alloc: Global, hists: &[CopiedHist]) -> Result<Text, AllocError>
    ensures { IfOk result (λ text. text ≡ copied.copied_hist_text hists.now) }
{
    let mut text = Vec::new(alloc);
    push_hists(&mut text, hists)?;
    Ok(Text::from(text))
}

/// What an event's `hist` file shows: the text of copies of the hist triggers of `shown`, which is to have the order in which they were attached.
pub fn hist_text(alloc: Global, shown: &[Shown<'_>]) -> Result<Text, AllocError>
    ensures { IfOk result (λ text. text ≡ texts.hist_text (map shown_trigger shown.now)) }
{
    let hists = copy_hists(alloc, shown)?;
    copied_hist_text(alloc, &hists)
}
