//! Triggers of an event, as texts write them.

ghost use Rattle.std.specs.Prelude.{◌≡◌, ◌⊎◌, true, ◌≤◌, Err, length};
ghost use Rattle.trace_trigger.specs.TriggerAnswers.{IsAnswered};
ghost use Rattle.trace_trigger.specs.declared.fault.TextCause.{TextCause};
ghost use Rattle.trace_trigger.specs.TriggerTexts.{is_hist_text, IsFilterWritten, HasFilter, after_word, condition_of, snapshot_trigger_of, snapshot_said, said_of};

use crate::condition::read_filter;
use crate::fault::TriggerFault;
use crate::parts::{begins, condition_of, count_of, cut_word, is_blank_text};
use crate::spec::HistSpec;
use std::alloc::Global;
use trace_filter::Filter;
use trace_format::EventDef;

/// A trigger that takes a snapshot for each emission of its event that its filter passes (events.rst, "Event triggers", "snapshot"): at most
/// `count` times, or without end.
#[derive(Drop)]
pub struct SnapshotTrigger {
    pub count: Option<u32>,
    pub filter: Option<Filter>,
}

/// What a text says that is written to an event's `trigger` file.
#[derive(Drop)]
pub enum TriggerText {
    /// Nothing is attached or removed: the text has nothing but blanks.
    Nothing,
    /// A snapshot trigger is to be attached.
    AttachSnapshot(SnapshotTrigger),
    /// The event's snapshot trigger is to be removed, whatever its count and its filter.
    RemoveSnapshot,
    /// A hist trigger is to be attached; or, where the same one is attached, what the text asks for is to be done to it.
    Hist(HistSpec),
    /// The same hist trigger is to be removed.
    RemoveHist(HistSpec),
}

impl TriggerText {
    /// What a text says: nothing; or, if it begins with `hist:` or `!hist:`, what `HistSpec::parse` reads in it; or an optional `!` and `snapshot`
    /// or `snapshot:N`, N from 1 to 2^32 - 1, and after it perhaps `if` and a filter of the event. A text with `!` is read whole, so its filter
    /// too may be refused.
    #[tactic(auto, unfolding(crate::specs::TriggerTexts::said_of))]
    pub fn parse(alloc: Global, text: &[u8], event: &EventDef) -> Result<TriggerText, TriggerFault>
        // It is what the definition gives, unless memory is refused.
        ensures exact { IsAnswered result (said_of event.now text.now) }
        // That a text is written wrong, and why, is told even where memory would be refused.
        ensures early { (cause : TextCause) → said_of event.now text.now ≡ Err (TriggerFault.BadText cause) → result ≡ Err (TriggerFault.BadText cause) }
        // Memory is taken for a filter and for a hist trigger alone.
        ensures memory { result ≡ Err TriggerFault.Memory → HasFilter text.now ⊎ (is_hist_text text.now ≡ true) }
    {
        if is_blank_text(text) {
            return Ok(TriggerText::Nothing);
        }
        if begins(b"hist:", text) {
            return match HistSpec::parse(alloc, text, event) {
                Ok(attached) => Ok(TriggerText::Hist(attached)),
                Err(fault) => Err(fault),
            };
        }
        if begins(b"!hist:", text) {
            return match HistSpec::parse(alloc, text, event) {
                Ok(removed) => Ok(TriggerText::RemoveHist(removed)),
                Err(fault) => Err(fault),
            };
        }
        read_snapshot(alloc, text, event)
    }
}

/// What a text says of the event's snapshot trigger.
#[tactic(auto, unfolding(crate::specs::TriggerTexts::snapshot_said))]
fn read_snapshot(alloc: Global, text: &[u8], event: &EventDef) -> Result<TriggerText, TriggerFault>
    ensures exact { IsAnswered result (snapshot_said event.now text.now) }
    ensures early { (cause : TextCause) → snapshot_said event.now text.now ≡ Err (TriggerFault.BadText cause) → result ≡ Err (TriggerFault.BadText cause) }
    ensures memory { result ≡ Err TriggerFault.Memory → HasFilter text.now }
{
    match text.strip_prefix(b"!".as_slice()) {
        Some(body) => {
            let _removed = read_trigger(alloc, text, body, event)?;
            Ok(TriggerText::RemoveSnapshot)
        }
        None => match read_trigger(alloc, text, text, event) {
            Ok(trigger) => Ok(TriggerText::AttachSnapshot(trigger)),
            Err(fault) => Err(fault),
        },
    }
}

/// The trigger of a text, of which `body` is all, or what follows a `!`.
#[tactic(auto, unfolding(crate::specs::TriggerTexts::snapshot_trigger_of, crate::specs::Frames::filter_of))]
fn read_trigger(
    alloc: Global,
    text: &[u8],
    body: &[u8],
    event: &EventDef,
) -> Result<SnapshotTrigger, TriggerFault>
    requires { length body.now ≤ length text.now }
    ensures exact { IsAnswered result (snapshot_trigger_of event.now text.now body.now) }
    ensures early { (cause : TextCause) → snapshot_trigger_of event.now text.now body.now ≡ Err (TriggerFault.BadText cause) → result ≡ Err (TriggerFault.BadText cause) }
    ensures memory { result ≡ Err TriggerFault.Memory → IsFilterWritten (condition_of (after_word body.now)) }
{
    let (word, rest) = cut_word(body);
    let count = count_of(word)?;
    let condition = condition_of(rest)?;
    let filter = read_filter(alloc, text, condition, event)?;
    Ok(SnapshotTrigger { count, filter })
}
