//! The filter of a trigger's text.

ghost use Rattle.std.specs.Prelude.{◌≡◌, ◌≢◌, ◌≤◌, Err, IfSome, IsSome, length};
ghost use Rattle.std.specs.Option.{option_copied};
ghost use Rattle.trace_trigger.specs.Frames.{filter_of};
ghost use Rattle.trace_trigger.specs.TriggerAnswers.{IsAnswered};
ghost use Rattle.trace_trigger.specs.declared.fault.TextCause.{TextCause};

use crate::fault::TriggerFault;
use std::alloc::Global;
use trace_filter::Filter;
use trace_format::EventDef;

/// The filter, whose text is the end of the whole text.
#[tactic(auto, unfolding(crate::specs::Frames::filter_of))]
pub(crate) fn read_filter(
    alloc: Global,
    text: &[u8],
    condition: Option<&[u8]>,
    event: &EventDef,
) -> Result<Option<Filter>, TriggerFault>
    requires { IfSome condition (λ filter. length filter.now ≤ length text.now) }
    ensures exact { IsAnswered result (filter_of event.now text.now (option_copied condition.entry)) }
    ensures later { (cause : TextCause) → result ≢ Err (TriggerFault.BadText cause) }
    ensures memory { result ≡ Err TriggerFault.Memory → IsSome condition.entry }
{
    let Some(condition) = condition else {
        return Ok(None);
    };
    match Filter::parse(alloc, condition, event) {
        Ok(filter) => Ok(Some(filter)),
        Err(fault) => Err(TriggerFault::of_filter(text.len() - condition.len(), fault)),
    }
}
