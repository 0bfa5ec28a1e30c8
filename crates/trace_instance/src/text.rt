//! The short strings that files show.

ghost use Rattle.std.specs.Prelude.{◌≡◌, option_copied, IfOk};
ghost use Rattle.tracer_specification.specs.FileTexts as file_texts;
ghost use Rattle.trace_instance.specs.private.Commands.{shown_filter};

use std::alloc::{AllocError, Global};
use trace_filter::Filter;
use trace_lex::Text;

/// The text of a switch.
#[tactic(auto, unfolding(tracer_specification::specs::FileTexts::flag_text))]
pub(crate) fn flag_text(alloc: Global, flag: bool) -> Result<Text, AllocError>
    ensures { IfOk result (λ text. text ≡ file_texts.flag_text flag) }
{
    if flag {
        Text::from_slice(alloc, b"1\n".as_slice())
    } else {
        Text::from_slice(alloc, b"0\n".as_slice())
    }
}

/// The word of an option.
#[tactic(auto, unfolding(tracer_specification::specs::FileTexts::option_text))]
pub(crate) fn option_text(alloc: Global, flag: bool) -> Result<Text, AllocError>
    ensures { IfOk result (λ text. text ≡ file_texts.option_text flag) }
{
    if flag {
        Text::from_slice(alloc, b"overwrite\n".as_slice())
    } else {
        Text::from_slice(alloc, b"nooverwrite\n".as_slice())
    }
}

/// The text of several switches taken together.
#[tactic(auto, unfolding(tracer_specification::specs::FileTexts::mixture_text))]
pub(crate) fn mixture_text(alloc: Global, none_on: bool, some_off: bool) -> Result<Text, AllocError>
    ensures { IfOk result (λ text. text ≡ file_texts.mixture_text none_on some_off) }
{
    match (none_on, some_off) {
        (true, false) => Text::from_slice(alloc, b"?\n".as_slice()),
        (true, true) => Text::from_slice(alloc, b"0\n".as_slice()),
        (false, false) => Text::from_slice(alloc, b"1\n".as_slice()),
        (false, true) => Text::from_slice(alloc, b"X\n".as_slice()),
    }
}

/// The text of a filter, or of none.
#[tactic(auto, unfolding(crate::specs::private::Commands::shown_filter))]
pub(crate) fn filter_text(alloc: Global, filter: Option<&Filter>) -> Result<Text, AllocError>
    ensures { IfOk result (λ text. text ≡ shown_filter (option_copied filter.entry)) }
{
    let Some(filter) = filter else {
        return Text::from_slice(alloc, b"none\n".as_slice());
    };
    let mut text = Vec::from_slice(alloc, filter.text())?;
    text.push(b'\n')?;
    Ok(Text::from(text))
}
