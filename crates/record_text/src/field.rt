//! A field as it is declared.

ghost use Rattle.std.specs.Prelude.{◌≡◌, ◌++◌, OnOk};
ghost use Rattle.trace_format.specs.Definitions.{length_suffix};
ghost use Rattle.record_text.specs.FieldText as texts;

use crate::append::{push, push_three, push_with_number};
use std::alloc::AllocError;
use trace_format::{Field, Kind};

/// Appends a field as it is declared: its type with single blanks, its name, and behind the name of a text its length in brackets.
#[tactic(auto, unfolding(crate::specs::FieldText::field_text))]
pub(crate) fn push_field(out: &mut Vec<u8>, field: &Field) -> Result<(), AllocError>
    ensures { OnOk result (out.new.items ≡ out.old.items ++ texts.field_text field.now) }
{
    push_three(out, field.kind.type_name(), b" ", field.name.as_bytes())?;
    push_length(out, field.kind)
}

/// Appends the length of a text in brackets, and of a number nothing.
fn push_length(out: &mut Vec<u8>, kind: Kind) -> Result<(), AllocError>
    ensures { OnOk result (out.new.items ≡ out.old.items ++ length_suffix kind) }
{
    let Kind::Char(length) = kind else {
        return Ok(());
    };
    push_with_number(out, b"[", length)?;
    push(out, b"]")
}
