//! An event's line in `synthetic_events`.

ghost use Rattle.std.specs.Prelude.{◌≡◌, ◌++◌, IfOk, OnOk};
ghost use Rattle.record_text.specs.DeclarationText as texts;

use crate::append::push;
use crate::field::push_field;
use std::alloc::{AllocError, Global};
use trace_format::{EventDef, Field, Text};

/// Appends fields that follow another one.
fn push_further_fields(out: &mut Vec<u8>, fields: &[Field]) -> Result<(), AllocError>
    ensures { OnOk result (out.new.items ≡ out.old.items ++ texts.further_fields fields.now) }
{
    for field in fields {
        push(out, b"; ")?;
        push_field(out, field)?;
    }
    Ok(())
}

/// Appends fields with `; ` between each two.
fn push_fields(out: &mut Vec<u8>, fields: &[Field]) -> Result<(), AllocError>
    ensures { OnOk result (out.new.items ≡ out.old.items ++ texts.fields_text fields.now) }
{
    let Some((first, further)) = fields.split_first() else {
        return Ok(());
    };
    push_field(out, first)?;
    push_further_fields(out, further)
}

/// Appends an event's name and its fields.
#[tactic(auto, unfolding(crate::specs::DeclarationText::declaration_text))]
fn push_declaration(out: &mut Vec<u8>, def: &EventDef) -> Result<(), AllocError>
    ensures { OnOk result (out.new.items ≡ out.old.items ++ texts.declaration_text def.now) }
{
    out.extend_from_slice(def.name())?;
    push(out, b" ")?;
    push_fields(out, def.fields())?;
    push(out, b"\n")
}

/// An event's line of `synthetic_events` ("Synthetic events" of histogram.rst): its name, and its fields as they are declared.
pub fn declaration_text(alloc: Global, def: &EventDef) -> Result<Text, AllocError>
    ensures { IfOk result (λ text. text ≡ texts.declaration_text def.now) }
{
    let mut text = Vec::new(alloc);
    push_declaration(&mut text, def)?;
    Ok(Text::from(text))
}
