//! The text of a `format` file.

ghost use Rattle.std.specs.Prelude.{◌≡◌, ◌++◌, codes, IfOk, OnOk};
ghost use Rattle.std.specs.Fmt.{decimal};
ghost use Rattle.record_text.specs.FormatText as texts;

use crate::append::{push, push_number, push_three, push_with_number};
use crate::field::push_field;
use std::alloc::{AllocError, Global};
use trace_format::{EventDef, Field, Text};
use trace_record::HEAD_SIZE;

/// Where the fields begin in a record: behind its head.
const FIRST_OFFSET: u128 = HEAD_SIZE as u128;

/// 1 for a signed field, and 0 for another.
fn sign_text(signed: bool) -> &'static [u8]
    ensures { result.now ≡ texts.signed_text signed }
{
    if signed { b"1" } else { b"0" }
}

/// Appends where a field lies in a record, and how: its first byte, its bytes, and whether it is signed.
fn push_layout(out: &mut Vec<u8>, offset: u128, size: usize, signed: bool) -> Result<(), AllocError>
    ensures { OnOk result (out.new.items ≡ out.old.items ++ texts.layout_text offset size signed) }
{
    push_with_number(out, b";\toffset:", offset)?;
    push_with_number(out, b";\tsize:", size)?;
    push_three(out, b";\tsigned:", sign_text(signed), b";\n")
}

/// Appends the line of a field whose first byte is at an offset.
#[tactic(auto, unfolding(crate::specs::FormatText::field_line, crate::specs::FormatText::layout_line))]
fn push_field_line(out: &mut Vec<u8>, offset: u128, field: &Field) -> Result<(), AllocError>
    ensures { OnOk result (out.new.items ≡ out.old.items ++ texts.field_line offset field.now) }
{
    push(out, b"\tfield:")?;
    push_field(out, field)?;
    push_layout(out, offset, field.kind.size(), field.kind.is_signed())
}

/// Appends the lines of fields that lie one behind the other in a record.
fn push_field_lines(out: &mut Vec<u8>, fields: &[Field]) -> Result<(), AllocError>
    ensures { OnOk result (out.new.items ≡ out.old.items ++ texts.field_lines 16 fields.now) }
{
    let mut offset = FIRST_OFFSET;
    for field in fields {
        push_field_line(out, offset, field)?;
        offset += field.kind.size() as u128;
    }
    Ok(())
}

/// Appends the line of the pid, which stands in each record's head.
#[tactic(auto, unfolding(crate::specs::FormatText::common_pid_line, crate::specs::FormatText::layout_line))]
fn push_common_pid_line(out: &mut Vec<u8>) -> Result<(), AllocError>
    ensures { OnOk result (out.new.items ≡ out.old.items ++ texts.common_pid_line) }
{
    push(out, b"\tfield:s32 common_pid")?;
    push_layout(out, 8, 4, true)
}

/// Appends an event's name and number.
fn push_event(out: &mut Vec<u8>, id: u16, def: &EventDef) -> Result<(), AllocError>
    ensures { OnOk result (out.new.items
        ≡ out.old.items ++ codes "name: " ++ def.now.name ++ codes "\nID: " ++ decimal id) }
{
    push_three(out, b"name: ", def.name(), b"\nID: ")?;
    push_number(out, id)
}

/// Appends the whole text.
#[tactic(auto, unfolding(crate::specs::FormatText::format_text))]
fn push_format(out: &mut Vec<u8>, id: u16, def: &EventDef) -> Result<(), AllocError>
    ensures { OnOk result (out.new.items ≡ out.old.items ++ texts.format_text id def.now) }
{
    push_event(out, id, def)?;
    push(out, b"\nformat:\n")?;
    push_common_pid_line(out)?;
    push(out, b"\n")?;
    push_field_lines(out, def.fields())
}

/// The text of `events/synthetic/NAME/format` ("Event formats" of events.rst): the event's name and number, then a line for the pid
/// and one for each field. A line has the field as it is declared, the offset of its first byte in a record and its size, both in bytes, and
/// 1 where it holds numbers below 0, else 0.
pub fn format_text(alloc: Global, id: u16, def: &EventDef) -> Result<Text, AllocError>
    ensures { IfOk result (λ text. text ≡ texts.format_text id def.now) }
{
    let mut text = Vec::new(alloc);
    push_format(&mut text, id, def)?;
    Ok(Text::from(text))
}
