//! The text of a `format` file.

ghost use Rattle.std.specs.Prelude.{◌≡◌, ◌++◌, codes, IfOk, OnOk};
ghost use Rattle.std.specs.List.{flat_map};
ghost use Rattle.std.specs.Fmt.{decimal};
ghost use Rattle.trace_format.specs.Definitions.{length_suffix};
ghost use Rattle.record_text.specs.FieldText.{field_text};
ghost use Rattle.record_text.specs.FormatText.{signed_text};
ghost use Rattle.kernel_pages.specs.KernelFormats as formats;

use crate::layout::{FIRST_OFFSET, start_of};
use crate::record::kernel_id;
use record_text::append::{push, push_number, push_three, push_with_number};
use std::alloc::{AllocError, Global};
use trace_format::{EventDef, Field, Kind, NumberType, Text};

/// Appends a field as it is declared.
#[tactic(auto, unfolding(record_text::specs::FieldText::field_text))]
fn push_declared(out: &mut Vec<u8>, field: &Field) -> Result<(), AllocError>
    ensures { OnOk result (out.new.items ≡ out.old.items ++ field_text field.now) }
{
    push_three(out, field.kind.type_name(), b" ", field.name.as_bytes())?;
    push_length(out, field.kind)
}

/// Appends the length of a text in brackets, and of a number nothing.
fn push_length(out: &mut Vec<u8>, kind: Kind) -> Result<(), AllocError>
    ensures { OnOk result (out.new.items ≡ out.old.items ++ length_suffix kind) }
{
    let Kind::Char(length) = kind else {
        return Ok(());
    };
    push_with_number(out, b"[", length)?;
    push(out, b"]")
}

/// 1 for a signed field, and 0 for another.
fn sign_text(signed: bool) -> &'static [u8]
    ensures { result.now ≡ signed_text signed }
{
    if signed { b"1" } else { b"0" }
}

/// Appends where a field lies, and how.
fn push_layout(out: &mut Vec<u8>, offset: u128, size: usize, signed: bool) -> Result<(), AllocError>
    ensures { OnOk result (out.new.items ≡ out.old.items ++ formats.layout offset size signed) }
{
    push_with_number(out, b";\toffset:", offset)?;
    push_with_number(out, b";\tsize:", size)?;
    push_three(out, b";\tsigned:", sign_text(signed), b";\n")
}

/// Appends the line of a common field.
#[tactic(auto, unfolding(crate::specs::KernelFormats::layout_line))]
fn push_common_line(
    out: &mut Vec<u8>,
    declared: &[u8],
    offset: u128,
    size: usize,
    signed: bool,
) -> Result<(), AllocError>
    ensures { OnOk result (out.new.items ≡ out.old.items ++ formats.layout_line declared.now offset size signed) }
{
    push(out, b"\tfield:")?;
    push(out, declared)?;
    push_layout(out, offset, size, signed)
}

/// Appends the lines of the common fields.
fn push_common_lines(out: &mut Vec<u8>) -> Result<(), AllocError>
    ensures { OnOk result (out.new.items ≡ out.old.items ++ formats.common_lines) }
{
    push_common_line(out, b"unsigned short common_type", 0, 2, false)?;
    push_common_line(out, b"unsigned char common_flags", 2, 1, false)?;
    push_common_line(out, b"unsigned char common_preempt_count", 3, 1, false)?;
    push_common_line(out, b"int common_pid", 4, 4, true)
}

/// Appends the line of a field at an offset.
#[tactic(auto, unfolding(crate::specs::KernelFormats::field_line, crate::specs::KernelFormats::layout_line))]
fn push_field_line(out: &mut Vec<u8>, offset: u128, field: &Field) -> Result<(), AllocError>
    ensures { OnOk result (out.new.items ≡ out.old.items ++ formats.field_line offset field.now) }
{
    push(out, b"\tfield:")?;
    push_declared(out, field)?;
    push_layout(out, offset, field.kind.size(), field.kind.is_signed())
}

/// Appends the lines of fields, each at its offset.
fn push_field_lines(out: &mut Vec<u8>, fields: &[Field]) -> Result<(), AllocError>
    ensures { OnOk result (out.new.items ≡ out.old.items ++ formats.field_lines 8 fields.now) }
{
    let mut at = FIRST_OFFSET;
    for field in fields {
        let start = start_of(at, field.kind);
        push_field_line(out, start, field)?;
        at = start + field.kind.size() as u128;
    }
    Ok(())
}

/// How a number is printed.
fn number_conversion(number: NumberType) -> &'static [u8]
    ensures { result.now ≡ formats.number_conversion number }
{
    match number {
        NumberType::U8 | NumberType::U16 | NumberType::U32 | NumberType::UnsignedInt => b"%u",
        NumberType::U64 | NumberType::UnsignedLong => b"%llu",
        NumberType::S8 => b"%hhd",
        NumberType::S16 => b"%hd",
        NumberType::S32 | NumberType::Int | NumberType::PidT => b"%d",
        NumberType::S64 | NumberType::Long => b"%lld",
    }
}

/// How a field is printed.
fn conversion(kind: Kind) -> &'static [u8]
    ensures { result.now ≡ formats.conversion kind }
{
    match kind {
        Kind::Number(number) => number_conversion(number),
        Kind::Char(_) => b"%s",
    }
}

/// Appends a field's name and how it is printed.
#[tactic(auto, unfolding(crate::specs::KernelFormats::shown_field))]
fn push_shown(out: &mut Vec<u8>, field: &Field) -> Result<(), AllocError>
    ensures { OnOk result (out.new.items ≡ out.old.items ++ formats.shown_field field.now) }
{
    push_three(out, field.name.as_bytes(), b"=", conversion(field.kind))
}

/// Appends how fields are printed that follow another one.
fn push_further(out: &mut Vec<u8>, fields: &[Field]) -> Result<(), AllocError>
    ensures { OnOk result (out.new.items ≡ out.old.items ++ flat_map formats.further_field fields.now) }
{
    for field in fields {
        push_further_field(out, field)?;
    }
    Ok(())
}

/// Appends how a field is printed that follows another one.
#[tactic(auto, unfolding(crate::specs::KernelFormats::further_field))]
fn push_further_field(out: &mut Vec<u8>, field: &Field) -> Result<(), AllocError>
    ensures { OnOk result (out.new.items ≡ out.old.items ++ formats.further_field field.now) }
{
    push(out, b" ")?;
    push_shown(out, field)
}

/// Appends how fields are printed.
fn push_all_shown(out: &mut Vec<u8>, fields: &[Field]) -> Result<(), AllocError>
    ensures { OnOk result (out.new.items ≡ out.old.items ++ formats.shown_fields fields.now) }
{
    let Some((first, further)) = fields.split_first() else {
        return Ok(());
    };
    push_shown(out, first)?;
    push_further(out, further)
}

/// Appends a field as an argument.
#[tactic(auto, unfolding(crate::specs::KernelFormats::argument))]
fn push_argument(out: &mut Vec<u8>, field: &Field) -> Result<(), AllocError>
    ensures { OnOk result (out.new.items ≡ out.old.items ++ formats.argument field.now) }
{
    push(out, b", REC->")?;
    push(out, field.name.as_bytes())
}

/// Appends fields as arguments.
fn push_arguments(out: &mut Vec<u8>, fields: &[Field]) -> Result<(), AllocError>
    ensures { OnOk result (out.new.items ≡ out.old.items ++ flat_map formats.argument fields.now) }
{
    for field in fields {
        push_argument(out, field)?;
    }
    Ok(())
}

/// Appends how a record is printed.
fn push_print_line(out: &mut Vec<u8>, fields: &[Field]) -> Result<(), AllocError>
    ensures { OnOk result (out.new.items ≡ out.old.items ++ formats.print_line fields.now) }
{
    push(out, b"print fmt: \"")?;
    push_all_shown(out, fields)?;
    push(out, b"\"")?;
    push_arguments(out, fields)?;
    push(out, b"\n")
}

/// Appends an event's number, and ends the line.
fn push_id(out: &mut Vec<u8>, number: u16) -> Result<(), AllocError>
    ensures { OnOk result (out.new.items ≡ out.old.items ++ formats.id_text number) }
{
    push_number(out, kernel_id(number))?;
    push(out, b"\n")
}

/// Appends an event's name and number.
fn push_event(out: &mut Vec<u8>, number: u16, def: &EventDef) -> Result<(), AllocError>
    ensures { OnOk result (out.new.items
        ≡ out.old.items ++ codes "name: " ++ def.now.name ++ codes "\nID: " ++ formats.id_text number) }
{
    push_three(out, b"name: ", def.name(), b"\nID: ")?;
    push_id(out, number)
}

/// Appends what an event's own fields follow.
#[tactic(auto, unfolding(crate::specs::KernelFormats::heading))]
fn push_heading(out: &mut Vec<u8>, number: u16, def: &EventDef) -> Result<(), AllocError>
    ensures { OnOk result (out.new.items ≡ out.old.items ++ formats.heading number def.now) }
{
    push_event(out, number, def)?;
    push(out, b"format:\n")?;
    push_common_lines(out)?;
    push(out, b"\n")
}

/// Appends an event's own fields, and how they are printed.
#[tactic(auto, unfolding(crate::specs::KernelFormats::own_text))]
fn push_own(out: &mut Vec<u8>, fields: &[Field]) -> Result<(), AllocError>
    ensures { OnOk result (out.new.items ≡ out.old.items ++ formats.own_text fields.now) }
{
    push_field_lines(out, fields)?;
    push(out, b"\n")?;
    push_print_line(out, fields)
}

/// Appends the whole text.
#[tactic(auto, unfolding(crate::specs::KernelFormats::format_text))]
fn push_format(out: &mut Vec<u8>, number: u16, def: &EventDef) -> Result<(), AllocError>
    ensures { OnOk result (out.new.items ≡ out.old.items ++ formats.format_text number def.now) }
{
    push_heading(out, number, def)?;
    push_own(out, def.fields())
}

/// The text of an event's `format` file in a mount: its name and number, the fields of its records in a page, and how they are printed.
pub fn format_text(alloc: Global, number: u16, def: &EventDef) -> Result<Text, AllocError>
    ensures { IfOk result (λ text. text ≡ formats.format_text number def.now) }
{
    let mut text = Vec::new(alloc);
    push_format(&mut text, number, def)?;
    Ok(Text::from(text))
}

/// The text of an event's `id` file in a mount.
pub fn id_text(alloc: Global, number: u16) -> Result<Text, AllocError>
    ensures { IfOk result (λ text. text ≡ formats.id_text number) }
{
    let mut text = Vec::new(alloc);
    push_id(&mut text, number)?;
    Ok(Text::from(text))
}
