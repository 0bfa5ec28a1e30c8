//! The line of a record in the `trace` and `trace_pipe` files.

ghost use Rattle.std.specs.Prelude.{◌≡◌, ℕ, List, ◌++◌, map, Some, None, option_map, if◌then◌else◌, IfOk, OnOk};
ghost use Rattle.std.specs.Fmt.{signed_decimal};
ghost use Rattle.trace_format.specs.Cells.{datum_in};
ghost use Rattle.trace_format.specs.Decoding.{row_from, values_from};
ghost use Rattle.record_text.specs.RecordText as texts;

use crate::append::{push_number, put_before, put_number_before};
use itoa::Buffer;
use std::alloc::AllocError;
use trace_format::{BorrowedValue, Catalog, EventDef, Field};
use trace_record::{Head, payload_in, read_head};

/// The most bytes that the start of a line has: a process's number of 11, a CPU in three digits, a timestamp of 20, and 6 between and after them.
const START_BYTES: usize = 40;

/// A number below 1,000 in three digits.
fn three_digits(n: u32) -> [u8; 3]
    ensures { result ≡ texts.three_digits n }
{
    [
        b'0' + (n / 100 % 10) as u8,
        b'0' + (n / 10 % 10) as u8,
        b'0' + (n % 10) as u8,
    ]
}

/// Appends who wrote a record, where and when.
#[tactic(auto, unfolding(crate::specs::RecordText::line_start))]
fn push_line_start(out: &mut Vec<u8>, cpu: u32, head: &Head) -> Result<(), AllocError>
    ensures { OnOk result (out.new.items ≡ out.old.items ++ texts.line_start cpu head.now) }
{
    let mut start = [0; START_BYTES];
    let at = put_before(&mut start, START_BYTES, b": ");
    let at = put_number_before(&mut start, at, head.ts);
    let at = put_before(&mut start, at, b"] ");
    let at = put_before(&mut start, at, &three_digits(cpu));
    let at = put_before(&mut start, at, b" [");
    let at = put_before(&mut start, at, Buffer::new().format(head.pid).as_bytes());
    out.extend_from_slice(&start[at..])
}

/// Appends a number in decimal. Those of 64 bits, as most are, take fewer steps.
fn push_whole(out: &mut Vec<u8>, number: i128) -> Result<(), AllocError>
    ensures { OnOk result (out.new.items ≡ out.old.items ++ signed_decimal number) }
{
    if number >= 0 && number <= i128::from(u64::MAX) {
        return push_number(out, number as u64);
    }
    push_number(out, number)
}

/// Appends a number in decimal, or a text as it is.
fn push_value(out: &mut Vec<u8>, value: BorrowedValue<'_>) -> Result<(), AllocError>
    ensures { OnOk result (out.new.items ≡ out.old.items ++ texts.value_text (datum_in value.entry)) }
{
    match value {
        BorrowedValue::Num(number) => push_whole(out, number),
        BorrowedValue::Text(text) => out.extend_from_slice(text),
    }
}

/// Appends a field and its value.
#[tactic(auto, unfolding(crate::specs::RecordText::cell_text))]
fn push_cell(out: &mut Vec<u8>, field: &Field, value: BorrowedValue<'_>) -> Result<(), AllocError>
    ensures { OnOk result (out.new.items ≡ out.old.items ++ texts.cell_text field.now (datum_in value.entry)) }
{
    out.push(b' ')?;
    out.extend_from_slice(field.name.as_bytes())?;
    out.push(b'=')?;
    push_value(out, value)
}

/// Appends fields, each with its value, and tells whether the payload is a row of them. If it isn't, only a part of its values is appended.
fn push_cells(out: &mut Vec<u8>, fields: &[Field], payload: &[u8]) -> Result<bool, AllocError>
    ensures cells { IfOk result (λ is_row. (if is_row then Some out.new.items else None)
        ≡ option_map (λ values. out.old.items ++ texts.cells_text fields.now values) (values_from (map (λ f. f.kind) fields.now) payload.now)) }
    ensures more { OnOk result ((more : List ℕ) × (out.new.items ≡ out.old.items ++ more)) }
{
    let mut rest = payload;
    for field in fields {
        let size = field.kind.size();
        if rest.len() < size {
            return Ok(false);
        }
        let (front, back) = rest.split_at(size);
        let Some(value) = field.kind.value_in(front) else {
            return Ok(false);
        };
        push_cell(out, field, value)?;
        rest = back;
    }
    Ok(rest.is_empty())
}

/// Appends the line of a record of an event.
#[tactic(auto, unfolding(crate::specs::RecordText::row_line))]
fn push_event_line(
    out: &mut Vec<u8>,
    cpu: u32,
    head: &Head,
    def: &EventDef,
    payload: &[u8],
) -> Result<(), AllocError>
    ensures { OnOk result (out.new.items ≡ out.old.items ++ texts.line_of_row cpu head.now def.now (row_from def.now payload.now)) }
{
    let before = out.len();
    push_line_start(out, cpu, head)?;
    out.extend_from_slice(def.name())?;
    out.push(b':')?;
    if !push_cells(out, def.fields(), payload)? {
        out.truncate(before);
        return Ok(());
    }
    out.push(b'\n')?;
    Ok(())
}

/// Appends the line of a record in `trace` and `trace_pipe` ("Output format" of ftrace.rst): pid, CPU in three digits, timestamp in ticks of
/// the clock, event, and each field with its value, in order of declaration.
///
/// `rec` is the record's bytes: its head, which names an event of the catalog, the payload of a row of that event, and what fills it up. Bytes
/// with no head, of no such event, or with no row of it have no line.
#[tactic(auto, unfolding(crate::specs::RecordText::record_line))]
pub(crate) fn push_record_line(
    out: &mut Vec<u8>,
    catalog: &Catalog,
    cpu: u32,
    rec: &[u8],
) -> Result<(), AllocError>
    ensures { OnOk result (out.new.items ≡ out.old.items ++ texts.record_line catalog.now cpu rec.now) }
{
    let Some(head) = read_head(rec) else {
        return Ok(());
    };
    let Some(def) = catalog.def(head.event) else {
        return Ok(());
    };
    push_event_line(out, cpu, &head, def, payload_in(&head, rec))
}
