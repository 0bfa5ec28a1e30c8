//! The line of an entry of a histogram.

ghost use Rattle.std.specs.Prelude.{◌≡◌, ◌++◌, ◌-◌, ◌≤◌, map, replicate, codes, string_bytes, OnOk};
ghost use Rattle.std.specs.List.{flat_map, join_by, zip};
ghost use Rattle.trace_format.specs.Cells.{datum_of};
ghost use Rattle.hist_entries.specs.Buckets.{pattern_of as spec_pattern_of};
ghost use Rattle.hist_entries.specs.PrintOrder.{row_in};
ghost use Rattle.trace_text.specs.EntryText as texts;

use itoa::{Buffer, Integer};
use record_text::append::{push, push_three};
use std::alloc::AllocError;
use trace_format::{Text, Value};
use trace_hist::{HistRow, HistSpec, Key, Modifier};

const BLANKS: [u8; 16] = [b' '; 16];

/// Appends so many blanks, 16 at most.
fn push_blanks(out: &mut Vec<u8>, count: usize) -> Result<(), AllocError>
    requires { count ≤ 16 }
    ensures { OnOk result (out.new.items ≡ out.old.items ++ replicate count 32) }
{
    out.extend_from_slice(&BLANKS[..count])
}

/// Appends bytes on the right of 10 columns.
fn push_on_the_right(out: &mut Vec<u8>, text: &[u8]) -> Result<(), AllocError>
    ensures { OnOk result (out.new.items ≡ out.old.items ++ texts.on_the_right 10 text.now) }
{
    push_blanks(out, 10usize.saturating_sub(text.len()))?;
    out.extend_from_slice(text)
}

/// Appends a number on the right of 10 columns.
fn push_number_on_the_right<N: Integer>(out: &mut Vec<u8>, n: N) -> Result<(), AllocError>
    ensures { OnOk result (out.new.items ≡ out.old.items ++ texts.on_the_right 10 (N.text n)) }
{
    push_on_the_right(out, Buffer::new().format(n).as_bytes())
}

/// The 64-bit two's complement pattern of a number.
fn pattern_of(number: i128) -> u64
    ensures { result ≡ spec_pattern_of number }
{
    number.rem_euclid(1 << 64) as u64
}

/// Appends a string on the right of 10 columns.
fn push_string_on_the_right(out: &mut Vec<u8>, text: String) -> Result<(), AllocError>
    ensures { OnOk result (out.new.items ≡ out.old.items ++ texts.on_the_right 10 (string_bytes text)) }
{
    push_on_the_right(out, text.as_bytes())
}

/// Appends the least and the greatest number of a bucket on the right of 10 columns.
fn push_range(out: &mut Vec<u8>, size: u32, lowest: i128) -> Result<(), AllocError>
    ensures { OnOk result (out.new.items
        ≡ out.old.items ++ texts.on_the_right 10 (texts.bucket_text (Modifier.Buckets size) lowest)) }
{
    let alloc = *out.allocator();
    let more = size.saturating_sub(1);
    if lowest < 0 {
        let highest = lowest + i128::from(more);
        push_string_on_the_right(out, format!(in alloc; "~ {lowest}-{highest}")?)
    } else {
        let highest = lowest.unsigned_abs() + u128::from(more);
        push_string_on_the_right(out, format!(in alloc; "~ {lowest}-{highest}")?)
    }
}

/// Appends a bucket by its number, as a modifier shows it, on the right of 10 columns.
fn push_bucket(out: &mut Vec<u8>, modifier: Modifier, number: i128) -> Result<(), AllocError>
    ensures { OnOk result (out.new.items
        ≡ out.old.items ++ texts.on_the_right 10 (texts.bucket_text modifier number)) }
{
    let alloc = *out.allocator();
    match modifier {
        Modifier::Plain => push_number_on_the_right(out, number),
        Modifier::Hex => {
            let pattern = pattern_of(number);
            push_string_on_the_right(out, format!(in alloc; "{pattern:x}")?)
        }
        Modifier::Log2 => push_string_on_the_right(out, format!(in alloc; "~ 2^{number}")?),
        Modifier::Buckets(size) => push_range(out, size, number),
    }
}

/// Appends the value of a key: a bucket, or a string.
fn push_key_value(out: &mut Vec<u8>, modifier: Modifier, value: &Value) -> Result<(), AllocError>
    ensures { OnOk result (out.new.items
        ≡ out.old.items ++ texts.key_value modifier (datum_of value.now)) }
{
    match value {
        Value::Num(number) => push_bucket(out, modifier, *number),
        Value::Text(bytes) => {
            out.extend_from_slice(bytes)?;
            push_blanks(out, 16usize.saturating_sub(bytes.len()))
        }
    }
}

/// Appends a key's name and value.
fn push_key(out: &mut Vec<u8>, key: &Key, value: &Value) -> Result<(), AllocError>
    ensures { OnOk result (out.new.items
        ≡ out.old.items ++ texts.key_text (key.now, datum_of value.now)) }
{
    out.extend_from_slice(key.name.as_bytes())?;
    push(out, b": ")?;
    push_key_value(out, key.modifier, value)
}

/// Appends keys that follow another one.
fn push_further_keys(out: &mut Vec<u8>, keys: &[Key], values: &[Value]) -> Result<(), AllocError>
    ensures { OnOk result (out.new.items ≡ out.old.items ++ flat_map
        (λ key. codes ", " ++ texts.key_text key) (zip keys.now (map datum_of values.now))) }
{
    for (key, value) in keys.iter().zip(values) {
        push(out, b", ")?;
        push_key(out, key, value)?;
    }
    Ok(())
}

/// Appends keys with `, ` between each two.
fn push_keys(out: &mut Vec<u8>, keys: &[Key], values: &[Value]) -> Result<(), AllocError>
    ensures { OnOk result (out.new.items ≡ out.old.items
        ++ join_by texts.key_text (codes ", ") (zip keys.now (map datum_of values.now))) }
{
    let (Some((key, keys)), Some((value, values))) = (keys.split_first(), values.split_first())
    else {
        return Ok(());
    };
    push_key(out, key, value)?;
    push_further_keys(out, keys, values)
}

/// Appends a value's name and sum.
fn push_sum(out: &mut Vec<u8>, name: &Text, sum: i128) -> Result<(), AllocError>
    ensures { OnOk result (out.new.items ≡ out.old.items ++ texts.sum_text (name.now, sum)) }
{
    push_three(out, b"  ", name.as_bytes(), b": ")?;
    push_number_on_the_right(out, sum)
}

/// Appends values, each with its sum.
fn push_sums(out: &mut Vec<u8>, names: &[Text], sums: &[i128]) -> Result<(), AllocError>
    ensures { OnOk result (out.new.items
        ≡ out.old.items ++ flat_map texts.sum_text (zip names.now sums.now)) }
{
    for (name, sum) in names.iter().zip(sums) {
        push_sum(out, name, *sum)?;
    }
    Ok(())
}

/// Appends the line of an entry of a trigger.
#[tactic(auto, unfolding(crate::specs::EntryText::entry_line))]
pub(crate) fn push_entry_line(
    out: &mut Vec<u8>,
    spec: &HistSpec,
    entry: &HistRow,
) -> Result<(), AllocError>
    ensures { OnOk result (out.new.items
        ≡ out.old.items ++ texts.entry_line spec.now.keys spec.now.values (row_in entry.now)) }
{
    push(out, b"{ ")?;
    push_keys(out, spec.keys(), &entry.keys)?;
    push(out, b" } hitcount: ")?;
    push_number_on_the_right(out, entry.hitcount)?;
    push_sums(out, spec.values(), &entry.sums)?;
    push(out, b"\n")
}
