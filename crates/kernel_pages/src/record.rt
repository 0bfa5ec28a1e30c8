//! A record of a ring as a row of a page.

ghost use Rattle.std.specs.Prelude.{◌≡◌, ◌≤◌, ◌++◌, drop, length, IfOk, OnOk};
ghost use Rattle.kernel_pages.specs.KernelFormats as formats;
ghost use Rattle.kernel_pages.specs.Rows as rows;
ghost use Rattle.kernel_pages.specs.Laws.{IsPageRow};
ghost use Rattle.kernel_pages.specs.FormatLaws.{FitPage};

use crate::layout::{FIRST_OFFSET, end_of_record, start_of};
use crate::page_row::PageRow;
use crate::zeros::{push_filled, push_zeros};
use std::alloc::{AllocError, Global};
use trace_format::{Catalog, Field, Text};
use trace_record::{Head, payload_in, read_head};

/// The number of the first event, less the one that its catalog gives it.
const BEFORE_FIRST_ID: u32 = 99;

/// The number of an event in pages and files.
pub(crate) fn kernel_id(number: u16) -> u32
    ensures { result ≡ formats.kernel_id number }
{
    BEFORE_FIRST_ID + u32::from(number)
}

/// Appends the common fields.
fn push_common(out: &mut Vec<u8>, head: &Head) -> Result<(), AllocError>
    ensures { OnOk result (out.new.items ≡ out.old.items ++ formats.common_data head.now) }
{
    let id = ((kernel_id(head.event) % (1 << 16)) as u16).to_le_bytes();
    let pid = head.pid.to_le_bytes();
    out.extend_from_slice(&[id[0], id[1], 0, 0, pid[0], pid[1], pid[2], pid[3]])
}

/// What follows so many bytes.
fn rest_after(bytes: &[u8], size: usize) -> &[u8]
    ensures { result.now ≡ drop size bytes.now }
{
    bytes.get(size..).unwrap_or(&[])
}

/// Appends the fields of a payload, each where it begins.
fn push_fields(out: &mut Vec<u8>, fields: &[Field], payload: &[u8]) -> Result<(), AllocError>
    ensures { OnOk result (out.new.items ≡ out.old.items ++ formats.fields_data 8 fields.now payload.now) }
{
    let mut at = FIRST_OFFSET;
    let mut rest = payload;
    for field in fields {
        let size = field.kind.size();
        let start = start_of(at, field.kind);
        push_zeros(out, (start - at) as usize)?;
        push_filled(out, size, rest)?;
        rest = rest_after(rest, size);
        at = start + size as u128;
    }
    push_zeros(out, (end_of_record(at) - at) as usize)
}

/// The head of a record, all 0 where the bytes are too few for one.
fn head_in(rec: &[u8]) -> Head
    ensures { result ≡ rows.head_in rec.now }
{
    match read_head(rec) {
        Some(head) => head,
        None => Head {
            ts: 0,
            pid: 0,
            event: 0,
            payload: 0,
        },
    }
}

/// The fields of an event, none where the number is no event's.
fn fields_of(catalog: &Catalog, number: u16) -> &[Field]
    ensures fields { result.now ≡ rows.fields_of catalog.now number }
    ensures fit { FitPage result.now }
{
    match catalog.def(number) {
        Some(def) => def.fields(),
        None => &[],
    }
}

/// Writes the data of a record of a ring, with nothing before them, and returns when it was written.
#[tactic(auto, unfolding(crate::specs::Rows::data_of, crate::specs::KernelFormats::record_data))]
pub(crate) fn write_data(
    catalog: &Catalog,
    rec: &[u8],
    out: &mut Vec<u8>,
) -> Result<u64, AllocError>
    ensures time { IfOk result (λ time. time ≡ (rows.head_in rec.now).ts) }
    ensures data { OnOk result (out.new.items ≡ rows.data_of catalog.now rec.now) }
    ensures fits { OnOk result (length out.new.items ≤ 4056) }
{
    let head = head_in(rec);
    out.clear();
    push_common(out, &head)?;
    push_fields(out, fields_of(catalog, head.event), payload_in(&head, rec))?;
    Ok(head.ts)
}

/// What a page tells of a record of a ring before which so many were lost.
///
/// A record in a ring has a head that names an event of the catalog, and is a row of that event. Bytes that are no such record are told likewise,
/// with zeros for what they lack.
pub fn row_of_record(
    alloc: Global,
    catalog: &Catalog,
    lost: u64,
    rec: &[u8],
) -> Result<PageRow, AllocError>
    ensures row { IfOk result (λ row. row ≡ rows.row_of catalog.now lost rec.now) }
    ensures is_row { IfOk result IsPageRow }
    ensures fits { IfOk result (λ row. length row.bytes ≤ 4056) }
{
    let mut bytes = Vec::new(alloc);
    let time = write_data(catalog, rec, &mut bytes)?;
    Ok(PageRow {
        time,
        lost,
        bytes: Text::from(bytes),
    })
}
