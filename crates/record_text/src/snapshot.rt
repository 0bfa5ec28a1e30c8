//! The text of a `snapshot` file.

ghost use Rattle.std.specs.Prelude.{◌≡◌, ℕ, List, IfOk};
ghost use Rattle.trace_format.specs.Definitions.{Definition};
ghost use Rattle.record_text.specs.CopyText as copies;
ghost use Rattle.trace_snapshot.specs.Sides.{SideFamilies, StandsFor};
ghost use Rattle.record_text.specs.SnapshotText as texts;
ghost use Rattle.record_text.specs.SnapshotText.{SpareHasShape};

use crate::trace_copies::{TraceCopy, trace_copy};
use std::alloc::{AllocError, Global};
use trace_format::{Catalog, Text};
use trace_snapshot::Sides;

/// The line that says that there is no spare side.
#[tactic(auto, unfolding(crate::specs::SnapshotText::freed_line))]
fn freed_line(alloc: Global) -> Result<Text, AllocError>
    ensures { IfOk result (λ text. text ≡ texts.freed_line) }
{
    Text::from_slice(alloc, b"# * Snapshot is freed *\n".as_slice())
}

/// Copies what `snapshot_text` shows: the trace of the spare side, if there is one. It takes at most the memory of that side's pages. The only error is
/// that memory is refused.
pub fn snapshot_copy(sides: &Sides) -> Result<Option<TraceCopy>, AllocError>
    ensures { IfOk result (λ copy. (events : List Definition) (families : SideFamilies) → StandsFor sides.now families
        → (pages page_bytes : ℕ) → SpareHasShape pages page_bytes sides.now.spare
        → copies.copied_snapshot_text events copy ≡ texts.snapshot_text events pages page_bytes families.spare) }
{
    match sides.spare() {
        Some(spare) => {
            let copy = trace_copy(spare, None)?;
            Ok(Some(copy))
        }
        None => Ok(None),
    }
}

/// The text of what was copied, with these events. The only error is that memory is refused.
pub fn copied_snapshot_text(
    alloc: Global,
    catalog: &Catalog,
    copy: &Option<TraceCopy>,
) -> Result<Text, AllocError>
    ensures { IfOk result (λ text. text ≡ copies.copied_snapshot_text catalog.now copy.now) }
{
    match copy {
        Some(copy) => copy.text(alloc, catalog),
        None => freed_line(alloc),
    }
}

/// What `snapshot` shows ("Snapshot" of ftrace.rst): the trace of all CPUs of the spare side, as `trace_text` gives it of a buffer, or
/// a line that says that there is no spare side. Nothing is consumed.
pub fn snapshot_text(alloc: Global, catalog: &Catalog, sides: &Sides) -> Result<Text, AllocError>
    ensures { IfOk result (λ text. (families : SideFamilies) → StandsFor sides.now families
        → (pages page_bytes : ℕ) → SpareHasShape pages page_bytes sides.now.spare
        → text ≡ texts.snapshot_text catalog.now pages page_bytes families.spare) }
{
    let copy = snapshot_copy(sides)?;
    copied_snapshot_text(alloc, catalog, &copy)
}
