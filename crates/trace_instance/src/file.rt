//! Files of an instance, once their CPU or event was found.

ghost use Rattle.std.specs.Prelude.{◌≡◌, ◌<◌, ◌≤◌, length, slice_index_or};

use trace_command::{CpuFile, EventFile, TopFile};
use trace_format::{Catalog, EventDef};

/// A file of an existing instance: a CPU by its number, an event by its index among the declared ones, from 0.
#[derive(Clone, Copy, Drop)]
pub enum File {
    OfInstance(TopFile),
    OfCpu(u32, CpuFile),
    OfEvent(usize, EventFile),
}

/// The event at this index.
pub fn event_at(catalog: &Catalog, index: usize) -> &EventDef
    requires inside { index < length catalog.now }
    requires few { length catalog.now ≤ 64 }
    ensures { result.now ≡ slice_index_or catalog.now index result.now }
{
    catalog.def(index as u16 + 1).unwrap()
}
