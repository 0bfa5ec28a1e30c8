//! The declared events.

ghost use Rattle.std.specs.Prelude.{◌≡◌, ◌<◌, ◌≤◌, slice_index_or, List, ℕ, [], ◌∷◌, ◌++◌, IfOk, OnOk, OnErr, IfSome, Some, length, map, option_copied, option_map, ◌==◌};

use crate::event::EventDef;
use crate::fault::CatalogFault;
use crate::sizes::record_size;
use indexmap::IndexMap;
use std::alloc::{AllocError, Global};
use std::marker::Model;

/// An event has at most so many fields.
const MOST_FIELDS: usize = 16;

/// A catalog has at most so many events.
const MOST_EVENTS: usize = 64;

/// The declared events, each behind those that were added before it.
#[derive(Drop)]
pub struct Catalog {
    alloc: Global,
    events: IndexMap<Vec<u8>, EventDef>,
}

impl Model for Catalog {
    ghost use Rattle.std.specs.Prelude.{List, map};
    ghost use Rattle.indexmap.specs.IndexMap.{values};
    ghost use Rattle.trace_format.specs.Definitions.{Definition};
    ghost use Rattle.trace_format.specs.Catalogs.{IsCatalog};

    ghost Value = { List Definition };

    ghost view = { λ c. values c.events };

    ghost invariant = { λ c. IsCatalog c.events.entries };
}

impl Catalog {
    ghost use Rattle.trace_format.specs.Definitions.{Definition, IsDefinition};
    ghost use Rattle.trace_format.specs.Cells.{record_size_of};
    ghost use Rattle.trace_format.specs.Catalogs.{id_of, event_of, id_for, IsAdded, AreEvents};

    /// A catalog with no event.
    pub fn new(alloc: Global) -> Catalog
        ensures { result ≡ [] }
    {
        Catalog {
            alloc,
            events: IndexMap::new(alloc),
        }
    }

    /// The number that an event would get if it were added. A page has `page_bytes` bytes for records.
    ///
    /// It is refused as `EventExists` where an event of the name is there, then as `TooManyFields` where it has over 16 fields, as
    /// `TooManyEvents` where 64 events are there, and then as `TooBig` where its record is larger than a page.
    pub fn next_id(&self, def: &EventDef, page_bytes: usize) -> Result<u16, CatalogFault>
        ensures { result ≡ id_for self.now def.now page_bytes }
    {
        if self.find(def.name()).is_some() {
            return Err(CatalogFault::EventExists);
        }
        if def.fields().len() > MOST_FIELDS {
            return Err(CatalogFault::TooManyFields);
        }
        if self.len() >= MOST_EVENTS {
            return Err(CatalogFault::TooManyEvents);
        }
        if record_size(def) > page_bytes {
            return Err(CatalogFault::TooBig);
        }
        Ok(self.len() as u16 + 1)
    }

    /// Adds an event, and answers its number: the first is 1. A page has `page_bytes` bytes for records.
    ///
    /// It is refused as `next_id` says. After a refusal, `Memory` too, the catalog is as before.
    pub fn add(&mut self, def: EventDef, page_bytes: usize) -> Result<u16, CatalogFault>
        ensures answer { IsAdded result (id_for self.old def page_bytes) }
        ensures ok { OnOk result (self.new ≡ self.old ++ def ∷ []) }
        ensures fits { OnOk result (record_size_of def ≤ page_bytes) }
        ensures err { OnErr result (self.new ≡ self.old) }
    {
        let id = self.next_id(&def, page_bytes)?;
        let name = Vec::from_slice(self.alloc, def.name())?;
        self.events.insert(name, def)?;
        Ok(id)
    }

    /// A catalog with the same events. An error is that memory is refused.
    pub fn copy(&self) -> Result<Catalog, AllocError>
        ensures { IfOk result (λ copy. copy ≡ self.now) }
    {
        let mut copy = Catalog::new(self.alloc);
        for index in 0..self.len() {
            let event = event_at(self, index).copy(self.alloc)?;
            if copy.add(event, usize::MAX).is_err() {
                return Err(AllocError);
            }
        }
        Ok(copy)
    }

    /// The number of the event of a name, by its index in the table and without a scan of all events.
    pub fn find(&self, name: &[u8]) -> Option<u16>
        ensures id { result ≡ id_of self.now name.now }
        // The event of the number has the name.
        ensures named { IfSome result (λ id. option_map (λ (event : Definition). event.name) (event_of self.now id) ≡ Some name.now) }
    {
        match self.events.get_index_of(name) {
            Some(index) => Some(index as u16 + 1),
            None => None,
        }
    }

    /// The event of a number.
    pub fn def(&self, id: u16) -> Option<&EventDef>
        ensures event { option_copied result ≡ event_of self.now id }
        ensures definition { IfSome result (λ def. IsDefinition def.now) }
        ensures few { IfSome result (λ def. length def.now.fields ≤ 16) }
        // Its name has the number.
        ensures named { IfSome result (λ def. id_of self.now def.now.name ≡ Some id) }
    {
        let index = usize::from(id).checked_sub(1)?;
        let (_name, def) = self.events.get_index(index)?;
        Some(def)
    }

    /// How many events there are.
    pub fn len(&self) -> usize
        ensures len { result ≡ length self.now }
        ensures few { length self.now ≤ 64 }
        // Each has at most 16 fields, and a name that no other has.
        ensures events { AreEvents [] self.now }
    {
        self.events.len()
    }

    /// Whether there is no event.
    pub fn is_empty(&self) -> bool
        ensures { result ≡ (length self.now == 0) }
    {
        self.events.is_empty()
    }
}

// The event at this index.
fn event_at(catalog: &Catalog, index: usize) -> &EventDef
    requires inside { index < length catalog.now }
    requires few { length catalog.now ≤ 64 }
    ensures { result.now ≡ slice_index_or catalog.now index result.now }
{
    catalog.def(index as u16 + 1).unwrap()
}
