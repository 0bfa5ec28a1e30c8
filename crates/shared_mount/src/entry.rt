//! The entries of a mounted tracer's history. They are for clauses only, and take no bytes.

use std::marker::{Model, PhantomData};

/// An entry, as clauses see it: the ticket of a turn, the caller's number, and what was done. No value of this type is made.
pub struct Entry {
    marker: PhantomData<u8>,
}

impl Model for Entry {
    ghost use Rattle.shared_mount.specs.MountEntries.{EntrySeen, no_entry};

    ghost Value = { EntrySeen };

    ghost view = { λ _. no_entry };
}
