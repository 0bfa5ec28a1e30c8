//! Which events the instances of watched pipes want, as far as it was asked: an emission of one that none of them wants makes no read due.
//!
//! Emissions make no event wanted, so what is known stays true over them. Commands may change it, and after one nothing is known.

ghost use Rattle.std.specs.Prelude.{◌≡◌, All, set, slice_index_or};
ghost use Rattle.mount_replies.specs.declared.wanted_events.Wanted.TheVariants.{Unknown};

use std::marker::Model;

/// How many events are kept, by their numbers: the first that was declared has 1, and there are 64 at most.
const NUMBERS: usize = 65;

/// Whether an instance of a watched pipe wants an event.
#[derive(Clone, Copy)]
pub enum Wanted {
    /// It was not asked.
    Unknown,
    /// One may want it.
    Somewhere,
    /// None wants it.
    Nowhere,
}

/// Of each event, by its number, whether an instance of a watched pipe wants it.
#[derive(Drop)]
pub struct WantedEvents {
    events: [Wanted; NUMBERS],
}

impl Model for WantedEvents {
    ghost use Rattle.std.specs.Prelude.{List};
    ghost use Rattle.mount_replies.specs.declared.wanted_events.Wanted.{Wanted as WantedValue};

    ghost Value = { List WantedValue };

    ghost view = { λ w. w.events };
}

// What is known at an index: nothing beyond the last one.
#[inline(always)]
fn known_at(events: &[Wanted], index: usize) -> Wanted
    ensures { result ≡ slice_index_or events.now index Unknown }
{
    if index < events.len() {
        events[index]
    } else {
        Wanted::Unknown
    }
}

// Notes what is known at an index, if there is one.
fn note_at(events: &mut [Wanted], index: usize, wanted: Wanted)
    ensures { events.new ≡ set events.old index wanted }
{
    if index < events.len() {
        events[index] = wanted;
    }
}

impl WantedEvents {
    /// Nothing is known.
    pub fn new() -> WantedEvents
        ensures { All (λ wanted. wanted ≡ Unknown) result }
    {
        WantedEvents {
            events: [Wanted::Unknown; NUMBERS],
        }
    }

    /// What is known of the event of this number.
    #[inline(always)]
    pub fn get(&self, number: u32) -> Wanted
        ensures { result ≡ slice_index_or self.now number Unknown }
    {
        known_at(&self.events, number as usize)
    }

    /// Notes what the instances said of it.
    pub fn note(&mut self, number: u32, wanted: Wanted)
        ensures { self.new ≡ set self.old number wanted }
    {
        note_at(&mut self.events, number as usize, wanted);
    }
}
