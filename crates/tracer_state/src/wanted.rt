//! Which events some instance wants, as a mask: an emission of any other that is declared changes the clock alone, if it is done, until a later command
//! changes the mask.

ghost use Rattle.std.specs.Prelude.{◌≡◌};
ghost use Rattle.tracer_state.specs.WantedMasks as masks;

use crate::plan::EVENTS;
use crate::state::{Named, State};

impl State {
    /// The events that some instance wants, a bit of each: that of the first declared is the lowest. An instance wants an event that it records
    /// (events.rst, "Using Event Tracing") or of which a trigger may act ("Event triggers"); filters are not asked. Only the instances' settings and
    /// triggers are looked at: no memory is taken.
    pub fn wanted(&self) -> u64
        ensures { masks.IsMaskOf self.now.instances.items result }
    {
        let mut mask = 0;
        for event in 0..EVENTS {
            if is_wanted(&self.instances, event) {
                mask |= 1 << event;
            }
        }
        mask
    }
}

// Whether some instance wants the event at this index.
fn is_wanted(instances: &[Named], event: usize) -> bool
    ensures { result ≡ masks.is_wanted instances.now event }
{
    instances.iter().any(|named| named.instance.wants(event))
}
