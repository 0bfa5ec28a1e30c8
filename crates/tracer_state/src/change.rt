//! Changes: what a command does to the state.

ghost use Rattle.std.specs.Prelude.{◌≡◌};
ghost use Rattle.tracer_state.specs.EventPlans as plans;

use crate::state::Named;
use trace_format::EventDef;
use trace_instance::{InstanceChange, Touched};

/// What a command other than an emission changes. Every change is moved from function to function, so large parts are boxed.
#[derive(Drop)]
pub enum Change {
    /// Declares an event.
    Declare(EventDef),
    /// Makes an instance.
    Make(Box<Named>),
    /// Removes the instance at this index.
    Remove(usize),
    /// Changes the instance at this index.
    Instance(usize, InstanceChange),
}

impl Change {
    /// The events whose plans the change may change, where so many are declared.
    pub(crate) fn touched(&self, events: usize) -> Touched
        ensures { result ≡ plans.touched_by events self.now }
    {
        match self {
            Change::Declare(_) => Touched {
                first: events,
                count: 1,
            },
            Change::Make(_) | Change::Remove(_) => Touched {
                first: 0,
                count: events,
            },
            Change::Instance(_, change) => change.touched(events),
        }
    }
}
