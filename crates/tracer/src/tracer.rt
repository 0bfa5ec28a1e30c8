//! A tracer that keeps no history, and the state that the commands done led to.
//!
//! A command runs in two phases, so that a refused one changes nothing, wherever the refusal is found and whichever allocation fails:
//!
//! ```text
//!                        emission                       any other command
//!   prepare   looks      prepare_emission: delivery     prepare: Change and Reply      refusals are found here, in their order
//!             grows      row, hists, record             the change itself              may be refused memory
//!                                                                                      HistoryFull comes last
//!   commit    changes    deliver                        carry_out                      an emission's takes no memory
//!             counts     the command is done            the command is done
//! ```
//!
//! `carry_out` can be refused memory only for a spare side, a trigger and its table, an event or an instance (`TakesMemory`), and it allocates all of
//! that before it changes anything. Nothing is ever undone. The two phases pass on data (a `Change`; the `Delivery` that the tracer keeps), so the second
//! never looks at the command again: it makes a step of the state, and the first has shown that this is the step that the definitions give the command.
//!
//! The phases are public (`phases.rt`), for a caller that has something of its own to do between them, as a book writes its entry ahead. `ask.rt` has
//! whole calls, `late.rt` a read whose text is made after the call, `take.rt` one of records of which no text is made.
//!
//! No clause speaks of a history, since none is kept. Each holds for every list of requests of which `IsLive` held before the call.

mod ask;
mod late;
mod phases;
mod take;

ghost use Rattle.std.specs.Prelude.{◌≡◌, ◌≢◌, ◌<◌, [], List, drop, length, is_some, IfOk, IfErr, IfSome, OnOk};
ghost use Rattle.std.specs.List.{slice_get};
ghost use Rattle.std.specs.Option.{option_and_then, option_copied, option_map};
ghost use Rattle.trace_command.specs.Configs.{IsInRange};
ghost use Rattle.trace_command.specs.FileNames.{bytes_now};
ghost use Rattle.trace_command.specs.Paths as paths;
ghost use Rattle.trace_command.specs.Requests.{Request};
ghost use Rattle.trace_command.specs.declared.refusal.Refusal.TheVariants as refusal;
ghost use Rattle.tracer_specification.specs.Settings.{declared_events, instance_names, is_there, now_of};
ghost use Rattle.tracer_specification.specs.Waiting.{waiting};
ghost use Rattle.trace_instance.specs.Instances.{InstanceStandsFor};
ghost use Rattle.tracer.specs.LiveMasks.{IsMaskAfter};
ghost use Rattle.tracer.specs.Lives.{IsLive, WasLedTo};

use std::alloc::Global;
use std::marker::Model;
use trace_command::{Config, Refusal};
use trace_format::{Catalog, EventDef};
use trace_instance::{Delivery, Instance, event_at};
use tracer_state::{Named, State};

/// How many commands a tracer does.
pub const MOST_DONE: u64 = 1 << 60;

/// A tracer that keeps no history: its configuration, the state that the commands done led to, and how many they were. Commands name files as in
/// ftrace.rst and run one at a time. The limit on histories in its configuration says nothing of it: it does 2^60 commands.
pub struct Tracer {
    alloc: Global,
    config: Config,
    state: State,
    // The emission that was prepared last, whose memory serves the next one.
    delivery: Delivery,
    done: u64,
}

impl Drop for Tracer {
    // Not derived, so that no crate above proves the drops of its parts.
    fn drop(self) {
        let Tracer {
            alloc: _,
            config: _,
            state: _,
            delivery: _,
            done: _,
        } = self;
    }
}

impl Model for Tracer {
    ghost use Rattle.tracer.specs.LiveSeen.{LiveSeen};

    ghost Value = { LiveSeen };

    ghost use Rattle.tracer.specs.LiveFields.{seen, IsLed};

    ghost view = { seen };

    ghost invariant = { IsLed };
}

impl Tracer {
    /// A tracer of which nothing was asked. Refused with `BadValue` exactly if a number of the configuration is out of range, otherwise only with
    /// `Memory`.
    pub fn new(alloc: Global, config: Config) -> Result<Tracer, Refusal>
        ensures made { IfOk result (λ live. (live.config ≡ config) × IsLive config [] live) }
        ensures in_range { OnOk result (IsInRange config) }
        ensures out_of_range { ¬ IsInRange config → IfErr result (λ r. r ≡ refusal.BadValue) }
        ensures refused { IfErr result (λ r. r ≢ refusal.Memory → (r ≡ refusal.BadValue) × ¬ IsInRange config) }
    {
        if !config.is_in_range() {
            return Err(Refusal::BadValue);
        }
        let state = State::new(alloc, &config)?;
        Ok(Tracer {
            alloc,
            config,
            state,
            delivery: Delivery::new(alloc),
            done: 0,
        })
    }

    /// The configuration that it was made with.
    #[inline(always)]
    pub fn config(&self) -> &Config
        ensures { result.now ≡ self.now.config }
    {
        &self.config
    }

    /// Where it allocates.
    pub fn alloc(&self) -> Global {
        self.alloc
    }

    /// The number of commands done.
    pub fn done(&self) -> u64
        ensures { (past : List Request) → IsLive self.now.config past self.now → result ≡ length past }
    {
        self.done
    }

    /// A theorem: some requests led to it. So the clauses say something also to whoever has a tracer, and no list of what was done.
    pub fn was_led(&self)
        ensures { WasLedTo self.now }
    {
        let _done = self.done;
    }

    /// The clock: the number of emissions done.
    pub fn now(&self) -> u64
        ensures { (past : List Request) → IsLive self.now.config past self.now → result ≡ now_of past }
    {
        self.state.clock
    }

    /// The events, in order of declaration.
    #[inline(always)]
    pub fn catalog(&self) -> &Catalog
        ensures { (past : List Request) → IsLive self.now.config past self.now → result.now ≡ declared_events past }
    {
        &self.state.catalog
    }

    /// The event at this index, from 0, in order of declaration; `None` beyond the last one.
    pub fn event(&self, index: usize) -> Option<&EventDef>
        ensures { (past : List Request) → IsLive self.now.config past self.now
            → option_copied result ≡ slice_get (declared_events past) index }
    {
        if index >= self.state.catalog.len() {
            return None;
        }
        Some(event_at(&self.state.catalog, index))
    }

    /// The name of the instance at this index, from 0, in order of creation, not counting the top one; `None` beyond the last one.
    pub fn instance_name(&self, index: usize) -> Option<&[u8]>
        ensures { (past : List Request) → IsLive self.now.config past self.now
            → option_map bytes_now result ≡ slice_get (instance_names past) index }
    {
        made_name(&self.state.instances, index)
    }

    /// The instance with this name, or the top one if no name is given. `Some` exactly if the commands done have it.
    pub fn instance(&self, name: Option<&[u8]>) -> Option<&Instance>
        ensures there { (past : List Request) → IsLive self.now.config past self.now
            → is_some result ≡ is_there (option_map bytes_now name.entry) past }
        ensures stands { (past : List Request) → IsLive self.now.config past self.now → IfSome result (λ instance.
            InstanceStandsFor self.now.config (option_map bytes_now name.entry) past instance.now) }
    {
        let index = self.state.index_of(name)?;
        Some(&self.state.instances[index].instance)
    }

    /// Whether a record waits to be read in the pipe at this path. It is refused as a read of the path with a limit is. This is no command: it takes
    /// no memory and changes nothing.
    pub fn waiting(&self, path: &[u8]) -> Result<bool, Refusal>
        ensures { (past : List Request) → IsLive self.now.config past self.now
            → result ≡ waiting self.now.config past (paths.address_of path.now).instance (paths.address_of path.now).file }
    {
        self.state.waiting(&self.config, path)
    }

    /// The events of which an emission may do more than count the clock, a bit of each: that of event 1, the first declared, is the lowest. A bit is
    /// clear exactly if no instance records the event (events.rst, "Using Event Tracing"), has a hist trigger of it that is not paused, or a snapshot
    /// trigger of it with times left or no limit ("Event triggers"). Filters are not asked. This is no command: it takes no memory and changes nothing.
    pub fn wanted(&self) -> u64
        ensures { (past : List Request) → IsLive self.now.config past self.now → IsMaskAfter past result }
    {
        self.state.wanted()
    }
}

// The name of an instance, if it has one.
fn name_of(named: &Named) -> Option<&[u8]>
    ensures { option_map bytes_now result ≡ named.now.name }
{
    match &named.name {
        Some(name) => Some(name.as_bytes()),
        None => None,
    }
}

// The name of the instance at this index among those after the first.
fn made_name(instances: &[Named], index: usize) -> Option<&[u8]>
    ensures { option_map bytes_now result ≡ option_and_then (λ n. n.name) (slice_get (drop 1 instances.now) index) }
{
    let [_, made @ ..] = instances else {
        return None;
    };
    name_of(made.get(index)?)
}
