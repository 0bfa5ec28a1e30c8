//! The pipes that parked reads wait for, so that an emission by the program costs a look at each pipe, and not at each read.
//!
//! Calls leave open files and parked reads alone. So what a watch says of these (`Covers`) stays true until a request is served or a reply is told. As long
//! as each of its pipes is dry, and its instance records any as it did, no read is due.
//!
//! Mostly not even the pipes are looked at: where nothing is owed, an emission of an event that no instance of the pipes wants makes nothing owed. Which
//! events these are is asked once for each after a command (`wanted_events.rt`).

ghost use Rattle.std.specs.Prelude.{◌≡◌, ◌≤◌, All, IsTrue, IfSome, List, Some, false, is_some, slice_index_or};
ghost use Rattle.std.specs.List.{list_any};
ghost use Rattle.trace_command.specs.Requests.{Request};
ghost use Rattle.tracer_specification.specs.Settings.{declared_events};
ghost use Rattle.tracer.specs.Lives.{most_done};
ghost use Rattle.tracer_state.specs.ValueEmissions.{emission_by};
ghost use Rattle.mount_replies.specs.Calls.{IsCommanded, answer_of};
ghost use Rattle.mount_replies.specs.Mounted.{HasLedTo, IsMounted, past_after, service_of, terms_of};
ghost use Rattle.mount_replies.specs.Owed.{owed};
ghost use Rattle.mount_replies.specs.Services.{has_wakeup};
ghost use Rattle.mount_replies.specs.Watches.{AreKnown, Covers, IsUnwanted, IsUnwantedBy, IsWatched, WaitsIn};
ghost use Rattle.mount_replies.specs.declared.wanted_events.Wanted.TheVariants.{Nowhere, Unknown};
ghost use Rattle.mount_replies.specs.private.DryPipes.{AreDryNow, IsDryNow};

use crate::calls::put;
use crate::dry_pipes::{DryPipe, DryPipes};
use crate::mount::Mount;
use crate::open_file::OpenFile;
use crate::parked::Parked;
use crate::wanted_events::{Wanted, WantedEvents};
use std::marker::Model;
use trace_command::{Refusal, Reply};
use tracer_state::ValuesEmission;

/// The pipes that parked reads wait for, at most eight, and what is known of the events that their instances want.
#[derive(Drop)]
pub struct Watch {
    pipes: DryPipes,
    events: WantedEvents,
}

impl Model for Watch {
    ghost use Rattle.mount_replies.specs.Watches.{WatchSeen};

    ghost Value = { WatchSeen };

    ghost view = { λ w. record { slots = w.pipes; events = w.events } };
}

impl Watch {
    /// After a command, which may have changed what the instances of its pipes want: nothing is known of that.
    pub fn forget_events(&mut self)
        ensures slots { self.new.slots ≡ self.old.slots }
        ensures events { All (λ wanted. wanted ≡ Unknown) self.new.events }
    {
        self.events = WantedEvents::new();
    }
}

// Whether a read of an open file waits as long as one of these pipes is dry.
fn waits_in(file: &OpenFile, pipes: &DryPipes) -> bool
    ensures { IsTrue result → WaitsIn pipes.now file.now }
{
    if !file.is_used_up() {
        return false;
    }
    match pipes.tracing_of(file.owner(), file.file()) {
        Some(tracing) => tracing || !file.has_read(),
        None => false,
    }
}

impl Mount {
    // Whether a parked read waits as long as one of these pipes is dry.
    fn is_watched(&self, read: &Parked, pipes: &DryPipes) -> bool
        ensures { IsTrue result → IsWatched self.now.files pipes.now read.now }
    {
        if read.interrupted {
            return false;
        }
        match self.files.get(read.handle) {
            Some(file) => waits_in(file, pipes),
            None => false,
        }
    }

    // Whether each parked read waits for one of these pipes.
    fn is_covered(&self, pipes: &DryPipes) -> bool
        ensures { IsTrue result → Covers self.now.files self.now.parked pipes.now }
    {
        for index in 0..self.parked.len() {
            if !self.is_watched(&self.parked[index], pipes) {
                return false;
            }
        }
        true
    }

    // The pipes of the parked reads, or of those before the first that is due.
    fn dry_pipes(&self) -> DryPipes {
        let mut pipes = DryPipes::new();
        for index in 0..self.parked.len() {
            if self.is_due(&self.parked[index], &mut pipes) {
                return pipes;
            }
        }
        pipes
    }

    /// The pipes that the parked reads wait for, if any waits, none is due, no poll is to be told and there are not more than eight.
    pub fn watch(&self) -> Option<Watch>
        ensures covers { IfSome result (λ watch. Covers self.now.files self.now.parked watch.slots) }
        ensures events { IfSome result (λ watch. All (λ wanted. wanted ≡ Unknown) watch.events) }
    {
        if self.parked.is_empty() || self.files.may_wake() {
            return None;
        }
        let pipes = self.dry_pipes();
        if self.is_covered(&pipes) {
            Some(Watch {
                pipes,
                events: WantedEvents::new(),
            })
        } else {
            None
        }
    }

    /// As `call_values_within`, where the parked reads wait for these pipes: as long as each is dry as it was, no read is looked at, and no pipe either for an
    /// event that no instance of one wants.
    #[inline(never)]
    pub fn call_values_watched(
        &mut self,
        limit: u64,
        emission: &ValuesEmission<'_>,
        watch: &mut Watch,
        answer: &mut Result<Reply, Refusal>,
    ) -> bool
        requires limit { limit ≤ most_done }
        requires covers { Covers self.old.files self.old.parked watch.old.slots }
        ensures commanded { (past : List Request) → IsMounted past self.old → AreKnown self.old.live.config.cpus past watch.old
            → IsCommanded limit past self.old self.new (emission_by (declared_events past) emission.now) (answer_of result answer.new) }
        ensures slots { watch.new.slots ≡ watch.old.slots }
        ensures known { (past : List Request) → IsMounted past self.old → AreKnown self.old.live.config.cpus past watch.old
            → AreKnown self.old.live.config.cpus (past_after (answer_of result answer.new) (emission_by (declared_events past) emission.now) past) watch.new }
    {
        let given = self.live.ask_values_within(
            limit,
            emission.event,
            emission.cpu,
            emission.pid,
            emission.values,
        );
        let is_done = put(answer, given);
        if self.stays_quiet(emission.event, watch) {
            return is_done;
        }
        self.look_at_watched(emission.event, watch);
        is_done
    }

    // Whether an emission of the event of this number makes nothing owed: nothing was, no poll is to be told, and no instance of these pipes wants the event.
    #[inline(always)]
    fn stays_quiet(&self, number: u32, watch: &Watch) -> bool
        ensures owes { IsTrue result → self.now.owes ≡ false }
        ensures polls { IsTrue result → list_any has_wakeup self.now.files ≡ false }
        ensures unwanted { IsTrue result → slice_index_or watch.now.events number Unknown ≡ Nowhere }
    {
        !self.owes && !self.files.may_wake() && matches!(watch.events.get(number), Wanted::Nowhere)
    }

    // Works out whether something is owed after an emission of the event of this number, where the parked reads wait for these pipes.
    fn look_at_watched(&mut self, number: u32, watch: &mut Watch)
        requires covers { Covers self.old.files self.old.parked watch.old.slots }
        ensures rest { self.new ≡ record self.old { owes = self.new.owes } }
        ensures owes { (past : List Request) → HasLedTo past self.old
            → self.new.owes ≡ is_some (owed (terms_of self.old) (service_of past self.old)) }
        ensures slots { watch.new.slots ≡ watch.old.slots }
        ensures known { (past : List Request) → HasLedTo past self.old → AreKnown self.old.live.config.cpus past watch.old
            → AreKnown self.old.live.config.cpus past watch.new }
    {
        if !self.files.may_wake() && self.are_dry(watch.pipes.slots()) {
            self.owes = false;
            self.ask_wanted(number, watch);
            return;
        }
        self.look_for_owed();
    }

    // Asks whether an instance of these pipes wants the event of this number, if that is not known.
    fn ask_wanted(&self, number: u32, watch: &mut Watch)
        ensures slots { watch.new.slots ≡ watch.old.slots }
        ensures known { (past : List Request) → HasLedTo past self.now → AreKnown self.now.live.config.cpus past watch.old
            → AreKnown self.now.live.config.cpus past watch.new }
    {
        if !matches!(watch.events.get(number), Wanted::Unknown) {
            return;
        }
        let wanted = self.wanted_by(watch.pipes.slots(), number);
        watch.events.note(number, wanted);
    }

    // Whether an instance of the pipes of these slots wants the event of this number.
    fn wanted_by(&self, slots: &[Option<DryPipe>], number: u32) -> Wanted
        ensures { (past : List Request) → HasLedTo past self.now → result ≡ Nowhere
            → IsUnwanted self.now.live.config.cpus past slots.now number }
    {
        for index in 0..slots.len() {
            if self.may_want(&slots[index], number) {
                return Wanted::Somewhere;
            }
        }
        Wanted::Nowhere
    }

    // Whether that of one slot may want it.
    fn may_want(&self, slot: &Option<DryPipe>, number: u32) -> bool
        ensures { (past : List Request) → HasLedTo past self.now → result ≡ false
            → IsUnwantedBy self.now.live.config.cpus past number slot.now }
    {
        match slot {
            Some(pipe) => self.pipe_may_want(pipe, number),
            None => false,
        }
    }

    // Whether the instance of a pipe may want it.
    fn pipe_may_want(&self, pipe: &DryPipe, number: u32) -> bool
        ensures { (past : List Request) → HasLedTo past self.now → result ≡ false
            → IsUnwantedBy self.now.live.config.cpus past number (Some pipe.now) }
    {
        let Some(instance) = self.instance_of(pipe.owner) else {
            return true;
        };
        if number == 0 {
            return true;
        }
        instance.wants(number as usize - 1)
    }

    // Whether no record waits in the pipe of any of these slots, and its instance records any as the slot says.
    fn are_dry(&self, slots: &[Option<DryPipe>]) -> bool
        ensures { IsTrue result → AreDryNow self.now slots.now }
    {
        for index in 0..slots.len() {
            if !self.is_dry_now(&slots[index]) {
                return false;
            }
        }
        true
    }

    // The same of one slot.
    fn is_dry_now(&self, slot: &Option<DryPipe>) -> bool
        ensures { (past : List Request) → HasLedTo past self.now → IsTrue result → IfSome slot.now (IsDryNow past self.now) }
    {
        match slot {
            Some(pipe) => match self.dry_pipe(pipe.owner, pipe.file) {
                Some(tracing) => tracing == pipe.tracing,
                None => false,
            },
            None => true,
        }
    }
}
