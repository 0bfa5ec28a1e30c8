//! Theorems about histories of requests, newest first. Each function does nothing: its contract is a theorem.

ghost use Rattle.history_laws.specs.AccountedFor.{EmissionsAreAccountedFor, EmissionsAreShownOrCounted, ShownCountsAccountForEmissions};
ghost use Rattle.history_laws.specs.IdleEmissions.{IdleEmissionsLeaveAnswers, IdleEmissionsLeaveReads, IdleEmissionsLeaveWaiting, IdleEmissionsLeaveWants, IdleEmissionsMoveTheClock, IdleEmissionsOnlyTick, IdleEmissionsTakeOnlyRoom, IdleIsWantedByNone};
ghost use Rattle.history_laws.specs.IdleExamples.{ActiveHistsWant, InstancesWant, SharedTablesPause, SwitchesDecide, TimesLeftWant};
ghost use Rattle.history_laws.specs.LegalPasts.{LegalPastsWereDone};
ghost use Rattle.history_laws.specs.ReadOnce.{NothingIsReadTwice, ReadTimesRise};
ghost use Rattle.history_laws.specs.ReadsInParts.{ReadsShowInTurn, ReadsLeaveTheSame, ReadsLeaveAnswers, ReadsLeaveWaiting};
ghost use Rattle.history_laws.specs.SmallPasts.{AreRead, IsEmptied};
ghost use Rattle.history_laws.specs.RingTotals.{RingsCountEmissions, ReadIsWhatPipesShowed, RingsAreAccountedFor, LossesAreTold, LostAddsUp};

/// Emissions are accounted for. As long as nothing empties a ring of a CPU (`>` to a trace file, a number but 1 written to `snapshot`), `entries`,
/// `overrun`, `read` and `dropped` of the CPU, over the instance's live side and the other one, are together the emissions on the CPU that the
/// instance recorded since it was last made; and `read` is the records that its pipes showed. Those of the live side, which `stats` shows, are so
/// alone until a snapshot is taken.
pub fn emissions_are_accounted_for()
    ensures both { EmissionsAreAccountedFor }
    ensures handed_out { EmissionsAreShownOrCounted }
    ensures shown { ShownCountsAccountForEmissions }
{
    rings_count_what_was_done();
}

/// What one ring counts, a CPU's of one side, is what was done since it was new or emptied, whatever was done: its counts are together the emissions
/// recorded in it, its `read` is the records that pipes showed of it, and so these and those that it keeps, overwrote and refused are all of them.
pub fn rings_count_what_was_done()
    ensures recorded { RingsCountEmissions }
    ensures read { ReadIsWhatPipesShowed }
    ensures all { RingsAreAccountedFor }
{
    page_ring::laws::offered_is_puts();
    page_ring::laws::counts_are_of_records();
    page_ring::laws::least_is_read();
    tracer_specification::laws::pipe_reads_consume_what_they_show();
}

/// Nothing is read twice: whatever was done, each timestamp is that of at most one record of a CPU that an instance's pipes showed, whatever was
/// emptied, exchanged or made again between, and the timestamps of those of one ring rise strictly. (Of fewer than 2^64 requests.)
pub fn nothing_is_read_twice()
    ensures once { NothingIsReadTwice }
    ensures rise { ReadTimesRise }
{
    page_ring::laws::least_is_read();
    tracer_specification::laws::pipe_reads_consume_what_they_show();
}

/// Reads of a pipe add up: a read of so many records, and then one of so many others or of all the rest, show in turn what one read of all of them
/// shows, and leave the same rings, those of every instance. Every later answer is the same after the two as after the one, whatever is done then, as
/// long as the history has room, and looks at pipes tell the same.
pub fn reads_add_up()
    ensures shown { ReadsShowInTurn }
    ensures left { ReadsLeaveTheSame }
    ensures later { ReadsLeaveAnswers }
    ensures waiting { ReadsLeaveWaiting }
{
    page_ring::laws::least_is_read();
}

/// Losses add up: the `overrun` of a ring is the lost records of which pipes told since it was new or emptied, and those of which its kept records are
/// going to tell. So where nothing is kept, pipes told of all of them.
pub fn losses_add_up()
    ensures told { LossesAreTold }
    ensures all { LostAddsUp }
{
    page_ring::laws::least_is_read();
    page_ring::laws::counts_are_of_records();
    tracer_specification::laws::pipe_reads_consume_what_they_show();
}

/// A legal history is one of requests that were done, with numbers that fit their types; with a configuration in range they are fewer than 2^64. So
/// what is proved of such requests, which a mounted tracer and the library have too, holds of it.
pub fn legal_histories_were_done()
    ensures { LegalPastsWereDone }
{}

/// An emission of an idle event that is done changes the clock alone, whatever was done before it, and so do any number of them, one after another. An
/// event is idle if no instance that is there wants it: none records it, has a hist trigger of it that is not paused, or a trigger for snapshots with times
/// left; filters are not asked. After the emissions the same events are wanted. Each request, but a read of `stats`, is answered as without them, as long as
/// the history has room, and `stats` shows the same but for the clock; reads consume the same, and looks at pipes tell the same.
pub fn idle_emissions_only_tick()
    ensures idle { IdleIsWantedByNone }
    ensures ticks { IdleEmissionsOnlyTick }
    ensures wants { IdleEmissionsLeaveWants }
    ensures answers { IdleEmissionsLeaveAnswers }
    ensures room { IdleEmissionsTakeOnlyRoom }
    ensures clock { IdleEmissionsMoveTheClock }
    ensures reads { IdleEmissionsLeaveReads }
    ensures waiting { IdleEmissionsLeaveWaiting }
{}

/// Small pasts, worked by hand, leave an event idle: one that is disabled or not traced, whose hist triggers are paused or removed, whose trigger for
/// snapshots has no times left or is removed, or whose instance was removed, be it made again or not. In each neighbouring case it is wanted.
pub fn small_pasts_leave_events_idle()
    ensures switches { SwitchesDecide }
    ensures hists { ActiveHistsWant }
    ensures shared { SharedTablesPause }
    ensures times { TimesLeftWant }
    ensures instances { InstancesWant }
{}

/// Small pasts, worked by hand, come to what stands beside them: after a `> trace` a ring tells of what was recorded since then, and no longer of all
/// that its instance recorded; and two readers of a CPU's ring get a record each.
pub fn small_pasts_come_to_this()
    ensures emptied { IsEmptied }
    ensures read { AreRead }
{}
