//! What the files of instances show, taken together. Each function does nothing: its contract is a theorem.

ghost use Rattle.history_laws.specs.CpuSums.{ShownAreAllEntries, WaitingAreAllEntries, HeadHasTheSums, CpuHeadHasItsCounts, SnapshotHeadHasTheSums};
ghost use Rattle.history_laws.specs.HistogramRows.{HistogramsAreAccountedFor, HistogramsKeepTheirEntries};
ghost use Rattle.history_laws.specs.Looks.{LookingChangesNothing, LookingTakesOnlyRoom, LookingLeavesWaiting, LooksCanBeDoneWithout, LooksCanBeLeftOut};
ghost use Rattle.history_laws.specs.OneOrder.{KeptTimesRise, PipesReadTheTrace, TraceAndPipeShowOneOrder, EachCpuKeepsItsOrder, OrdersAreOne};
ghost use Rattle.history_laws.specs.TriggerTrees.{SnapshotTriggersMeetAsTheirTrees, HistTriggersMeetAsTheirTrees, EmissionsHaveTheirRows};

/// The whole is the sum of the CPUs. `trace` shows as many records as the CPUs' `entries` are together, and as many wait in the pipe of all CPUs. Its
/// head has the sums of what the CPUs' `stats` show, and so has that of `snapshot`, of the other side; the head of a CPU's `trace` has what the CPU's
/// own `stats` shows.
pub fn the_whole_is_the_sum()
    ensures shown { ShownAreAllEntries }
    ensures waiting { WaitingAreAllEntries }
    ensures head { HeadHasTheSums }
    ensures cpu { CpuHeadHasItsCounts }
    ensures snapshot { SnapshotHeadHasTheSums }
{}

/// `trace` and `trace_pipe` show one order. Whatever was done, by fewer than 2^64 requests, the timestamps that a ring keeps rise strictly, on either
/// side; `cat trace_pipe` takes the records that `cat trace` shows, in the same order, and a read with a limit the first of them; and those of
/// a CPU are in the order of its ring. Reads of whatever rings take the merged order if the timestamps of none fall.
pub fn trace_and_pipe_show_one_order()
    ensures rise { KeptTimesRise }
    ensures reads { PipesReadTheTrace }
    ensures texts { TraceAndPipeShowOneOrder }
    ensures cpus { EachCpuKeepsItsOrder }
    ensures orders { OrdersAreOne }
{
    page_ring::laws::least_is_read();
    tracer_specification::laws::pipe_reads_consume_what_they_show();
}

/// Triggers meet as their trees. After requests that were done each trigger that an event has, for snapshots or of a histogram, was attached by a
/// string written to the event's trigger file, and it meets just the emissions of which a tree of that string's condition holds, or all where it has
/// none. Each emission has the event of its name, and a row of it, then and later.
pub fn triggers_meet_as_their_trees()
    ensures snapshot { SnapshotTriggersMeetAsTheirTrees }
    ensures hist { HistTriggersMeetAsTheirTrees }
    ensures rows { EmissionsHaveTheirRows }
{
    trace_filter::laws::filters_hold_as_their_trees();
    trace_trigger::laws::trigger_texts_are_as_written();
    trace_trigger::hist_laws::hist_triggers_are_as_written();
    tracer_specification::laws::triggers_are_few_and_differ();
}

/// Looking changes nothing. A read of a file that is no pipe leaves the answer to every later request as it is without the read, whatever was done
/// before and after, as long as the history has room; and looks at pipes tell the same. Requests that were done were done without it, and a legal
/// history is legal without it.
pub fn looking_changes_nothing()
    ensures later { LookingChangesNothing }
    ensures room { LookingTakesOnlyRoom }
    ensures waiting { LookingLeavesWaiting }
    ensures done { LooksCanBeDoneWithout }
    ensures legal { LooksCanBeLeftOut }
{}

/// Histograms are accounted for, whatever was done: Hits and Dropped are together the rows that the trigger's table counted since it was made or last
/// emptied, and the hitcounts are together Hits; an entry's sums are those of the rows with its key, and all entries' sums those of the rows that were
/// not dropped; a row is dropped only where there is no room for another entry; entries that tie are printed in order of their first rows. As long as
/// nobody asks for the table to be emptied, a key that has an entry keeps it, in its place.
pub fn histograms_are_accounted_for()
    ensures rows { HistogramsAreAccountedFor }
    ensures stay { HistogramsKeepTheirEntries }
{
    crate::groups::rows_are_accounted_for();
}
