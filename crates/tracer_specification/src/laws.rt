//! What the words of the answers mean after requests that were done, what they give worked scripts, and what callers' trails come to. Requests stand
//! newest first, those of a book reversed; in trails entries stand as in a book. Each function does nothing: its contract is a theorem.

ghost use Rattle.std.specs.Prelude.{[]};
ghost use Rattle.tracer_specification.specs.Examples.{small, IsAnswered, merged_reads, instances, instance_made_again, recording_off, lost_line_after_overrun, precedence_and_kept_filter};
ghost use Rattle.tracer_specification.specs.SnapshotExamples.{two_snapshots, counted_trigger, unlimited_trigger, removed_trigger, trigger_of_disabled_event, refused_triggers, sides_of_an_instance};
ghost use Rattle.tracer_specification.specs.HistTriggerExamples.{shown_triggers, refused_hist_triggers, paused_and_cleared, counted_unrecorded, histograms_of_an_instance, removed_hist_triggers, hist_triggers_anew, four_triggers, triggers_of_two_events, shared_table, table_of_one_event, refused_by_two_rules};
ghost use Rattle.tracer_specification.specs.SettingExamples.{switched, filters_of_all, options_of_an_instance, recorded_by_its_settings, emptied, refused_in_order, eight_instances, short, full_history};
ghost use Rattle.tracer_specification.specs.WaitingExamples.{AreTold, looks};
ghost use Rattle.tracer_specification.specs.Laws.{FiltersAreOfTheirEvents, FiltersHoldAsTheirTrees, RecordsShowTheirRows, KeptRecordsShowEmissions, KeptSpareRecordsShowEmissions, SnapshotsSwapTheSides, TriggersSwapTheSides, SnapshotsStay, TriggersHaveTheirSpare, SparesBeginEmpty, PipeReadsConsumeWhatTheyShow, WholePipeReadsConsumeWhatTheyShow, AtMostFourTriggers, HistTriggersDiffer, HistTriggersAreInOrder, HistTriggersAreThoseAttached, LooksTellWhatReadsTake, CpuLooksTellWhatReadsTake, LooksAreRefusedAsReads};
ghost use Rattle.tracer_specification.specs.TableLaws.{CountedRowsAreOfEmissions, EmissionsAreCountedOnce, EmissionsAreCounted, UnmetEmissionsAreNotCounted, NamedTablesAreUnions, OnlyAskingPauses, PausesCountNothing, ClearsLeaveNone, OtherRequestsLeaveHistTriggers, OtherRequestsLeaveTables, TablesBeginEmpty, TablesAreAskedThroughEach, JoiningPausesOrLeaves, OtherTriggersLeaveTables, TablesGoWithTheirLast, NamedTablesAreShared, SharedTablesFit, SharedTablesAreShownAlike};
ghost use Rattle.tracer_specification.specs.TrailLaws.{TrailsHoldDoneCallsOnce, EachCallIsAnswered, LoneCallersAreAnswered, WornIsNoAnswer, MemoryIsNoAnswer};
ghost use Rattle.tracer_specification.specs.TrailExamples.{FirstMakes, SecondMakes, ExactlyOneMakes};

/// After requests that were done the filter that an event has in an instance is one of the event, and it holds of an emission as the trees of its
/// text do.
pub fn filters_are_of_their_events()
    ensures standing { FiltersAreOfTheirEvents }
    ensures holding { FiltersHoldAsTheirTrees }
{}

/// With a configuration in range and numbers that fit their types: the line of an emission's record shows the row that was emitted, then and later.
pub fn records_show_their_rows()
    ensures { RecordsShowTheirRows }
{}

/// With a configuration in range and numbers that fit their types: each record that a CPU's ring of an instance keeps after requests that were done, on
/// the live side or on the other, has the line of an emission among them: one on that CPU, since the instance was made, which the instance recorded:
/// recording was on, the event was enabled and its filter held.
pub fn kept_records_show_emissions()
    ensures live { KeptRecordsShowEmissions }
    ensures spare { KeptSpareRecordsShowEmissions }
{
    page_ring::laws::kept_were_put();
}

/// A snapshot exchanges the two sides of an instance with all of their records and counts, whether 1 is written to `snapshot` or an emission
/// makes a trigger act: nothing is copied or emptied. What an emission brings goes to the side that was live before it. Nothing but these
/// exchanges, a number that is written to `snapshot` and the making of the instance changes the other side.
pub fn exchanges_swap_the_sides()
    ensures written { SnapshotsSwapTheSides }
    ensures triggered { TriggersSwapTheSides }
    ensures stay { SnapshotsStay }
{}

/// After requests that were done an instance has a spare while one of its events has a trigger for snapshots, and as long as it has none the other
/// side is empty: a spare that is made begins as new.
pub fn spares_are_there_and_begin_empty()
    ensures armed { TriggersHaveTheirSpare }
    ensures empty { SparesBeginEmpty }
{}

/// A pipe read consumes the records that it shows and no others, on each CPU, whether it is of one CPU's pipe or of the pipe of all.
pub fn pipe_reads_consume_what_they_show()
    ensures cpu { PipeReadsConsumeWhatTheyShow }
    ensures all { WholePipeReadsConsumeWhatTheyShow }
{
    trace_buffer::laws::reads_consume_what_they_take();
}

/// A look at a pipe tells whether a read of it takes a record, whether it is of one CPU's pipe or of the pipe of all; and it is refused as a read
/// with a limit is, but never since a history is full.
pub fn looks_tell_what_reads_take()
    ensures all { LooksTellWhatReadsTake }
    ensures cpu { CpuLooksTellWhatReadsTake }
    ensures refused { LooksAreRefusedAsReads }
{
    trace_buffer::laws::waiting_is_read();
    trace_buffer::laws::reads_take_so_many();
}

/// After requests that were done an event has at most four triggers in an instance. Its hist triggers are those that were attached and not taken away
/// since; no two of them say the same, and they are in the order in which they were attached.
pub fn triggers_are_few_and_differ()
    ensures few { AtMostFourTriggers }
    ensures attached { HistTriggersAreThoseAttached }
    ensures differ { HistTriggersDiffer }
    ensures order { HistTriggersAreInOrder }
{}

/// Hist triggers of an instance share a table if they have one name, and only then. After requests that were done those that share one fit each other
/// and show it alike. A table is made with its first trigger, with no row, and goes with its last.
pub fn named_tables_are_shared()
    ensures shared { NamedTablesAreShared }
    ensures fit { SharedTablesFit }
    ensures alike { SharedTablesAreShownAlike }
    ensures empty { TablesBeginEmpty }
    ensures gone { TablesGoWithTheirLast }
{}

/// A table counts the rows of just the emissions that its triggers meet, those of their events of which their own filters hold, since it was made and
/// last emptied and while it was not paused, each once for every trigger that meets it, in the order in which they came. Whether they are recorded
/// doesn't matter. From the whole history, that is the rows of the emissions that any trigger of its name met.
pub fn emissions_are_counted()
    ensures rows { CountedRowsAreOfEmissions }
    ensures once { EmissionsAreCountedOnce }
    ensures counted { EmissionsAreCounted }
    ensures unmet { UnmetEmissionsAreNotCounted }
    ensures unions { NamedTablesAreUnions }
{}

/// What is asked of any of its triggers is asked of a table, and a trigger that joins it pauses it if it says `pause`, and else leaves it. A table stays
/// paused, or not, until it is asked for something; a pause counts nothing; `clear` leaves no row and ends no pause; and while the instance is there only
/// emissions, and what is written to the trigger files of its triggers' events, reach a table: not what is written there for other triggers.
pub fn only_their_own_files_change_tables()
    ensures asked { TablesAreAskedThroughEach }
    ensures joined { JoiningPausesOrLeaves }
    ensures state { OnlyAskingPauses }
    ensures pause { PausesCountNothing }
    ensures clear { ClearsLeaveNone }
    ensures hists { OtherRequestsLeaveHistTriggers }
    ensures tables { OtherRequestsLeaveTables }
    ensures others { OtherTriggersLeaveTables }
{}

/// The definitions can be computed, and they give worked scripts the answers that stand beside them.
pub fn examples_are_answered()
    ensures merged { IsAnswered (small 2) merged_reads }
    ensures instances { IsAnswered (small 1) instances }
    ensures made_again { IsAnswered (small 1) instance_made_again }
    ensures recording { IsAnswered (small 1) recording_off }
    ensures lost { IsAnswered (small 1) lost_line_after_overrun }
    ensures filters { IsAnswered (small 1) precedence_and_kept_filter }
    ensures snapshots { IsAnswered (small 1) two_snapshots }
    ensures counted { IsAnswered (small 1) counted_trigger }
    ensures unlimited { IsAnswered (small 1) unlimited_trigger }
    ensures removed { IsAnswered (small 1) removed_trigger }
    ensures disabled { IsAnswered (small 1) trigger_of_disabled_event }
    ensures refused { IsAnswered (small 1) refused_triggers }
    ensures sides { IsAnswered (small 1) sides_of_an_instance }
{}

/// They also give these answers to worked scripts of hist triggers.
pub fn hist_examples_are_answered()
    ensures shown { IsAnswered (small 1) shown_triggers }
    ensures refused { IsAnswered (small 1) refused_hist_triggers }
    ensures paused { IsAnswered (small 1) paused_and_cleared }
    ensures unrecorded { IsAnswered (small 1) counted_unrecorded }
    ensures instance { IsAnswered (small 1) histograms_of_an_instance }
    ensures removed { IsAnswered (small 1) removed_hist_triggers }
    ensures anew { IsAnswered (small 1) hist_triggers_anew }
    ensures four { IsAnswered (small 1) four_triggers }
    ensures events { IsAnswered (small 1) triggers_of_two_events }
    ensures table { IsAnswered (small 1) shared_table }
    ensures twice { IsAnswered (small 1) table_of_one_event }
    ensures order { IsAnswered (small 1) refused_by_two_rules }
{}

/// Likewise to worked scripts of settings and refusals.
pub fn setting_examples_are_answered()
    ensures switches { IsAnswered (small 1) switched }
    ensures filters { IsAnswered (small 1) filters_of_all }
    ensures options { IsAnswered (small 1) options_of_an_instance }
    ensures recorded { IsAnswered (small 1) recorded_by_its_settings }
    ensures emptied { IsAnswered (small 2) emptied }
    ensures refused { IsAnswered (small 1) refused_in_order }
    ensures instances { IsAnswered (small 1) eight_instances }
    ensures full { IsAnswered short full_history }
{}

/// And to a worked script with looks at pipes: each command is done, and each look tells what stands beside it.
pub fn waiting_example_is_told()
    ensures { AreTold (small 2) [] looks }
{}

/// Each call of a caller that was done stands once in the history, in the order in which the caller asked: its entries are of just the commands
/// of its trail that were done.
pub fn trails_hold_done_calls_once()
    ensures { TrailsHoldDoneCallsOnce }
{}

/// The replies of a trail are answers. Each call, done or refused, was answered by a history between the caller's done calls; and a caller who is
/// alone is answered as a script is.
pub fn trails_hold_answers()
    ensures each { EachCallIsAnswered }
    ensures lone { LoneCallersAreAnswered }
{}

/// Two callers make one instance side by side: it is there already for exactly one of them, whichever.
pub fn exactly_one_makes_an_instance()
    ensures first { FirstMakes }
    ensures second { SecondMakes }
    ensures no_other { ExactlyOneMakes }
{}

/// No history answers that all tickets are drawn: where a reply is Worn, it is the lock's own.
pub fn worn_is_no_answer()
    ensures { WornIsNoAnswer }
{}

/// And none answers that memory was refused: where a reply is Memory, it is the program's.
pub fn memory_is_no_answer()
    ensures { MemoryIsNoAnswer }
{}
