//! What reads of a file give, and what a step does. The functions do nothing: their contracts are theorems.

ghost use Rattle.mount_replies.specs.CallExamples.{CallsWakeReaders};
ghost use Rattle.mount_replies.specs.Calls.{ServingIsTakingTurns};
ghost use Rattle.mount_replies.specs.ComputedSteps.{StepsAreComputed};
ghost use Rattle.mount_replies.specs.EntryNumbers.{EntryNumbersDiffer, EntryNumbersName};
ghost use Rattle.mount_replies.specs.MountExamples.{SessionsAreServed};
ghost use Rattle.mount_replies.specs.MountLaws.{CutsDontMatter, LinesEndAtNewlines, NothingLeftIsAll, OthersFlushNothing, ReadsGoOn, StepsDoCommands, StreamsLoseNothing};
ghost use Rattle.mount_replies.specs.PageLaws.{PageCacheGetsPages, PageReadsGiveSome, PageReadsTake, PagesAreReadAsTaken, PagesTakeAllThatFits, PagesTakeSome, PagesTakeWhatWaits};
ghost use Rattle.mount_replies.specs.PageTurns.{CachedReadsKeepNothing, NoPageIsLostOrToldTwice, PagesAreOfOneRead};
ghost use Rattle.mount_replies.specs.ParkedLaws.{ClosedReadsTakeNothing, InterruptedReadsTakeNothing, NoPollWaitsForWhatIsThere, NoReadWaitsForWhatIsThere, NoRecordIsLostOrToldTwice, OldestIsAnsweredFirst, ParkedReadsArmPolls, ReadsAreAnsweredOnce, ReadsArmPolls, TakenTextIsGivenOrKept, TellingDoesOneCommandAtMost};
ghost use Rattle.mount_replies.specs.PastLaws.{ErrorsAreOfInstances, LaterReadsGoOn, PastsAreDone, PastsFitTheirTypes, ReadsEndWithTheText, ReadsShowThePast, RemovedFilesAreMissing, ServedScenesAreSound, SizesAreLengths, StatsShowThePast, ToolReadsShowThePast, WritesAreCommands};
ghost use Rattle.mount_replies.specs.ServedErrors.{LastEightAreKept, LogReadsShowTheLastEight, NotedWritesWereRefused, OpenFilesKeepLines, RefusedWritesAreNoted};
ghost use Rattle.mount_replies.specs.SessionBytes.{SessionIsServed};
ghost use Rattle.mount_replies.specs.SetEvents.{SetEventsAreShown};

/// Reads of a text that go on one after another give together one part of it, and so from the beginning on what one read gives.
pub fn reads_give_one_text()
    ensures together { ReadsGoOn }
    ensures all { NothingLeftIsAll }
{}

/// A request does one command of the tracer at most; a write does one for each of its lines at most.
pub fn requests_do_commands()
    ensures { StepsDoCommands }
{}

/// What is written to an open `inject` that is a stream is its lines, however it is cut into writes, and no byte is lost or asked twice, as long as no line
/// is refused and no rest is too long. At a FLUSH with another lock owner than its last write's nothing is done of what has not ended.
pub fn streams_are_lines()
    ensures cuts { CutsDontMatter }
    ensures whole { StreamsLoseNothing }
    ensures ends { LinesEndAtNewlines }
    ensures others { OthersFlushNothing }
{}

/// Requests are served exactly where turns are taken in which the program calls nothing. So what the theorems below say of all turns, whatever is served and
/// whatever the program calls meanwhile, they say of all that is served.
pub fn serving_is_taking_turns()
    ensures { ServingIsTakingTurns }
{}

/// Each read is answered once: whatever turns were taken, the reads that waited and those that were asked are those that were answered and those that wait
/// still.
pub fn reads_are_answered_once()
    ensures { ReadsAreAnsweredOnce }
{}

/// Of a pipe that stays open nothing that was taken for its reads is lost or given twice. What is kept for them when it is closed is lost.
///
/// `records`: what was kept and what a turn took for it is, in order, what the turn gave of it and what is kept then. A read
/// that was interrupted, or that lost its file, takes nothing; what is told asks one command at most; and what a
/// command took for a read is its reply and what its open file keeps.
pub fn waiting_loses_nothing()
    ensures records { NoRecordIsLostOrToldTwice }
    ensures interrupted { InterruptedReadsTakeNothing }
    ensures closed { ClosedReadsTakeNothing }
    ensures one { TellingDoesOneCommandAtMost }
    ensures text { TakenTextIsGivenOrKept }
{}

/// Of binary pages, too, nothing that was taken for the reads of a file that stays open is lost or given twice, so records go to one of all readers.
///
/// `records`: what was kept of a page and the page that a turn took is, in order, what the turn gave and what is kept then. `cached`: a READ by the page cache
/// gets a whole page, where nothing is left of a page before, and of which nothing is kept; a page of no record; or an error. `taken`: what a turn took is
/// one page, by one read of the CPU's pipe, its only command.
pub fn pages_go_to_one_reader()
    ensures records { NoPageIsLostOrToldTwice }
    ensures cached { CachedReadsKeepNothing }
    ensures taken { PagesAreOfOneRead }
{}

/// Of a CPU's binary pages the page cache gets whole ones (`whole`). A READ of them does no command, or the one that takes as many records of the CPU's pipe
/// as the next page has, and gives the beginning of that page (`take`), which is read, by Linux's rules alone, as these records (`read`). So a page has
/// what a `take` of it would have told, each record once. Where a record waits, whatever was served, and nothing is left of the page before, a READ gives one
/// at least, unless that command is refused, or the page cache has no room for a page (`gives`).
pub fn pages_show_what_is_taken()
    ensures whole { PageCacheGetsPages }
    ensures take { PageReadsTake }
    ensures read { PagesAreReadAsTaken }
    ensures gives { PageReadsGiveSome }
{}

/// What is taken for a page is the longest prefix of the records that wait which is one page (`longest`): all that fit, and one at least where one waits whose
/// data fit a page (`some`), as those of each record that waits do, whatever was served (`waits`).
pub fn pages_take_all_that_fits()
    ensures longest { PagesTakeAllThatFits }
    ensures some { PagesTakeSome }
    ensures waits { PagesTakeWhatWaits }
{}

/// Where something waits, no read does that could take it, and no poll that is to be told of it, whenever nothing is owed, as where a request is answered;
/// but that a pipe ends is told a poll only if its last read was not told so, and of binary pages never.
pub fn no_read_waits_for_what_is_there()
    ensures waits { NoReadWaitsForWhatIsThere }
    ensures polls { NoPollWaitsForWhatIsThere }
{}

/// After a read of a pipe, of lines or of binary pages, that was told data, its end or to come again, a poll that ever asked to be told is to be told
/// again: no edge is lost.
pub fn reads_arm_polls()
    ensures asked { ReadsArmPolls }
    ensures parked { ParkedReadsArmPolls }
{}

/// Of the parked reads that wait no more the oldest is answered first.
pub fn oldest_is_answered_first()
    ensures { OldestIsAnsweredFirst }
{}

/// Whatever was served and called, the commands that the tracer did were done, one after another, so that what history_laws says of such requests holds of them.
pub fn pasts_are_done()
    ensures { PastsAreDone }
{}

/// With a configuration in range their numbers fit their types, whatever bytes were served, if those of the calls do.
pub fn pasts_fit_their_types()
    ensures { PastsFitTheirTypes }
{}

/// A read of a file that is there, is no pipe and is not `inject`, from its beginning, whatever was served before it, is refused, or shows what the file
/// shows after the commands that were done by then, unless it is the page cache's; of `stats` these are the counts that are defined over them. So it is of
/// files that tools ask for, as `set_event`, and `error_log` shows the last eight refused writes that were noted since it was cleared. Later reads go on in
/// that text.
pub fn reads_show_the_past()
    ensures files { ReadsShowThePast }
    ensures stats { StatsShowThePast }
    ensures tools { ToolReadsShowThePast }
    ensures log { LogReadsShowTheLastEight }
    ensures later { LaterReadsGoOn }
    ensures ended { ReadsEndWithTheText }
{}

/// A write to a file of the tracer's own other than `inject` is one command, of what came without a last newline, or, of several lines to the
/// declarations or to a trigger, one for each that isn't blank until one is refused; where the first is, nothing has changed but that it is noted.
pub fn writes_are_commands()
    ensures { WritesAreCommands }
{}

/// A write to `set_event` whose first word is to switch an event that is there, whatever was served before it, switches it: the file shows then a line of
/// each event that is enabled, and of this one just if it was switched on. Or it is refused as the command that switches the event is, or for want of
/// memory.
pub fn set_events_are_shown()
    ensures { SetEventsAreShown }
{}

/// Of an instance that was removed nothing is read, written or noted, and no error is kept.
pub fn removed_instances_are_gone()
    ensures files { RemovedFilesAreMissing }
    ensures errors { ErrorsAreOfInstances }
{}

/// Whatever was served, the log of an instance has its last eight refused writes since it was cleared (`kept`). What is noted, in any state, is a write to a
/// file that was written, opened or closed, and its refusal was told; the caret stands under the byte that is to blame by the refusal. Where each open file
/// keeps a line that has not ended, no command was done, and of `inject` it is the first line that was not (`noted`); so it is whatever was served
/// (`lines`). And each write that was refused is noted, but where memory was refused (`all`): of a file that was written, of an `inject` that was flushed or
/// closed, and of one that was opened to be emptied. What fails before anything is written is none: a handle that is not known, an instance that was
/// removed, a file that can't be opened so.
pub fn logs_have_the_last_eight()
    ensures kept { LastEightAreKept }
    ensures noted { NotedWritesWereRefused }
    ensures lines { OpenFilesKeepLines }
    ensures all { RefusedWritesAreNoted }
{}

/// Whatever was served, all folders and files have names, and no two in a folder have one name, so that lists are look-ups.
pub fn served_scenes_are_sound()
    ensures { ServedScenesAreSound }
{}

/// The size that is told of a file that reads show whole is the length of what it shows then, whatever was served.
pub fn sizes_are_lengths()
    ensures { SizesAreLengths }
{}

/// By the number that a look-up told of a file or folder a request names it, and two look-ups of binary pages tell two numbers, unless 2^17 requests or
/// more lie between them. So none share what the page cache keeps for a number, unless so many lie between them.
pub fn entry_numbers_name_nodes()
    ensures named { EntryNumbersName }
    ensures differ { EntryNumbersDiffer }
{}

/// What is computed of a step where no memory is refused is what it does. By that a shell's session gets these messages: a write that is refused and one
/// that isn't, what they leave in the files, a reader that waits, and look-ups and reads of binary pages where there is no event. Where the program emits
/// meanwhile, what it reads is owed then (`calls`). Such a session is served by these bytes (`bytes`).
pub fn examples_are_computed()
    ensures steps { StepsAreComputed }
    ensures sessions { SessionsAreServed }
    ensures calls { CallsWakeReaders }
    ensures bytes { SessionIsServed }
{}
