//! What the definitions of the contracts mean, in the words of the subject (ring-buffer-design.rst). Each
//! function does nothing: its contract is a theorem.
#![tactic(auto)]

ghost use Rattle.page_ring.specs.Laws.{OfferedIsPuts, LostBySomePut, AcceptedAlways, AcceptedWithoutLoss, DroppedOnly, CutIsGreedy, LeastIsRead, LostIsBetween, ReadingsAreAhead, TakesLeaveTheRest, NothingToRead, KeptWerePut, CountsAreOfRecords, DroppedAreRefused};
ghost use Rattle.page_ring.specs.Rows.{FiveEmissions, SevenEmissions, StatsAfterOverrun, ReadsAfterOverrun, StatsAfterReads, WriterGoesOn, WriterGoesOnWithoutOverwriting, BigIsDropped, SmallerIsKept, BigLosesPage};

/// A ring was offered as many records as were put since it was new or cleared.
pub fn offered_is_puts()
    ensures { OfferedIsPuts }
{}

/// A record is lost where an accepted put came a round of pages or more behind it, and it was
/// neither taken by then nor on the reader page.
pub fn lost_by_some_put()
    ensures { LostBySomePut }
{}

/// With overwriting every record is accepted; without it, exactly where that loses no kept
/// record. A record that isn't accepted changes the count of dropped ones alone.
pub fn accepted_without_loss()
    ensures always { AcceptedAlways }
    ensures without_loss { AcceptedWithoutLoss }
    ensures dropped { DroppedOnly }
{}

/// Of records that each fit a page: a page takes them as long as each finds room on it; one that finds none opens the page after it.
pub fn cut_is_greedy()
    ensures { CutIsGreedy }
{}

/// A consuming read takes the kept record with the least number and tells how many were lost before it; a
/// list of the kept records is what such reads find one after another, and so many reads leave the rest of it.
pub fn least_is_read()
    ensures least { LeastIsRead }
    ensures lost { LostIsBetween }
    ensures ahead { ReadingsAreAhead }
    ensures rest { TakesLeaveTheRest }
    ensures nothing { NothingToRead }
{}

/// What holds of each record that was put holds of each record that is kept.
pub fn kept_were_put()
    ensures { KeptWerePut }
{}

/// The statistics count records: of the accepted ones those that are kept, those that are lost and
/// those that were taken, and each accepted record is just one of these. `dropped` counts the puts
/// that were refused.
pub fn counts_are_of_records()
    ensures records { CountsAreOfRecords }
    ensures dropped { DroppedAreRefused }
{}

/// Worked rows: the definitions, computed for rings of two pages of sixty-four bytes.
pub fn rows_are_as_worked_out()
    ensures five { FiveEmissions }
    ensures seven { SevenEmissions }
    ensures overrun_stats { StatsAfterOverrun }
    ensures overrun_reads { ReadsAfterOverrun }
    ensures read_stats { StatsAfterReads }
    ensures writer { WriterGoesOn }
    ensures writer_without_overwriting { WriterGoesOnWithoutOverwriting }
    ensures dropped { BigIsDropped }
    ensures kept { SmallerIsKept }
    ensures losing { BigLosesPage }
{}
