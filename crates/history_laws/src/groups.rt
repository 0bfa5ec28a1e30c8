//! What the rows that a histogram counted come to (histogram.rst, "hist triggers"). The function does nothing: its contract is theorems.

ghost use Rattle.history_laws.specs.GroupedRows.{RowsAreTold, HitcountsAreHits, SumsAreOfTheirRows, SumsAreOfCountedRows, EntriesStay, EntriesFit, DroppedIsFull, TiesAreByFirstRow};

/// Rows are accounted for. Each was counted into an entry or dropped: Hits and Dropped are together the rows, and the hitcounts sum to Hits. The sums
/// of an entry are those of the rows with its key, and all entries' sums those of the rows that were counted. A key that has an entry keeps it, in its
/// place, whatever rows follow. There are at most as many entries as there is room for, and exactly so many if a row was dropped. Entries that tie by
/// the sort keys are printed in order of their first rows.
pub fn rows_are_accounted_for()
    ensures told { RowsAreTold }
    ensures hitcounts { HitcountsAreHits }
    ensures sums { SumsAreOfTheirRows }
    ensures all_sums { SumsAreOfCountedRows }
    ensures stay { EntriesStay }
    ensures fit { EntriesFit }
    ensures full { DroppedIsFull }
    ensures ties { TiesAreByFirstRow }
{}
