//! What the definitions of the contracts mean, in the words of the subject (histogram.rst, "hist triggers"). Each function does nothing: its
//! contract is a theorem.

ghost use Rattle.trace_hist.specs.GroupExamples.{HasTable, seven_rows, full_table, table_with_room, rows_of_pairs, table_of_pairs};
ghost use Rattle.trace_hist.specs.Laws.{CountedAreTheRows, StandingIsOfTheTable, TablesAreGrouped};

pub use hist_entries::laws::{each_value_is_in_one_bucket, printed_is_in_print_order};

/// A histogram that stands for a list of rows shows what these come to, and has counted as many as there are. It stands for them as long as its
/// trigger and its table stay, whether or not it is paused or has a row reserved.
pub fn histograms_show_their_rows()
    ensures grouped { TablesAreGrouped }
    ensures stays { StandingIsOfTheTable }
    ensures counted { CountedAreTheRows }
{}

/// The definitions can be computed, and they give rows that were worked by hand the tables beside them: a full one, one with room for each key, and
/// one of two keys and two sums.
pub fn examples_are_grouped()
    ensures full { HasTable 2 1 seven_rows full_table }
    ensures room { HasTable 3 1 seven_rows table_with_room }
    ensures pairs { HasTable 2 2 rows_of_pairs table_of_pairs }
{}
