//! What the definitions of the contracts come to. The function does nothing: its contract is a theorem.

ghost use Rattle.trace_text.specs.HistTextExamples.{IsShown, sums_and_ties, two_sort_keys, sorted_by_sums, full_table, powers, ranges, hexadecimals};

/// The definitions can be computed, and they give each worked histogram the lines beside it: entries and sums, their order, a full table, and buckets.
pub fn hist_examples_are_shown()
    ensures sums { IsShown sums_and_ties }
    ensures keys { IsShown two_sort_keys }
    ensures by_sums { IsShown sorted_by_sums }
    ensures full { IsShown full_table }
    ensures powers { IsShown powers }
    ensures ranges { IsShown ranges }
    ensures hex { IsShown hexadecimals }
{}
