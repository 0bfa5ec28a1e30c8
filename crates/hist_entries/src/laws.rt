//! What the definitions of the contracts mean, in the words of the subject (histogram.rst, "hist triggers"). Each function does nothing: its
//! contract is a theorem.

ghost use Rattle.hist_entries.specs.Laws.{PrintedIsInPrintOrder, OnePrintOrder, EachLiesInItsBucket, EachLiesInOneBucket, LowestIsGreatestMultiple, PatternIsTwosComplement};

/// What `printed` gives is in print order: the same entries, sorted, and those that tie in order of first occurrence. There is one such list.
pub fn printed_is_in_print_order()
    ensures printed { PrintedIsInPrintOrder }
    ensures only { OnePrintOrder }
{}

/// A number that a field may have lies in one bucket of each modifier, the one that is found for it: itself; k, the least from 0 with the number at
/// most 2^k; or the greatest multiple of N that is at most the number, which is at most N - 1 greater, also below 0. What is shown of a number in
/// hexadecimal digits is its two's complement pattern of 64 bits.
pub fn each_value_is_in_one_bucket()
    ensures lies { EachLiesInItsBucket }
    ensures only { EachLiesInOneBucket }
    ensures greatest { LowestIsGreatestMultiple }
    ensures pattern { PatternIsTwosComplement }
{}
