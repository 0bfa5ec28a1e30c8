//! What the definitions of the contracts mean. Each function does nothing: its contract is a theorem.

ghost use Rattle.trace_filter.specs.FilterExamples.{CausesAreTold};
ghost use Rattle.trace_filter.specs.Laws.{FilterIsAnswered, RefusalIsAnswered, FilterOrRefused, NeverBoth, OneRefusal, CauseIsThere, CauseIsDue, SignsAreTold, FilterIsItsTree, TokensAreAsWritten, GlobsAreAsWritten, ClassIsWritten, OneListOfMembers, ClassHoldsAsWritten, TrimmedHasTheTokens, TrimmedIsTheFilter, TrimmedPassesTheSame, NothingIsLeftToTrim, HoldsAsItsTree, DepthIsOfTheTree, OneTree, FitsAsItsTree, MisfitIsTheFirst};

/// What the function `answer_of` gives is a filter for just the texts that are one, and a fault for just those that are refused for it. Each
/// text is one or the other, not both, and is refused for one fault at most. A text is a filter exactly where it is short and its tokens spell a
/// tree that is not too deep, each of whose tests fits the event.
pub fn filters_are_as_written()
    ensures filter { FilterIsAnswered }
    ensures refused { RefusalIsAnswered }
    ensures either { FilterOrRefused }
    ensures not_both { NeverBoth }
    ensures unique { OneRefusal }
    ensures tree { FilterIsItsTree }
{}

/// The cause that a fault of syntax tells is the one at its offset, by the last token before it. Where the syntax is wrong, the grammar takes the
/// tokens before the offset one by one, and just what the cause names is due after them. It is `JointAfterSigns` exactly if the last of them is a
/// value without quotes that has only bytes of operators.
pub fn causes_are_of_the_grammar()
    ensures told { CauseIsThere }
    ensures due { CauseIsDue }
    ensures signs { SignsAreTold }
{}

/// The worked examples, computed: strings that are no filter for their syntax, with the offset and the cause told.
pub fn examples_are_told()
    ensures { CausesAreTold }
{}

/// Each text can be written of blanks, tokens and bytes where no token begins, and however it is, its tokens and their offsets are those that
/// these mean.
pub fn tokens_are_as_written()
    ensures { TokensAreAsWritten }
{}

/// Each pattern can be written of `*`, `?`, classes and bytes that stand for themselves, and however it is, its parts are those that
/// these mean.
pub fn globs_are_as_written()
    ensures { GlobsAreAsWritten }
{}

/// The bytes between the brackets of a class, without the `!` that negates, can be written of single bytes and ranges in one way, and only in
/// one. The class holds the bytes that these have, and a negated one all others.
pub fn classes_are_as_written()
    ensures written { ClassIsWritten }
    ensures unique { OneListOfMembers }
    ensures holds { ClassHoldsAsWritten }
{}

/// A text without the blanks at both ends has the tokens of the text as written, at shifted offsets, so it is the same filter.
pub fn trimming_keeps_filters()
    ensures tokens { TrimmedHasTheTokens }
    ensures filter { TrimmedIsTheFilter }
    ensures passes { TrimmedPassesTheSame }
    ensures once { NothingIsLeftToTrim }
{}

/// For a filter of an event and an emission of a row of that event, the one function is true exactly where some tree that the text spells
/// holds.
pub fn filters_hold_as_their_trees()
    ensures { HoldsAsItsTree }
{}

/// How deep a text is nested, by what is open at each of its tokens, is the depth of the tree that its tokens spell.
pub fn depth_is_of_the_tree()
    ensures { DepthIsOfTheTree }
{}

/// Tokens spell one tree at most: no two trees of the grammar are spelled alike.
pub fn trees_are_unique()
    ensures { OneTree }
{}

/// A text in the grammar fits an event exactly where each test of its tree names a field of the event, or `common_pid` or `common_cpu`, with
/// an operator that this takes and a value that fits it. Where one doesn't, the fault told is that of the first such test from the left, at its name, its
/// operator or its value.
pub fn filters_fit_as_their_trees()
    ensures fits { FitsAsItsTree }
    ensures first { MisfitIsTheFirst }
{}
