//! What the definitions of hist triggers' texts mean. Each function does nothing: its contract is a theorem.

ghost use Rattle.trace_trigger.specs.HistLaws.{OkIsWritten, SyntaxIsLeftmost, LeftmostHasCause, CauseIsOfGrammar, SyntaxIsUnwritten, RefusalIsAsWritten, RefusalIsNoBadText};
ghost use Rattle.trace_trigger.specs.SameLaws.{SameIsDecided};
ghost use Rattle.trace_trigger.specs.FittingLaws.{FittingSpecsCountAlike, FittingSpecsOfOneEventReadAlike, FittingIsDecided, FittingIsReflexive, FittingIsSymmetric, FittingIsTransitive};
ghost use Rattle.trace_trigger.specs.HistExamples.{tick, move, AreRead, accepted as accepted_of_tick, accepted_of_move, wrong_attributes, wrong_table_names, wrong_items, wrong_modifiers, too_many, wrong_names, wrong_keys_of_move, wrong_values_of_move};

/// A string says this of a hist trigger of an event exactly if it can be written so: attributes that each set something, in any order, each at
/// most once, the keys always; within the limits, with names of the event, and with a filter of it, if with any. It is refused for its syntax
/// exactly if it cannot be written so, whatever the event, at the leftmost offset where it is wrong: an attribute, a table's name, an item of a
/// list, the first word's end without keys, or what follows the word. The cause told is that of an element that is wrong there. If it can be written
/// so, it is refused exactly for the first cause that there is: too many names, the first key that is none or a string with a modifier, the first
/// value that is none or a string, the size, the filter. It is never refused as a string that is no trigger's.
pub fn hist_triggers_are_as_written()
    ensures ok { OkIsWritten }
    ensures leftmost { SyntaxIsLeftmost }
    ensures caused { LeftmostHasCause }
    ensures cause { CauseIsOfGrammar }
    ensures unwritten { SyntaxIsUnwritten }
    ensures refused { RefusalIsAsWritten }
    ensures known { RefusalIsNoBadText }
{}

/// The function by which answers are defined says of two hist triggers that they are the same exactly if their names, keys, values, sort keys and
/// filters are.
pub fn sameness_is_decided()
    ensures { SameIsDecided }
{}

/// Of hist triggers that fit one another, perhaps of two events, the keys have the same modifiers, there are as many values, the sort keys mean the
/// same, and the size is the same. If both are of one event, their keys and their values are the same and mean the same. Each fits itself, it fits
/// those that fit it, and it fits what those fit.
pub fn fitting_triggers_count_alike()
    ensures alike { FittingSpecsCountAlike }
    ensures of_one_event { FittingSpecsOfOneEventReadAlike }
    ensures decided { FittingIsDecided }
    ensures reflexive { FittingIsReflexive }
    ensures symmetric { FittingIsSymmetric }
    ensures transitive { FittingIsTransitive }
{}

/// The definitions can be computed, and they give each worked string what is written beside it.
pub fn examples_are_read()
    ensures accepted { AreRead tick accepted_of_tick }
    ensures accepted_of_move { AreRead move accepted_of_move }
    ensures attributes { AreRead tick wrong_attributes }
    ensures table_names { AreRead tick wrong_table_names }
    ensures items { AreRead tick wrong_items }
    ensures modifiers { AreRead tick wrong_modifiers }
    ensures many { AreRead tick too_many }
    ensures names { AreRead tick wrong_names }
    ensures keys { AreRead move wrong_keys_of_move }
    ensures values { AreRead move wrong_values_of_move }
{}
