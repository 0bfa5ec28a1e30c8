//! What the definitions of the contracts mean. Each function does nothing: its contract is a theorem.

ghost use Rattle.trace_trigger.specs.Laws.{NothingIsBlanks, AttachIsWritten, RemoveIsWritten, HistIsRead, RemoveHistIsRead, HistFaultIsTold, BadTextIsUnwritten, BadTextHasCause, FilterFaultIsMoved};

/// A text says nothing exactly where it has nothing but blanks. It says that a snapshot trigger is to be attached, or that it is to be removed,
/// exactly where it can be written as the grammar says, with a filter of the event if with any. Where it can be written so but its filter is
/// refused, it is refused for the same fault, counted from the start of the whole text. It says that a hist trigger is to be attached, or that
/// one is to be removed, exactly where it begins with `hist:`, or with `!hist:`, and says this trigger; where it begins so and says none, it is
/// refused for the same fault. All other texts are badly written, each for the cause that is told.
pub fn trigger_texts_are_as_written()
    ensures nothing { NothingIsBlanks }
    ensures attach { AttachIsWritten }
    ensures remove { RemoveIsWritten }
    ensures filter { FilterFaultIsMoved }
    ensures hist { HistIsRead }
    ensures remove_hist { RemoveHistIsRead }
    ensures hist_fault { HistFaultIsTold }
    ensures bad { BadTextIsUnwritten }
    ensures cause { BadTextHasCause }
{}
