//! What is kept, and where the caret stands. The functions do nothing: their contracts are theorems.

ghost use Rattle.error_log.specs.ErrorExamples.{Examples, LogExamples};
ghost use Rattle.error_log.specs.LogLaws.{CaretStandsUnder, KeepsLastEight};

/// The log of an instance has the last eight of all errors that were noted of it since it was cleared.
pub fn keeps_last_eight()
    ensures { KeepsLastEight }
{}

/// The caret stands under the byte that is to blame, whatever was written.
pub fn caret_stands_under()
    ensures { CaretStandsUnder }
{}

/// Worked examples.
pub fn examples_are_shown()
    ensures lines { Examples }
    ensures logs { LogExamples }
{}
