//! A tracer that keeps no history, compared with a book. The function does nothing: its contract is a theorem.

ghost use Rattle.tracer.specs.LiveLaws.{LegalHistoriesWereDone, HistoriesAreAnsweredAlike, RefusalsAreAlike, LimitsAreAlike};

/// A tracer that keeps no history answers the commands of a book's history as the book did, and any other as the book does, unless the book answers
/// `HistoryFull`. Asked within the limit of that history, it answers as the book does in any case.
pub fn lives_answer_as_books()
    ensures done { LegalHistoriesWereDone }
    ensures histories { HistoriesAreAnsweredAlike }
    ensures refusals { RefusalsAreAlike }
    ensures limits { LimitsAreAlike }
{}
