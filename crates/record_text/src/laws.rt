//! What the definitions of the contracts mean for records and their rows. Each function does nothing: its contract is a theorem.

ghost use Rattle.record_text.specs.Laws.{RecordShowsItsRow, RecordHasItsSize, LineHasOffset, ValueLiesAtOffset, ValueHasItsSize, ProcessHasLine, ProcessLiesAtOffset};

/// The record of a row, with what fills it up, has the line of that row.
pub fn record_shows_its_row()
    ensures { RecordShowsItsRow }
{}

/// The record of a row of an event, filled up with zeros to a multiple of 8, has as many bytes as the event's records take.
pub fn record_has_its_size()
    ensures { RecordHasItsSize }
{}

/// The line of a field in an event's format (not that of `common_pid`, which lies in the head) tells where the field lies: in each record of a row of the event, with what fills it up, the bytes
/// from the line's offset on, as many as its size says, are those of the field's value.
pub fn format_tells_where_fields_lie()
    ensures line { LineHasOffset }
    ensures bytes { ValueLiesAtOffset }
    ensures size { ValueHasItsSize }
{}

/// The line of `common_pid` in a format tells where the process lies: it is the line of a signed number of 32 bits, and in each record the bytes
/// from the line's offset on, as many as its size says, are those of the process in the record's head.
pub fn format_tells_where_the_process_lies()
    ensures line { ProcessHasLine }
    ensures bytes { ProcessLiesAtOffset }
{}
