//! What the definitions say, as theorems that speak of no program.

ghost use Rattle.trace_record.specs.Laws.{TimestampIsHeads};

/// A record that begins with a head was written at that head's time.
pub fn timestamp_is_heads()
    ensures { TimestampIsHeads }
{}
