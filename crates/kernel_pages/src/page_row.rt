//! A record as a page tells it.

use trace_format::Text;

/// What a page tells of a record: an event's data at a time.
#[derive(Drop)]
pub struct PageRow {
    /// When it was written.
    pub time: u64,
    /// How many records were lost between it and the one read before it.
    pub lost: u64,
    /// The event's data: whole words, as `format` lays them out.
    pub bytes: Text,
}
