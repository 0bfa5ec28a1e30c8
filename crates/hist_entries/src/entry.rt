//! Entries: the values of the keys with the count of their rows and their sums.

use trace_format::Value;

/// An entry of a histogram.
#[derive(Drop)]
pub struct HistRow {
    /// The values of the trigger's keys, in the order in which it names them: of a number its bucket, which has a number too.
    pub keys: Vec<Value>,
    /// How many rows with these keys were counted.
    pub hitcount: u64,
    /// The sums of the trigger's values over these rows, in the order in which it names them.
    pub sums: Vec<i128>,
}
