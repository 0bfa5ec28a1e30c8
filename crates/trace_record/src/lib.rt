//! The bytes of a record: a head of sixteen bytes, the payload, and zeros up to a multiple of eight.
//!
//! A tracer's rings keep records as these bytes, its book makes them and its `trace` files show them. Whatever reads or writes them does
//! it by this crate.
#![tactic(auto)]

mod head;
pub mod laws;
mod record;

pub use head::{HEAD_SIZE, Head, read_head, timestamp, write_head};
pub use record::{payload_in, record_size, told_length};
