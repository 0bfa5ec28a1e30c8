//! Snapshots of rings (ftrace.rst, "Snapshot"): an instance has a live side, which is written to, and perhaps a spare one. A snapshot exchanges
//! the two, so what was live is kept as it was at that moment.
#![tactic(auto)]

mod sides;

pub use sides::Sides;
