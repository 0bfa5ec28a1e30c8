//! The rings of 1 to 8 CPUs, one ring for each ("The Generic Ring Buffer" of ring-buffer-design.rst): records are put on a CPU and read from
//! one CPU or from all.
//!
//! A buffer's contracts speak of a list of ring events for each CPU that it stands for, as those of `page_ring` speak of one list. There are two
//! orders of the records of several CPUs. `merged` shows all kept records by time. `preview_any` and `take_any` read in pipe order: the next
//! record is the earliest of the CPUs' first ones. Where each CPU's records rise in time, the two are the same. `take_each` consumes what a preview
//! showed by how many records it showed of each CPU.
#![tactic(auto)]

mod buffer;
mod buffer_copy;
mod cursor;
pub mod laws;
mod merge;
mod taken;
mod times;

pub use buffer::Buffer;
pub use buffer_copy::BufferCopy;
pub use taken::{Taken, count_each};

/// How many CPUs a buffer may have.
pub const CPUS: usize = 8;
