//! Threads that share one book through a lock: a block of parts, each on a thread of its own.
#![tactic(auto)]

mod asked;
mod block;
mod call;
mod environment;
mod fault;
mod gate;
mod part;
mod thread;
mod worker;

pub use asked::{Asked, Ready};
pub use block::{run_block, run_block_of};
pub use fault::BlockFault;
pub use gate::{Gate, OpenGate, Point};
pub use part::Part;
pub use shared_book::ask;
