//! A tracer that threads share, asked by calls: lines of a script, writes, reads and emissions. A thread's console keeps what its last call came to.
#![tactic(auto)]

mod console;
mod fields;
mod files;
mod last;
pub mod laws;
mod looks;
mod mask;
mod passes;
mod queued;
mod status;

pub use console::{Console, Tried};
pub use mask::Mask;
pub use mount_replies::Owners;
pub use passes::{JoinError, PASSES, Passes};
pub use shared_mount::Served;
pub use trace_command::Config;
