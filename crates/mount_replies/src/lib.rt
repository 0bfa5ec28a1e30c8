//! A mounted tracer: what a FUSE server replies to each request of a kernel.
#![tactic(auto)]

mod asking;
mod calls;
mod closing;
mod commands;
mod copying;
mod counted;
mod dry_pipes;
mod errno;
mod fault;
mod files;
mod following;
mod injected_line;
mod injection;
pub mod laws;
mod listing;
mod mount;
mod noting;
mod open_file;
mod opening;
mod owed;
mod pages;
mod parked;
mod pipes;
mod polls;
mod reading;
mod shown;
mod sizes;
mod stream;
mod telling;
mod told;
mod wanted_events;
mod watch;
mod writing;

pub use counted::Counted;
pub use fault::LineFault;
pub use mount::{Mount, Owners};
pub use parked::Parked;
pub use polls::Polls;
pub use shown::{CopiedText, ShownText};
pub use stream::Stream;
pub use watch::Watch;
