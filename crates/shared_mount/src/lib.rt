//! A mounted tracer that threads share: a lock gives turns to their calls, and to whoever serves the mount.
#![tactic(auto)]

mod asked;
mod caller;
mod copying;
mod done;
mod entry;
mod exchange;
mod history;
pub mod laws;
mod live_mount;
mod look;
mod served;
mod shared;
mod showing;
mod turn;

pub use asked::Asked;
pub use caller::{Caller, InLine};
pub use entry::Entry;
pub use live_mount::LiveMount;
pub use look::{Look, Nothing};
pub use mount_replies::Owners;
pub use served::{Called, Missed, NoTurn, Served};
pub use shared::SharedMount;
pub use tracer_state::ValuesEmission;
