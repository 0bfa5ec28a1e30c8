//! The loop that a FUSE server is, for any server: requests are read one after another from a device, each is answered, and the replies are
//! written. It knows the framing of requests (their first four bytes are their length), and nothing of what they ask for.
#![tactic(auto)]

mod calls;
mod cause;
mod deliver;
mod device;
mod fate;
mod fault;
mod framing;
mod inbox;
mod joined;
pub mod laws;
mod outcome;
mod server;
mod service;

pub use calls::Calls;
pub use cause::Cause;
pub use device::Device;
pub use fate::Fate;
pub use fault::{Ended, Fault};
pub use framing::{HEADER_BYTES, MOST_BYTES};
pub use joined::Joined;
pub use outcome::Outcome;
pub use server::Server;
pub use service::serve;
