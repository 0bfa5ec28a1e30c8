//! A mounted tracer as a service: a kernel's requests are read from a device, a tracer that was just mounted serves them one after another, and the
//! replies are written.
#![tactic(auto)]

mod failure;
pub mod laws;
mod mount_server;
mod service;

pub use failure::Failure;
pub use mount_replies::Owners;
pub use service::serve_tracer;
