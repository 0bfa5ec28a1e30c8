//! The messages of FUSE as bytes (linux/fuse.h): requests, which a kernel sends, and replies, which a server sends back. No file is known here.
#![tactic(auto)]

mod attributes;
mod bodies;
mod bytes;
mod decoder;
mod directory;
mod encoder;
mod errno;
pub mod headers;
pub mod laws;
mod names;
mod number;
pub mod opcode;
mod reply;
mod request;
mod sizes;
mod words;

pub use attributes::{Attributes, FileKind};
pub use bytes::Bytes;
pub use decoder::decode;
pub use directory::DirectoryEntry;
pub use encoder::{encode, encode_wakeup};
pub use errno::Errno;
pub use opcode::has_reply;
pub use reply::{Agreement, Reply};
pub use request::{DecodeError, Operation, Request};
