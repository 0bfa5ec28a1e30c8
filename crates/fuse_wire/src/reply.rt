//! Replies: what a server sends back.

use crate::attributes::Attributes;
use crate::bytes::Bytes;
use crate::errno::Errno;

/// What a server agrees to, as its reply to an `Init`.
#[derive(Clone, Copy, Debug, PartialEq, Eq)]
pub struct Agreement {
    pub major: u32,
    pub minor: u32,
    pub max_readahead: u32,
    /// The flags of the `Init` that the server takes up (`FUSE_..`).
    pub flags: u32,
    pub max_background: u16,
    pub congestion_threshold: u16,
    /// The most bytes of a `Write`.
    pub max_write: u32,
}

/// A reply.
#[derive(Drop)]
pub enum Reply<'a> {
    /// The request fails.
    Error(Errno),
    /// It is done, and there is nothing more to tell.
    Done,
    Init(Agreement),
    /// The node of the name that was looked up or made: the number by which it is asked for from now on, and its attributes, which have the number that
    /// stat(2) shows. The kernel is not to keep either.
    Entry { node: u64, attributes: Attributes },
    /// The attributes, which the kernel is not to keep.
    Attributes(Attributes),
    /// The number that names the opened file from now on, and flags (`FOPEN_..`).
    Opened { handle: u64, flags: u32 },
    /// What was read of a file or a directory.
    Data(Bytes<'a>),
    /// How many bytes were written.
    Written { size: u32 },
    StatFs { block_size: u32, name_length: u32 },
    /// What the file is ready for, as of poll(2).
    Poll { events: u32 },
}
