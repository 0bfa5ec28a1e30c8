//! Requests: what a kernel asks of a server.

use crate::bytes::Bytes;

/// A request.
#[derive(Drop)]
pub struct Request<'a> {
    /// The request's own number, which its reply repeats.
    pub unique: u64,
    /// The number of the node that it is about; 1 is the root.
    pub node: u64,
    pub uid: u32,
    pub gid: u32,
    /// The caller's thread; 0 if the kernel asks by itself.
    pub pid: u32,
    pub operation: Operation<'a>,
}

/// What is asked. A handle is a number that the server chose when it replied to an `Open` or `OpenDir`.
#[derive(Drop)]
pub enum Operation<'a> {
    Lookup {
        name: Bytes<'a>,
    },
    /// No reply.
    Forget,
    GetAttr,
    /// `valid` says which attributes are to be set (`FATTR_..`); of them only the size is here.
    SetAttr {
        valid: u32,
        size: u64,
    },
    MkDir {
        name: Bytes<'a>,
    },
    RmDir {
        name: Bytes<'a>,
    },
    /// The flags are those of open(2).
    Open {
        flags: u32,
    },
    /// `read_flags` are FUSE's own (`FUSE_READ_..`). `flags` are the open file's as they are now: fcntl(2) may have changed `O_NONBLOCK`.
    Read {
        handle: u64,
        offset: u64,
        size: u32,
        read_flags: u32,
        flags: u32,
    },
    /// `lock_owner` stands for the file descriptors of the process that writes; so does a `Flush`'s for those of the one that closes.
    Write {
        handle: u64,
        offset: u64,
        lock_owner: u64,
        bytes: Bytes<'a>,
    },
    StatFs,
    Release {
        handle: u64,
    },
    Fsync,
    GetXAttr {
        name: Bytes<'a>,
    },
    ListXAttr,
    Flush {
        handle: u64,
        lock_owner: u64,
    },
    Init {
        major: u32,
        minor: u32,
        max_readahead: u32,
        flags: u32,
    },
    OpenDir,
    ReadDir {
        handle: u64,
        offset: u64,
        size: u32,
    },
    ReleaseDir {
        handle: u64,
    },
    /// The mask is that of access(2).
    Access {
        mask: u32,
    },
    /// The request of this number is to be given up.
    Interrupt {
        unique: u64,
    },
    Destroy,
    /// A later wakeup of this poll is told by the number `wakeup`, if the flags have `FUSE_POLL_SCHEDULE_NOTIFY`.
    Poll {
        handle: u64,
        wakeup: u64,
        flags: u32,
        events: u32,
    },
    /// No reply.
    BatchForget {
        count: u32,
    },
    /// Any other operation, by its opcode.
    Other {
        opcode: u32,
    },
}

/// Why bytes are no request.
#[derive(Clone, Copy, Debug, PartialEq, Eq)]
pub enum DecodeError {
    /// They have no whole header, or its `len` is not their number.
    Unframed,
    /// What follows the header is no body for its opcode. The request can be answered by its number, if its opcode has a reply at all.
    WrongBody { opcode: u32, unique: u64 },
}
