//! Numbers that messages carry, by their names in linux/fuse.h, asm-generic/fcntl.h, asm-generic/poll.h and unistd.h.

/// The version of FUSE that is spoken.
pub const FUSE_KERNEL_VERSION: u32 = 7;

/// The minor version of it that is spoken: FUSE_KERNEL_MINOR_VERSION was this once.
pub const MINOR_VERSION: u32 = 31;

/// Of `valid` of SETATTR: a size is set.
pub const FATTR_SIZE: u32 = 1 << 3;

/// Of the flags of a file that was opened: a kernel asks for each read, whatever the size.
pub const FOPEN_DIRECT_IO: u32 = 1 << 0;

/// It has no places.
pub const FOPEN_NONSEEKABLE: u32 = 1 << 2;

/// A read that waits holds up no other one by the same open file.
pub const FOPEN_STREAM: u32 = 1 << 4;

/// No FLUSH comes where a descriptor is closed.
pub const FOPEN_NOFLUSH: u32 = 1 << 5;

/// Of the flags of INIT: O_TRUNC comes with OPEN.
pub const FUSE_ATOMIC_O_TRUNC: u32 = 1 << 3;

/// A write may have more than a page.
pub const FUSE_BIG_WRITES: u32 = 1 << 5;

/// Of the flags of READ: it is by read(2), and not by the page cache.
pub const FUSE_READ_LOCKOWNER: u32 = 1 << 1;

/// Of the flags of POLL: it wants to be told when the file is ready.
pub const FUSE_POLL_SCHEDULE_NOTIFY: u32 = 1 << 0;

/// The bits of the flags of open(2) that are one of O_RDONLY, O_WRONLY and O_RDWR.
pub const O_ACCMODE: u32 = 0o3;

pub const O_RDONLY: u32 = 0o0;

pub const O_WRONLY: u32 = 0o1;

pub const O_TRUNC: u32 = 0o1000;

pub const O_NONBLOCK: u32 = 0o4000;

/// Of the mask of access(2).
pub const X_OK: u32 = 1;

pub const W_OK: u32 = 2;

pub const R_OK: u32 = 4;

/// Of the events of poll(2).
pub const POLLIN: u32 = 0x0001;

pub const POLLOUT: u32 = 0x0004;

pub const POLLRDNORM: u32 = 0x0040;

pub const POLLWRNORM: u32 = 0x0100;
