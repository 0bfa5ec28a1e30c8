//! How many bytes the structs of linux/fuse.h have that the bodies of requests begin with.

pub(crate) const FUSE_FORGET_IN: usize = 8;

pub(crate) const FUSE_FORGET_ONE: usize = 16;

pub(crate) const FUSE_BATCH_FORGET_IN: usize = 8;

pub(crate) const FUSE_GETATTR_IN: usize = 16;

pub(crate) const FUSE_SETATTR_IN: usize = 88;

pub(crate) const FUSE_MKDIR_IN: usize = 8;

pub(crate) const FUSE_OPEN_IN: usize = 8;

pub(crate) const FUSE_READ_IN: usize = 40;

pub(crate) const FUSE_WRITE_IN: usize = 40;

pub(crate) const FUSE_RELEASE_IN: usize = 24;

pub(crate) const FUSE_FSYNC_IN: usize = 16;

pub(crate) const FUSE_GETXATTR_IN: usize = 8;

pub(crate) const FUSE_FLUSH_IN: usize = 24;

/// As far as minor version 31 has it: later ones may send more.
pub(crate) const FUSE_INIT_IN: usize = 16;

pub(crate) const FUSE_ACCESS_IN: usize = 8;

pub(crate) const FUSE_INTERRUPT_IN: usize = 8;

pub(crate) const FUSE_POLL_IN: usize = 24;
