//! Errors by their numbers.

ghost use Rattle.std.specs.Prelude.{◌≡◌, ◌<◌, ◌-◌, ◌^◌};

/// Why a request fails (errno(3), with Linux's numbers).
#[derive(Clone, Copy, Debug, PartialEq, Eq)]
pub enum Errno {
    EPERM,
    ENOENT,
    EINTR,
    EIO,
    ENXIO,
    E2BIG,
    EBADF,
    EAGAIN,
    ENOMEM,
    EACCES,
    EBUSY,
    EEXIST,
    ENODEV,
    ENOTDIR,
    EISDIR,
    EINVAL,
    ENOSPC,
    ENOSYS,
    ENOTEMPTY,
    EPROTO,
}

impl Errno {
    ghost use Rattle.fuse_wire.specs.Replies.{errno_number};

    /// Its number.
    pub fn number(self) -> u32
        ensures value { result ≡ errno_number self }
        ensures positive { 0 < result }
    {
        match self {
            Errno::EPERM => 1,
            Errno::ENOENT => 2,
            Errno::EINTR => 4,
            Errno::EIO => 5,
            Errno::ENXIO => 6,
            Errno::E2BIG => 7,
            Errno::EBADF => 9,
            Errno::EAGAIN => 11,
            Errno::ENOMEM => 12,
            Errno::EACCES => 13,
            Errno::EBUSY => 16,
            Errno::EEXIST => 17,
            Errno::ENODEV => 19,
            Errno::ENOTDIR => 20,
            Errno::EISDIR => 21,
            Errno::EINVAL => 22,
            Errno::ENOSPC => 28,
            Errno::ENOSYS => 38,
            Errno::ENOTEMPTY => 39,
            Errno::EPROTO => 71,
        }
    }

    /// Its number with a minus sign, as a reply tells it.
    pub(crate) fn negated(self) -> u32
        ensures { result ≡ 2 ^ 32 - errno_number self }
    {
        u32::MAX - (self.number() - 1)
    }
}
