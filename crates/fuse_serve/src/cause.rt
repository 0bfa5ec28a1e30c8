//! Why a call of a device failed, as far as a FUSE server tells the causes apart.

ghost use Rattle.std.specs.Prelude.{◌≡◌};
ghost use Rattle.fuse_serve.specs.Causes as causes;

use std::io;

// errno.h.
const ENOENT: i32 = 2;

const EINTR: i32 = 4;

const ENODEV: i32 = 19;

const ECONNABORTED: i32 = 103;

/// Why a call failed.
#[derive(Clone, Copy, Debug, PartialEq, Eq)]
pub enum Cause {
    /// ENOENT: the request was interrupted, and is no longer there.
    NoEntry,
    /// EINTR: a signal came first.
    Interrupted,
    /// ENODEV: the file system was unmounted. ECONNABORTED: so it was, as a request was being read.
    NoDevice,
    /// Anything else.
    Other,
}

/// The cause that an error names.
pub(crate) fn cause_of(error: &io::Error) -> Cause
    ensures { result ≡ causes.cause_of error.now }
{
    match error.raw_os_error() {
        Some(ENOENT) => Cause::NoEntry,
        Some(EINTR) => Cause::Interrupted,
        Some(ENODEV | ECONNABORTED) => Cause::NoDevice,
        _ => Cause::Other,
    }
}
