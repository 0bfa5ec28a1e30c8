//! Why a line of a write is not done.

ghost use Rattle.std.specs.Prelude.{◌≡◌};
ghost use Rattle.std.specs.Option.{option_copied};
ghost use Rattle.mount_replies.specs.Lines as lines;

use crate::errno::errno_of;
use fuse_wire::Errno;
use trace_command::Refusal;

/// Why a line is not done.
pub enum LineFault {
    /// It is no command.
    NoCommand,
    /// It has not ended, and has too many bytes.
    TooLong,
    /// Its command was refused so.
    Refused(Refusal),
}

impl Drop for LineFault {
    // Not derived, so that where one is let go the parts of a refusal are not followed.
    fn drop(self) {
        match self {
            LineFault::NoCommand | LineFault::TooLong | LineFault::Refused(_) => {}
        }
    }
}

impl LineFault {
    /// The error that is told.
    pub(crate) fn errno(&self) -> Errno
        ensures { result ≡ lines.errno_of_fault self.now }
    {
        match self {
            LineFault::Refused(refusal) => errno_of(refusal),
            LineFault::NoCommand | LineFault::TooLong => Errno::EINVAL,
        }
    }

    /// Whether memory was refused.
    pub(crate) fn is_memory(&self) -> bool
        ensures { result ≡ lines.is_memory self.now }
    {
        matches!(self, LineFault::Refused(Refusal::Memory))
    }

    /// The refusal, if it is one.
    pub(crate) fn refusal(&self) -> Option<&Refusal>
        ensures { option_copied result ≡ lines.refusal_in self.now }
    {
        match self {
            LineFault::Refused(refusal) => Some(refusal),
            LineFault::NoCommand | LineFault::TooLong => None,
        }
    }
}

/// A line that was not done, and why.
#[derive(Drop)]
pub(crate) struct Stop<'a> {
    pub(crate) line: &'a [u8],
    pub(crate) fault: LineFault,
}

/// How far lines were done, one after another: how many bytes of the write the lines have that were, and the one that was not, if there was one.
#[derive(Drop)]
pub(crate) struct Progress<'a> {
    pub(crate) done: usize,
    pub(crate) stop: Option<Stop<'a>>,
}
