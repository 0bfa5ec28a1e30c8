//! Refusals as the errors of a system call.

ghost use Rattle.std.specs.Prelude.{◌≡◌};
ghost use Rattle.mount_replies.specs.Errnos.{errno_of, errno_of_other};

use fuse_wire::Errno;
use fuse_wire::opcode::{CREATE, LINK, MKNOD, RENAME, RENAME2, SYMLINK, UNLINK};
use trace_command::Refusal;

/// What a refused command is told as.
pub(crate) fn errno_of(refusal: &Refusal) -> Errno
    ensures { result ≡ errno_of refusal.now }
{
    match refusal {
        Refusal::NoSuchFile
        | Refusal::NoSuchEvent
        | Refusal::NoSuchTrigger
        | Refusal::NoSuchInstance => Errno::ENOENT,
        Refusal::NotReadable | Refusal::NotWritable => Errno::EACCES,
        Refusal::EventExists | Refusal::TriggerExists | Refusal::InstanceExists => Errno::EEXIST,
        Refusal::TooBig => Errno::E2BIG,
        Refusal::TooMany { .. } | Refusal::HistoryFull => Errno::ENOSPC,
        Refusal::Busy => Errno::EBUSY,
        Refusal::NoSuchCpu => Errno::ENXIO,
        Refusal::Memory => Errno::ENOMEM,
        Refusal::BadValue
        | Refusal::BadTrigger { .. }
        | Refusal::BadDefinition { .. }
        | Refusal::FilterSyntax { .. }
        | Refusal::NoSuchField { .. }
        | Refusal::WrongOperator { .. }
        | Refusal::HistSyntax { .. }
        | Refusal::BadSize
        | Refusal::BadRow { .. }
        | Refusal::Worn => Errno::EINVAL,
    }
}

/// Likewise, of a refusal that is not needed any more, which is let go here, so that the proofs of callers don't follow its parts.
pub(crate) fn errno_of_refused(refusal: Refusal) -> Errno
    ensures { result ≡ errno_of refusal }
{
    errno_of(&refusal)
}

/// What an operation is told that is not known.
pub(crate) fn errno_of_other(opcode: u32) -> Errno
    ensures { result ≡ errno_of_other opcode }
{
    match opcode {
        CREATE => Errno::EACCES,
        SYMLINK | MKNOD | UNLINK | RENAME | LINK | RENAME2 => Errno::EPERM,
        _ => Errno::ENOSYS,
    }
}
