//! The bodies of requests: what follows the header, by its opcode.
//!
//! Most bodies have one length, so after it is tested their numbers are read where they lie.

ghost use Rattle.std.specs.Prelude.{◌≡◌, ℕ, List, [], ◌∷◌};
ghost use Rattle.fuse_wire.specs.Parts.{Ignored};
ghost use Rattle.fuse_wire.specs.Requests.{HasOwnOpcode, body as parts_of, opcode_of};
ghost use Rattle.fuse_wire.specs.declared.request.Operation.{Operation as Seen};
ghost use Rattle.fuse_wire.specs.private.Answers.{Decodes, IsBody};

use crate::bytes::Bytes;
use crate::names::name_in;
use crate::number::{u32_at, u64_at};
use crate::opcode::{
    ACCESS, BATCH_FORGET, DESTROY, FLUSH, FORGET, FSYNC, GETATTR, GETXATTR, INIT, INTERRUPT,
    LISTXATTR, LOOKUP, MKDIR, OPEN, OPENDIR, POLL, READ, READDIR, RELEASE, RELEASEDIR, RMDIR,
    SETATTR, STATFS, WRITE,
};
use crate::request::Operation;
use crate::sizes::{
    FUSE_ACCESS_IN, FUSE_BATCH_FORGET_IN, FUSE_FLUSH_IN, FUSE_FORGET_IN, FUSE_FORGET_ONE,
    FUSE_FSYNC_IN, FUSE_GETATTR_IN, FUSE_GETXATTR_IN, FUSE_INIT_IN, FUSE_INTERRUPT_IN,
    FUSE_MKDIR_IN, FUSE_OPEN_IN, FUSE_POLL_IN, FUSE_READ_IN, FUSE_RELEASE_IN, FUSE_SETATTR_IN,
    FUSE_WRITE_IN,
};

/// An operation whose body is so many bytes of which none is read.
fn unread<'a>(
    opcode: u32,
    body: &[u8],
    size: usize,
    operation: Operation<'a>,
) -> Option<Operation<'a>>
    requires opcode { opcode_of operation ≡ opcode }
    requires own { HasOwnOpcode operation }
    requires parts { parts_of operation ≡ Ignored size ∷ [] }
    requires only { (bytes : List ℕ) (other : Seen) → IsBody opcode bytes other → other ≡ operation }
    ensures { Decodes opcode body.now result }
{
    if body.len() != size {
        return None;
    }
    Some(operation)
}

fn lookup(body: &[u8]) -> Option<Operation<'_>>
    ensures { Decodes LOOKUP body.now result }
{
    match name_in(body) {
        Some(name) => Some(Operation::Lookup { name }),
        None => None,
    }
}

fn set_attr(body: &[u8]) -> Option<Operation<'_>>
    ensures { Decodes SETATTR body.now result }
{
    if body.len() != FUSE_SETATTR_IN {
        return None;
    }
    Some(Operation::SetAttr {
        valid: u32_at(body, 0),
        size: u64_at(body, 16),
    })
}

fn mk_dir(body: &[u8]) -> Option<Operation<'_>>
    ensures { Decodes MKDIR body.now result }
{
    if body.len() < FUSE_MKDIR_IN {
        return None;
    }
    match name_in(&body[FUSE_MKDIR_IN..]) {
        Some(name) => Some(Operation::MkDir { name }),
        None => None,
    }
}

fn rm_dir(body: &[u8]) -> Option<Operation<'_>>
    ensures { Decodes RMDIR body.now result }
{
    match name_in(body) {
        Some(name) => Some(Operation::RmDir { name }),
        None => None,
    }
}

fn open(body: &[u8]) -> Option<Operation<'_>>
    ensures { Decodes OPEN body.now result }
{
    if body.len() != FUSE_OPEN_IN {
        return None;
    }
    Some(Operation::Open {
        flags: u32_at(body, 0),
    })
}

#[inline(always)]
fn read(body: &[u8]) -> Option<Operation<'_>>
    ensures { Decodes READ body.now result }
{
    if body.len() != FUSE_READ_IN {
        return None;
    }
    Some(Operation::Read {
        handle: u64_at(body, 0),
        offset: u64_at(body, 8),
        size: u32_at(body, 16),
        read_flags: u32_at(body, 20),
        flags: u32_at(body, 32),
    })
}

#[inline(always)]
fn write(body: &[u8]) -> Option<Operation<'_>>
    ensures { Decodes WRITE body.now result }
{
    if body.len() < FUSE_WRITE_IN {
        return None;
    }
    let bytes = &body[FUSE_WRITE_IN..];
    if u32_at(body, 16) as usize != bytes.len() {
        return None;
    }
    Some(Operation::Write {
        handle: u64_at(body, 0),
        offset: u64_at(body, 8),
        lock_owner: u64_at(body, 24),
        bytes: Bytes::new(bytes),
    })
}

fn stat_fs(body: &[u8]) -> Option<Operation<'_>>
    ensures { Decodes STATFS body.now result }
{
    if !body.is_empty() {
        return None;
    }
    Some(Operation::StatFs)
}

fn release(body: &[u8]) -> Option<Operation<'_>>
    ensures { Decodes RELEASE body.now result }
{
    if body.len() != FUSE_RELEASE_IN {
        return None;
    }
    Some(Operation::Release {
        handle: u64_at(body, 0),
    })
}

fn get_xattr(body: &[u8]) -> Option<Operation<'_>>
    ensures { Decodes GETXATTR body.now result }
{
    if body.len() < FUSE_GETXATTR_IN {
        return None;
    }
    match name_in(&body[FUSE_GETXATTR_IN..]) {
        Some(name) => Some(Operation::GetXAttr { name }),
        None => None,
    }
}

fn flush(body: &[u8]) -> Option<Operation<'_>>
    ensures { Decodes FLUSH body.now result }
{
    if body.len() != FUSE_FLUSH_IN {
        return None;
    }
    Some(Operation::Flush {
        handle: u64_at(body, 0),
        lock_owner: u64_at(body, 16),
    })
}

fn init(body: &[u8]) -> Option<Operation<'_>>
    ensures { Decodes INIT body.now result }
{
    if body.len() < FUSE_INIT_IN {
        return None;
    }
    Some(Operation::Init {
        major: u32_at(body, 0),
        minor: u32_at(body, 4),
        max_readahead: u32_at(body, 8),
        flags: u32_at(body, 12),
    })
}

fn read_dir(body: &[u8]) -> Option<Operation<'_>>
    ensures { Decodes READDIR body.now result }
{
    if body.len() != FUSE_READ_IN {
        return None;
    }
    Some(Operation::ReadDir {
        handle: u64_at(body, 0),
        offset: u64_at(body, 8),
        size: u32_at(body, 16),
    })
}

fn release_dir(body: &[u8]) -> Option<Operation<'_>>
    ensures { Decodes RELEASEDIR body.now result }
{
    if body.len() != FUSE_RELEASE_IN {
        return None;
    }
    Some(Operation::ReleaseDir {
        handle: u64_at(body, 0),
    })
}

fn access(body: &[u8]) -> Option<Operation<'_>>
    ensures { Decodes ACCESS body.now result }
{
    if body.len() != FUSE_ACCESS_IN {
        return None;
    }
    Some(Operation::Access {
        mask: u32_at(body, 0),
    })
}

fn interrupt(body: &[u8]) -> Option<Operation<'_>>
    ensures { Decodes INTERRUPT body.now result }
{
    if body.len() != FUSE_INTERRUPT_IN {
        return None;
    }
    Some(Operation::Interrupt {
        unique: u64_at(body, 0),
    })
}

fn destroy(body: &[u8]) -> Option<Operation<'_>>
    ensures { Decodes DESTROY body.now result }
{
    if !body.is_empty() {
        return None;
    }
    Some(Operation::Destroy)
}

fn poll(body: &[u8]) -> Option<Operation<'_>>
    ensures { Decodes POLL body.now result }
{
    if body.len() != FUSE_POLL_IN {
        return None;
    }
    Some(Operation::Poll {
        handle: u64_at(body, 0),
        wakeup: u64_at(body, 8),
        flags: u32_at(body, 16),
        events: u32_at(body, 20),
    })
}

fn batch_forget(body: &[u8]) -> Option<Operation<'_>>
    ensures { Decodes BATCH_FORGET body.now result }
{
    if body.len() < FUSE_BATCH_FORGET_IN {
        return None;
    }
    let count = u32_at(body, 0);
    if body.len() - FUSE_BATCH_FORGET_IN != count as usize * FUSE_FORGET_ONE {
        return None;
    }
    Some(Operation::BatchForget { count })
}

/// The operation of this opcode that the bytes are the body of: `None` if they are no body of it.
#[inline(always)]
pub(crate) fn operation_of(opcode: u32, body: &[u8]) -> Option<Operation<'_>>
    ensures { Decodes opcode body.now result }
{
    match opcode {
        LOOKUP => lookup(body),
        FORGET => unread(FORGET, body, FUSE_FORGET_IN, Operation::Forget),
        GETATTR => unread(GETATTR, body, FUSE_GETATTR_IN, Operation::GetAttr),
        SETATTR => set_attr(body),
        MKDIR => mk_dir(body),
        RMDIR => rm_dir(body),
        OPEN => open(body),
        READ => read(body),
        WRITE => write(body),
        STATFS => stat_fs(body),
        RELEASE => release(body),
        FSYNC => unread(FSYNC, body, FUSE_FSYNC_IN, Operation::Fsync),
        GETXATTR => get_xattr(body),
        LISTXATTR => unread(LISTXATTR, body, FUSE_GETXATTR_IN, Operation::ListXAttr),
        FLUSH => flush(body),
        INIT => init(body),
        OPENDIR => unread(OPENDIR, body, FUSE_OPEN_IN, Operation::OpenDir),
        READDIR => read_dir(body),
        RELEASEDIR => release_dir(body),
        ACCESS => access(body),
        INTERRUPT => interrupt(body),
        DESTROY => destroy(body),
        POLL => poll(body),
        BATCH_FORGET => batch_forget(body),
        _ => Some(Operation::Other { opcode }),
    }
}
