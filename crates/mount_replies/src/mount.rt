//! A mounted tracer, and its reply to each request.

ghost use Rattle.std.specs.Prelude.{◌≡◌, ◌≢◌, ◌≤◌, ℕ, true, false, [], List, Some, IfOk, IfErr, OnOk, vec_capacity};
ghost use Rattle.trace_command.specs.Configs.{IsInRange};
ghost use Rattle.trace_command.specs.Requests.{Request as Command};
ghost use Rattle.trace_command.specs.declared.refusal.Refusal.TheVariants as refusals;
ghost use Rattle.mount_replies.specs.Mounted.{HasLedTo, IsCalled, IsMounted, IsServed, IsServedBy, IsStep, IsSteppedBy, most_reply, service_of, terms_of};
ghost use Rattle.mount_replies.specs.Served.{step_of};
ghost use Rattle.mount_replies.specs.private.ShortReplies.{IsShort};
ghost use Rattle.mount_replies.specs.private.StillReplies.{HasFewBytes, changes, is_change, is_still, may_owe, still_reply};

use crate::counted::CountedTexts;
use crate::errno::errno_of_other;
use crate::files::OpenFiles;
use crate::parked::{Parked, interrupt, read_of_pipe};
use crate::reading::is_cached;
use crate::sizes::FIRST_SERIAL;
use crate::telling::{tell_short, tell_wrong};
use crate::told::agree;
use error_log::ErrorLog;
use fuse_wire::{DecodeError, Errno, Operation, Reply, Request, decode};
use mount_tree::{Node, Scene};
use std::alloc::Global;
use std::marker::Model;
use trace_command::{Config, Refusal};
use tracer::Tracer;

/// A mounted tracer: the tracer, which folders and files it has, the open files, the reads that wait, the writes that were refused, the texts that were
/// counted, whether something has to be told before the next request is answered, whose the files are, and their permissions.
pub struct Mount {
    pub(crate) alloc: Global,
    pub(crate) live: Tracer,
    pub(crate) scene: Scene,
    pub(crate) files: OpenFiles,
    pub(crate) parked: Vec<Parked>,
    pub(crate) errors: ErrorLog,
    pub(crate) counted: CountedTexts,
    pub(crate) owes: bool,
    pub(crate) uid: u32,
    pub(crate) gid: u32,
    pub(crate) mode: u16,
}

impl Drop for Mount {
    // Not derived, so that no crate above proves the drops of its parts.
    fn drop(self) {
        let Mount {
            alloc: _,
            live: _,
            scene: _,
            files: _,
            parked: _,
            errors: _,
            counted: _,
            owes: _,
            uid: _,
            gid: _,
            mode: _,
        } = self;
    }
}

impl Model for Mount {
    ghost use Rattle.mount_replies.specs.Mounted.{MountSeen};

    ghost Value = { MountSeen };

    ghost view = { λ m. record { live = m.live; scene = m.scene; files = m.files; parked = m.parked.items; errors = m.errors; counted = m.counted; owes = m.owes; uid = m.uid; gid = m.gid; mode = m.mode } };
}

/// Whose the files of a mount are, and their permissions, as far as each can be used at all: those of folders, such as 0o750.
#[derive(Clone, Copy)]
pub struct Owners {
    pub uid: u32,
    pub gid: u32,
    pub mode: u16,
}

// Whether an operation may change something.
fn changes(operation: &Operation<'_>) -> bool
    ensures { result ≡ changes operation.now }
{
    matches!(
        operation,
        Operation::MkDir { .. }
            | Operation::RmDir { .. }
            | Operation::Open { .. }
            | Operation::Read { .. }
            | Operation::Write { .. }
            | Operation::Flush { .. }
            | Operation::Lookup { .. }
            | Operation::GetAttr
            | Operation::SetAttr { .. }
            | Operation::Release { .. }
            | Operation::Interrupt { .. }
            | Operation::Poll { .. }
    )
}

// Whether something may be owed after an operation that was not before. A poll waits only for what is not there.
fn may_owe(operation: &Operation<'_>) -> bool
    ensures { result ≡ may_owe operation.now }
{
    !matches!(
        operation,
        Operation::Lookup { .. }
            | Operation::GetAttr
            | Operation::SetAttr { .. }
            | Operation::Poll { .. }
    )
}

impl Mount {
    /// A tracer that was just mounted: nothing was asked of it, and no file is open. Its files are these people's. Refused with `BadValue` exactly if a
    /// number of the configuration is out of range, otherwise only with `Memory`.
    pub fn new(alloc: Global, config: Config, owners: Owners) -> Result<Mount, Refusal>
        ensures made { IfOk result (λ mount. IsMounted [] mount) }
        ensures terms { IfOk result (λ mount. terms_of mount ≡ record { config = config; uid = owners.uid; gid = owners.gid; mode = owners.mode }) }
        ensures closed { IfOk result (λ mount. (mount.files ≡ []) × (mount.parked ≡ []) × (mount.errors ≡ []) × (mount.counted ≡ [])) }
        ensures nothing_owed { IfOk result (λ mount. mount.owes ≡ false) }
        ensures in_range { OnOk result (IsInRange config) }
        ensures out_of_range { ¬ IsInRange config → IfErr result (λ r. r ≡ refusals.BadValue) }
        ensures refused { IfErr result (λ r. r ≢ refusals.Memory → (r ≡ refusals.BadValue) × ¬ IsInRange config) }
    {
        let live = Tracer::new(alloc, config)?;
        Ok(Mount {
            alloc,
            live,
            scene: Scene::new(alloc, config.cpus),
            files: OpenFiles::new(alloc),
            parked: Vec::new(alloc),
            errors: ErrorLog::new(alloc),
            counted: CountedTexts::new(alloc),
            owes: false,
            uid: owners.uid,
            gid: owners.gid,
            mode: owners.mode,
        })
    }

    /// Serves a request: `reply`, which is empty and has the room, gets the bytes of its reply, none if it has none or waits. Bytes that are no framed
    /// request have none. What is owed has to be told before.
    pub fn answer(&mut self, asked: &[u8], reply: &mut Vec<u8>)
        requires room { most_reply ≤ vec_capacity reply.old }
        requires empty { reply.old.items ≡ [] }
        requires nothing_owed { self.old.owes ≡ false }
        ensures served { (past : List Command) → IsMounted past self.old → IsCalled past self.old self.new asked.now reply.new.items }
        ensures capacity { vec_capacity reply.old ≤ vec_capacity reply.new }
    {
        match decode(asked) {
            Ok(request) => self.serve(&request, reply),
            Err(DecodeError::WrongBody { opcode, unique }) => tell_wrong(opcode, unique, reply),
            Err(DecodeError::Unframed) => {}
        }
    }

    // Serves a request.
    fn serve(&mut self, request: &Request<'_>, out: &mut Vec<u8>)
        requires room { most_reply ≤ vec_capacity out.old }
        requires empty { out.old.items ≡ [] }
        requires few { HasFewBytes request.now.operation }
        requires nothing_owed { self.old.owes ≡ false }
        ensures served { (past : List Command) → IsMounted past self.old → IsServedBy past self.old self.new request.now out.new.items }
        ensures capacity { vec_capacity out.old ≤ vec_capacity out.new }
    {
        if !changes(&request.operation) {
            return self.look(request, out);
        }
        self.act(request, out);
        if may_owe(&request.operation) {
            self.look_for_owed();
        } else {
            self.owes = false;
        }
    }

    // Serves a request that may change something.
    fn act(&mut self, request: &Request<'_>, out: &mut Vec<u8>)
        requires room { most_reply ≤ vec_capacity out.old }
        requires empty { out.old.items ≡ [] }
        requires few { HasFewBytes request.now.operation }
        requires changes { changes request.now.operation ≡ true }
        ensures served { (past : List Command) → HasLedTo past self.old → IsSteppedBy past self.old self.new request.now out.new.items }
        ensures capacity { vec_capacity out.old ≤ vec_capacity out.new }
    {
        let node = Node::from_number(request.node % FIRST_SERIAL);
        match &request.operation {
            Operation::Read {
                handle,
                offset,
                size,
                read_flags,
                flags,
            } => {
                let read = read_of_pipe(request.unique, *handle, *size);
                self.read(read, *offset, is_cached(*read_flags), *flags, out);
            }
            Operation::Interrupt { unique } => interrupt(&mut self.parked, *unique),
            operation => {
                let reply = self.reply_to(request.unique, request.pid, node, operation);
                tell_short(request.unique, &reply, out);
            }
        }
    }

    // Serves a request that changes nothing.
    fn look(&self, request: &Request<'_>, out: &mut Vec<u8>)
        requires room { most_reply ≤ vec_capacity out.old }
        requires empty { out.old.items ≡ [] }
        requires still { changes request.now.operation ≡ false }
        ensures served { (past : List Command) → HasLedTo past self.now
            → IsServed (terms_of self.now) (service_of past self.now) request.now out.new.items (service_of past self.now) }
        ensures capacity { vec_capacity out.old ≤ vec_capacity out.new }
    {
        let node = Node::from_number(request.node % FIRST_SERIAL);
        match &request.operation {
            Operation::ReadDir { offset, size, .. } => {
                self.read_folder(request.unique, node, *offset, *size, out);
            }
            Operation::Forget | Operation::BatchForget { .. } => {}
            operation => {
                let reply = self.reply_about(node, operation);
                tell_short(request.unique, &reply, out);
            }
        }
    }

    // The reply to an operation that may change something.
    fn reply_to(
        &mut self,
        unique: u64,
        pid: u32,
        node: Option<Node>,
        operation: &Operation<'_>,
    ) -> Reply<'static>
        requires replies { is_change operation.now ≡ true }
        requires few { HasFewBytes operation.now }
        ensures step { (past : List Command) → HasLedTo past self.old
            → IsStep past self.old self.new (step_of (terms_of self.old) (service_of past self.old) unique pid node operation.now) (Some result) }
        ensures short { IsShort result }
    {
        match operation {
            Operation::MkDir { name } => self.make_folder(node, name.as_slice()),
            Operation::RmDir { name } => self.remove_folder(node, name.as_slice()),
            Operation::Open { flags } => self.open(node, *flags),
            Operation::Lookup { name } => self.look_up(unique, node, name.as_slice()),
            Operation::GetAttr => self.get_attributes(node),
            Operation::SetAttr { valid, size } => self.set_attributes(node, *valid, *size),
            Operation::Write {
                handle,
                lock_owner,
                bytes,
                ..
            } => self.write(*handle, *lock_owner, pid, bytes.as_slice()),
            Operation::Flush { handle, lock_owner } => self.flush(*handle, *lock_owner),
            Operation::Release { handle } => self.release(*handle),
            Operation::Poll {
                handle,
                wakeup,
                flags,
                ..
            } => self.poll(*handle, *wakeup, *flags),
            _ => unreachable!(),
        }
    }

    // The reply to an operation that changes nothing.
    fn reply_about(&self, node: Option<Node>, operation: &Operation<'_>) -> Reply<'static>
        requires { is_still operation.now ≡ true }
        ensures reply { result ≡ still_reply (terms_of self.now) self.now.scene node operation.now }
        ensures short { IsShort result }
    {
        match operation {
            Operation::OpenDir => self.open_folder(node),
            Operation::Access { mask } => self.check_access(node, *mask),
            Operation::Init { major, flags, .. } => agree(*major, *flags),
            Operation::StatFs => Reply::StatFs {
                block_size: 4096,
                name_length: 255,
            },
            Operation::Fsync | Operation::ReleaseDir { .. } | Operation::Destroy => Reply::Done,
            Operation::Other { opcode } => Reply::Error(errno_of_other(*opcode)),
            _ => Reply::Error(Errno::ENOSYS),
        }
    }
}
