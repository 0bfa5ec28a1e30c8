//! Open files: their beginning and their end, and polls of them.

ghost use Rattle.std.specs.Prelude.{◌≡◌, true, false, List, Some};
ghost use Rattle.trace_command.specs.Requests.{Request};
ghost use Rattle.tracer_specification.specs.Settings.{now_of};
ghost use Rattle.mount_tree.specs.Children.{is_there};
ghost use Rattle.mount_tree.specs.declared.node.Node.TheVariants as nodes;
ghost use Rattle.mount_replies.specs.Mounted.{HasLedTo, IsStep, StepsBy, service_of, terms_of};
ghost use Rattle.mount_replies.specs.Served.{clears as cleared_by, emptied, emptying_of, handed_out, open_flags as flags_of, opened, poll_file, poll_pipe as polled};
ghost use Rattle.mount_replies.specs.Services.{file_at, just_opened};
ghost use Rattle.mount_replies.specs.Steps.{Forgets, Tells};
ghost use Rattle.mount_replies.specs.Told.{empties, known};
ghost use Rattle.mount_replies.specs.private.Emptyings.{Empties};
ghost use Rattle.mount_replies.specs.private.ShortReplies.{IsShort};

use crate::dry_pipes::DryPipes;
use crate::mount::Mount;
use crate::open_file::OpenFile;
use crate::told::{empties, may_open};
use fuse_wire::headers::{
    FOPEN_DIRECT_IO, FOPEN_NOFLUSH, FOPEN_NONSEEKABLE, FOPEN_STREAM, FUSE_POLL_SCHEDULE_NOTIFY,
    POLLIN, POLLOUT, POLLRDNORM, POLLWRNORM,
};
use fuse_wire::{Errno, Reply};
use mount_tree::{File, FileKind, Node, Owner, ToolFile};
use trace_command::TopFile;

/// The events of a poll of a pipe that can be read at once.
const READY_PIPE: u32 = POLLIN | POLLRDNORM;

/// Those of any other file.
const READY_FILE: u32 = POLLIN | POLLOUT | POLLRDNORM | POLLWRNORM;

/// The flags that a file is opened with: a kernel asks for each read, whatever the size, and a pipe has no places and several reads at once. Only of
/// `inject` it tells that a descriptor is closed.
fn open_flags(kind: FileKind) -> u32
    ensures { result ≡ flags_of kind }
{
    match kind {
        FileKind::Pipe | FileKind::RawPipe => FOPEN_DIRECT_IO
            | FOPEN_NONSEEKABLE
            | FOPEN_STREAM
            | FOPEN_NOFLUSH,
        FileKind::Inject => FOPEN_DIRECT_IO,
        FileKind::Text | FileKind::Trace | FileKind::Tool | FileKind::ErrorLog => {
            FOPEN_DIRECT_IO | FOPEN_NOFLUSH
        }
    }
}

/// What opening a file to be emptied asks: to write this to this file of the same instance.
#[derive(Clone, Copy)]
struct Emptying {
    file: File,
    text: &'static [u8],
}

/// What opening a file asks, if it is to be emptied and that asks something.
fn emptying_of(file: File, flags: u32) -> Option<Emptying>
    ensures { Empties (emptying_of file (empties flags)) result }
{
    if !empties(flags) {
        return None;
    }
    match (file, file.kind()) {
        (_, FileKind::Trace) => Some(Emptying { file, text: b"" }),
        (File::Tool(ToolFile::SetEvent), _) => Some(Emptying {
            file: File::OfInstance(TopFile::EventsEnable),
            text: b"0",
        }),
        _ => None,
    }
}

/// Whether opening a file so forgets the errors of its instance: `error_log`, to be emptied.
fn clears(file: File, flags: u32) -> bool
    ensures { result ≡ cleared_by file flags }
{
    match file {
        File::ErrorLog => empties(flags),
        _ => false,
    }
}

impl Mount {
    /// OPEN.
    pub(crate) fn open(&mut self, node: Option<Node>, flags: u32) -> Reply<'static>
        ensures step { (past : List Request) → HasLedTo past self.old
            → IsStep past self.old self.new (opened self.old.scene (now_of past) flags (known self.old.scene node) self.old.files) (Some result) }
        ensures short { IsShort result }
    {
        match self.known(node) {
            Some(Node::File(owner, file)) => self.open_file(owner, file, flags),
            Some(Node::Folder(_, _)) => Reply::Error(Errno::EISDIR),
            None => Reply::Error(Errno::ENOENT),
        }
    }

    // OPEN of a file that is there.
    fn open_file(&mut self, owner: Owner, file: File, flags: u32) -> Reply<'static>
        requires { is_there self.old.scene (nodes.File owner file) ≡ true }
        ensures step { (past : List Request) → HasLedTo past self.old
            → IsStep past self.old self.new (opened self.old.scene (now_of past) flags (Some (nodes.File owner file)) self.old.files) (Some result) }
        ensures short { IsShort result }
    {
        if !may_open(file, flags) {
            return Reply::Error(Errno::EACCES);
        }
        if let Some(emptying) = emptying_of(file, flags) {
            return self.open_emptied(owner, file, emptying);
        }
        if clears(file, flags) {
            return self.open_clearing(owner, file, flags);
        }
        let open_file = OpenFile::new(self.alloc, owner, file, empties(flags));
        match self.files.open(open_file) {
            Ok(handle) => Reply::Opened {
                handle,
                flags: open_flags(file.kind()),
            },
            Err(_) => Reply::Error(Errno::ENOMEM),
        }
    }

    // OPEN of `error_log` to be emptied.
    fn open_clearing(&mut self, owner: Owner, file: File, flags: u32) -> Reply<'static>
        ensures step { StepsBy self.old self.new
            (Tells (Forgets owner) true (handed_out (just_opened owner file (empties flags)) self.old.files)) result }
        ensures short { IsShort result }
    {
        let open_file = OpenFile::new(self.alloc, owner, file, empties(flags));
        match self.files.open(open_file) {
            Ok(handle) => {
                self.errors.clear(owner);
                Reply::Opened {
                    handle,
                    flags: open_flags(file.kind()),
                }
            }
            Err(_) => Reply::Error(Errno::ENOMEM),
        }
    }

    // OPEN of a file to be emptied, which asks to write something. It has its handle, which takes memory, before that is asked, and gives it back if that is
    // refused.
    fn open_emptied(&mut self, owner: Owner, file: File, emptying: Emptying) -> Reply<'static>
        requires { is_there self.old.scene (nodes.File owner emptying.file) ≡ true }
        ensures step { (past : List Request) → HasLedTo past self.old → IsStep past self.old self.new
            (emptied self.old.scene (now_of past) (just_opened owner file false) self.old.files emptying.file emptying.text.now) (Some result) }
        ensures short { IsShort result }
    {
        let count = self.files.count();
        let open_file = OpenFile::new(self.alloc, owner, file, false);
        let Ok(handle) = self.files.open(open_file) else {
            return Reply::Error(Errno::ENOMEM);
        };
        match self.ask_noted(owner, file, emptying.file, emptying.text, b"", 0) {
            Ok(()) => Reply::Opened {
                handle,
                flags: open_flags(file.kind()),
            },
            Err(errno) => {
                self.files.take_back(handle, count);
                Reply::Error(errno)
            }
        }
    }

    /// POLL: of a pipe whether a read of it would not wait; if it would, a poll may want to be told when it is ready. Other files are always ready.
    pub(crate) fn poll(&mut self, handle: u64, wakeup: u64, flags: u32) -> Reply<'static>
        ensures step { (past : List Request) → HasLedTo past self.old → IsStep past self.old self.new
            (poll_file (terms_of self.old) (service_of past self.old) handle wakeup flags (file_at handle self.old.files)) (Some result) }
        ensures short { IsShort result }
    {
        let Some(open_file) = self.files.get(handle) else {
            return Reply::Error(Errno::EBADF);
        };
        match open_file.file().kind() {
            FileKind::Pipe => {
                let waits = self.would_wait(open_file, &mut DryPipes::new());
                self.poll_pipe(handle, wakeup, flags, waits)
            }
            FileKind::RawPipe => {
                let waits = self.has_nothing(open_file);
                let reply = self.poll_pipe(handle, wakeup, flags, waits);
                self.files.note_poll(handle, !waits);
                reply
            }
            FileKind::Text
            | FileKind::Trace
            | FileKind::Inject
            | FileKind::Tool
            | FileKind::ErrorLog => Reply::Poll { events: READY_FILE },
        }
    }

    // POLL of a pipe.
    fn poll_pipe(&mut self, handle: u64, wakeup: u64, flags: u32, waits: bool) -> Reply<'static>
        ensures step { StepsBy self.old self.new (polled waits handle wakeup flags self.old.files) result }
        ensures short { IsShort result }
    {
        if flags % 2 == FUSE_POLL_SCHEDULE_NOTIFY {
            self.files.keep_poll(handle, wakeup, waits);
        }
        Reply::Poll {
            events: if waits { 0 } else { READY_PIPE },
        }
    }
}
