//! What is left of a stream of lines where a descriptor or the file is closed.

ghost use Rattle.std.specs.Prelude.{◌≡◌, ◌&&◌, is_some, List, Some};
ghost use Rattle.std.specs.List.{slice_get};
ghost use Rattle.trace_format.specs.Definitions.{Definition};
ghost use Rattle.trace_command.specs.Requests.{Request};
ghost use Rattle.tracer_specification.specs.Settings.{declared_events};
ghost use Rattle.mount_tree.specs.Children.{is_there};
ghost use Rattle.mount_tree.specs.declared.node.Node.TheVariants as nodes;
ghost use Rattle.mount_replies.specs.FileWrites as writes;
ghost use Rattle.mount_replies.specs.Mounted.{HasLedTo, IsStep, service_of, terms_of};
ghost use Rattle.mount_replies.specs.Services.{OpenSeen, file_at};
ghost use Rattle.mount_replies.specs.private.ShortReplies.{IsShort};
ghost use Rattle.mount_replies.specs.private.Targets.{EndsLine};
ghost use Rattle.mount_replies.specs.Lines as lines;

use crate::commands::is_blank;
use crate::fault::{LineFault, Stop};
use crate::mount::Mount;
use fuse_wire::{Errno, Reply};
use mount_tree::{File, Node, Owner};

impl Mount {
    // Does a line that was kept of a stream, as an event of the process that wrote it, or notes why not.
    fn end_line(&mut self, owner: Owner, event: u8, pid: u32, line: &[u8]) -> Result<(), LineFault>
        ensures { (past : List Request) (own : OpenSeen) (is : Definition) → HasLedTo past self.old → own.owner ≡ owner
            → own.file ≡ File.Inject event → slice_get (declared_events past) event ≡ Some is
            → EndsLine past self.old self.new own is (lines.asked_by_line self.old.live.config.cpus pid is) line.now result }
    {
        if is_blank(line) {
            return Ok(());
        }
        match self.do_injection(event, pid, line) {
            Ok(()) => Ok(()),
            Err(fault) => {
                let stop = Stop { line, fault };
                Err(self.note_injection(owner, File::Inject(event), event, stop))
            }
        }
    }

    // Whether the events of an open `inject` can be made: its instance and its event are there.
    fn can_inject(&self, owner: Owner, event: u8) -> bool
        ensures { (past : List Request) → HasLedTo past self.now → result ≡
            is_there self.now.scene (nodes.File owner (File.Inject event)) && is_some (slice_get (declared_events past) event) }
    {
        self.scene.exists(Node::File(owner, File::Inject(event)))
            && self.live.event(usize::from(event)).is_some()
    }

    /// FLUSH: the line that is kept of a stream ends with the descriptors of who wrote it.
    pub(crate) fn flush(&mut self, handle: u64, lock_owner: u64) -> Reply<'static>
        ensures step { (past : List Request) → HasLedTo past self.old → IsStep past self.old self.new
            (writes.flush_file (terms_of self.old) (service_of past self.old) handle lock_owner (file_at handle self.old.files)) (Some result) }
        ensures short { IsShort result }
    {
        let Some(open_file) = self.files.get(handle) else {
            return Reply::Done;
        };
        let owner = open_file.owner();
        let stream = open_file.stream();
        let pid = stream.pid;
        if stream.rest.as_bytes().is_empty() || stream.lock_owner != lock_owner {
            return Reply::Done;
        }
        let File::Inject(event) = open_file.file() else {
            return Reply::Error(Errno::ENOENT);
        };
        if !self.can_inject(owner, event) {
            return Reply::Error(Errno::ENOENT);
        }
        let line = self.files.take_rest(handle);
        match self.end_line(owner, event, pid, line.as_bytes()) {
            Ok(()) => Reply::Done,
            Err(fault) => Reply::Error(fault.errno()),
        }
    }

    /// RELEASE: the line that is kept of a stream ends with its open file.
    pub(crate) fn release(&mut self, handle: u64) -> Reply<'static>
        ensures step { (past : List Request) → HasLedTo past self.old → IsStep past self.old self.new
            (writes.release (terms_of self.old) (service_of past self.old) handle (file_at handle self.old.files)) (Some result) }
        ensures short { IsShort result }
    {
        let Some(open_file) = self.files.close(handle) else {
            return Reply::Error(Errno::EBADF);
        };
        let owner = open_file.owner();
        let stream = open_file.stream();
        if stream.rest.as_bytes().is_empty() {
            return Reply::Done;
        }
        let File::Inject(event) = open_file.file() else {
            return Reply::Done;
        };
        if !self.can_inject(owner, event) {
            return Reply::Done;
        }
        match self.end_line(owner, event, stream.pid, stream.rest.as_bytes()) {
            Ok(()) => Reply::Done,
            Err(fault) => Reply::Error(fault.errno()),
        }
    }
}
