//! Writes to open files, and folders that are made and removed.

ghost use Rattle.std.specs.Prelude.{◌≡◌, ◌<◌, ◌^◌, List, Some, length, true};
ghost use Rattle.trace_command.specs.Requests.{Request};
ghost use Rattle.tracer_specification.specs.Settings.{now_of};
ghost use Rattle.file_list.specs.FileKinds.{kind_of_file};
ghost use Rattle.mount_tree.specs.Children.{is_there};
ghost use Rattle.mount_tree.specs.declared.node.Node.TheVariants as nodes;
ghost use Rattle.mount_stub_files.specs.ToolWrites.{tool_write};
ghost use Rattle.mount_replies.specs.FileWrites.{switch_text as text_of_switch, write_file, write_log as log_step, write_other as other_step, write_same, write_switch as switch_step, write_text as text_step, write_tool as tool_step};
ghost use Rattle.mount_replies.specs.Mounted.{HasLedTo, IsStep, StepsBy, service_of, terms_of};
ghost use Rattle.mount_replies.specs.Served.{make_folder as making, make_instance as making_instance, remove_folder as removing, remove_instance};
ghost use Rattle.mount_replies.specs.Services.{OpenSeen, file_at};
ghost use Rattle.mount_replies.specs.Told.{known};
ghost use Rattle.mount_replies.specs.private.ShortReplies.{IsShort};
ghost use Rattle.mount_replies.specs.private.Targets.{EndsCommands, IsTarget, NotesLine};

use crate::errno::errno_of_refused;
use crate::fault::{LineFault, Progress, Stop};
use crate::mount::Mount;
use crate::noting::{forget, note_command, note_wrong};
use fuse_wire::{Errno, Reply};
use mount_stub_files::{ToolWrite, write_of, wrong_offset};
use mount_tree::{File, FileKind, Folder, Node, Owner};
use trace_command::Refusal;

/// An open file that is written to: its handle, whose it is and which, and whether a write appends.
#[derive(Clone, Copy)]
pub(crate) struct Target {
    pub(crate) handle: u64,
    pub(crate) owner: Owner,
    pub(crate) file: File,
    pub(crate) append: bool,
}

/// What is written to a switch.
fn switch_text(on: bool) -> &'static [u8]
    ensures { result.now ≡ text_of_switch on }
{
    if on { b"1" } else { b"0" }
}

impl Mount {
    /// WRITE.
    pub(crate) fn write(
        &mut self,
        handle: u64,
        lock_owner: u64,
        pid: u32,
        bytes: &[u8],
    ) -> Reply<'static>
        requires { length bytes.now < 2 ^ 32 }
        ensures step { (past : List Request) → HasLedTo past self.old → IsStep past self.old self.new
            (write_file (terms_of self.old) (service_of past self.old) handle lock_owner pid bytes.now (file_at handle self.old.files)) (Some result) }
        ensures short { IsShort result }
    {
        let Some(open_file) = self.files.get(handle) else {
            return Reply::Error(Errno::EBADF);
        };
        let target = Target {
            handle,
            owner: open_file.owner(),
            file: open_file.file(),
            append: !open_file.starts_over(),
        };
        if !self.scene.exists(Node::File(target.owner, target.file)) {
            return Reply::Error(Errno::ENOENT);
        }
        match target.file {
            File::Inject(event) => self.inject(target, event, lock_owner, pid, bytes),
            _ => self.write_other(target, bytes),
        }
    }

    // WRITE of a file other than `inject`.
    fn write_other(&mut self, target: Target, bytes: &[u8]) -> Reply<'static>
        requires few { length bytes.now < 2 ^ 32 }
        requires there { is_there self.old.scene (nodes.File target.owner target.file) ≡ true }
        ensures step { (past : List Request) (own : OpenSeen) → HasLedTo past self.old → IsTarget own target → IsStep past self.old self.new
            (other_step (terms_of self.old) (service_of past self.old) target.handle own bytes.now (kind_of_file target.file)) (Some result) }
        ensures short { IsShort result }
    {
        match target.file.kind() {
            FileKind::Tool => self.write_tool(target, bytes),
            FileKind::ErrorLog => self.write_log(target.handle, target.owner, bytes),
            FileKind::Text
            | FileKind::Trace
            | FileKind::Pipe
            | FileKind::RawPipe
            | FileKind::Inject => self.write_text(target, bytes),
        }
    }

    // A write that changes nothing.
    fn write_nothing(&mut self, handle: u64, bytes: &[u8]) -> Reply<'static>
        requires { length bytes.now < 2 ^ 32 }
        ensures step { StepsBy self.old self.new (write_same handle (length bytes.now) self.old.files) result }
        ensures short { IsShort result }
    {
        self.files.note_write(handle);
        Reply::Written {
            size: bytes.len() as u32,
        }
    }

    // A write to `error_log`: the errors of its instance are forgotten.
    fn write_log(&mut self, handle: u64, owner: Owner, bytes: &[u8]) -> Reply<'static>
        requires { length bytes.now < 2 ^ 32 }
        ensures step { (past : List Request) (own : OpenSeen) → HasLedTo past self.old → own.owner ≡ owner
            → IsStep past self.old self.new (log_step (service_of past self.old) handle own bytes.now) (Some result) }
        ensures short { IsShort result }
    {
        self.errors.clear(owner);
        self.files.note_write(handle);
        Reply::Written {
            size: bytes.len() as u32,
        }
    }

    // WRITE of a file that tools ask for.
    fn write_tool(&mut self, target: Target, bytes: &[u8]) -> Reply<'static>
        requires { length bytes.now < 2 ^ 32 }
        ensures step { (past : List Request) (own : OpenSeen) → HasLedTo past self.old → IsTarget own target → IsStep past self.old self.new
            (tool_step (terms_of self.old) (service_of past self.old) target.handle own bytes.now
            (tool_write self.old.live.config self.old.scene target.owner target.file bytes.now)) (Some result) }
        ensures short { IsShort result }
    {
        let Target { owner, file, .. } = target;
        match write_of(self.live.config(), &self.scene, owner, file, bytes) {
            ToolWrite::Missing => Reply::Error(Errno::ENOENT),
            ToolWrite::Wrong => self.refuse_wrong(owner, file, bytes),
            ToolWrite::Same => self.write_nothing(target.handle, bytes),
            ToolWrite::Switch {
                file: switch,
                on,
                size,
            } => self.write_switch(target, switch, on, size as u32, bytes),
        }
    }

    // Refuses what a file can't be set to.
    fn refuse_wrong(&mut self, owner: Owner, file: File, bytes: &[u8]) -> Reply<'static>
        ensures step { (past : List Request) (own : OpenSeen) → HasLedTo past self.old → own.owner ≡ owner → own.file ≡ file
            → IsStep past self.old self.new
            (tool_step (terms_of self.old) (service_of past self.old) 0 own bytes.now ToolWrite.Wrong) (Some result) }
        ensures short { IsShort result }
    {
        let Ok(()) = self.begin_note(owner, file) else {
            return Reply::Error(Errno::ENOMEM);
        };
        note_wrong(&mut self.errors, file, bytes);
        Reply::Error(Errno::EINVAL)
    }

    // Writes to a switch what does so many bytes.
    fn write_switch(
        &mut self,
        target: Target,
        switch: File,
        on: bool,
        size: u32,
        bytes: &[u8],
    ) -> Reply<'static>
        requires { is_there self.old.scene (nodes.File target.owner switch) ≡ true }
        ensures step { (past : List Request) (own : OpenSeen) → HasLedTo past self.old → IsTarget own target → IsStep past self.old self.new
            (switch_step (terms_of self.old) (service_of past self.old) target.handle own bytes.now switch on size) (Some result) }
        ensures short { IsShort result }
    {
        let at = wrong_offset(bytes);
        match self.ask_noted(
            target.owner,
            target.file,
            switch,
            switch_text(on),
            bytes,
            at,
        ) {
            Ok(()) => {
                self.files.note_write(target.handle);
                Reply::Written { size }
            }
            Err(errno) => Reply::Error(errno),
        }
    }

    // WRITE of a file that the tracer has.
    fn write_text(&mut self, target: Target, bytes: &[u8]) -> Reply<'static>
        requires few { length bytes.now < 2 ^ 32 }
        requires there { is_there self.old.scene (nodes.File target.owner target.file) ≡ true }
        ensures step { (past : List Request) (own : OpenSeen) → HasLedTo past self.old → IsTarget own target → IsStep past self.old self.new
            (text_step (terms_of self.old) (service_of past self.old) target.handle own bytes.now) (Some result) }
        ensures short { IsShort result }
    {
        let time = self.live.now();
        let progress = self.do_commands(target, bytes);
        self.end_commands(target, time, bytes.len() as u32, progress)
    }

    // Tells how many bytes were written of lines that are commands, or why none were, which is noted of a write that came at this time.
    fn end_commands(
        &mut self,
        target: Target,
        time: u64,
        size: u32,
        progress: Progress<'_>,
    ) -> Reply<'static>
        requires { progress.done < 2 ^ 32 }
        ensures ends { EndsCommands self.old self.new target time size progress.entry result }
        ensures short { IsShort result }
    {
        let Progress { done, stop } = progress;
        let Some(stop) = stop else {
            if done > 0 {
                self.files.note_write(target.handle);
            }
            return Reply::Written { size };
        };
        if done > 0 {
            self.files.note_write(target.handle);
            return Reply::Written { size: done as u32 };
        }
        Reply::Error(self.note_line(target, time, stop).errno())
    }

    // Notes why a line is not done, of a write that came at this time. What is told: that, or that there was no memory to note it.
    fn note_line(&mut self, target: Target, time: u64, stop: Stop<'_>) -> LineFault
        ensures { NotesLine self.old self.new target time stop.entry result }
    {
        let Target { owner, file, .. } = target;
        let Ok(path) = self.path_of(owner, file) else {
            return LineFault::Refused(Refusal::Memory);
        };
        let Ok(()) = self.errors.begin(owner, time, path.as_bytes()) else {
            return LineFault::Refused(Refusal::Memory);
        };
        note_command(
            &mut self.errors,
            path.as_bytes(),
            file,
            stop.line,
            &stop.fault,
        );
        stop.fault
    }

    /// MKDIR: in `instances` alone.
    pub(crate) fn make_folder(&mut self, folder: Option<Node>, name: &[u8]) -> Reply<'static>
        ensures step { StepsBy self.old self.new
            (making (terms_of self.old) self.old.scene name.now self.old.files (known self.old.scene folder)) result }
        ensures short { IsShort result }
    {
        match self.known(folder) {
            Some(Node::Folder(Owner::Top, Folder::Instances)) => self.make_instance(name),
            Some(_) => Reply::Error(Errno::EPERM),
            None => Reply::Error(Errno::ENOENT),
        }
    }

    fn make_instance(&mut self, name: &[u8]) -> Reply<'static>
        ensures step { StepsBy self.old self.new
            (making_instance (terms_of self.old) self.old.scene name.now self.old.files) result }
        ensures short { IsShort result }
    {
        let Some(serial) = self.scene.next_serial() else {
            return Reply::Error(Errno::ENOSPC);
        };
        match self.ask_mkdir(name) {
            Ok(_) => {
                let node = Node::Folder(Owner::Made(serial), Folder::Root);
                Reply::Entry {
                    node: node.number(),
                    attributes: self.attributes_of(node, 0),
                }
            }
            Err(refusal) => Reply::Error(errno_of_refused(refusal)),
        }
    }

    /// RMDIR: in `instances` alone.
    pub(crate) fn remove_folder(&mut self, folder: Option<Node>, name: &[u8]) -> Reply<'static>
        ensures step { StepsBy self.old self.new
            (removing self.old.scene name.now self.old.files (known self.old.scene folder)) result }
        ensures short { IsShort result }
    {
        match self.known(folder) {
            Some(Node::Folder(Owner::Top, Folder::Instances)) => self.remove_instance(name),
            Some(_) => Reply::Error(Errno::EPERM),
            None => Reply::Error(Errno::ENOENT),
        }
    }

    fn remove_instance(&mut self, name: &[u8]) -> Reply<'static>
        ensures step { StepsBy self.old self.new (remove_instance self.old.scene name.now self.old.files) result }
        ensures short { IsShort result }
    {
        let instances = Node::Folder(Owner::Top, Folder::Instances);
        let folder = self.scene.lookup(instances, name);
        match self.ask_rmdir(name) {
            Ok(_) => {
                forget(&mut self.errors, folder);
                Reply::Done
            }
            Err(refusal) => Reply::Error(errno_of_refused(refusal)),
        }
    }
}
