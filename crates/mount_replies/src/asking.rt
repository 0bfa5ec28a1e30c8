//! Commands that a mounted tracer asks of its tracer.
//!
//! A file is read and written by its address; a path is made only to note a refusal. The folders and files have to be those that the commands done give: a
//! command that may add to them is noted in the scene before it is done, which takes memory, and the note is taken back if it is refused (`following.rt`;
//! a declaration is noted before its refusals are looked for). One that removes an instance takes no memory, and the scene follows it.

ghost use Rattle.std.specs.Prelude.{◌≡◌, ◌∷◌, ◌++◌, [], Bool, false, true, IfOk, None, OnErr, OnOk, List, Some};
ghost use Rattle.std.specs.Result.{result_ok};
ghost use Rattle.trace_format.specs.Reading.{definition_of};
ghost use Rattle.trace_command.specs.Requests.{MakeInstance, RemoveInstance, Request, request_of};
ghost use Rattle.tracer_specification.specs.Settings.{declares, made, now_of, removed, ticks};
ghost use Rattle.error_log.specs.Errors.{begun};
ghost use Rattle.mount_tree.specs.Children.{is_there};
ghost use Rattle.mount_tree.specs.NodePaths.{path_of};
ghost use Rattle.mount_tree.specs.declared.node.Node.TheVariants as nodes;
ghost use Rattle.mount_replies.specs.Lines.{noted_answer};
ghost use Rattle.mount_replies.specs.Mounted.{AsksBy, HasLedTo, IsAsked, IsQuiet};
ghost use Rattle.mount_replies.specs.Steps.{read_of, write_of};
ghost use Rattle.mount_replies.specs.UntoldAnswers.{AsksUntold};
ghost use Rattle.mount_replies.specs.private.Commandings.{CommandsBy};
ghost use Rattle.mount_replies.specs.private.LineRuns.{StaysThere};
ghost use Rattle.mount_replies.specs.private.Notings.{AsksNoted};

use crate::errno::errno_of_refused;
use crate::following::{let_go, note_instance};
use crate::mount::Mount;
use crate::noting::note_answer;
use fuse_wire::Errno;
use mount_tree::{File, Node, Owner};
use std::alloc::{AllocError, Global};
use trace_command::{Command, Refusal, Reply};
use trace_format::EventDef;
use trace_lex::Text;
use trace_script::declared;
use tracer::MOST_DONE;

impl Mount {
    /// The path of a file.
    pub(crate) fn path_of(&self, owner: Owner, file: File) -> Result<Text, AllocError>
        ensures { IfOk result (λ path. path ≡ path_of self.now.scene (nodes.File owner file)) }
    {
        let mut path = Vec::new(self.alloc);
        self.scene.path(Node::File(owner, file), &mut path)?;
        Ok(Text::from(path))
    }

    /// Asks an emission.
    pub(crate) fn ask_emission(&mut self, command: &Command<'_>) -> Result<Reply, Refusal>
        requires quiet { IsQuiet (request_of command.now) }
        requires emits { ticks (request_of command.now) ≡ 1 }
        ensures { AsksBy self.old self.new (request_of command.now) result }
    {
        self.live.ask(command)
    }

    /// Reads a file that is there; of a pipe at most so many records.
    pub(crate) fn ask_read(
        &mut self,
        owner: Owner,
        file: File,
        limit: Option<u64>,
    ) -> Result<Reply, Refusal>
        requires { is_there self.old.scene (nodes.File owner file) ≡ true }
        ensures { AsksBy self.old self.new (read_of self.old.scene (nodes.File owner file) limit) result }
    {
        let address = self.scene.address(owner, file);
        self.live.read_at(address, limit)
    }

    /// Reads at most so many records of a file that is there, of which no text is made.
    pub(crate) fn ask_take(&mut self, owner: Owner, file: File, most: u64) -> Result<(), Refusal>
        requires { is_there self.old.scene (nodes.File owner file) ≡ true }
        ensures { AsksUntold self.old self.new (read_of self.old.scene (nodes.File owner file) (Some most)) result }
    {
        let address = self.scene.address(owner, file);
        self.live.take_at(address, most)
    }

    /// Writes a text to a file that is there, by `>` or, to append, by `>>`.
    pub(crate) fn ask_write(
        &mut self,
        owner: Owner,
        file: File,
        append: bool,
        text: &[u8],
    ) -> Result<Reply, Refusal>
        requires { is_there self.old.scene (nodes.File owner file) ≡ true }
        ensures asked { AsksBy self.old self.new (write_of self.old.scene (nodes.File owner file) append text.now) result }
        ensures stays { StaysThere self.old.scene self.new.scene owner file }
        ensures refused { OnErr result (self.new.scene ≡ self.old.scene) }
    {
        match file {
            File::SyntheticEvents => self.declare(owner, append, text),
            _ => self.write_at(owner, file, append, text),
        }
    }

    // Writes a text to a file that is there, which declares no event.
    fn write_at(
        &mut self,
        owner: Owner,
        file: File,
        append: bool,
        text: &[u8],
    ) -> Result<Reply, Refusal>
        requires { is_there self.old.scene (nodes.File owner file) ≡ true }
        ensures asked { (past : List Request) → HasLedTo past self.old
            → declares (write_of self.old.scene (nodes.File owner file) append text.now) ≡ None
            → IsAsked past self.old self.new (write_of self.old.scene (nodes.File owner file) append text.now) result }
        ensures scene { self.new.scene ≡ self.old.scene }
    {
        let address = self.scene.address(owner, file);
        self.live.write_at(address, append, text)
    }

    // Writes a text to the declarations.
    fn declare(&mut self, owner: Owner, append: bool, text: &[u8]) -> Result<Reply, Refusal>
        requires { is_there self.old.scene (nodes.File owner File.SyntheticEvents) ≡ true }
        ensures asked { AsksBy self.old self.new (write_of self.old.scene (nodes.File owner File.SyntheticEvents) append text.now) result }
        ensures stays { StaysThere self.old.scene self.new.scene owner File.SyntheticEvents }
        ensures refused { OnErr result (self.new.scene ≡ self.old.scene) }
    {
        match declared(self.alloc, text) {
            Ok(Some(event)) => self.declare_event(owner, append, text, &event),
            Ok(None) => self.write_at(owner, File::SyntheticEvents, append, text),
            Err(_) => Err(Refusal::Memory),
        }
    }

    // Writes a text that declares this event.
    fn declare_event(
        &mut self,
        owner: Owner,
        append: bool,
        text: &[u8],
        event: &EventDef,
    ) -> Result<Reply, Refusal>
        requires there { is_there self.old.scene (nodes.File owner File.SyntheticEvents) ≡ true }
        requires declared { result_ok (definition_of text.now) ≡ Some event.now }
        ensures asked { AsksBy self.old self.new (write_of self.old.scene (nodes.File owner File.SyntheticEvents) append text.now) result }
        ensures stays { StaysThere self.old.scene self.new.scene owner File.SyntheticEvents }
        ensures refused { OnErr result (self.new.scene ≡ self.old.scene) }
    {
        if !self.scene.can_declare() {
            return Err(Refusal::Memory);
        }
        let name = event.name();
        let Ok(()) = self.scene.add_event(name) else {
            return Err(Refusal::Memory);
        };
        let address = self.scene.address(owner, File::SyntheticEvents);
        match self.live.write_at(address, append, text) {
            Ok(reply) => Ok(reply),
            Err(refusal) => {
                self.scene.take_back_event(name);
                Err(refusal)
            }
        }
    }

    /// Notes a write to a file that was refused. If memory is refused, nothing has changed.
    pub(crate) fn begin_note(&mut self, owner: Owner, file: File) -> Result<(), AllocError>
        ensures ok { (past : List Request) → HasLedTo past self.old → OnOk result (self.new ≡ record self.old {
          errors = self.old.errors ++ begun owner (now_of past) (path_of self.old.scene (nodes.File owner file)) ∷ [];
        }) }
        ensures err { OnErr result (self.new ≡ self.old) }
    {
        let path = self.path_of(owner, file)?;
        let time = self.live.now();
        self.errors.begin(owner, time, path.as_bytes())
    }

    /// Writes a text to a file by `>`, for the write of another, `shown`, to a file that one opened, which is noted if it is refused, as to blame at an
    /// offset.
    pub(crate) fn ask_noted(
        &mut self,
        owner: Owner,
        file: File,
        asked: File,
        text: &[u8],
        shown: &[u8],
        at: usize,
    ) -> Result<(), Errno>
        requires { is_there self.old.scene (nodes.File owner asked) ≡ true }
        ensures { (past : List Request) → HasLedTo past self.old
            → AsksNoted past self.old self.new (write_of self.old.scene (nodes.File owner asked) false text.now)
            (noted_answer (begun owner (now_of past) (path_of self.old.scene (nodes.File owner file)))
            (path_of self.old.scene (nodes.File owner asked)) text.now shown.now at) result }
    {
        match self.ask_write(owner, asked, false, text) {
            Ok(_) => Ok(()),
            // Where it isn't noted, the refusal is let go by a call, so that the proof doesn't follow its parts.
            Err(refusal) => {
                let Ok(path) = self.path_of(owner, asked) else {
                    drop(refusal);
                    return Err(Errno::ENOMEM);
                };
                let Ok(()) = self.begin_note(owner, file) else {
                    drop(refusal);
                    return Err(Errno::ENOMEM);
                };
                note_answer(&mut self.errors, path.as_bytes(), text, shown, at, &refusal);
                Err(errno_of_refused(refusal))
            }
        }
    }

    /// Makes the instance of this name.
    pub(crate) fn ask_mkdir(&mut self, name: &[u8]) -> Result<Reply, Refusal>
        ensures asked { AsksBy self.old self.new (MakeInstance (Some name.now)) result }
        ensures commanded { CommandsBy self.old self.new (MakeInstance (Some name.now)) result }
    {
        let prepared = self.live.prepare_making(MOST_DONE, name)?;
        let Ok(()) = note_instance(&mut self.scene, name) else {
            let_go(prepared);
            return Err(Refusal::Memory);
        };
        match self.live.carry_out(prepared) {
            Ok(reply) => Ok(reply),
            Err(refusal) => {
                self.scene.take_back_instance();
                Err(refusal)
            }
        }
    }

    /// Removes the instance of this name.
    pub(crate) fn ask_rmdir(&mut self, name: &[u8]) -> Result<Reply, Refusal>
        ensures asked { AsksBy self.old self.new (RemoveInstance (Some name.now)) result }
        ensures commanded { CommandsBy self.old self.new (RemoveInstance (Some name.now)) result }
    {
        let reply = self.live.remove_instance(name)?;
        self.scene.remove_instance(name);
        Ok(reply)
    }
}
