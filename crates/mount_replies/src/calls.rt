//! Commands of the program that has the mounted tracer, which come by no request.
//!
//! They name files by paths, and their answers are those of a tracer that nobody mounted, with all that it promises of them. Open files and reads
//! that wait are left alone; what a call makes readable is owed then, and no refusal is noted in a log.
//!
//! The folders and files have to be those that the commands done give, as of requests (`asking.rt`). A refusal comes before all memory for that: a
//! declaration is prepared first, then its event is noted in the scene, then it is carried out. If that is refused memory, the note is taken back.

ghost use Rattle.std.specs.Prelude.{◌≡◌, ◌<◌, ◌≤◌, List, Some, is_some};
ghost use Rattle.trace_command.specs.Requests.{RemoveInstance, Request, request_of};
ghost use Rattle.trace_command.specs.declared.command.CommandOf.TheVariants as commands;
ghost use Rattle.trace_format.specs.Definitions.{Definition};
ghost use Rattle.tracer_specification.specs.Settings.{declared_events, declares};
ghost use Rattle.tracer.specs.Lives.{IsReadyFor, most_done};
ghost use Rattle.tracer_state.specs.ValueEmissions.{emission_by};
ghost use Rattle.mount_replies.specs.Calls.{IsCommanded, answer_of};
ghost use Rattle.mount_replies.specs.Mounted.{HasLedTo, IsMounted, service_of, terms_of};
ghost use Rattle.mount_replies.specs.Owed.{owed};
ghost use Rattle.mount_replies.specs.Steps.{Keeps};
ghost use Rattle.mount_replies.specs.private.Commandings.{CommandsBy, HasCommanded, IsDeclaration, IsReadied, RunsBy, RunsWithin};

use crate::following::{let_go, note_event};
use crate::mount::Mount;
use crate::noting::forget;
use file_list::Folder;
use mount_tree::{Node, Owner};
use trace_command::{Command, FileName, Refusal, Reply, address_of, instance_of};
use trace_script::declared;
use tracer::{MOST_DONE, Tracer};
use tracer_state::{Prepared, ValuesEmission};

// Puts an answer in its place, but not that a call was done, which is told instead. (An answer is 48 bytes, which few calls have moved.)
#[inline(always)]
pub(crate) fn put(answer: &mut Result<Reply, Refusal>, given: Result<Reply, Refusal>) -> bool
    ensures { answer_of result answer.new ≡ given }
{
    match given {
        Ok(Reply::Done) => true,
        given => {
            *answer = given;
            false
        }
    }
}

impl Mount {
    /// Runs a command of the program, or refuses it, as `Tracer::ask_within`: the answer is the one that the commands done before it give, whoever asked
    /// them, where a call does nothing more once so many commands were done. Requests are under no such limit. What it makes readable is owed to reads
    /// that wait and to polls. It may come while something is owed. It tells whether the answer is that it was done; another is put in the place of `answer`.
    pub fn call_within(
        &mut self,
        limit: u64,
        command: &Command<'_>,
        answer: &mut Result<Reply, Refusal>,
    ) -> bool
        requires { limit ≤ most_done }
        ensures { (past : List Request) → IsMounted past self.old
            → IsCommanded limit past self.old self.new (request_of command.now) (answer_of result answer.new) }
    {
        let given = self.run_within(limit, command);
        let is_done = put(answer, given);
        self.look_after_call();
        is_done
    }

    /// As `call_within`, for an emission by values, as `Tracer::ask_values_within`.
    #[inline(always)]
    pub fn call_values_within(
        &mut self,
        limit: u64,
        emission: &ValuesEmission<'_>,
        answer: &mut Result<Reply, Refusal>,
    ) -> bool
        requires { limit ≤ most_done }
        ensures { (past : List Request) → IsMounted past self.old
            → IsCommanded limit past self.old self.new (emission_by (declared_events past) emission.now) (answer_of result answer.new) }
    {
        let given = self.live.ask_values_within(
            limit,
            emission.event,
            emission.cpu,
            emission.pid,
            emission.values,
        );
        let is_done = put(answer, given);
        self.look_after_call();
        is_done
    }

    /// The tracer, to look at.
    #[inline(always)]
    pub fn tracer(&self) -> &Tracer
        ensures { result.now ≡ self.now.live }
    {
        &self.live
    }

    /// Works out whether something is owed after a call. Where no read is parked and no poll is to be told, that is a look at two fields.
    #[inline(always)]
    pub(crate) fn look_after_call(&mut self)
        ensures rest { self.new ≡ record self.old { owes = self.new.owes } }
        ensures owes { (past : List Request) → HasLedTo past self.old
            → self.new.owes ≡ is_some (owed (terms_of self.old) (service_of past self.old)) }
    {
        if self.parked.is_empty() && !self.files.may_wake() {
            self.owes = false;
            return;
        }
        self.look_for_owed();
    }

    // Runs a command, or where as many were done as the limit says, has the tracer refuse it.
    fn run_within(&mut self, limit: u64, command: &Command<'_>) -> Result<Reply, Refusal>
        requires { limit ≤ most_done }
        ensures { RunsWithin limit self.old self.new (request_of command.now) result }
    {
        if self.live.done() < limit {
            return self.run(command);
        }
        self.live.ask_within(limit, command)
    }

    // Runs a command.
    fn run(&mut self, command: &Command<'_>) -> Result<Reply, Refusal>
        ensures { RunsBy self.old self.new (request_of command.now) result }
    {
        match command {
            Command::Emit { .. } | Command::Read { .. } => self.live.ask(command),
            Command::Mkdir(path) => self.run_mkdir(command, path.as_bytes()),
            Command::Rmdir(path) => self.run_rmdir(command, path.as_bytes()),
            Command::Write { path, append, text } => {
                self.run_write(command, path.as_bytes(), *append, text.as_bytes())
            }
        }
    }

    // Makes the instance of a path, if the path is one's; else the tracer refuses the command.
    fn run_mkdir(&mut self, command: &Command<'_>, path: &[u8]) -> Result<Reply, Refusal>
        requires { command.now ≡ commands.Mkdir path.now }
        ensures { RunsBy self.old self.new (request_of command.now) result }
    {
        match instance_of(path) {
            Some(name) => self.ask_mkdir(name),
            None => self.live.ask(command),
        }
    }

    // Removes the instance of a path, likewise.
    fn run_rmdir(&mut self, command: &Command<'_>, path: &[u8]) -> Result<Reply, Refusal>
        requires { command.now ≡ commands.Rmdir path.now }
        ensures { RunsBy self.old self.new (request_of command.now) result }
    {
        match instance_of(path) {
            Some(name) => self.run_removal(name),
            None => self.live.ask(command),
        }
    }

    // Removes the instance of this name, and forgets its errors.
    fn run_removal(&mut self, name: &[u8]) -> Result<Reply, Refusal>
        ensures { RunsBy self.old self.new (RemoveInstance (Some name.now)) result }
    {
        let folder = self
            .scene
            .lookup(Node::Folder(Owner::Top, Folder::Instances), name);
        let reply = self.ask_rmdir(name)?;
        forget(&mut self.errors, folder);
        Ok(reply)
    }

    // Writes a text to the file of a path.
    fn run_write(
        &mut self,
        command: &Command<'_>,
        path: &[u8],
        append: bool,
        text: &[u8],
    ) -> Result<Reply, Refusal>
        requires { command.now ≡ commands.Write path.now append text.now }
        ensures { RunsBy self.old self.new (request_of command.now) result }
    {
        match address_of(path).file {
            Some(FileName::SyntheticEvents) => self.run_declaration(command, text),
            _ => self.live.ask(command),
        }
    }

    // Writes a text to the declarations.
    fn run_declaration(&mut self, command: &Command<'_>, text: &[u8]) -> Result<Reply, Refusal>
        requires { IsDeclaration text.now (request_of command.now) }
        ensures { CommandsBy self.old self.new (request_of command.now) result }
    {
        let prepared = self.live.prepare(MOST_DONE, command)?;
        match declared(self.alloc, text) {
            Ok(Some(event)) => self.carry_out_declaration(prepared, event.name()),
            Ok(None) => self.live.carry_out(prepared),
            Err(_) => {
                let_go(prepared);
                Err(Refusal::Memory)
            }
        }
    }

    // Declares the event of this name, as was prepared.
    fn carry_out_declaration(&mut self, prepared: Prepared, name: &[u8]) -> Result<Reply, Refusal>
        requires ready { IsReadyFor self.old.live prepared }
        requires room { self.old.live.done < most_done }
        ensures { (past : List Request) (request : Request) (event : Definition) → HasLedTo past self.old → IsReadied past self.old request prepared
            → declares request ≡ Some event → event.name ≡ name.now → HasCommanded most_done past self.old self.new request result Keeps }
    {
        let Ok(()) = note_event(&mut self.scene, name) else {
            let_go(prepared);
            return Err(Refusal::Memory);
        };
        match self.live.carry_out(prepared) {
            Ok(reply) => Ok(reply),
            Err(refusal) => {
                self.scene.take_back_event(name);
                Err(refusal)
            }
        }
    }
}
