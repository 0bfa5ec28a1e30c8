//! Reads. The text of a trace or of a histogram may be long, so it is made after the turn, of a copy that was taken in it, while others have their turns:
//!
//! ```text
//!   turn       the read is done: its answer is in the history        copy
//!   after it   others have turns                                     copy ──> text, the last outcome
//! ```
//!
//! If memory is refused for the text, the read was done all the same, which changed nothing, and `Memory` is told (`LosesText`).

ghost use Rattle.std.specs.Prelude.{◌≡◌, true, None, IsSome, Result};
ghost use Rattle.std.specs.Option.{option_map};
ghost use Rattle.trace_command.specs.FileNames.{file_at};
ghost use Rattle.trace_command.specs.Paths as paths;
ghost use Rattle.trace_command.specs.declared.command.CommandOf.TheVariants as commands;
ghost use Rattle.refusal_explanations.specs.Words.{command_words};
ghost use Rattle.tracer.specs.LateReads.{replied};
ghost use Rattle.library_tracer.specs.Consoles.{outcome_of};
ghost use Rattle.library_tracer.specs.Inner.{words_in};
ghost use Rattle.library_tracer.specs.LateTexts.{MayLoseText, Reads, has_late_text};
ghost use Rattle.library_tracer.specs.Sentences.{answer_words};
ghost use Rattle.library_tracer.specs.Statuses.{status_of};

use super::{Console, Tried, forget, line_up, settle};
use crate::last::Last;
use crate::status::tell;
use refusal_explanations::command_words;
use shared_mount::NoTurn;
use std::alloc::Global;
use std::mem;
use trace_command::{
    Bytes, Command, CpuFile, EventFile, FileName, Refusal, Reply, TopFile, address_of,
};
use trace_instance::LateReply;
use trace_script::Outcome;

impl Console {
    /// Reads a file to its end, as `cat PATH` does; or, with a limit, at most so many records of a pipe, as `take LIMIT PATH`. The text of a trace or of a
    /// histogram is made after the turn, while others have theirs.
    ///
    /// `Memory` says that the read was not done. Of such a text alone it may also say that the read had its turn and was done, as the history has it, but
    /// that memory for the text was refused after the turn (`LosesText`). That read changed nothing, so it can be made again.
    pub fn read(&mut self, path: &[u8], limit: Option<u64>) -> Tried
        requires { IsSome self.old.has }
        ensures comes { Reads path.now limit self.old self.new result }
        ensures has { IsSome self.new.has }
    {
        if limit.is_none() && has_late_text(path) {
            return self.read_late(path);
        }
        let path = Bytes::new(path);
        self.run(Command::Read { path, limit })
    }

    // Reads a file whose text is made after the turn.
    fn read_late(&mut self, path: &[u8]) -> Tried
        requires has { IsSome self.old.has }
        requires late { has_late_text (paths.address_of path.now).file ≡ true }
        ensures comes { Reads path.now None self.old self.new result }
        ensures has { IsSome self.new.has }
    {
        forget(&mut self.shown);
        match mem::replace(&mut self.idle, None) {
            Some(caller) => match self.tracer.try_copy(caller, path, None) {
                Ok((caller, answer, owes)) => {
                    settle(&mut self.idle, caller);
                    let status = keep_read(self.alloc, &mut self.last, path, answer);
                    Tried::Told { status, owes }
                }
                Err(NoTurn::Busy(caller)) => {
                    settle(&mut self.idle, caller);
                    Tried::Busy
                }
                Err(NoTurn::Worn(caller)) => {
                    settle(&mut self.idle, caller);
                    let status = keep_read(self.alloc, &mut self.last, path, Err(Refusal::Worn));
                    Tried::Told {
                        status,
                        owes: false,
                    }
                }
            },
            None => self.read_late_in_line(path),
        }
    }

    // As `read_late`, of a caller that is in line.
    fn read_late_in_line(&mut self, path: &[u8]) -> Tried
        requires in_line { self.old.is_in_line ≡ true }
        requires late { has_late_text (paths.address_of path.now).file ≡ true }
        ensures comes { Reads path.now None self.old self.new result }
        ensures has { IsSome self.new.has }
    {
        forget(&mut self.shown);
        let Some(queued) = mem::replace(&mut self.queued, None) else {
            return Tried::Busy;
        };
        match self.tracer.copy_in_line(queued.into_line(), path, None) {
            Ok((caller, answer, owes)) => {
                settle(&mut self.idle, caller);
                let status = keep_read(self.alloc, &mut self.last, path, answer);
                Tried::Told { status, owes }
            }
            Err(line) => {
                line_up(&mut self.queued, line);
                Tried::Busy
            }
        }
    }
}

/// Whether the text of this file, if it is one, is made after the turn.
fn is_made_late(file: Option<FileName<'_>>) -> bool
    ensures { result ≡ has_late_text (option_map file_at file.entry) }
{
    match file {
        Some(FileName::OfInstance(TopFile::Trace | TopFile::Snapshot)) => true,
        Some(FileName::OfCpu(_, CpuFile::Trace)) => true,
        Some(FileName::OfEvent(_, EventFile::Hist)) => true,
        _ => false,
    }
}

/// Whether a path ends as those of these files do. Most don't, and their address isn't looked for.
fn may_be_late(path: &[u8]) -> bool
    ensures { has_late_text (paths.address_of path.now).file ≡ true → result ≡ true }
{
    path.ends_with(b"trace") || path.ends_with(b"snapshot") || path.ends_with(b"hist")
}

/// Whether the text of the file at this path is made after the turn.
fn has_late_text(path: &[u8]) -> bool
    ensures { result ≡ has_late_text (paths.address_of path.now).file }
{
    may_be_late(path) && is_made_late(address_of(path).file)
}

/// The answer of a read, or that memory is refused for its reply.
fn made(alloc: Global, answer: Result<LateReply, Refusal>) -> Result<Reply, Refusal>
    ensures { MayLoseText (replied answer) result }
{
    let late = answer?;
    let reply = late.reply(alloc)?;
    Ok(reply)
}

/// Keeps the answer of a read of a file to its end, or that memory is refused for its reply, and tells the status.
fn keep_read(alloc: Global, last: &mut Last, path: &[u8], answer: Result<LateReply, Refusal>) -> u8
    ensures kept { (told : Result Reply Refusal) × MayLoseText (replied answer) told × (last.new.outcome ≡ outcome_of told)
        × (words_in last.new ≡ answer_words (command_words (commands.Read path.now None)) told) }
    ensures status { result ≡ status_of last.new.outcome }
{
    match made(alloc, answer) {
        Ok(reply) => tell(last, Outcome::Replied(reply), ""),
        Err(refusal) => {
            let words = command_words(&Command::read(path), &refusal);
            tell(last, Outcome::Refused(refusal), words)
        }
    }
}
