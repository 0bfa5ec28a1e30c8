//! Calls that ask something: a line of a script, an emission, a write, a read. Each is one try, and what it came to is kept.

ghost use Rattle.std.specs.Prelude.{◌≡◌, ◌⊎◌, ℕ, List, true, Ok, IsSome, IfOk, IfErr, IfSome, MatchResult, IfNone};
ghost use Rattle.trace_command.specs.declared.command.CommandOf.TheVariants as commands;
ghost use Rattle.trace_script.specs.declared.line.Line.TheVariants as lines;
ghost use Rattle.shared_mount.specs.AskedRequests.{request_after};
ghost use Rattle.shared_mount.specs.MountCallers.{IsToldOf};
ghost use Rattle.library_tracer.specs.AskedWords.{words_asked};
ghost use Rattle.library_tracer.specs.Consoles.{Asks, Comes, LacksMemory, failed, says, said_by, said_emission, said_line, said_values, tells};
ghost use Rattle.library_tracer.specs.Masks.{Masks};
ghost use Rattle.library_tracer.specs.private.Turns.{HadNoTurn, IsSeenNow};
ghost use Rattle.library_tracer.specs.Sentences.{told_words};

use super::{Console, NO_MEMORY, Tried, forget, line_up, settle};
use crate::fields::{lone_pair, pairs};
use crate::looks::Wanted;
use crate::mask::Mask;
use crate::status::{keep, keep_worn};
use refusal_explanations::{injection_words, line_words};
use shared_mount::{Asked, Called, Look, Missed, Nothing, ValuesEmission};
use std::{mem, slice};
use trace_command::{Bytes, Command, Refusal, Reply};
use trace_format::FieldValue;
use trace_script::{Line, LineError, LineRoom, Outcome, ScriptFault, prepare};

impl Console {
    /// Does a line of a script, and tells which events are wanted then. Nothing is done, and told of events, for one of a parallel part, which is out of
    /// place.
    pub fn line(&mut self, line: &[u8], mask: &mut Mask) -> Tried
        requires { IsSome self.old.has }
        ensures comes { (Comes (said_line line.now) self.old self.new result × Masks (said_line line.now) self.new result mask.old mask.new)
            ⊎ (LacksMemory self.old self.new result × (mask.new ≡ mask.old)) }
        ensures has { IsSome self.new.has }
    {
        let mut room = LineRoom::new(self.alloc);
        let mut pairs = Vec::new(self.alloc);
        match asked_by(prepare(&mut room, &mut pairs, line)) {
            Ok(command) => self.run_masked(command, mask),
            Err(outcome) => {
                let words = told_words(line, &outcome);
                self.told(outcome, words)
            }
        }
    }

    /// Does an emission. Its fields are one string: `NAME=VALUE` for each, with a byte 0 between each two.
    pub fn emit(&mut self, event: &[u8], cpu: u32, pid: i32, fields: &[u8]) -> Tried
        requires { IsSome self.old.has }
        ensures comes { Comes (said_emission event.now cpu pid fields.now) self.old self.new result ⊎ LacksMemory self.old self.new result }
        ensures has { IsSome self.new.has }
    {
        match lone_pair(fields) {
            Some(pair) => {
                let pairs = slice::from_ref(&pair);
                self.run(Command::emit(event, cpu, pid, pairs))
            }
            None => self.ask_pairs(event, cpu, pid, fields),
        }
    }

    /// Does an emission of the event of this number: its position among the declarations, from 1, which its `format` shows as `ID`. The values are those of
    /// its fields, in order of declaration.
    #[inline(always)]
    pub fn emit_values(
        &mut self,
        event: u32,
        cpu: u32,
        pid: i32,
        values: &[FieldValue<'_>],
    ) -> Tried
        requires { IsSome self.old.has }
        ensures comes { Comes (said_values event cpu pid values.now) self.old self.new result }
        ensures has { IsSome self.new.has }
    {
        let emission = ValuesEmission {
            event,
            cpu,
            pid,
            values,
        };
        self.ask(Asked::Values(&emission), &Nothing).0
    }

    /// Writes a string to a file, as `echo TEXT > PATH` does, or appends it, as `echo TEXT >> PATH`, and tells which events are wanted then. One that takes
    /// no memory (`TakesNoMemory`), as to a switch, is never refused any.
    pub fn write(&mut self, path: &[u8], text: &[u8], append: bool, mask: &mut Mask) -> Tried
        requires { IsSome self.old.has }
        ensures comes { Comes (says (commands.Write path.now append text.now)) self.old self.new result }
        ensures has { IsSome self.new.has }
        ensures masked { Masks (says (commands.Write path.now append text.now)) self.new result mask.old mask.new }
    {
        let path = Bytes::new(path);
        let text = Bytes::new(text);
        self.run_masked(Command::Write { path, append, text }, mask)
    }
}

impl Console {
    /// Has the tracer run what is asked, in one try, and keeps the answer if there is one. In the same turn it looks at the tracer.
    #[inline(always)]
    fn ask<L: Look>(&mut self, asked: Asked<'_>, look: &L) -> (Tried, Option<L::Answer>)
        requires { IsSome self.old.has }
        ensures comes { Comes (Asks (λ entries. request_after entries asked.entry) (words_asked asked.entry)) self.old self.new result.0 }
        ensures has { IsSome self.new.has }
        ensures looked { IfSome result.1 (IsSeenNow (IsToldOf self.old.terms (L.tells look.now)) self.new result.0) }
        ensures unlooked { IfNone result.1 (HadNoTurn self.new result.0) }
    {
        forget(&mut self.shown);
        let Some(caller) = mem::replace(&mut self.idle, None) else {
            return self.ask_in_line(asked, look);
        };
        let (caller, tried) = self.tracer.try_call(caller, asked, look, &mut self.answer);
        settle(&mut self.idle, caller);
        match tried {
            Ok(called) => {
                let Called {
                    is_done,
                    told,
                    owes,
                } = called;
                let status = keep(&mut self.last, asked, is_done, &mut self.answer);
                (Tried::Told { status, owes }, Some(told))
            }
            Err(missed) => match missed {
                Missed::Busy => (Tried::Busy, None),
                Missed::Worn => {
                    let status = keep_worn(&mut self.last, asked);
                    (
                        Tried::Told {
                            status,
                            owes: false,
                        },
                        None,
                    )
                }
            },
        }
    }

    /// Has the tracer run a command.
    #[inline(always)]
    pub(super) fn run(&mut self, command: Command<'_>) -> Tried
        requires { IsSome self.old.has }
        ensures comes { Comes (says command.entry) self.old self.new result }
        ensures has { IsSome self.new.has }
    {
        self.ask(Asked::Command(&command), &Nothing).0
    }

    /// Has the tracer run a command that may change which events are wanted, and tells which are then.
    fn run_masked(&mut self, command: Command<'_>, mask: &mut Mask) -> Tried
        requires { IsSome self.old.has }
        ensures comes { Comes (says command.entry) self.old self.new result }
        ensures has { IsSome self.new.has }
        ensures masked { Masks (says command.entry) self.new result mask.old mask.new }
    {
        let (tried, wanted) = self.ask(Asked::Command(&command), &Wanted);
        *mask = wanted.unwrap_or(*mask);
        tried
    }

    /// As `ask`, of a caller that is in line, as few are.
    #[cold]
    #[inline(never)]
    fn ask_in_line<L: Look>(&mut self, asked: Asked<'_>, look: &L) -> (Tried, Option<L::Answer>)
        requires { self.old.is_in_line ≡ true }
        ensures comes { Comes (Asks (λ entries. request_after entries asked.entry) (words_asked asked.entry)) self.old self.new result.0 }
        ensures has { IsSome self.new.has }
        ensures looked { IfSome result.1 (IsSeenNow (IsToldOf self.old.terms (L.tells look.now)) self.new result.0) }
        ensures unlooked { IfNone result.1 (HadNoTurn self.new result.0) }
    {
        forget(&mut self.shown);
        let Some(queued) = mem::replace(&mut self.queued, None) else {
            return (Tried::Busy, None);
        };
        match self
            .tracer
            .call_in_line(queued.into_line(), asked, look, &mut self.answer)
        {
            Ok((caller, called)) => {
                settle(&mut self.idle, caller);
                let Called {
                    is_done,
                    told,
                    owes,
                } = called;
                let status = keep(&mut self.last, asked, is_done, &mut self.answer);
                (Tried::Told { status, owes }, Some(told))
            }
            Err(line) => {
                line_up(&mut self.queued, line);
                (Tried::Busy, None)
            }
        }
    }

    /// Does an emission of a string of fields, for which a list is allocated.
    fn ask_pairs(&mut self, event: &[u8], cpu: u32, pid: i32, fields: &[u8]) -> Tried
        requires { IsSome self.old.has }
        ensures comes { Comes (said_emission event.now cpu pid fields.now) self.old self.new result ⊎ LacksMemory self.old self.new result }
        ensures has { IsSome self.new.has }
    {
        match pairs(self.alloc, fields) {
            Ok(pairs) => self.run(Command::emit(event, cpu, pid, &pairs)),
            Err(LineError::Fault(fault)) => {
                self.told(Outcome::Fault(fault), injection_words(None))
            }
            Err(LineError::Memory) => self.told(Outcome::Refused(Refusal::Memory), NO_MEMORY),
        }
    }
}

/// The command that a line asks for, or what is told of a line that asks for none.
#[inline(always)]
fn asked_by(read: Result<Line<'_>, LineError>) -> Result<Command<'_>, Outcome>
    ensures asks { IfOk result (λ command. read.entry ≡ Ok (lines.Ask command)) }
    ensures tells { IfErr result (λ outcome. MatchResult read.entry (λ line. (text : List ℕ) → said_by text (Ok line) ≡ tells text outcome)
        (λ error. outcome ≡ failed error)) }
{
    match read {
        Ok(Line::Ask(command)) => Ok(command),
        Ok(Line::Blank) => Err(Outcome::Replied(Reply::Done)),
        Ok(Line::Parallel | Line::Thread | Line::End) => {
            Err(Outcome::Fault(ScriptFault::BlockOutOfPlace))
        }
        Err(error) => Err(failed(error)),
    }
}

/// What is wrong with a line that asks for nothing, in words.
fn told_words(line: &[u8], outcome: &Outcome) -> &'static str
    ensures { result.now ≡ told_words line.now outcome.now }
{
    match outcome {
        Outcome::Replied(_) => "",
        Outcome::Refused(_) => NO_MEMORY,
        Outcome::Fault(fault) => line_words(line, *fault),
    }
}

/// What is told of a line that was not read.
fn failed(error: LineError) -> Outcome
    ensures { result ≡ failed error }
{
    match error {
        LineError::Fault(fault) => Outcome::Fault(fault),
        LineError::Memory => Outcome::Refused(Refusal::Memory),
    }
}
