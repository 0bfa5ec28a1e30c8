//! One item of a session: a single line or a part runs, and its output is written.

ghost use Rattle.std.specs.Prelude.{◌≡◌, ◌≢◌, ◌≤◌, true, None, Ok, vec_len, IfOk};
ghost use Rattle.ticket_lock.specs.Calls.{view_of, IsOf};
ghost use Rattle.trace_command.specs.declared.command.Config.{Config};
ghost use Rattle.script_reader.specs.declared.item.ItemRead.TheVariants as reads;
ghost use Rattle.script_reader.specs.NextItems.{item_read, IsSaid};
ghost use Rattle.script_reader.specs.FewThreads.{HasFewThreads};
ghost use Rattle.script_reader.specs.PartReads.{commands_in};
ghost use Rattle.script_reader.specs.ScriptLines.{lines_of};
ghost use Rattle.trace_script.specs.Lines.{line_of};
ghost use Rattle.trace_script.specs.declared.line.Line.TheVariants.{Ask};
ghost use Rattle.trace_session.specs.Heard.{numbers_in};
ghost use Rattle.trace_session.specs.private.HeardItems.{AreInOrder, HasItsLines};
ghost use Rattle.trace_session.specs.private.ItemRuns.{RunsItem};
ghost use Rattle.trace_session.specs.private.LineRuns.{RunsLine, outlet};
ghost use Rattle.trace_session.specs.Passes.{IsSessionPass};

use crate::device::Sink;
use crate::environment::Environment;
use crate::line::{ask_command, unasked};
use crate::part_run::run_part;
use crate::replies::Replies;
use crate::status::Status;
use crate::told::{give, give_answer, give_part};
use script_reader::Stop;
use script_reader::item::ItemRead;
use script_reader::part_line::PartLine;
use shared_book::SharedBook;
use std::alloc::Global;
use std::sync::Wait;
use std::thread;
use ticket_lock::Pass;
use trace_command::{Command, Refusal, Reply};
use trace_script::{Line, Outcome, ScriptFault};
use trace_workers::Gate;

/// A line, or the lines of a part, with the number of the first.
#[derive(Clone, Copy)]
pub(crate) struct NumberedText<'a> {
    pub number: usize,
    pub text: &'a [u8],
}

/// Whether a command was done and has nothing to show, and the writer hears nothing.
#[inline(always)]
fn is_silent<W: Sink>(answer: &Result<Reply, Refusal>, writer: &W) -> bool
    ensures done { result ≡ true → answer.now ≡ Ok Reply.Done }
    ensures unheard { result ≡ true → W.heard writer.now ≡ None }
{
    matches!(answer, Ok(Reply::Done)) && !writer.hears()
}

/// Runs the command that a line asks for, and writes its output. One that is done and has nothing to show prints nothing, so that only a writer that
/// hears is told of it. It is inlined, so that neither the command nor its answer is moved.
#[inline(always)]
#[tactic(auto, using(crate::proofs::Stepping::done_unheard, crate::proofs::Stepping::untold_flushed))]
pub(crate) fn do_command<B: SharedBook, R: Wait, W: Sink, G>(
    env: &Environment<'_, B, R, G>,
    pass: Pass<B>,
    line: NumberedText<'_>,
    command: &Command<'_>,
    replies: &mut Replies,
    writer: &mut W,
) -> (Pass<B>, Result<Status, Stop>)
    requires of { IsOf env.now.lock.now pass }
    requires says { line_of line.text.now ≡ Ok (Ask command.now) }
    ensures of { IsOf env.now.lock.now result.0 }
    ensures ran { RunsLine W.wants_first line.entry.number line.entry.text.now (view_of pass) (view_of result.0)
        (outlet (W.contents writer.old) (W.failures writer.old) (W.heard writer.old) replies.old)
        (outlet (W.contents writer.new) (W.failures writer.new) (W.heard writer.new) replies.new) result.1 }
    ensures faultless { IfOk result.1 (λ status. status ≢ Status.Fault) }
{
    let (pass, answer) = ask_command(env.rt, env.lock, pass, command);
    if is_silent(&answer, writer) {
        return (pass, Ok(Status::Done));
    }
    let given = give_answer(env.alloc, line.number, line.text, answer, replies, writer);
    (pass, given)
}

/// As `do_command`, of other commands than emissions that were found at once. It is kept out of line, so that these don't take its room.
#[inline(never)]
pub(crate) fn do_other_command<B: SharedBook, R: Wait, W: Sink, G>(
    env: &Environment<'_, B, R, G>,
    pass: Pass<B>,
    line: NumberedText<'_>,
    command: &Command<'_>,
    replies: &mut Replies,
    writer: &mut W,
) -> (Pass<B>, Result<Status, Stop>)
    requires of { IsOf env.now.lock.now pass }
    requires says { line_of line.text.now ≡ Ok (Ask command.now) }
    ensures of { IsOf env.now.lock.now result.0 }
    ensures ran { RunsLine W.wants_first line.entry.number line.entry.text.now (view_of pass) (view_of result.0)
        (outlet (W.contents writer.old) (W.failures writer.old) (W.heard writer.old) replies.old)
        (outlet (W.contents writer.new) (W.failures writer.new) (W.heard writer.new) replies.new) result.1 }
    ensures faultless { IfOk result.1 (λ status. status ≢ Status.Fault) }
{
    do_command(env, pass, line, command, replies, writer)
}

/// Runs a single line, and writes its output.
fn do_line<B: SharedBook, R: Wait, W: Sink, G>(
    env: &Environment<'_, B, R, G>,
    pass: Pass<B>,
    line: NumberedText<'_>,
    said: Result<Line<'_>, ScriptFault>,
    replies: &mut Replies,
    writer: &mut W,
) -> (Pass<B>, Result<Status, Stop>)
    requires of { IsOf env.now.lock.now pass }
    requires says { said ≡ line_of line.text.now }
    ensures of { IsOf env.now.lock.now result.0 }
    ensures ran { RunsLine W.wants_first line.entry.number line.entry.text.now (view_of pass) (view_of result.0)
        (outlet (W.contents writer.old) (W.failures writer.old) (W.heard writer.old) replies.old)
        (outlet (W.contents writer.new) (W.failures writer.new) (W.heard writer.new) replies.new) result.1 }
{
    match said {
        Ok(Line::Ask(command)) => do_other_command(env, pass, line, &command, replies, writer),
        said => {
            let outcome = unasked(said);
            (
                pass,
                give(env.alloc, line.number, line.text, &outcome, replies, writer),
            )
        }
    }
}

/// Runs a part, and writes its output once all its commands have run. The number is that of the part's first line.
#[tactic(auto, using(crate::proofs::Hearing::told_in_order))]
fn do_part<B: SharedBook + Send, R: thread::Threads + Wait + Sync, W: Sink, G: Gate + Sync>(
    env: &Environment<'_, B, R, G>,
    pass: Pass<B>,
    part: NumberedText<'_>,
    threads: Vec<Vec<PartLine<'_>>>,
    replies: &mut Replies,
    writer: &mut W,
) -> (Pass<B>, Result<Status, Stop>)
    requires of { IsOf env.now.lock.now pass }
    requires session { (g : Config) × IsSessionPass g (view_of pass) }
    requires few { vec_len threads ≤ 8 }
    requires lines { AreInOrder part.number part.number (lines_of part.text.now) (numbers_in (commands_in threads.items)) }
    ensures of { IsOf env.now.lock.now result.0 }
    ensures ran { RunsItem W.wants_first (G.may_answer env.now.gate.now) (G.is_open env.now.gate.now) part.entry.number (reads.Threads part.entry.text threads.entry)
        (view_of pass) (view_of result.0)
        (outlet (W.contents writer.old) (W.failures writer.old) (W.heard writer.old) replies.old)
        (outlet (W.contents writer.new) (W.failures writer.new) (W.heard writer.new) replies.new) result.1 }
{
    let (pass, ran) = run_part(env, pass, threads, writer.hears());
    match ran {
        Ok(written) => (
            pass,
            give_part(part.number, part.text, written, replies, writer),
        ),
        Err(stop) => (pass, Err(stop)),
    }
}

/// Runs the item whose first line has this number: appends its output to the replies and returns its status. A part's output is appended only once
/// all its commands have run. A writer that hears is told of each single line, of a fault with its line, and of each command of a part. It is kept
/// out of line, so that emissions, which are run before, don't take its room.
#[inline(never)]
pub(crate) fn do_item<
    B: SharedBook + Send,
    R: thread::Threads + Wait + Sync,
    W: Sink,
    G: Gate + Sync,
>(
    env: &Environment<'_, B, R, G>,
    pass: Pass<B>,
    number: usize,
    item: ItemRead<'_, '_>,
    replies: &mut Replies,
    writer: &mut W,
) -> (Pass<B>, Result<Status, Stop>)
    requires of { IsOf env.now.lock.now pass }
    requires session { (g : Config) × IsSessionPass g (view_of pass) }
    requires said { IsSaid item }
    requires few { HasFewThreads (item_read number item) }
    requires lines { HasItsLines number item }
    ensures of { IsOf env.now.lock.now result.0 }
    ensures ran { RunsItem W.wants_first (G.may_answer env.now.gate.now) (G.is_open env.now.gate.now) number item.entry
        (view_of pass) (view_of result.0)
        (outlet (W.contents writer.old) (W.failures writer.old) (W.heard writer.old) replies.old)
        (outlet (W.contents writer.new) (W.failures writer.new) (W.heard writer.new) replies.new) result.1 }
{
    match item {
        ItemRead::Line { line, said } => {
            let line = NumberedText { number, text: line };
            do_line(env, pass, line, said, replies, writer)
        }
        ItemRead::Threads { text, threads } => {
            let part = NumberedText { number, text };
            do_part(env, pass, part, threads, replies, writer)
        }
        ItemRead::Fault { at, line } => {
            let outcome = Some(Outcome::Fault(at.fault));
            let given = give(env.alloc, at.number, line, &outcome, replies, writer);
            (pass, given)
        }
    }
}
