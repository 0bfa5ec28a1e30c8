//! A part of a script: its lines are read, and the first of its faults is found, before any of its commands is asked.

ghost use Rattle.std.specs.Prelude.{◌≡◌, ◌+◌, ◌<◌, ◌≤◌, ◌^◌, ◌∷◌, ◌++◌, [], length, List, ℕ, IfOk, IfSome, OnOk, None, false};
ghost use Rattle.std.specs.List.{list_any};
ghost use Rattle.std.specs.Option.{option_copied};
ghost use Rattle.trace_script.specs.Lines.{line_of};
ghost use Rattle.script_reader.specs.Items.{Threads, ends_with, is_end, fault_after};
ghost use Rattle.script_reader.specs.PartReads.{asked_of, commands_in, item_of, with_more, with_line, comes_to, IsPartRead, IsLineAt, HasItsLine};
ghost use Rattle.script_reader.specs.ScriptLines.{lines_left, bytes_left};

use crate::end::has_end;
use crate::part_line::PartLine;
use crate::script::first_line;
use std::alloc::{AllocError, Global};
use trace_command::OwnedCommand;
use trace_format::BorrowedPair;
use trace_script::{Line, LineError, LineRoom, ScriptFault, prepare};

/// A command of a part, and the number of its line. Clauses alone speak of it: no value of it is made.
#[derive(Drop)]
pub struct Numbered {
    pub number: usize,
    pub command: OwnedCommand,
}

/// A fault, and the number of its line.
#[derive(Clone, Copy, PartialEq, Eq)]
pub struct FaultAt {
    pub number: usize,
    pub fault: ScriptFault,
}

/// What the lines of a part come to.
#[derive(Drop)]
pub enum Part<'a> {
    /// The lines that ask for the commands of each of its threads.
    Threads(Vec<Vec<PartLine<'a>>>),
    /// The fault of its earliest line that has one, and that line.
    Fault { at: FaultAt, line: &'a [u8] },
}

/// A part that was read.
#[derive(Drop)]
pub struct PartRead<'a> {
    pub part: Part<'a>,
    /// How many lines stand before its `end`.
    pub lines: usize,
    /// What follows its `end`, if anything does.
    pub rest: Option<&'a [u8]>,
}

/// The most threads that a part may have.
const MOST_THREADS: usize = 8;

/// What a line asks for, or its fault.
pub(crate) fn read_line<'a, 'p>(
    room: &'a mut LineRoom,
    pairs: &'p mut Vec<BorrowedPair<'a>>,
    line: &'a [u8],
) -> Result<Result<Line<'p>, ScriptFault>, AllocError>
    ensures read { IfOk result (λ read. read ≡ line_of line.now) }
{
    match prepare(room, pairs, line) {
        Ok(line) => Ok(Ok(line)),
        Err(LineError::Fault(fault)) => Ok(Err(fault)),
        Err(LineError::Memory) => Err(AllocError),
    }
}

/// Whether a line ends a part.
pub(crate) fn ends(line: &Result<Line<'_>, ScriptFault>) -> bool
    ensures { result ≡ ends_with line.now }
{
    matches!(line, Ok(Line::End))
}

/// What is wrong with a line of a part, where so many threads have begun before it.
fn fault_after(threads: usize, line: &Result<Line<'_>, ScriptFault>) -> Option<ScriptFault>
    ensures { result ≡ fault_after threads line.now }
{
    match line {
        Ok(Line::Ask(_)) if threads == 0 => Some(ScriptFault::BlockOutOfPlace),
        Ok(Line::Blank | Line::Ask(_)) => None,
        Ok(Line::Thread) if threads == MOST_THREADS => Some(ScriptFault::TooManyThreads),
        Ok(Line::Thread) => None,
        Ok(Line::Parallel | Line::End) => Some(ScriptFault::BlockOutOfPlace),
        Err(fault) => Some(*fault),
    }
}

/// What is wrong with a line of a part after these threads.
#[tactic(auto, using(crate::proofs::PartReading::length_commands))]
fn next_fault(
    threads: &[Vec<PartLine<'_>>],
    line: &Result<Line<'_>, ScriptFault>,
) -> Option<ScriptFault>
    ensures { result ≡ fault_after (length (commands_in threads.now)) line.now }
{
    fault_after(threads.len(), line)
}

/// Adds a command's line to the last of some threads.
fn add_command<'a>(
    threads: &mut Vec<Vec<PartLine<'a>>>,
    asked: PartLine<'a>,
) -> Result<(), AllocError>
    ensures added { OnOk result (commands_in threads.new.items ≡ with_more (commands_in threads.old.items) (asked_of asked.entry ∷ []) []) }
{
    let Some(mut own) = threads.pop() else {
        return Ok(());
    };
    own.push(asked)?;
    threads.push(own)?;
    Ok(())
}

/// Begins one more thread.
fn add_thread(alloc: Global, threads: &mut Vec<Vec<PartLine<'_>>>) -> Result<(), AllocError>
    ensures added { OnOk result (commands_in threads.new.items ≡ commands_in threads.old.items ++ [] ∷ []) }
{
    let own = Vec::new(alloc);
    threads.push(own)?;
    Ok(())
}

/// Adds a line to some threads. One that has a fault changes nothing.
#[tactic(auto, using(crate::proofs::PartReading::asks, crate::proofs::PartReading::command_is))]
fn add_line<'a>(
    alloc: Global,
    threads: &mut Vec<Vec<PartLine<'a>>>,
    number: usize,
    line: &'a [u8],
    said: Result<Line<'_>, ScriptFault>,
) -> Result<(), AllocError>
    requires { said ≡ line_of line.now }
    ensures added { OnOk result (commands_in threads.new.items ≡ with_line number said.entry (commands_in threads.old.items)) }
{
    match said {
        Ok(Line::Ask(_)) => add_command(threads, PartLine { number, line }),
        Ok(Line::Thread) => add_thread(alloc, threads),
        Ok(Line::Blank | Line::Parallel | Line::End) | Err(_) => Ok(()),
    }
}

/// Reads on by a line of this number after lines that came to these threads.
#[tactic(auto, using(crate::proofs::PartReading::at_fault_line, crate::proofs::PartReading::at_line_with))]
fn read_next<'a>(
    alloc: Global,
    mut threads: Vec<Vec<PartLine<'a>>>,
    number: usize,
    line: &'a [u8],
    said: Result<Line<'_>, ScriptFault>,
) -> Result<Part<'a>, AllocError>
    requires { said ≡ line_of line.now }
    ensures reads { IfOk result (λ next. (lines : List (List ℕ))
        → comes_to (Threads (commands_in threads.entry.items)) number (line.now ∷ lines) ≡ comes_to (item_of next) (number + 1) lines) }
    ensures line { IfOk result (λ next. (first : ℕ) (all : List (List ℕ)) → IsLineAt first all number line.now → HasItsLine first all next) }
{
    match next_fault(&threads, &said) {
        Some(fault) => Ok(Part::Fault {
            at: FaultAt { number, fault },
            line,
        }),
        None => {
            add_line(alloc, &mut threads, number, line, said)?;
            Ok(Part::Threads(threads))
        }
    }
}

/// Reads on by a line of this number. Nothing is looked for after a fault.
fn read_on<'a>(
    alloc: Global,
    reading: Part<'a>,
    number: usize,
    line: &'a [u8],
    said: Result<Line<'_>, ScriptFault>,
) -> Result<Part<'a>, AllocError>
    requires { said ≡ line_of line.now }
    ensures reads { IfOk result (λ next. (lines : List (List ℕ))
        → comes_to (item_of reading.entry) number (line.now ∷ lines) ≡ comes_to (item_of next) (number + 1) lines) }
    ensures line { IfOk result (λ next. (first : ℕ) (all : List (List ℕ)) → IsLineAt first all number line.now
        → HasItsLine first all reading.entry → HasItsLine first all next) }
{
    match reading {
        Part::Threads(threads) => read_next(alloc, threads, number, line, said),
        Part::Fault { at, line } => Ok(Part::Fault { at, line }),
    }
}

/// Reads the lines of a part, which begin with this number, up to its `end`, and gives what they come to; nothing where no `end` comes. The `end` is
/// looked for first: where there is none, no command is kept.
#[tactic(auto, using(crate::proofs::PartReading::starts, crate::proofs::PartReading::goes_on, crate::proofs::PartReading::ends_not))]
pub fn read_part<'a>(
    alloc: Global,
    number: usize,
    text: Option<&'a [u8]>,
) -> Result<Option<PartRead<'a>>, AllocError>
    requires room { number + bytes_left (option_copied text) < 2 ^ 63 }
    ensures read { IfOk result (λ found. IfSome found (λ read.
        IsPartRead number (lines_left (option_copied text.entry)) (item_of read.part) read.lines (lines_left (option_copied read.rest)))) }
    ensures line { IfOk result (λ found. IfSome found (λ read. HasItsLine number (lines_left (option_copied text.entry)) read.part)) }
    ensures shorter { IfOk result (λ found. IfSome found (λ read.
        read.lines + 1 + bytes_left (option_copied read.rest) ≤ bytes_left (option_copied text.entry))) }
    ensures none { IfOk result (λ found. found ≡ None → list_any is_end (lines_left (option_copied text.entry)) ≡ false) }
{
    if !has_end(alloc, text)? {
        return Ok(None);
    }
    let mut rest = text;
    let mut lines = 0;
    let mut part = Part::Threads(Vec::new(alloc));
    let mut room = LineRoom::new(alloc);
    while let Some(here) = rest {
        let (line, after) = first_line(here);
        let mut pairs = Vec::new(alloc);
        let said = read_line(&mut room, &mut pairs, line)?;
        if ends(&said) {
            return Ok(Some(PartRead {
                part,
                lines,
                rest: after,
            }));
        }
        part = read_on(alloc, part, number + lines, line, said)?;
        lines += 1;
        rest = after;
    }
    unreachable!()
}
