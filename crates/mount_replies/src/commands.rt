//! Lines that are commands: all that is written to a file of the tracer, or, to the declarations and to a trigger, each line of it.

ghost use Rattle.std.specs.Prelude.{◌≡◌, ◌<◌, ◌≤◌, ◌+◌, ◌&&◌, ◌∷◌, [], List, drop, length, true};
ghost use Rattle.std.specs.List.{position};
ghost use Rattle.trace_command.specs.Requests.{Request};
ghost use Rattle.file_list.specs.FileKinds.{takes_lines};
ghost use Rattle.mount_tree.specs.Children.{is_there};
ghost use Rattle.mount_tree.specs.declared.node.Node.TheVariants as nodes;
ghost use Rattle.mount_replies.specs.Lines as lines;
ghost use Rattle.mount_replies.specs.Mounted.{HasLedTo};
ghost use Rattle.mount_replies.specs.private.LineRuns.{DoesLine, RunsFrom, RunsTo, StaysThere, target_command};

use crate::fault::{LineFault, Progress, Stop};
use crate::mount::Mount;
use crate::writing::Target;
use mount_tree::File;
use trace_command::EventFile;

/// Where the first newline is.
pub(crate) fn newline_at(bytes: &[u8]) -> Option<usize>
    ensures { result ≡ position lines.is_newline bytes.now }
{
    bytes.iter().position(|byte| *byte == b'\n')
}

/// Whether there is one.
fn has_newline(bytes: &[u8]) -> bool
    ensures { result ≡ lines.has_newline bytes.now }
{
    bytes.iter().any(|byte| *byte == b'\n')
}

/// What follows the newline at an index.
fn after_newline(bytes: &[u8], at: usize) -> &[u8]
    requires { at < length bytes.now }
    ensures rest { result.now ≡ drop (at + 1) bytes.now }
    ensures long { at + 1 + length result.now ≡ length bytes.now }
{
    &bytes[at + 1..]
}

/// Whether nothing but blanks is in a line.
pub(crate) fn is_blank(line: &[u8]) -> bool
    ensures { result ≡ lines.is_blank_line line.now }
{
    line.iter().all(|byte| *byte == b' ' || *byte == b'\t')
}

/// What is written, without a last newline.
fn without_newline(bytes: &[u8]) -> &[u8]
    ensures { result.now ≡ lines.without_newline bytes.now }
{
    let Some(last) = bytes.len().checked_sub(1) else {
        return bytes;
    };
    if bytes[last] == b'\n' {
        &bytes[..last]
    } else {
        bytes
    }
}

/// The text of the command that a line is: of a trigger, whatever follows `!snapshot:` is ignored.
pub(crate) fn command_text(file: File, line: &[u8]) -> &[u8]
    ensures { result.now ≡ lines.command_text file line.now }
{
    match file {
        File::OfEvent(_, EventFile::Trigger) if line.starts_with(b"!snapshot:".as_slice()) => {
            &line[..9]
        }
        _ => line,
    }
}

// Whether a text for a file is several lines that are commands.
fn is_several(file: File, text: &[u8]) -> bool
    ensures { result ≡ (takes_lines file && lines.has_newline text.now) }
{
    file.takes_lines() && has_newline(text)
}

impl Mount {
    // Does a line, by `>` or, to append, by `>>`.
    fn do_command(&mut self, target: Target, append: bool, line: &[u8]) -> Result<(), LineFault>
        requires { is_there self.old.scene (nodes.File target.owner target.file) ≡ true }
        ensures did { (past : List Request) → HasLedTo past self.old
            → DoesLine past self.old self.new (target_command self.old.scene target append line.now) result }
        ensures stays { StaysThere self.old.scene self.new.scene target.owner target.file }
    {
        let text = command_text(target.file, line);
        match self.ask_write(target.owner, target.file, append, text) {
            Ok(_) => Ok(()),
            Err(refusal) => Err(LineFault::Refused(refusal)),
        }
    }

    // Does one line, which is all that was written but perhaps a newline.
    fn do_one_command<'a>(&mut self, target: Target, size: usize, line: &'a [u8]) -> Progress<'a>
        requires { is_there self.old.scene (nodes.File target.owner target.file) ≡ true }
        ensures runs { (past : List Request) → HasLedTo past self.old
            → RunsTo past self.old self.new (lines.one_command (target_command self.old.scene target) target.append size line.now) result }
        ensures few { result.done ≤ size }
        ensures stays { StaysThere self.old.scene self.new.scene target.owner target.file }
    {
        match self.do_command(target, target.append, line) {
            Ok(()) => Progress {
                done: size,
                stop: None,
            },
            Err(fault) => Progress {
                done: 0,
                stop: Some(Stop { line, fault }),
            },
        }
    }

    // Does the lines that end, and then the last one. Blank ones are none.
    fn do_command_lines<'a>(&mut self, target: Target, bytes: &'a [u8]) -> Progress<'a>
        requires { is_there self.old.scene (nodes.File target.owner target.file) ≡ true }
        ensures runs { (past : List Request) → HasLedTo past self.old
            → RunsTo past self.old self.new
            (lines.command_lines (target_command self.old.scene target) target.append (length bytes.now) 0 (lines.pieces_of bytes.now)) result }
        ensures few { result.done ≤ length bytes.now }
        ensures stays { StaysThere self.old.scene self.new.scene target.owner target.file }
    {
        let mut rest = bytes;
        let mut append = target.append;
        let mut from = 0usize;
        let mut done = 0usize;
        while let Some(at) = newline_at(rest) {
            let line = &rest[..at];
            from += at + 1;
            rest = after_newline(rest, at);
            if !is_blank(line) {
                if let Err(fault) = self.do_command(target, append, line) {
                    return Progress {
                        done,
                        stop: Some(Stop { line, fault }),
                    };
                }
                append = true;
                done = from;
            }
        }
        self.do_last_command(target, append, done, bytes.len(), rest)
    }

    // Does a line that need not end, after so many bytes were done; a blank one is none.
    fn do_last_command<'a>(
        &mut self,
        target: Target,
        append: bool,
        done: usize,
        size: usize,
        line: &'a [u8],
    ) -> Progress<'a>
        requires { is_there self.old.scene (nodes.File target.owner target.file) ≡ true }
        ensures runs { (past : List Request) → HasLedTo past self.old → RunsFrom past done self.old self.new
            (lines.command_lines (target_command self.old.scene target) append size 0 (line.now ∷ [])) result }
        ensures few { done ≤ size → result.done ≤ size }
        ensures stays { StaysThere self.old.scene self.new.scene target.owner target.file }
    {
        if is_blank(line) {
            return Progress { done, stop: None };
        }
        match self.do_command(target, append, line) {
            Ok(()) => Progress {
                done: size,
                stop: None,
            },
            Err(fault) => Progress {
                done,
                stop: Some(Stop { line, fault }),
            },
        }
    }

    /// Does what is written to an open file that is there: one command, or, of several lines to a file that takes lines, one for each.
    pub(crate) fn do_commands<'a>(&mut self, target: Target, bytes: &'a [u8]) -> Progress<'a>
        requires { is_there self.old.scene (nodes.File target.owner target.file) ≡ true }
        ensures runs { (past : List Request) → HasLedTo past self.old → RunsTo past self.old self.new
            (lines.lines_of (target_command self.old.scene target) target.file target.append bytes.now) result }
        ensures few { result.done ≤ length bytes.now }
        ensures stays { StaysThere self.old.scene self.new.scene target.owner target.file }
    {
        let text = without_newline(bytes);
        if is_several(target.file, text) {
            self.do_command_lines(target, bytes)
        } else {
            self.do_one_command(target, bytes.len(), text)
        }
    }
}
