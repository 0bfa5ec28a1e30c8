//! What a command is about: its file, its path, its event, and what it writes.

ghost use Rattle.std.specs.Prelude.{◌≡◌, IfOk};
ghost use Rattle.trace_script.specs.Lines.{line_of};
ghost use Rattle.refusal_explanations.specs.Places.{asked_command};
ghost use Rattle.refusal_explanations.specs.Words as words;

use std::alloc::AllocError;
use trace_command::{Command, EventFile, FileName, TopFile, address_of};
use trace_format::BorrowedPair;
use trace_script::{Line, LineError, LineRoom, prepare};

/// What a command is about, as far as the words depend on it.
#[derive(Clone, Copy)]
pub(crate) enum Subject {
    /// A declaration is written.
    Declaration,
    /// The filter of all events is written.
    AllFilters,
    /// A file that takes any number is written.
    Number,
    /// A file that takes `0` and `1` is written.
    Switch,
    /// `trace_options` is written.
    Options,
    /// Another file is written.
    Write,
    /// A file is read.
    Read,
    /// An instance is made or removed.
    Instance,
    /// An event happens.
    Emission,
}

/// What is written to the file of a path.
pub(crate) fn written_subject(path: &[u8]) -> Subject
    ensures { result ≡ words.subject_at path.now }
{
    match address_of(path).file {
        Some(FileName::SyntheticEvents) => Subject::Declaration,
        Some(FileName::OfEvent(_, EventFile::Enable)) => Subject::Switch,
        Some(FileName::OfInstance(TopFile::Overwrite | TopFile::EventsEnable)) => Subject::Switch,
        Some(FileName::OfInstance(TopFile::TraceOptions)) => Subject::Options,
        Some(FileName::OfInstance(TopFile::TracingOn | TopFile::Snapshot)) => Subject::Number,
        Some(FileName::OfInstance(TopFile::EventsFilter)) => Subject::AllFilters,
        _ => Subject::Write,
    }
}

/// What a command is about.
pub(crate) fn command_subject(command: &Command<'_>) -> Subject {
    match command {
        Command::Emit { .. } => Subject::Emission,
        Command::Mkdir(_) | Command::Rmdir(_) => Subject::Instance,
        Command::Write { path, .. } => written_subject(path.as_bytes()),
        Command::Read { .. } => Subject::Read,
    }
}

/// The path that a command names.
pub(crate) fn path_of<'a>(command: &Command<'a>) -> &'a [u8] {
    match command {
        Command::Emit { .. } => b"",
        Command::Mkdir(path) | Command::Rmdir(path) => path.as_bytes(),
        Command::Write { path, .. } | Command::Read { path, .. } => path.as_bytes(),
    }
}

/// What a command writes.
pub(crate) fn written_in<'a>(command: &Command<'a>) -> &'a [u8] {
    match command {
        Command::Write { text, .. } => text.as_bytes(),
        _ => b"",
    }
}

/// The name of the event that a command names; empty, if it names none.
pub(crate) fn event_of<'a>(command: &Command<'a>) -> &'a [u8] {
    match (command, address_of(path_of(command)).file) {
        (Command::Emit { event, .. }, _) => event.as_bytes(),
        (_, Some(FileName::OfEvent(name, _))) => name,
        _ => b"",
    }
}

/// The command that a line asks for; of a line that asks for none, one that names no path.
pub(crate) fn command_of<'a, 'p>(
    room: &'a mut LineRoom,
    pairs: &'p mut Vec<BorrowedPair<'a>>,
    line: &'a [u8],
) -> Result<Command<'p>, AllocError>
    ensures { IfOk result (λ command. command ≡ asked_command (line_of line.now)) }
{
    match prepare(room, pairs, line) {
        Ok(Line::Ask(command)) => Ok(command),
        Err(LineError::Memory) => Err(AllocError),
        _ => Ok(Command::mkdir(b"")),
    }
}
