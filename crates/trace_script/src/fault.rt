//! What is wrong with a line of a script.

ghost use Rattle.std.specs.Prelude.{◌≡◌, Some};
ghost use Rattle.trace_script.specs.Rendering.{fault_name};
ghost use Rattle.trace_script.specs.declared.fault.LineError.TheVariants.{Memory, Fault};

use std::alloc::{AllocError, AllocFailed};
use std::error::Error;
use std::fmt;
use std::fmt::{Display, Formatter};

/// What is wrong with a line of a script, in the order in which it is looked for. A fault ends the session.
#[derive(Clone, Copy, Debug, PartialEq, Eq, Drop)]
pub enum ScriptFault {
    /// The line has over 4,096 bytes.
    LineTooLong,
    /// A byte of the line is neither a tab nor one from 0x20 to 0x7e.
    BadByte,
    /// A quote is not closed.
    UnclosedQuote,
    /// The first word is no command.
    UnknownCommand,
    /// The command does not take this number or kind of words.
    WrongWords,
    /// A word is not the number that is wanted there.
    BadNumber,
    /// A line of a parallel part stands where it can't stand.
    BlockOutOfPlace,
    /// A parallel part has more than eight threads.
    TooManyThreads,
}

impl ScriptFault {
    /// Its name, as a session prints it.
    #[tactic(auto, unfolding(crate::specs::Rendering::fault_name))]
    pub fn name(self) -> &'static str
        ensures { result.now ≡ fault_name self }
    {
        match self {
            ScriptFault::LineTooLong => "LineTooLong",
            ScriptFault::BadByte => "BadByte",
            ScriptFault::UnclosedQuote => "UnclosedQuote",
            ScriptFault::UnknownCommand => "UnknownCommand",
            ScriptFault::WrongWords => "WrongWords",
            ScriptFault::BadNumber => "BadNumber",
            ScriptFault::BlockOutOfPlace => "BlockOutOfPlace",
            ScriptFault::TooManyThreads => "TooManyThreads",
        }
    }
}

impl Display for ScriptFault {
    ghost use Rattle.trace_script.specs.ScriptFaultTexts.{shown_script_fault};

    ghost output = { λ fault. Some (shown_script_fault fault) };

    #[tactic(auto, unfolding(crate::specs::ScriptFaultTexts::shown_script_fault))]
    fn fmt<W: fmt::Write>(&self, f: &mut Formatter<W>) -> fmt::Result {
        f.write_str(match self {
            ScriptFault::LineTooLong => "line too long",
            ScriptFault::BadByte => "bad byte",
            ScriptFault::UnclosedQuote => "unclosed quote",
            ScriptFault::UnknownCommand => "unknown command",
            ScriptFault::WrongWords => "wrong words",
            ScriptFault::BadNumber => "bad number",
            ScriptFault::BlockOutOfPlace => "block out of place",
            ScriptFault::TooManyThreads => "too many threads",
        })
    }
}

impl Error for ScriptFault {}

/// Why a line was not read.
#[derive(Clone, Copy, Debug, PartialEq, Eq, Drop)]
pub enum LineError {
    /// The line has this fault, the first that is looked for.
    Fault(ScriptFault),
    /// Memory was refused.
    Memory,
}

impl Display for LineError {
    ghost use Rattle.trace_script.specs.ScriptFaultTexts.{shown_line_error};

    ghost output = { λ fault. Some (shown_line_error fault) };

    #[tactic(auto, unfolding(crate::specs::ScriptFaultTexts::shown_line_error))]
    fn fmt<W: fmt::Write>(&self, f: &mut Formatter<W>) -> fmt::Result {
        match self {
            LineError::Fault(fault) => write!(f, "{fault}"),
            LineError::Memory => f.write_str("out of memory"),
        }
    }
}

impl Error for LineError {}

impl From<AllocError> for LineError {
    ghost from_gives = { λ _ error. error ≡ Memory };

    fn from(_error: AllocError) -> LineError {
        LineError::Memory
    }
}

impl<T: Drop> From<AllocFailed<T>> for LineError {
    ghost from_gives = { λ _ error. error ≡ Memory };

    fn from(_error: AllocFailed<T>) -> LineError {
        LineError::Memory
    }
}

impl From<ScriptFault> for LineError {
    ghost from_gives = { λ fault error. error ≡ Fault fault };

    fn from(fault: ScriptFault) -> LineError {
        LineError::Fault(fault)
    }
}
