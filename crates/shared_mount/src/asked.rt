//! What a call asks of a mounted tracer.

use trace_command::Command;
use tracer_state::ValuesEmission;

/// What a call asks: a command, or an emission by values, for which no string of a command is made.
#[derive(Clone, Copy)]
pub enum Asked<'a> {
    /// A command.
    Command(&'a Command<'a>),
    /// An emission of the event with this number, from 1, with values of its fields in order of declaration.
    Values(&'a ValuesEmission<'a>),
}
