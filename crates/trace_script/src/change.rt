//! What a line that was done declares, makes or removes.

ghost use Rattle.std.specs.Prelude.{◌≡◌, Bool, IfOk};
ghost use Rattle.std.specs.Result.{result_ok};
ghost use Rattle.trace_command.specs.Requests.{request_of};
ghost use Rattle.trace_command.specs.declared.command.CommandOf.TheVariants as commands;
ghost use Rattle.trace_format.specs.Reading.{definition_of};
ghost use Rattle.trace_script.specs.Changes.{change_of, change_of_request, declares};

use crate::cut::LineRoom;
use crate::fault::LineError;
use crate::line::{Line, prepare};
use crate::outcome::Outcome;
use std::alloc::{AllocError, Global};
use trace_command::{Command, FileName, address_of, instance_of};
use trace_format::{DefinitionFault, EventDef};
use trace_lex::Text;

/// What changes which events and instances there are.
#[derive(Drop)]
pub enum Change {
    /// This event is declared.
    Declares(EventDef),
    /// The instance of this name is made.
    Makes(Text),
    /// The instance of this name is removed.
    Removes(Text),
}

/// The event that a text written to `synthetic_events` declares, if it declares one.
pub fn declared(alloc: Global, text: &[u8]) -> Result<Option<EventDef>, AllocError>
    ensures { IfOk result (λ event. event ≡ result_ok (definition_of text.now)) }
{
    match EventDef::parse(alloc, text) {
        Ok(event) => Ok(Some(event)),
        Err(DefinitionFault::BadDefinition { .. }) => Ok(None),
        Err(DefinitionFault::Memory) => Err(AllocError),
    }
}

/// The event that a write of this text to the file of this path declares.
fn declared_by(alloc: Global, path: &[u8], text: &[u8]) -> Result<Option<EventDef>, AllocError>
    ensures { (append : Bool) → IfOk result (λ event. event ≡ declares (request_of (commands.Write path.now append text.now))) }
{
    match address_of(path).file {
        Some(FileName::SyntheticEvents) => declared(alloc, text),
        _ => Ok(None),
    }
}

/// What a command changes that was done.
fn change_of_command(alloc: Global, command: &Command<'_>) -> Result<Option<Change>, AllocError>
    ensures { IfOk result (λ change. change ≡ change_of_request (request_of command.now)) }
{
    match command {
        Command::Mkdir(path) => match instance_of(path.as_bytes()) {
            Some(name) => Ok(Some(Change::Makes(Text::from_slice(alloc, name)?))),
            None => Ok(None),
        },
        Command::Rmdir(path) => match instance_of(path.as_bytes()) {
            Some(name) => Ok(Some(Change::Removes(Text::from_slice(alloc, name)?))),
            None => Ok(None),
        },
        Command::Write { path, text, .. } => {
            match declared_by(alloc, path.as_bytes(), text.as_bytes())? {
                Some(event) => Ok(Some(Change::Declares(event))),
                None => Ok(None),
            }
        }
        Command::Emit { .. } | Command::Read { .. } => Ok(None),
    }
}

/// What a line with this outcome declares, makes or removes: something only if it was done. Fails only if memory is refused.
pub fn change_of(
    alloc: Global,
    line: &[u8],
    outcome: &Outcome,
) -> Result<Option<Change>, AllocError>
    ensures { IfOk result (λ change. change ≡ change_of line.now outcome.now) }
{
    let Outcome::Replied(_) = outcome else {
        return Ok(None);
    };
    let mut room = LineRoom::new(alloc);
    let mut pairs = Vec::new(alloc);
    match prepare(&mut room, &mut pairs, line) {
        Ok(Line::Ask(command)) => change_of_command(alloc, &command),
        Err(LineError::Memory) => Err(AllocError),
        _ => Ok(None),
    }
}
