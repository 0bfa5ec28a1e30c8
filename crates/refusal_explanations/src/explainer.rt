//! What is told of the lines of a script, one after the other.

ghost use Rattle.std.specs.Prelude.{◌≡◌, IfOk, None, Some};
ghost use Rattle.trace_command.specs.Refusals.{name_of as refusal_name};
ghost use Rattle.trace_script.specs.Lines.{line_of};
ghost use Rattle.trace_script.specs.Rendering.{fault_name};
ghost use Rattle.refusal_explanations.specs.Explanations.{IsExplained, IsExplanation};
ghost use Rattle.refusal_explanations.specs.Places.{asked_command};

use crate::caret::starts;
use crate::cut::{begins, last_part};
use crate::fault::{fault_offset, name_of, redirection_words};
use crate::fault_words::fault_words;
use crate::layout::{ScriptLine, shown};
use crate::left_out::{FILES, told_of};
use crate::meant::{command_meant, line_meant};
use crate::place::refusal_offset;
use crate::subject::{command_of, path_of, written_in};
use crate::words::{command_words, sentence};
use std::alloc::{AllocError, Global};
use trace_command::{Command, Refusal};
use trace_format::EventDef;
use trace_script::{Change, LineRoom, Outcome, ScriptFault, change_of};

/// Tells people what is wrong with the lines of a script, and remembers for that the events that were declared, and the number of the last line
/// that was heard.
#[derive(Drop)]
pub struct Explainer {
    alloc: Global,
    events: Vec<EventDef>,
    last: usize,
}

/// What is wrong with a refused command, in one sentence: of a file that a script has not, what to use, if a mounted tracer or a kernel has it.
fn advised_words(command: &Command<'_>, refusal: &Refusal) -> &'static str {
    let path = path_of(command);
    let text = written_in(command);
    let words = command_words(command, refusal);
    match (refusal, command) {
        (Refusal::NoSuchFile, Command::Read { .. } | Command::Write { .. }) => {
            told_of(&FILES, last_part(path), words)
        }
        (Refusal::NoSuchTrigger, Command::Write { append: true, .. }) if !begins(b"!", text) => {
            "the event's `trigger` lists none with this name, keys, values, sort and filter"
        }
        _ => words,
    }
}

impl Explainer {
    /// One that has heard no line.
    pub fn new(alloc: Global) -> Explainer {
        Explainer {
            alloc,
            events: Vec::new(alloc),
            last: 0,
        }
    }

    /// Hears what became of the line of a number, if anything did, and remembers the event, if it declared one. Out of memory it remembers
    /// nothing of the line.
    pub fn hear(
        &mut self,
        number: usize,
        line: &[u8],
        outcome: &Option<Outcome>,
    ) -> Result<(), AllocError> {
        if let Some(outcome) = outcome {
            if let Some(Change::Declares(event)) = change_of(self.alloc, line, outcome)? {
                self.events.push(event)?;
            }
        }
        self.last = number;
        Ok(())
    }

    /// What is told of a line that is no command.
    fn told_of_fault(&self, line: ScriptLine<'_>, fault: ScriptFault) -> Result<Vec<u8>, AllocError>
        ensures { IfOk result (λ text. IsExplained line.entry.script.now line.entry.number line.entry.text.now None (fault_name fault) text.items) }
    {
        let is_next = line.number.saturating_sub(1) == self.last;
        let name = name_of(self.alloc, line.text)?;
        let begun = starts(self.alloc, line.text)?;
        let caret = fault_offset(self.alloc, &name, line.text, &begun, fault)?;
        let plain = fault_words(is_next, &name, fault);
        let words = redirection_words(&name, line.text, &begun, fault, plain).as_bytes();
        let meant = line_meant(&name, fault).as_bytes();
        let text = shown(self.alloc, line, caret, fault.name(), words, meant)?;
        Ok(text)
    }

    /// What is told of a refused command.
    fn told_of_command(
        &self,
        line: ScriptLine<'_>,
        command: &Command<'_>,
        refusal: &Refusal,
    ) -> Result<Vec<u8>, AllocError>
        requires { command.now ≡ asked_command (line_of line.text.now) }
        ensures { IfOk result (λ text. IsExplained line.entry.script.now line.entry.number line.entry.text.now (Some refusal.now)
            (refusal_name refusal.now) text.items) }
    {
        let caret = refusal_offset(self.alloc, line.text, command, refusal)?;
        let words = sentence(self.alloc, refusal, advised_words(command, refusal))?;
        let meant = command_meant(self.alloc, &self.events, command, refusal)?;
        let text = shown(self.alloc, line, caret, refusal.name(), &words, &meant)?;
        Ok(text)
    }

    /// What is told of a line: where it is, what is wrong with it, the line with a caret under the byte where it is wrong, if there is one, and
    /// what was meant, if something is near. Nothing is told of a line that is done.
    pub fn explain(&self, line: ScriptLine<'_>, outcome: &Outcome) -> Result<Vec<u8>, AllocError>
        ensures { IfOk result (λ text. IsExplanation line.entry.script.now line.entry.number line.entry.text.now outcome.now text.items) }
    {
        match outcome {
            Outcome::Replied(_) => Ok(Vec::new(self.alloc)),
            Outcome::Fault(fault) => self.told_of_fault(line, *fault),
            Outcome::Refused(refusal) => {
                let mut room = LineRoom::new(self.alloc);
                let mut pairs = Vec::new(self.alloc);
                let command = command_of(&mut room, &mut pairs, line.text)?;
                self.told_of_command(line, &command, refusal)
            }
        }
    }
}
