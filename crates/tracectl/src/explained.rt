//! A session's output, with what is wrong with each refused line told beside it.

ghost use Rattle.std.specs.Prelude.{◌≡◌, ℕ, List, false, None, OnOk};
ghost use Rattle.std.specs.Io.KnownBytes.{Appends};
ghost use Rattle.refusal_explanations.specs.Explanations.{IsExplanation};

use refusal_explanations::{Explainer, ScriptLine};
use std::alloc::Global;
use std::io;
use std::io::Write;
use trace_script::Outcome;
use trace_session::Sink;

/// The output of a session, and a second writer, to which it is told what is wrong with a line that was refused or has a fault.
#[derive(Drop)]
pub struct Explained<'a, S, E> {
    script: &'a str,
    output: S,
    errors: E,
    explainer: Explainer,
}

impl<'a, S: Sink, E: Write> Explained<'a, S, E> {
    /// The name of the script, the output and the second writer, before the first line.
    pub fn new(alloc: Global, script: &'a str, output: S, errors: E) -> Explained<'a, S, E> {
        Explained {
            script,
            output,
            errors,
            explainer: Explainer::new(alloc),
        }
    }

    /// Tells what is wrong with a line, if anything is.
    fn explain(&mut self, number: usize, line: &[u8], outcome: &Outcome) -> io::Result<()>
        ensures told { OnOk result ((text : List ℕ) × IsExplanation self.old.script.now number line.now outcome.now text
            × Appends (E.contents self.old.errors) (E.contents self.new.errors) text) }
        ensures output { self.new.output ≡ self.old.output }
    {
        let script = self.script.as_bytes();
        let at = ScriptLine {
            script,
            number,
            text: line,
        };
        let text = self.explainer.explain(at, outcome)?;
        self.errors.write_all(&text)?;
        Ok(())
    }

    /// Remembers what became of a line, for those after it.
    fn remember(&mut self, number: usize, line: &[u8], outcome: &Option<Outcome>) -> io::Result<()>
        ensures { self.new.output ≡ self.old.output }
    {
        self.explainer.hear(number, line, outcome)?;
        Ok(())
    }
}

impl<'a, S: Sink, E: Write> Sink for Explained<'a, S, E> {
    ghost contents = { λ explained. S.contents explained.output };

    ghost failures = { λ explained. S.failures explained.output };

    ghost heard = { λ _. None };

    ghost wants_first = { false };

    fn write(&mut self, buf: &[u8]) -> io::Result<usize> {
        self.output.write(buf)
    }

    fn hears(&self) -> bool {
        true
    }

    fn wants_output_first(&self) -> bool {
        false
    }

    fn hear(&mut self, number: usize, line: &[u8], outcome: &Option<Outcome>) {
        if let Some(outcome) = outcome {
            // What can't be told stops nothing: the session is its output.
            let _ = self.explain(number, line, outcome);
        }
        let _ = self.remember(number, line, outcome);
    }
}
