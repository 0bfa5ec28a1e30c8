//! A session's output, with each histogram that is read drawn as bars beside it.

ghost use Rattle.std.specs.Prelude.{◌≡◌, true};

use crate::bars::bars_of;
use std::alloc::{AllocError, Global};
use std::io;
use std::io::Write;
use trace_command::{Command, EventFile, FileName, Reply, address_of};
use trace_script::{Line, LineError, LineRoom, Outcome, prepare};
use trace_session::Sink;

/// The output of a session, and a second writer, to which the histograms are drawn that its lines read.
#[derive(Drop)]
pub struct Drawn<S, E> {
    alloc: Global,
    output: S,
    errors: E,
    has_drawn: bool,
}

/// Whether a line reads a `hist` file.
fn reads_hist(alloc: Global, line: &[u8]) -> Result<bool, AllocError> {
    let mut room = LineRoom::new(alloc);
    let mut pairs = Vec::new(alloc);
    match prepare(&mut room, &mut pairs, line) {
        Ok(Line::Ask(Command::Read { path, .. })) => Ok(matches!(
            address_of(path.as_bytes()).file,
            Some(FileName::OfEvent(_, EventFile::Hist))
        )),
        Err(LineError::Memory) => Err(AllocError),
        _ => Ok(false),
    }
}

/// The bars of the histograms that a line read; none, if it read anything else or was not done.
fn bars_read(alloc: Global, line: &[u8], outcome: &Outcome) -> Result<String, AllocError> {
    let Outcome::Replied(Reply::Text(text)) = outcome else {
        return Ok(String::new(alloc));
    };
    let Ok(shown) = str::from_utf8(text.as_bytes()) else {
        return Ok(String::new(alloc));
    };
    if !reads_hist(alloc, line)? {
        return Ok(String::new(alloc));
    }
    bars_of(alloc, shown)
}

impl<S: Sink, E: Write> Drawn<S, E> {
    /// The two of them, before the first line.
    pub fn new(alloc: Global, output: S, errors: E) -> Drawn<S, E> {
        Drawn {
            alloc,
            output,
            errors,
            has_drawn: false,
        }
    }

    /// Draws the histograms that a line read, if it read any. An empty line separates them from those that were drawn before.
    fn draw(&mut self, line: &[u8], outcome: &Outcome) -> io::Result<()>
        ensures output { self.new.output ≡ self.old.output }
    {
        let bars = bars_read(self.alloc, line, outcome)?;
        if bars.is_empty() {
            return Ok(());
        }
        if self.has_drawn {
            self.errors.write_all(b"\n")?;
        }
        self.has_drawn = true;
        self.errors.write_all(bars.as_bytes())
    }
}

impl<S: Sink, E: Write> Sink for Drawn<S, E> {
    ghost contents = { λ drawn. S.contents drawn.output };

    ghost failures = { λ drawn. S.failures drawn.output };

    ghost heard = { λ drawn. S.heard drawn.output };

    ghost wants_first = { true };

    fn write(&mut self, buf: &[u8]) -> io::Result<usize> {
        self.output.write(buf)
    }

    fn hears(&self) -> bool {
        true
    }

    fn wants_output_first(&self) -> bool {
        true
    }

    fn hear(&mut self, number: usize, line: &[u8], outcome: &Option<Outcome>) {
        self.output.hear(number, line, outcome);
        if let Some(outcome) = outcome {
            // What can't be drawn stops nothing: the session is its output.
            let _ = self.draw(line, outcome);
        }
    }
}
