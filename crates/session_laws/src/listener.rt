//! A sink that states what it heard: it shows that the clauses of `Sink` can be met where `heard` is known, and what `run_session` then says.

ghost use Rattle.std.specs.Prelude.{◌≡◌, [], map, Some, false};
ghost use Rattle.trace_command.specs.Configs.{IsInRange};
ghost use Rattle.script_reader.specs.Sources.{GivesScript};
ghost use Rattle.trace_session.specs.Sessions.{IsWhole};
ghost use Rattle.session_laws.specs.HeardSessions.{HasHeard, heard_in};

use crate::heard_lines::{HeardLine, HeardLines};
use script_reader::{Input, Source, Told};
use shared_book::SharedBook;
use std::alloc::Global;
use std::io;
use std::snapshot::Snapshot;
use std::sync::Wait;
use std::thread::Threads;
use trace_book::Book;
use trace_command::Config;
use trace_script::Outcome;
use trace_session::{OpenGate, Sink, Status, run_session};

/// Takes all bytes, keeps none of them, and states which they were and what it heard.
#[derive(Drop)]
pub struct Listener {
    written: Told,
    heard: HeardLines,
}

impl Listener {
    /// Nothing was written or heard.
    pub fn new() -> Listener
        ensures written { result.written.bytes ≡ [] }
        ensures heard { result.heard.lines ≡ [] }
    {
        Listener {
            written: Told::nothing(),
            heard: HeardLines::nothing(),
        }
    }
}

impl Sink for Listener {
    ghost contents = { λ listener. Some listener.written.bytes };

    ghost failures = { λ _. 0 };

    ghost heard = { λ listener. Some (map heard_in listener.heard.lines) };

    ghost wants_first = { false };

    fn write(&mut self, buf: &[u8]) -> io::Result<usize> {
        self.written = Told::after(&self.written, buf);
        Ok(buf.len())
    }

    fn hears(&self) -> bool {
        true
    }

    fn wants_output_first(&self) -> bool {
        false
    }

    fn hear(&mut self, number: usize, line: &[u8], outcome: &Option<Outcome>) {
        let heard = HeardLine {
            number,
            line: Told::after(&Told::nothing(), line),
            outcome: Snapshot::of(outcome),
            held: Snapshot::of(&self.written),
        };
        self.heard = HeardLines::after(&self.heard, &heard);
    }
}

/// Runs a session whose bytes go nowhere, and which no gate stops. If memory is there and the reader doesn't fail, the listener has heard of each item
/// of the script what became of its lines. It waits for turns and threads, so it is not promised that it returns.
pub fn hear_session<B: SharedBook + Send, T: Threads + Wait + Sync, R: Source>(
    rt: &T,
    alloc: Global,
    config: Config,
    reader: &mut R,
) -> (Status, Listener)
    requires { IsInRange config }
    ensures { IsWhole result.0 → GivesScript (R.given reader.old) (R.given reader.new) (R.remaining reader.old)
        (λ script. HasHeard config script result.0 result.1.written.bytes (map heard_in result.1.heard.lines)) }
{
    let mut listener = Listener::new();
    let status = run_session::<B, _, _, _, _>(rt, alloc, config, reader, &mut listener, &OpenGate);
    (status, listener)
}

/// As `hear_session`, of a script in memory and on a `Book`. So that function has callers: a book that it can run on, and a
/// reader whose bytes are known. It waits for turns and threads, so it is not promised that it returns.
pub fn hear_script<T: Threads + Wait + Sync>(
    rt: &T,
    alloc: Global,
    config: Config,
    script: &[u8],
) -> (Status, Listener)
    requires { IsInRange config }
    ensures { IsWhole result.0 → HasHeard config script.now result.0 result.1.written.bytes (map heard_in result.1.heard.lines) }
{
    let mut reader = Input::new(script);
    hear_session::<Book, _, _>(rt, alloc, config, &mut reader)
}
