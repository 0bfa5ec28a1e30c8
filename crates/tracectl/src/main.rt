//! Reads a tracer's script, does it, and writes the replies to standard output.
#![tactic(auto)]

mod bars;
mod drawn;
mod explained;
mod kept;
mod listed;
mod stop;

ghost use Rattle.trace_command.specs.Configs.{IsInRange};

use drawn::Drawn;
use explained::Explained;
use kept::Kept;
use listed::Listed;
use program_arguments::{Notes, Script, Stop, Words, words_of};
use std::fs::File;
use std::io::Read;
use std::process::ExitCode;
use std::sync::Wait;
use std::thread::Threads;
use stop::{Failure, tell, tell_of_device, tell_of_script};
use trace_book::Book;
use trace_command::Config;
use trace_session::{Input, OpenGate, Output, Sink, Status, run_session};

/// What standard input is called, where a script's name is told.
const STDIN: &str = "<stdin>";

/// What the lines of the command line are called.
const LINES: &str = "-c";

/// Does the session of a script with this output, its parts on these threads, and lists the files after it, if that was asked for.
fn session_to<R: Read + Drop, W: Sink + Drop>(
    rt: &HostRuntime,
    threads: &(impl Threads + Wait + Sync),
    config: Config,
    lists: bool,
    script: R,
    output: W,
) -> Result<Status, Failure>
    requires { IsInRange config }
{
    let mut input = Kept::new(Input::new(script));
    let mut output = Kept::new(Listed::new(rt.alloc(), output, lists));
    let status = run_session::<Book, _, _, _, _>(
        threads,
        rt.alloc(),
        config,
        &mut input,
        &mut output,
        &OpenGate,
    );
    if !matches!(status, Status::Device) {
        return output.device.end(config.cpus, status, rt.stdout());
    }
    match (input.reason(), output.reason()) {
        (Some(error), _) => Err(Failure::Read(error)),
        (None, Some(error)) => Err(Failure::Write(error)),
        (None, None) => Ok(status),
    }
}

/// Does the session of a script, its parts on these threads, and tells what is asked for beside it.
fn session<R: Read + Drop>(
    rt: &HostRuntime,
    threads: &(impl Threads + Wait + Sync),
    config: Config,
    notes: Notes,
    name: &str,
    script: R,
) -> Result<Status, Failure>
    requires { IsInRange config }
{
    match (notes.explains, notes.draws) {
        (false, false) => {
            let output = Output::new(rt.stdout());
            session_to(rt, threads, config, notes.lists, script, output)
        }
        (true, false) => {
            let output = Output::new(rt.stdout());
            let output = Explained::new(rt.alloc(), name, output, rt.stderr());
            session_to(rt, threads, config, notes.lists, script, output)
        }
        (false, true) => {
            let output = Output::new(rt.stdout());
            let output = Drawn::new(rt.alloc(), output, rt.stderr());
            session_to(rt, threads, config, notes.lists, script, output)
        }
        (true, true) => {
            let output = Output::new(rt.stdout());
            let output = Explained::new(rt.alloc(), name, output, rt.stderr());
            let output = Drawn::new(rt.alloc(), output, rt.stderr());
            session_to(rt, threads, config, notes.lists, script, output)
        }
    }
}

/// Does the session that the command line asks for.
fn run(rt: &HostRuntime, threads: &(impl Threads + Wait + Sync)) -> Result<Status, Stop> {
    let words = words_of(rt)?;
    let Words {
        config,
        notes,
        script,
    } = Words::read(rt, &words)?;
    let (name, result) = match script {
        Script::File(name) => match File::open(rt, name) {
            Ok(file) => (name, session(rt, threads, config, notes, name, file)),
            Err(error) => (name, Err(Failure::Read(error))),
        },
        Script::Input => {
            let input = rt.stdin();
            (STDIN, session(rt, threads, config, notes, STDIN, input))
        }
        Script::Lines(lines) => {
            let result = session(rt, threads, config, notes, LINES, lines.as_slice());
            (LINES, result)
        }
    };
    match result {
        Ok(status) => Ok(status),
        Err(Failure::Read(error)) => Err(Stop::Told(tell_of_script(rt, name, &error))),
        Err(Failure::Write(error)) => Err(Stop::Output(error)),
    }
}

fn main(rt: HostRuntime) -> ExitCode {
    match run(&rt, &rt) {
        Ok(Status::Memory) => tell(&rt, Stop::Memory),
        Ok(Status::Device) => tell_of_device(&rt),
        Ok(status) => ExitCode::from(status.code()),
        Err(stop) => tell(&rt, stop),
    }
}
