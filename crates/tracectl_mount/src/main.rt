//! Serves a mounted tracer: reads a kernel's requests from standard input and writes the replies to standard output.
#![tactic(auto)]

mod help;
mod stop;
mod words;

use fuse_serve::Joined;
use mount_service::{Owners, serve_tracer};
use std::process::ExitCode;
use stop::{Stop, tell};
use words::{Words, words_of};

/// Serves the tracer that the command line asks for.
fn run(rt: &HostRuntime) -> Result<(), Stop> {
    let words = words_of(rt)?;
    let Words {
        config,
        uid,
        gid,
        mode,
    } = Words::read(rt, &words)?;
    let mut device = Joined::new(rt.stdin(), rt.stdout());
    let owners = Owners {
        uid,
        gid,
        mode: mode as u16,
    };
    match serve_tracer(rt.alloc(), config, owners, &mut device) {
        Ok(_) => Ok(()),
        Err(failure) => Err(Stop::Failed(failure)),
    }
}

fn main(rt: HostRuntime) -> ExitCode {
    match run(&rt) {
        Ok(()) => ExitCode::from(0),
        Err(stop) => tell(&rt, stop),
    }
}
