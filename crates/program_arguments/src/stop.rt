//! What ends the program before its script does.
use crate::options::OutOfRange;
use clap::Error;
use clap::error::ErrorKind;
use std::alloc::AllocError;
use std::io;
use std::process::ExitCode;

/// Why there was no session, or why it stopped.
#[derive(Drop)]
pub enum Stop {
    /// What was wrong, or the help or the version that was asked for, was told, and this is the exit status.
    Told(ExitCode),
    /// A number of the configuration is out of range.
    BadValue(OutOfRange),
    Memory,
    /// Standard output can't be written.
    Output(io::Error),
}

impl From<AllocError> for Stop {
    fn from(_error: AllocError) -> Stop {
        Stop::Memory
    }
}

/// Tells what is wrong with the words, or prints the help or the version that was asked for.
pub fn told(rt: &HostRuntime, error: &Error) -> Stop {
    if error.kind() == ErrorKind::OutOfMemory {
        return Stop::Memory;
    }
    match error.print(rt) {
        Err(failure) if !error.use_stderr() => Stop::Output(failure),
        _ => Stop::Told(ExitCode::from(error.exit_code() as u8)),
    }
}
