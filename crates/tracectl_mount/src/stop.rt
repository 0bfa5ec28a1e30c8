//! What ends the program, what is told then, and the exit status.

use fuse_serve::Fault;
use mount_service::Failure;
use program_arguments::{OutOfRange, Stop as Early};
use std::process::ExitCode;

/// Why there was no service, or what stopped it.
#[derive(Drop)]
pub(crate) enum Stop {
    /// The words of the command line ask for none.
    Words(Early),
    /// There was no service, or it was stopped.
    Failed(Failure),
}

impl From<Early> for Stop {
    fn from(early: Early) -> Stop {
        Stop::Words(early)
    }
}

/// Tells why the program ends, where that was not told yet, and gives the exit status.
pub(crate) fn tell(rt: &HostRuntime, stop: Stop) -> ExitCode {
    match stop {
        Stop::Words(Early::Told(status)) => status,
        Stop::Words(Early::BadValue(wrong)) => tell_of_number(rt, wrong),
        Stop::Failed(Failure::BadValue) => tell_out_of_range(rt),
        Stop::Words(Early::Memory) | Stop::Failed(Failure::Stopped(Fault::Memory)) => {
            complain(rt, 3, "out of memory")
        }
        Stop::Failed(Failure::Stopped(Fault::Unframed)) => {
            complain(rt, 4, "what was read is no request of FUSE")
        }
        Stop::Failed(Failure::Stopped(Fault::Read)) => { complain(rt, 5, "requests can't be read") }
        Stop::Failed(Failure::Stopped(Fault::Write)) => tell_unwritten(rt),
        Stop::Words(Early::Output(error)) => {
            let status = tell_unwritten(rt);
            let _ = eprintln!(rt; "tracectl_mount: {error}");
            status
        }
    }
}

fn tell_unwritten(rt: &HostRuntime) -> ExitCode {
    complain(rt, 5, "standard output can't be written")
}

fn tell_out_of_range(rt: &HostRuntime) -> ExitCode {
    complain(rt, 2, "a number is out of range")
}

/// Tells which number it is, too.
fn tell_of_number(rt: &HostRuntime, wrong: OutOfRange) -> ExitCode {
    let OutOfRange {
        option,
        number,
        range,
    } = wrong;
    let status = tell_out_of_range(rt);
    let _ = eprintln!(rt; "tracectl_mount: --{option} {number}: expected {range}");
    status
}

fn complain(rt: &HostRuntime, status: u8, complaint: &str) -> ExitCode {
    let _ = eprintln!(rt; "tracectl_mount: {complaint}");
    ExitCode::from(status)
}
