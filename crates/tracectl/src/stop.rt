//! What is told where the program ends before its script does: a line that has always the same words for a status, and a second one with what caused it,
//! where that is known.
use program_arguments::{OutOfRange, Stop};
use std::io;
use std::process::ExitCode;
use trace_session::Status;

/// The exit status of a configuration that is out of range.
const BAD_VALUE: u8 = 2;

/// The system's reason for which a session ended early.
#[derive(Drop)]
pub enum Failure {
    /// The script can't be opened or read.
    Read(io::Error),
    /// The output can't be written.
    Write(io::Error),
}

/// Tells why, where that was not told yet, and gives the exit status.
pub fn tell(rt: &HostRuntime, stop: Stop) -> ExitCode {
    match stop {
        Stop::Told(status) => status,
        Stop::BadValue(wrong) => tell_of_number(rt, wrong),
        Stop::Memory => complain(rt, Status::Memory.code(), "out of memory"),
        Stop::Output(error) => {
            let status = tell_of_device(rt);
            let _ = eprintln!(rt; "tracectl: standard output: {error}");
            status
        }
    }
}

/// Tells that a device failed, and gives the exit status.
pub fn tell_of_device(rt: &HostRuntime) -> ExitCode {
    complain(rt, Status::Device.code(), "read or write failed")
}

/// Tells that the script of this name can't be read, and gives the exit status.
pub fn tell_of_script(rt: &HostRuntime, name: &str, error: &io::Error) -> ExitCode {
    let status = tell_of_device(rt);
    let _ = eprintln!(rt; "tracectl: script {name:?}: {error}");
    status
}

fn tell_of_number(rt: &HostRuntime, wrong: OutOfRange) -> ExitCode {
    let OutOfRange {
        option,
        number,
        range,
    } = wrong;
    let status = complain(rt, BAD_VALUE, "bad value");
    let _ = eprintln!(rt; "tracectl: --{option} {number}: expected {range}");
    status
}

fn complain(rt: &HostRuntime, status: u8, complaint: &str) -> ExitCode {
    let _ = eprintln!(rt; "tracectl: {complaint}");
    ExitCode::from(status)
}
