//! Why a service never began, or what stopped it.

ghost use Rattle.std.specs.Prelude.{◌≡◌};
ghost use Rattle.mount_service.specs.TracerServices as services;

use fuse_serve::Fault;
use trace_command::Refusal;

/// Why a service never began, or what stopped it.
#[derive(Clone, Copy, Debug, PartialEq, Eq)]
pub enum Failure {
    /// A number of the configuration is out of range.
    BadValue,
    /// The service was stopped.
    Stopped(Fault),
}

/// What a tracer that can't be made is told as.
pub(crate) fn failure_of(refusal: &Refusal) -> Failure
    ensures { result ≡ services.failure_of refusal.now }
{
    match refusal {
        Refusal::Memory => Failure::Stopped(Fault::Memory),
        _ => Failure::BadValue,
    }
}
