//! The statuses of tries that come to no outcome, and what is added to a status. Those of outcomes are library_tracer's: 0, a refusal's number, or 100 and a
//! fault's.

ghost use Rattle.std.specs.Prelude.{◌≡◌};
ghost use Rattle.tracectl_c.specs.Calls.{status_tried};

use library_tracer::Tried;

/// The status of a call whose handle is not open.
pub(crate) const NOT_OPEN: u32 = 200;

/// The status of `tracectl_try_open` where the handle is open already.
pub(crate) const ALREADY_OPEN: u32 = 201;

/// The status of a try while somebody else has a turn, or is in line for one.
pub(crate) const BUSY: u32 = 202;

/// The status of a call of a thread that has not joined, or has left.
pub(crate) const NOT_JOINED: u32 = 203;

/// The status of `tracectl_try_join` where the thread has joined already.
pub(crate) const ALREADY_JOINED: u32 = 204;

/// The status of `tracectl_try_join` where all passes are taken.
pub(crate) const NO_PASS_LEFT: u32 = 205;

/// The status of `tracectl_try_close` while threads have joined.
pub(crate) const STILL_JOINED: u32 = 206;

/// The status of a try to serve a request while something is owed, and of a try to tell what is owed while nothing is.
pub(crate) const NOT_NOW: u32 = 216;

/// The status of a request without bytes, which is that of a value that is wrong.
pub(crate) const BAD_VALUE: u32 = 4;

/// The status of a try that serves where memory for its reply is refused.
pub(crate) const LACKS_MEMORY: u32 = 23;

/// What `tracectl_try_waiting` tells of a thread that has not joined.
pub(crate) const NONE_TO_LOOK_AT: i32 = -203;

/// What it tells while somebody else has a turn.
pub(crate) const BUSY_TO_LOOK: i32 = -202;

/// What is added to the status of a call after which something is owed to the mount.
pub(crate) const OWES: u32 = 0x8000_0000;

/// The status of a try, and whether something is owed to the mount after it.
pub(crate) fn status_of(tried: Tried) -> u32
    ensures { result ≡ status_tried tried }
{
    match tried {
        Tried::Told { status, owes: true } => u32::from(status) + OWES,
        Tried::Told {
            status,
            owes: false,
        } => u32::from(status),
        Tried::Busy => BUSY,
    }
}
