//! Replies written to a device.

ghost use Rattle.std.specs.Prelude.{◌≡◌, ◌<◌, length};
ghost use Rattle.fuse_serve.specs.private.Steps.{Does};
ghost use Rattle.fuse_serve.specs.private.Turns.{HasDelivered};

use crate::cause::{Cause, cause_of};
use crate::device::Device;
use crate::fate::Fate;

/// What one write came to.
enum Step {
    /// It took so many bytes.
    Took(usize),
    /// It took none, and may be tried again.
    Again,
    /// It was the last.
    Last(Fate),
}

/// Writes some of the rest of a reply, of which a part was written before or none.
fn write_some<D: Device>(device: &mut D, rest: &[u8], is_begun: bool) -> Step
    requires { 0 < length rest.now }
    ensures does { Does result is_begun rest.now (D.calls device.old) (D.calls device.new) (D.contents device.old) (D.contents device.new) }
    ensures remaining { D.remaining device.new ≡ D.remaining device.old }
{
    match device.write(rest) {
        Ok(0) => Step::Last(Fate::Cut),
        Ok(count) => Step::Took(count),
        Err(error) => match cause_of(&error) {
            Cause::Interrupted => Step::Again,
            Cause::NoEntry if !is_begun => Step::Last(Fate::Dropped),
            _ => Step::Last(Fate::Cut),
        },
    }
}

/// Writes a reply, by one write if the device takes it whole. A signal in between (EINTR) is no failure, and neither is a request that was
/// interrupted before anything of its reply was written (ENOENT).
pub(crate) fn deliver<D: Device>(device: &mut D, reply: &[u8]) -> Fate
    ensures delivered { HasDelivered result reply.now (D.calls device.old) (D.calls device.new) (D.contents device.old) (D.contents device.new) }
    ensures remaining { D.remaining device.new ≡ D.remaining device.old }
{
    let mut rest = reply;
    let mut tries = u64::MAX;
    while !rest.is_empty() {
        match write_some(device, rest, rest.len() < reply.len()) {
            Step::Took(count) => rest = &rest[count..],
            Step::Again if tries > 0 => tries -= 1,
            Step::Again => return Fate::Cut,
            Step::Last(fate) => return fate,
        }
    }
    Fate::Written
}
