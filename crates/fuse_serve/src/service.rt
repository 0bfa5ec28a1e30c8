//! The service: requests are read, answered and their replies written, one after another. What the server owes is told before its next request.

ghost use Rattle.std.specs.Prelude.{◌≡◌, ◌≢◌, ◌<◌, ◌≤◌, ℕ, List, [], true, false, Result, Ok, Err, None, length, take, drop, vec_capacity, IfOk, IfErr, IfSome, OnOk};
ghost use Rattle.std.specs.declared.io.Error.{Error};
ghost use Rattle.fuse_serve.specs.Calls.{Call};
ghost use Rattle.fuse_serve.specs.Endings.{EndsAs};
ghost use Rattle.fuse_serve.specs.Exchanges.{HasServed, Exchange, device_seen};
ghost use Rattle.fuse_serve.specs.Framing.{IsRequest};
ghost use Rattle.fuse_serve.specs.private.Turns.{HasAnswered, HasRead, Received};

use crate::cause::{Cause, cause_of};
use crate::deliver::deliver;
use crate::device::Device;
use crate::fate::Fate;
use crate::fault::{Ended, Fault};
use crate::framing::{MOST_BYTES, first_request};
use crate::inbox::Inbox;
use crate::server::Server;
use std::alloc::Global;

/// What the end of the input is: the service's, unless bytes of a request wait.
fn at_end(inbox: &Inbox, ended: Ended) -> Result<Option<Ended>, Fault>
    ensures ok { IfOk result (λ found. (inbox.now ≡ []) × IfSome found (λ how. how ≡ ended)) }
    ensures some { OnOk result (result ≢ Ok None) }
    ensures err { IfErr result (λ fault. (inbox.now ≢ []) × (fault ≡ Fault.Unframed)) }
{
    if inbox.waiting().is_empty() {
        Ok(Some(ended))
    } else {
        Err(Fault::Unframed)
    }
}

/// Reads once, after bytes that begin no whole request. Returns how the service ends, if this read found the end of the input. A signal (EINTR)
/// and a request that was interrupted (ENOENT) are no end and no failure.
fn receive<D: Device>(inbox: &mut Inbox, device: &mut D) -> Result<Option<Ended>, Fault>
    requires { length inbox.old < MOST_BYTES }
    ensures read { (returned : Result ℕ Error)
        × HasRead returned inbox.old inbox.new (D.calls device.old) (D.calls device.new) (D.remaining device.old) (D.remaining device.new)
        × Received result returned inbox.new (D.remaining device.new) }
    ensures contents { D.contents device.new ≡ D.contents device.old }
{
    match inbox.read_from(device) {
        Ok(0) => at_end(inbox, Ended::AtEnd),
        Ok(_) => Ok(None),
        Err(error) => match cause_of(&error) {
            Cause::NoEntry | Cause::Interrupted => Ok(None),
            Cause::NoDevice => at_end(inbox, Ended::Gone),
            Cause::Other => Err(Fault::Read),
        },
    }
}

/// Writes a message that the server owes.
fn tell_next<S: Server, D: Device>(server: &mut S, reply: &mut Vec<u8>, device: &mut D) -> Fate
    requires owes { S.owes server.old ≡ true }
    requires room { MOST_BYTES ≤ vec_capacity reply.old }
    ensures answered { HasAnswered S.answers server.old server.new [] result (D.calls device.old) (D.calls device.new) (D.contents device.old) (D.contents device.new) }
    ensures remaining { D.remaining device.new ≡ D.remaining device.old }
    ensures room { MOST_BYTES ≤ vec_capacity reply.new }
{
    reply.clear();
    server.tell_owed(reply);
    deliver(device, reply)
}

/// Answers the request that the inbox begins with, and writes the reply.
fn answer_first<S: Server, D: Device>(
    server: &mut S,
    inbox: &mut Inbox,
    size: usize,
    reply: &mut Vec<u8>,
    device: &mut D,
) -> Fate
    requires request { IsRequest (take size inbox.old) }
    requires idle { S.owes server.old ≡ false }
    requires size { size ≤ length inbox.old }
    requires room { MOST_BYTES ≤ vec_capacity reply.old }
    ensures answered { HasAnswered S.answers server.old server.new (take size inbox.old) result
        (D.calls device.old) (D.calls device.new) (D.contents device.old) (D.contents device.new) }
    ensures remaining { D.remaining device.new ≡ D.remaining device.old }
    ensures rest { inbox.new ≡ drop size inbox.old }
    ensures room { MOST_BYTES ≤ vec_capacity reply.new }
{
    reply.clear();
    server.answer(&inbox.waiting()[..size], reply);
    inbox.skip(size);
    deliver(device, reply)
}

/// Serves: reads requests, answers each and writes its reply, until the input ends, the device is gone, the server wants to end, or a fault stops
/// it. What was read are whole requests, one after another; the server answered each once, in this order, after it told all that it owed. Its
/// messages were written in this order, each by one write as far as the device takes it whole. A read comes only when all that was read before, but
/// for bytes that begin no whole request, was answered and written, and nothing is owed.
///
/// Memory is taken only for the two buffers, before the first read; what the server takes is its own. A fault `Read` is also what 2^64 - 1 turns
/// end with, and `Write` what 2^64 signals during one reply do.
pub fn serve<S: Server, D: Device>(
    alloc: Global,
    server: &mut S,
    device: &mut D,
) -> Result<Ended, Fault>
    ensures service { let old = device_seen (D.calls device.old) (D.remaining device.old) (D.contents device.old) in
        let new = device_seen (D.calls device.new) (D.remaining device.new) (D.contents device.new) in
        (calls : List Call) × (exchanges : List Exchange) × (left : List ℕ)
        × HasServed S.answers S.ends S.owes server.old server.new old new calls exchanges left
        × EndsAs result (S.ends server.new) (S.owes server.new) new.remaining calls exchanges left }
    ensures memory { result ≡ Err Fault.Memory → (server.new ≡ server.old) × (device.new ≡ device.old) }
{
    let mut inbox = Inbox::new(alloc)?;
    let mut reply = Vec::with_capacity(alloc, MOST_BYTES)?;
    for _ in 0..u64::MAX {
        if server.has_ended() {
            return Ok(Ended::Asked);
        }
        if server.owes() {
            if tell_next(server, &mut reply, device) == Fate::Cut {
                return Err(Fault::Write);
            }
        } else if let Some(size) = first_request(inbox.waiting())? {
            if answer_first(server, &mut inbox, size, &mut reply, device) == Fate::Cut {
                return Err(Fault::Write);
            }
        } else if let Some(ended) = receive(&mut inbox, device)? {
            return Ok(ended);
        }
    }
    Err(Fault::Read)
}
