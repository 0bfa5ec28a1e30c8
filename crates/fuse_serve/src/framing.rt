//! How bytes are cut into requests: linux/fuse.h, `struct fuse_in_header`, whose first field is the request's length.

ghost use Rattle.std.specs.Prelude.{◌≡◌, ◌<◌, ◌≤◌, length, take, Ok, None, IfOk, IfErr, IfSome};
ghost use Rattle.fuse_serve.specs.Framing.{told_length, IsRequest, IsUnframed, BeginsNoRequest};

use crate::fault::Fault;

/// The bytes of a request's header, and the fewest that a request may have.
pub const HEADER_BYTES: usize = 40;

/// The most bytes that a request may have: a WRITE of 128 KiB, and a page for what is before its bytes.
pub const MOST_BYTES: usize = 135_168;

/// How many bytes tell a request's length.
const LENGTH_BYTES: usize = 4;

/// The number of the first four bytes, the low one first.
fn number(bytes: &[u8]) -> u32
    requires { 4 ≤ length bytes.now }
    ensures { result ≡ told_length bytes.now }
{
    u32::from_le_bytes([bytes[0], bytes[1], bytes[2], bytes[3]])
}

/// The length of the request that the bytes begin with, if it is whole.
#[tactic(auto, using(crate::proofs::FramingLemmas::too_few, crate::proofs::FramingLemmas::too_long, crate::proofs::FramingLemmas::whole))]
pub(crate) fn first_request(bytes: &[u8]) -> Result<Option<usize>, Fault>
    ensures whole { IfOk result (λ found. IfSome found (λ size. IsRequest (take size bytes.now))) }
    ensures fits { IfOk result (λ found. IfSome found (λ size. size ≤ length bytes.now)) }
    ensures part { result ≡ Ok None → BeginsNoRequest bytes.now }
    ensures short { result ≡ Ok None → length bytes.now < MOST_BYTES }
    ensures unframed { IfErr result (λ fault. (fault ≡ Fault.Unframed) × IsUnframed bytes.now) }
{
    if bytes.len() < LENGTH_BYTES {
        return Ok(None);
    }
    let size = number(bytes) as usize;
    if size < HEADER_BYTES || size > MOST_BYTES {
        return Err(Fault::Unframed);
    }
    if size <= bytes.len() {
        Ok(Some(size))
    } else {
        Ok(None)
    }
}
