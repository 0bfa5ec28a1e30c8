//! Requests from bytes.

ghost use Rattle.std.specs.Prelude.{◌≡◌, ◌↔◌, IsTrue, Ok, IfOk, IfErr};
ghost use Rattle.fuse_wire.specs.Requests.{IsRequest, IsWrong};
ghost use Rattle.fuse_wire.specs.private.Answers.{HasFrame};
ghost use Rattle.fuse_wire.specs.declared.request.Request.{Request};

use crate::bodies::operation_of;
use crate::number::{u32_at, u64_at};
use crate::request::{DecodeError, Request};

/// How many bytes a request's header takes.
const HEADER_SIZE: usize = 40;

/// Whether the bytes have a whole header, whose `len` is their number.
#[inline(always)]
fn is_framed(bytes: &[u8]) -> bool
    ensures { IsTrue result ↔ HasFrame bytes.now }
{
    bytes.len() >= HEADER_SIZE && u32_at(bytes, 0) as usize == bytes.len()
}

/// The request that the bytes are.
pub fn decode(bytes: &[u8]) -> Result<Request<'_>, DecodeError>
    // What is decoded is the request that the bytes are.
    ensures found { IfOk result (λ request. IsRequest bytes.now request) }
    // A request that the bytes are is decoded, so they are no other.
    ensures only { (request : Request) → IsRequest bytes.now request → result ≡ Ok request }
    // Which error it is.
    ensures wrong { IfErr result (IsWrong bytes.now) }
{
    if !is_framed(bytes) {
        return Err(DecodeError::Unframed);
    }
    let opcode = u32_at(bytes, 4);
    let unique = u64_at(bytes, 8);
    match operation_of(opcode, &bytes[HEADER_SIZE..]) {
        Some(operation) => Ok(Request {
            unique,
            node: u64_at(bytes, 16),
            uid: u32_at(bytes, 24),
            gid: u32_at(bytes, 28),
            pid: u32_at(bytes, 32),
            operation,
        }),
        None => Err(DecodeError::WrongBody { opcode, unique }),
    }
}
