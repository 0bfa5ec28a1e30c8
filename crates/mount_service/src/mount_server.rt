//! A mounted tracer as what answers a service's requests.

ghost use Rattle.std.specs.Prelude.{◌≡◌, ◌≤◌, false, length};
ghost use Rattle.mount_service.specs.TracerServices as services;

use fuse_serve::{HEADER_BYTES, Server};
use mount_replies::Mount;

/// FUSE_DESTROY of linux/fuse.h: the file system was unmounted.
const DESTROY: u32 = 38;

/// A mounted tracer, and whether its last request was a DESTROY.
#[derive(Drop)]
pub(crate) struct MountServer {
    mount: Mount,
    is_destroyed: bool,
}

impl MountServer {
    /// Nothing was asked yet.
    pub(crate) fn new(mount: Mount) -> MountServer
        ensures mount { result.mount ≡ mount }
        ensures lives { result.is_destroyed ≡ false }
    {
        MountServer {
            mount,
            is_destroyed: false,
        }
    }
}

/// The number of the first four bytes, the low one first.
fn number(bytes: &[u8]) -> u32
    requires { 4 ≤ length bytes.now }
    ensures { result ≡ services.number_of bytes.now }
{
    u32::from_le_bytes([bytes[0], bytes[1], bytes[2], bytes[3]])
}

/// Whether a request is a DESTROY: a header of this opcode, without a body.
fn is_destroy(request: &[u8]) -> bool
    ensures { result ≡ services.is_destroy request.now }
{
    request.len() == HEADER_BYTES && number(&request[4..]) == DESTROY
}

impl Server for MountServer {
    ghost use Rattle.mount_service.specs.private.MountServers.{Answers};

    ghost answers = { Answers };

    ghost ends = { λ server. server.is_destroyed };

    ghost owes = { λ server. server.mount.owes };

    fn answer(&mut self, request: &[u8], reply: &mut Vec<u8>) {
        self.mount.answer(request, reply);
        self.is_destroyed = is_destroy(request);
    }

    fn tell_owed(&mut self, reply: &mut Vec<u8>) {
        self.mount.tell_owed(reply);
    }

    fn has_ended(&self) -> bool {
        self.is_destroyed
    }

    fn owes(&self) -> bool {
        self.mount.owes()
    }
}
