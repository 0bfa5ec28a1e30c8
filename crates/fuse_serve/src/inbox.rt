//! The bytes that were read and not yet taken. They lie in one buffer, and move to its beginning before each read, so that a read is offered all
//! the room that is left: a FUSE device refuses a read that offers less than it may need.
//!
//!     0        start          end             MOST_BYTES
//!     |  taken |  waiting     |  room         |

ghost use Rattle.std.specs.Prelude.{◌≡◌, ◌<◌, ◌≤◌, [], length, drop, IfOk, Ok};
ghost use Rattle.std.specs.Io.KnownBytes.{IsAtEnd};
ghost use Rattle.fuse_serve.specs.private.Turns.{HasRead};

use crate::device::Device;
use crate::framing::MOST_BYTES;
use std::alloc::{AllocError, Global};
use std::io;
use std::marker::Model;

/// The bytes that wait. Contracts see them as a list.
#[derive(Drop)]
pub(crate) struct Inbox {
    buffer: Vec<u8>,
    start: usize,
    end: usize,
}

impl Model for Inbox {
    ghost use Rattle.std.specs.Prelude.{◌≡◌, ◌-◌, ◌≤◌, ℕ, List, take, drop, vec_len};

    ghost Value = { List ℕ };

    ghost view = { λ inbox. take (inbox.end - inbox.start) (drop inbox.start inbox.buffer.items) };

    ghost invariant = { λ inbox. (inbox.start ≤ inbox.end) × (inbox.end ≤ 135168) × (vec_len inbox.buffer ≡ 135168) };
}

impl Inbox {
    /// Nothing waits.
    pub(crate) fn new(alloc: Global) -> Result<Inbox, AllocError>
        ensures { IfOk result (λ inbox. inbox ≡ []) }
    {
        Ok(Inbox {
            buffer: vec![in alloc; 0; MOST_BYTES]?,
            start: 0,
            end: 0,
        })
    }

    /// The bytes that wait.
    pub(crate) fn waiting(&self) -> &[u8]
        ensures { result.now ≡ self.now }
    {
        &self.buffer[self.start..self.end]
    }

    /// Takes so many bytes.
    pub(crate) fn skip(&mut self, count: usize)
        requires { count ≤ length self.old }
        ensures { self.new ≡ drop count self.old }
    {
        self.start += count;
    }

    /// Reads once, as many bytes as there is room for, and returns how many came.
    pub(crate) fn read_from<D: Device>(&mut self, device: &mut D) -> io::Result<usize>
        requires { length self.old < MOST_BYTES }
        ensures read { HasRead result self.old self.new (D.calls device.old) (D.calls device.new) (D.remaining device.old) (D.remaining device.new) }
        ensures end { result ≡ Ok 0 → IsAtEnd (D.remaining device.new) }
        ensures contents { D.contents device.new ≡ D.contents device.old }
    {
        let waiting = self.end - self.start;
        self.buffer.copy_within(self.start..self.end, 0);
        self.start = 0;
        self.end = waiting;
        let outcome = device.read(&mut self.buffer[waiting..]);
        if let Ok(count) = outcome {
            self.end += count;
        }
        outcome
    }
}
