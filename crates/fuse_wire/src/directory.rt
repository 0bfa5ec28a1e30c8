//! The entries of a directory.

ghost use Rattle.std.specs.Prelude.{◌≡◌, ◌<◌, ◌≤◌, length, replicate};
ghost use Rattle.fuse_wire.specs.Alignment.{padding as padding_of};

use crate::attributes::FileKind;
use crate::bytes::Bytes;
use crate::words::{pair, word};
use std::alloc::AllocError;

static ZEROS: [u8; 8] = [0; 8];

/// So many zeros.
fn zeros(count: usize) -> &'static [u8]
    requires { count ≤ 8 }
    ensures { result.now ≡ replicate count 0 }
{
    &ZEROS[..count]
}

/// How many zeros follow a name, up to a multiple of eight.
fn padding(name: &[u8]) -> usize
    ensures value { result ≡ padding_of (length name.now) }
    ensures bound { result < 8 }
{
    name.len().div_ceil(8) * 8 - name.len()
}

/// A name in a directory.
#[derive(Drop)]
pub struct DirectoryEntry<'a> {
    pub node: u64,
    /// Where reading goes on after it: the offset of a `ReadDir` that begins with the next entry.
    pub offset: u64,
    pub kind: FileKind,
    pub name: Bytes<'a>,
}

impl<'a> DirectoryEntry<'a> {
    ghost use Rattle.std.specs.Prelude.{◌≡◌, ◌+◌, ◌<◌, ◌≤◌, ◌^◌, ◌++◌, ◌↔◌, length, take, IsTrue, IfOk, OnOk, OnErr, if◌then◌else◌};
    ghost use Rattle.fuse_wire.specs.Directories.{entry_bytes};

    /// How many bytes it takes.
    fn size(&self) -> usize
        ensures value { result ≡ length (entry_bytes self.now) }
        ensures bound { length self.now.name + 24 ≤ result }
    {
        let name = self.name.as_slice();
        24 + name.len() + padding(name)
    }

    /// Appends it. If memory is refused, a part of it may be there.
    fn append(&self, out: &mut Vec<u8>) -> Result<(), AllocError>
        requires { length self.now.name < 2 ^ 32 }
        ensures ok { OnOk result (out.new.items ≡ out.old.items ++ entry_bytes self.now) }
        ensures err { OnErr result (take (length out.old.items) out.new.items ≡ out.old.items) }
    {
        let name = self.name.as_slice();
        let words = [
            word(self.node),
            word(self.offset),
            pair(name.len() as u32, self.kind.number()),
        ];
        out.extend_from_slice(words.as_flattened())?;
        out.extend_from_slice(name)?;
        out.extend_from_slice(zeros(padding(name)))
    }

    /// Appends it to data that is to have at most `size` bytes, if it fits, and answers whether it did. If memory is refused, `out` is as before.
    pub fn push(&self, size: u32, out: &mut Vec<u8>) -> Result<bool, AllocError>
        ensures fits { IfOk result (λ pushed. IsTrue pushed
            ↔ (length out.old.items + length (entry_bytes self.now) ≤ size)) }
        ensures ok { IfOk result (λ pushed. out.new.items
            ≡ (if pushed then out.old.items ++ entry_bytes self.now else out.old.items)) }
        ensures err { OnErr result (out.new.items ≡ out.old.items) }
    {
        let before = out.len();
        if self.size() > (size as usize).saturating_sub(before) {
            return Ok(false);
        }
        match self.append(out) {
            Ok(()) => Ok(true),
            Err(error) => {
                out.truncate(before);
                Err(error)
            }
        }
    }
}
