//! Names in requests.

ghost use Rattle.std.specs.Prelude.{◌↔◌, IsTrue};
ghost use Rattle.fuse_wire.specs.Parts.{IsName};
ghost use Rattle.fuse_wire.specs.private.Answers.{ReadsName};

use crate::bytes::Bytes;

/// Whether the bytes are a name.
fn is_name(bytes: &[u8]) -> bool
    ensures { IsTrue result ↔ IsName bytes.now }
{
    !bytes.is_empty() && !bytes.contains(&0)
}

/// The name that the bytes are, with its zero byte: `None` if they are none.
pub(crate) fn name_in(bytes: &[u8]) -> Option<Bytes<'_>>
    ensures { ReadsName bytes.now result }
{
    let (last, name) = bytes.split_last()?;
    if *last != 0 {
        return None;
    }
    if !is_name(name) {
        return None;
    }
    Some(Bytes::new(name))
}
