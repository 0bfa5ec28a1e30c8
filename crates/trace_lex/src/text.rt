//! Strings of bytes.

ghost use Rattle.std.specs.Prelude.{◌≡◌, List, ℕ, [], ◌∷◌, ◌++◌, ◌↔◌, IsTrue, IfOk, OnOk, OnErr};

use smallvec::SmallVec;
use std::alloc::{AllocError, Global};
use std::marker::Model;

/// So many bytes lie in the value itself and take no allocation: most names, paths' parts and numbers are no longer.
const INLINE_BYTES: usize = 16;

/// A string, as bytes that need not be UTF-8.
#[derive(Debug)]
pub struct Text {
    bytes: SmallVec<u8, INLINE_BYTES>,
}

impl Drop for Text {
    // Not derived, so that no crate above proves the drops of its parts.
    #[inline]
    fn drop(self) {
        let Text { bytes: _ } = self;
    }
}

impl Model for Text {
    ghost Value = { List ℕ };

    ghost view = { λ t. t.bytes.items };
}

impl Text {
    /// The empty string.
    pub fn new(alloc: Global) -> Text
        ensures { result ≡ [] }
    {
        Text {
            bytes: SmallVec::new(alloc),
        }
    }

    /// A copy of the bytes.
    pub fn from_slice(alloc: Global, bytes: &[u8]) -> Result<Text, AllocError>
        ensures { IfOk result (λ t. t ≡ bytes.now) }
    {
        Ok(Text {
            bytes: SmallVec::from_slice(alloc, bytes)?,
        })
    }

    /// Puts a byte at the end.
    pub fn push(&mut self, byte: u8) -> Result<(), AllocError>
        ensures ok { OnOk result (self.new ≡ self.old ++ byte ∷ []) }
        ensures err { OnErr result (self.new ≡ self.old) }
    {
        self.bytes.push(byte)?;
        Ok(())
    }

    /// The bytes.
    pub fn as_bytes(&self) -> &[u8]
        ensures { result.now ≡ self.now }
    {
        self.bytes.as_slice()
    }

    /// The bytes, as a vector of the caller's own. A string that was made of a vector with room for more than 16
    /// bytes gives it back; another takes an allocation.
    pub fn into_bytes(self) -> Result<Vec<u8>, AllocError>
        ensures { IfOk result (λ bytes. bytes.items ≡ self) }
    {
        let Text { bytes } = self;
        Ok(bytes.into_vec()?)
    }
}

impl From<Vec<u8>> for Text {
    ghost from_gives = { λ v t. t ≡ v.items };

    fn from(bytes: Vec<u8>) -> Text {
        Text {
            bytes: SmallVec::from_vec(bytes),
        }
    }
}

/// Two strings are equal if their bytes are.
impl PartialEq for Text {
    ghost use Rattle.std.specs.Str.{bytes_eq};
    ghost use Rattle.std.specs.Cmp.{partial_equiv_from_equiv};
    ghost use Rattle.std.specs.Cmp.Lexicographic.{nat_list_eq_equiv};

    ghost eq = { bytes_eq };

    ghost laws = { partial_equiv_from_equiv nat_list_eq_equiv };

    fn eq(&self, other: &Text) -> bool
        ensures value { result ≡ bytes_eq self.now other.now }
        ensures same { IsTrue result ↔ (self.now ≡ other.now) }
    {
        self.as_bytes() == other.as_bytes()
    }
}

impl Eq for Text {
    ghost use Rattle.std.specs.Cmp.Lexicographic.{nat_list_eq_equiv};

    ghost laws = { nat_list_eq_equiv };
}

/// A clone is of the same bytes. It takes an allocation if these are more than 16.
impl Clone for Text {
    ghost is_clone = { λ text copy. copy ≡ text };

    fn clone(&self) -> Result<Text, AllocError> {
        Text::from_slice(*self.bytes.allocator(), self.as_bytes())
    }
}
