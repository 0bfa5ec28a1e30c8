//! Values that lie in a payload.

ghost use Rattle.std.specs.Prelude.{◌≡◌, length, option_map};
ghost use Rattle.trace_format.specs.Cells.{datum_in};
ghost use Rattle.trace_format.specs.Decoding.{field_from};
ghost use Rattle.trace_format.specs.Kinds.{size_of};

use crate::kind::Kind;
use crate::payload::{decode_number, decode_text};

/// The value of a field, whose text lies elsewhere.
#[derive(Clone, Copy)]
pub enum BorrowedValue<'a> {
    /// A number, in its type's range.
    Num(i128),
    /// A text of bytes from 0x20 to 0x7e, shorter than its field.
    Text(&'a [u8]),
}

impl Kind {
    /// The value that the bytes of a field are, if they are those of one.
    #[inline]
    pub fn value_in(self, bytes: &[u8]) -> Option<BorrowedValue<'_>>
        requires { length bytes.now ≡ size_of self }
        ensures { option_map datum_in result ≡ field_from self bytes.now }
    {
        match self {
            Kind::Number(number_type) => Some(BorrowedValue::Num(decode_number(
                number_type,
                bytes,
            ))),
            Kind::Char(_) => match decode_text(bytes) {
                Some(text) => Some(BorrowedValue::Text(text)),
                None => None,
            },
        }
    }
}
