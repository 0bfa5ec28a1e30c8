//! Values of fields as a program has them: numbers and bytes, with no text written for a number.

/// A value that is given to a field: a number, or bytes. It is given as the text that an emission writes for it (`text_given`), so any field may be
/// given any value: a text field has the digits of a number, and a number field what the bytes write.
#[derive(Clone, Copy)]
pub enum FieldValue<'a> {
    /// A number from 0.
    Unsigned(u64),
    /// A number with its sign.
    Signed(i64),
    /// The bytes of a text.
    Bytes(&'a [u8]),
}
