//! Strings, cut at a place or at a byte.

ghost use Rattle.std.specs.Prelude.{◌≡◌, ◌≤◌, length, drop};
ghost use Rattle.std.specs.List.{prefix_len};
ghost use Rattle.trace_lex.specs.Prefixes.{is_not};

/// The string from a place on.
pub fn rest_of(text: &[u8], from: usize) -> &[u8]
    requires { from ≤ length text.now }
    ensures { result.now ≡ drop from text.now }
{
    &text[from..]
}

/// How many bytes of a string stand before the first that is `byte`; all of them, where there is none.
pub fn len_before(byte: u8, text: &[u8]) -> usize
    ensures value { result ≡ prefix_len (is_not byte) text.now }
    ensures bound { result ≤ length text.now }
{
    text.iter().take_while(|other| **other != byte).count()
}
