//! The words of a write.

ghost use Rattle.std.specs.Prelude.{◌≡◌, ◌≤◌, length};
ghost use Rattle.std.specs.List.{list_all, prefix_len};
ghost use Rattle.mount_stub_files.specs.Words as words;

/// Whether a byte separates words: a space, a tab or a newline.
fn is_space(byte: u8) -> bool
    ensures { result ≡ words.is_space byte }
{
    byte == b' ' || byte == b'\t' || byte == b'\n'
}

/// How many spaces come first.
pub(crate) fn spaces_len(bytes: &[u8]) -> usize
    ensures value { result ≡ prefix_len words.is_space bytes.now }
    ensures bound { result ≤ length bytes.now }
{
    bytes.iter().take_while(|byte| is_space(**byte)).count()
}

/// How many bytes come before the first space.
fn word_len(bytes: &[u8]) -> usize
    ensures value { result ≡ prefix_len words.is_no_space bytes.now }
    ensures bound { result ≤ length bytes.now }
{
    bytes.iter().take_while(|byte| !is_space(**byte)).count()
}

/// The first word; empty, if there is none.
pub(crate) fn first_word(bytes: &[u8]) -> &[u8]
    ensures { result.now ≡ words.first_word bytes.now }
{
    let rest = &bytes[spaces_len(bytes)..];
    &rest[..word_len(rest)]
}

/// How many bytes the first word has with the spaces before it and one after it.
pub(crate) fn word_size(bytes: &[u8]) -> usize
    ensures value { result ≡ words.word_size bytes.now }
    ensures bound { result ≤ length bytes.now }
{
    let spaces = spaces_len(bytes);
    let end = spaces + word_len(&bytes[spaces..]);
    if end < bytes.len() { end + 1 } else { end }
}

/// Whether nothing but spaces is left.
fn are_spaces(bytes: &[u8]) -> bool
    ensures { result ≡ list_all words.is_space bytes.now }
{
    bytes.iter().all(|byte| is_space(*byte))
}

/// The word, if there is exactly one; else nothing.
pub(crate) fn only_word(bytes: &[u8]) -> &[u8]
    ensures { result.now ≡ words.only_word bytes.now }
{
    if are_spaces(&bytes[word_size(bytes)..]) {
        first_word(bytes)
    } else {
        &[]
    }
}
