//! Blanks, and texts without the blanks at their ends.

ghost use Rattle.std.specs.Prelude.{◌≡◌, ◌≤◌, length, reverse};
ghost use Rattle.std.specs.List.{prefix_len};
ghost use Rattle.trace_lex.specs.Blanks as blanks;

/// Whether a byte is a space or a tab.
pub fn is_blank(byte: u8) -> bool
    ensures { result ≡ blanks.is_blank byte }
{
    byte == b' ' || byte == b'\t'
}

/// How many blanks a text begins with.
pub fn blanks_len(text: &[u8]) -> usize
    ensures value { result ≡ prefix_len blanks.is_blank text.now }
    ensures bound { result ≤ length text.now }
{
    text.iter().take_while(|byte| is_blank(**byte)).count()
}

/// How many blanks a text ends with.
fn end_blanks_len(text: &[u8]) -> usize
    ensures value { result ≡ prefix_len blanks.is_blank (reverse text.now) }
    ensures bound { result ≤ length text.now }
{
    text.iter()
        .rev()
        .take_while(|byte| is_blank(**byte))
        .count()
}

/// The text without the blanks at its end.
pub fn trim_end(text: &[u8]) -> &[u8]
    ensures { result.now ≡ blanks.without_end text.now }
{
    &text[..text.len() - end_blanks_len(text)]
}

/// The text without the blanks at both ends.
pub fn trim(text: &[u8]) -> &[u8]
    ensures { result.now ≡ blanks.trimmed text.now }
{
    let body = trim_end(text);
    &body[blanks_len(body)..]
}
