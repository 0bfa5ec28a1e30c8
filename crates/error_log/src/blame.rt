//! The line of a text that is to blame, and what is kept of it.

ghost use Rattle.std.specs.Prelude.{◌≡◌, ◌≤◌, length, reverse};
ghost use Rattle.std.specs.List.{prefix_len};
ghost use Rattle.error_log.specs.Errors as errors;

use refusal_explanations::{after, up_to};

/// The most bytes that are kept of a line.
pub(crate) const MOST_BYTES: usize = 256;

/// How many bytes come before the first newline.
fn first_line_len(text: &[u8]) -> usize
    ensures value { result ≡ prefix_len errors.is_in_line text.now }
    ensures bound { result ≤ length text.now }
{
    text.iter().take_while(|byte| **byte != b'\n').count()
}

/// How many bytes follow the last newline.
fn last_line_len(text: &[u8]) -> usize
    ensures value { result ≡ prefix_len errors.is_in_line (reverse text.now) }
    ensures bound { result ≤ length text.now }
{
    text.iter().rev().take_while(|byte| **byte != b'\n').count()
}

/// The line that has the byte at an offset.
pub(crate) fn line_at(text: &[u8], offset: usize) -> &[u8]
    ensures { result.now ≡ errors.line_at text.now offset }
{
    let before = up_to(offset, text);
    let start = before.len() - last_line_len(before);
    let end = before.len() + first_line_len(after(offset, text));
    &text[start..end]
}

/// In which column of its line the byte at an offset is, from 0.
pub(crate) fn column_at(text: &[u8], offset: usize) -> usize
    ensures { result ≡ errors.column_at text.now offset }
{
    last_line_len(up_to(offset, text))
}

/// How many bytes are left out before a column.
fn shift_of(column: usize) -> usize
    ensures { result ≡ errors.shift_of column }
{
    column.saturating_sub(MOST_BYTES - 1)
}

/// What is kept of a line.
pub(crate) fn window(line: &[u8], column: usize) -> &[u8]
    ensures value { result.now ≡ errors.window line.now column }
    ensures bound { length result.now ≤ 256 }
{
    up_to(MOST_BYTES, after(shift_of(column), line))
}

/// Where a column is in what is kept of its line.
pub(crate) fn caret_of(column: usize) -> usize
    ensures { result ≡ errors.caret_of column }
{
    column - shift_of(column)
}
