//! What is shown of a write that was refused.

ghost use Rattle.std.specs.Prelude.{◌≡◌, ◌++◌, OnOk, take};
ghost use Rattle.error_log.specs.Errors as errors;

use crate::error::NotedError;
use itoa::Buffer;
use refusal_explanations::{push_padding, push_shown, up_to};
use std::alloc::AllocError;

fn push_time(out: &mut Vec<u8>, time: u64) -> Result<(), AllocError>
    ensures { OnOk result (out.new.items ≡ out.old.items ++ errors.time_text time) }
{
    let mut buffer = Buffer::new();
    let digits = buffer.format(time).as_bytes();
    out.extend_from_slice(up_to(5usize.saturating_sub(digits.len()), b"     "))?;
    out.extend_from_slice(digits)?;
    out.extend_from_slice(b".000000".as_slice())?;
    Ok(())
}

fn push_heading(out: &mut Vec<u8>, error: &NotedError) -> Result<(), AllocError>
    ensures { OnOk result (out.new.items ≡ out.old.items ++ errors.heading error.now) }
{
    out.push(b'[')?;
    push_time(out, error.time())?;
    out.extend_from_slice(b"] ".as_slice())?;
    out.extend_from_slice(error.name())?;
    out.extend_from_slice(b": error: ".as_slice())?;
    out.extend_from_slice(error.sentence().as_bytes())?;
    out.push(b'\n')?;
    Ok(())
}

/// What stands before the caret.
fn above_caret(error: &NotedError) -> &[u8]
    ensures { result.now ≡ take error.now.at error.now.written }
{
    up_to(error.at(), error.written())
}

fn push_command(out: &mut Vec<u8>, error: &NotedError) -> Result<(), AllocError>
    ensures { OnOk result (out.new.items ≡ out.old.items ++ errors.command error.now) }
{
    out.extend_from_slice(b"  Command: ".as_slice())?;
    push_shown(out, error.written())
}

fn push_before_caret(out: &mut Vec<u8>, error: &NotedError) -> Result<(), AllocError>
    ensures { OnOk result (out.new.items ≡ out.old.items ++ errors.before_caret error.now) }
{
    out.extend_from_slice(b"           ".as_slice())?;
    push_padding(out, above_caret(error))
}

/// Appends what is shown of an error.
pub(crate) fn push_error(out: &mut Vec<u8>, error: &NotedError) -> Result<(), AllocError>
    ensures { OnOk result (out.new.items ≡ out.old.items ++ errors.error_text error.now) }
{
    push_heading(out, error)?;
    push_command(out, error)?;
    out.push(b'\n')?;
    push_before_caret(out, error)?;
    out.extend_from_slice(b"^\n".as_slice())?;
    Ok(())
}
