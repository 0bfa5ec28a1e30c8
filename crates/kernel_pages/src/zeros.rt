//! Bytes with zeros after them.

ghost use Rattle.std.specs.Prelude.{◌≡◌, ◌++◌, replicate, OnOk};
ghost use Rattle.kernel_pages.specs.KernelFormats as formats;

use std::alloc::AllocError;

/// Appends zeros.
#[tactic(auto, using(std::proofs::lemmas::List::replicate_more))]
pub(crate) fn push_zeros(out: &mut Vec<u8>, count: usize) -> Result<(), AllocError>
    ensures { OnOk result (out.new.items ≡ out.old.items ++ replicate count 0) }
{
    for _ in 0..count {
        out.push(0)?;
    }
    Ok(())
}

/// Appends so many bytes: of these, and then zeros.
pub(crate) fn push_filled(out: &mut Vec<u8>, size: usize, bytes: &[u8]) -> Result<(), AllocError>
    ensures { OnOk result (out.new.items ≡ out.old.items ++ formats.filled size bytes.now) }
{
    if bytes.len() >= size {
        return out.extend_from_slice(&bytes[..size]);
    }
    out.extend_from_slice(bytes)?;
    push_zeros(out, size - bytes.len())
}
