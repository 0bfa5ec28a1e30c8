//! Reads of pipes that wait for records.

ghost use Rattle.std.specs.Prelude.{◌≡◌, [], ◌∷◌, ◌++◌, map, OnErr, OnOk};
ghost use Rattle.mount_replies.specs.Services.{interrupted_if, read_of_pipe};

use std::alloc::AllocError;

/// A read of a pipe that has no reply yet.
#[derive(Clone, Copy)]
pub struct Parked {
    /// The request's own number.
    pub unique: u64,
    /// The handle of its open file.
    pub handle: u64,
    /// How many bytes it has room for.
    pub size: u32,
    /// Whether it is to be given up.
    pub interrupted: bool,
}

/// A read that was just asked.
pub(crate) fn read_of_pipe(unique: u64, handle: u64, size: u32) -> Parked
    ensures { result ≡ read_of_pipe unique handle size }
{
    Parked {
        unique,
        handle,
        size,
        interrupted: false,
    }
}

/// Adds a read that waits from now on. If memory is refused, nothing has changed.
pub(crate) fn add(parked: &mut Vec<Parked>, read: Parked) -> Result<(), AllocError>
    ensures ok { OnOk result (parked.new.items ≡ parked.old.items ++ read ∷ []) }
    ensures err { OnErr result (parked.new.items ≡ parked.old.items) }
{
    parked.push(read)?;
    Ok(())
}

// Marks the read of this number.
fn mark(parked: &mut [Parked], unique: u64)
    ensures { parked.new ≡ map (interrupted_if unique) parked.old }
{
    for read in parked.iter_mut() {
        if read.unique == unique {
            read.interrupted = true;
        }
    }
}

/// Notes that the read of this number is to be given up, if it waits.
pub(crate) fn interrupt(parked: &mut Vec<Parked>, unique: u64)
    ensures { parked.new.items ≡ map (interrupted_if unique) parked.old.items }
{
    mark(parked.as_mut_slice(), unique);
}
