//! What a call of a device came to.

use std::io;

/// What a call of a device returned.
#[derive(Clone, Copy)]
pub enum Outcome {
    /// A read.
    Read(io::Result<usize>),
    /// A write.
    Written(io::Result<usize>),
}
