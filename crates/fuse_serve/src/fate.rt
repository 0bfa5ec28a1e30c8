//! What became of a reply.

/// What became of a reply.
#[derive(Clone, Copy, Debug, PartialEq, Eq)]
pub enum Fate {
    /// All of it was written.
    Written,
    /// None of it was written, since its request was interrupted (ENOENT).
    Dropped,
    /// The device failed before all of it was written.
    Cut,
}
