//! What the lock asks of the value that it guards.
ghost use Rattle.std.specs.Prelude.{ℕ, List};

/// A value that keeps a list of entries, one for each call that was done on it.
pub trait Logged {
    /// What is kept of one call.
    type Entry;

    // The entries, the oldest first.
    ghost entries: { Self → List Self.Entry };

    // What no call changes.
    ghost base: { Self → List ℕ };

    // The ticket under which the call was done.
    ghost ticket: { Self.Entry → ℕ };

    // The number of the caller that made it.
    ghost by: { Self.Entry → ℕ };
}
