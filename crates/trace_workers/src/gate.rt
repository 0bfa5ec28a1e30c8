//! Gates, which a block asks before and after each command.

ghost use Rattle.std.specs.Prelude.{◌≡◌, ℕ, Bool, true};
ghost use Rattle.trace_workers.specs.declared.gate.Point.{Point};

/// Where in a command a worker asks its gate.
#[derive(Clone, Copy, PartialEq, Eq)]
pub enum Point {
    /// Before the command runs.
    Asking,
    /// After the command was answered, when the lock is free again.
    Answered,
}

/// Lets the workers of a block through, or stops them. A gate may block as long as it likes: only the worker's thread waits, and no lock is held.
pub trait Gate {
    /// Whether it always answers `true`.
    ghost is_open: { Self → Bool };

    /// Which answers it may give: to the part with this index in its block, at the command with this index in its part, at this point. Any, if it
    /// can't say in advance.
    ghost may_answer: { Self → ℕ → ℕ → Point → Bool → Type 0 } = { λ _ _ _ _ _. Unit {0} };

    /// Whether the worker may go on: the part with this index in its block, at the command with this index in its part. Both indexes count from 0.
    fn arrive(&self, thread: u32, call: u64, point: Point) -> bool
        ensures open { is_open self.now ≡ true → result ≡ true }
        ensures named { may_answer self.now thread call point result };
}

/// A gate that lets every worker through.
#[derive(Clone, Copy)]
pub struct OpenGate;

impl Gate for OpenGate {
    ghost is_open = { λ _. true };

    ghost may_answer = { λ _ _ _ _ answer. answer ≡ true };

    fn arrive(&self, _thread: u32, _call: u64, _point: Point) -> bool {
        true
    }
}
