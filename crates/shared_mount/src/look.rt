//! Looks at a tracer, which change nothing and are no commands.

ghost use Rattle.tracer.specs.LiveSeen.{LiveSeen};

use tracer::Tracer;

/// A look at a tracer in a caller's turn, as at whether a record waits in a pipe.
pub trait Look {
    /// What it tells.
    type Answer;

    // What it may tell of a tracer.
    ghost tells: { Self → LiveSeen → Self.Answer → Type 0 };

    /// Looks.
    fn look(&self, tracer: &Tracer) -> Self::Answer
        ensures { tells self.now tracer.now result };
}

/// Nothing is looked at. So a caller that is in line has its turn, and is in line no longer.
#[derive(Drop)]
pub struct Nothing;

impl Look for Nothing {
    type Answer = ();

    ghost tells = { λ _ _ _. Unit {0} };

    #[inline(always)]
    fn look(&self, tracer: &Tracer) {
        let _ = tracer;
    }
}
