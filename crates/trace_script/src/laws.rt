//! What `==` and `clone` mean, as theorems that speak of no program.

ghost use Rattle.std.specs.Prelude.{◌≡◌, ◌↔◌, IsTrue};
ghost use Rattle.trace_script.specs.declared.outcome.Outcome.{Outcome as OutcomeValue};

use crate::outcome::Outcome;

/// What became of two lines is equal exactly where it is the same value.
pub fn equal_values_are_the_same()
    ensures outcome { (a : OutcomeValue) (b : OutcomeValue) → IsTrue (⟦<Outcome as PartialEq>⟧.eq a b) ↔ (a ≡ b) }
{
    trace_command::laws::equal_values_are_the_same();
}

/// A clone of what became of a line is the same value.
pub fn clones_are_the_same()
    ensures outcome { (a : OutcomeValue) (c : OutcomeValue) → ⟦<Outcome as Clone>⟧.is_clone a c → c ≡ a }
{
    trace_command::laws::clones_are_the_same();
}
