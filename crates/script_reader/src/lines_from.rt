//! The lines of a string, found by their numbers.

ghost use Rattle.std.specs.Prelude.{◌≡◌, ◌≤◌, ◌↔◌, ℕ, List, Some, MatchOption};
ghost use Rattle.std.specs.Option.{option_copied};
ghost use Rattle.script_reader.specs.PartReads.{IsLineAt};
ghost use Rattle.script_reader.specs.ScriptLines.{lines_left};

use crate::script::first_line;

/// The lines of a string from one on. They are asked for by rising numbers.
#[derive(Drop)]
pub struct LinesFrom<'a> {
    /// The number of the first of them.
    pub number: usize,
    /// The bytes from that line on, if any line is left.
    pub rest: Option<&'a [u8]>,
}

impl<'a> LinesFrom<'a> {
    /// The lines of a string, the first of which has this number.
    pub fn new(number: usize, text: &'a [u8]) -> LinesFrom<'a>
        ensures number { result.number ≡ number }
        ensures text { option_copied result.rest ≡ Some text.now }
    {
        LinesFrom {
            number,
            rest: Some(text),
        }
    }

    /// The line of this number, if there is one. Lines before it can't be found afterwards.
    #[tactic(auto, using(crate::proofs::LineFinding::before_all, crate::proofs::LineFinding::behind_all, crate::proofs::LineFinding::next_left, crate::proofs::LineFinding::is_found, crate::proofs::LineFinding::left_alike))]
    pub fn find(&mut self, number: usize) -> Option<&'a [u8]>
        ensures line { MatchOption result
            ((line : List ℕ) → IsLineAt self.old.number (lines_left (option_copied self.old.rest)) number line → ⊥)
            (λ line. IsLineAt self.old.number (lines_left (option_copied self.old.rest)) number line.now) }
        ensures later { (later : ℕ) (line : List ℕ) → number ≤ later
            → IsLineAt self.old.number (lines_left (option_copied self.old.rest)) later line
            ↔ IsLineAt self.new.number (lines_left (option_copied self.new.rest)) later line }
    {
        if number < self.number {
            return None;
        }
        let mut rest = self.rest;
        for _ in self.number..number {
            let Some(text) = rest else {
                return None;
            };
            rest = first_line(text).1;
        }
        let Some(text) = rest else {
            return None;
        };
        self.number = number;
        self.rest = rest;
        Some(first_line(text).0)
    }
}
