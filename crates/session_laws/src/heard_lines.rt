//! What was heard of lines, for clauses only.

ghost use Rattle.std.specs.Prelude.{◌≡◌, List, [], ◌∷◌, ◌++◌};
ghost use Rattle.session_laws.specs.declared.heard_lines.HeardLine.{HeardLine};

use script_reader::Told;
use std::marker::{Model, PhantomData};
use std::snapshot::Snapshot;
use trace_script::Outcome;

/// What was heard of a line, and the bytes that were written by then.
#[derive(Drop)]
pub struct HeardLine {
    pub number: usize,
    pub line: Told,
    pub outcome: Snapshot<Option<Outcome>>,
    pub held: Snapshot<Told>,
}

/// What was heard of lines, oldest first. It has no bytes at run time.
#[derive(Drop)]
pub struct HeardLines {
    marker: PhantomData<u8>,
    pub ghost lines: { List HeardLine },
}

impl Model for HeardLines {
    ghost use base.Fml.{ftrue};

    ghost also_owns = { λ _. ftrue };
}

impl HeardLines {
    /// Nothing was heard.
    pub fn nothing() -> HeardLines
        ensures { result.lines ≡ [] }
    {
        HeardLines {
            marker: PhantomData,
        }
    }

    /// One line more.
    pub fn after(old: &HeardLines, more: &HeardLine) -> HeardLines
        ensures { result.lines ≡ old.now.lines ++ more.now ∷ [] }
    {
        let _ = old;
        let _ = more;
        HeardLines {
            marker: PhantomData,
        }
    }
}
