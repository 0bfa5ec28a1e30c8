//! Where the `end` of a part is looked for, before anything of the part is kept.

ghost use Rattle.std.specs.Prelude.{◌≡◌, IfOk};
ghost use Rattle.std.specs.List.{list_any};
ghost use Rattle.std.specs.Option.{option_copied};
ghost use Rattle.script_reader.specs.Items.{is_end};
ghost use Rattle.script_reader.specs.ScriptLines.{lines_left};

use crate::part::{ends, read_line};
use crate::script::first_line;
use std::alloc::{AllocError, Global};
use trace_script::{LineRoom, may_end};

/// Whether a line is an `end`. It is prepared only where its first bytes leave that open.
#[tactic(auto, using(crate::proofs::EndFinding::no_end))]
fn is_end(alloc: Global, room: &mut LineRoom, line: &[u8]) -> Result<bool, AllocError>
    ensures { IfOk result (λ ends. ends ≡ is_end line.now) }
{
    if !may_end(line) {
        return Ok(false);
    }
    let mut pairs = Vec::new(alloc);
    let said = read_line(room, &mut pairs, line)?;
    Ok(ends(&said))
}

/// Whether a line `end` is among the lines that are left.
#[tactic(auto, using(crate::proofs::EndFinding::found_here, crate::proofs::EndFinding::not_here))]
pub(crate) fn has_end(alloc: Global, text: Option<&[u8]>) -> Result<bool, AllocError>
    ensures { IfOk result (λ found. found ≡ list_any is_end (lines_left (option_copied text.entry))) }
{
    let mut room = LineRoom::new(alloc);
    let mut rest = text;
    while let Some(here) = rest {
        let (line, after) = first_line(here);
        if is_end(alloc, &mut room, line)? {
            return Ok(true);
        }
        rest = after;
    }
    Ok(false)
}
