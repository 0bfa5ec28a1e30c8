//! A line of a part, read when its turn comes. It is read again, since its command was not kept.

ghost use Rattle.std.specs.Prelude.{◌≡◌, Ok, IfOk};
ghost use Rattle.trace_command.specs.Commands.{Command};
ghost use Rattle.trace_script.specs.Lines.{line_of};
ghost use Rattle.trace_script.specs.declared.line.Line.TheVariants.{Ask};
ghost use Rattle.trace_session.specs.PartTexts.{asked_command};
ghost use Rattle.trace_workers.specs.Readies.{command_of};

use crate::part_line::AskedLine;
use shared_book::SharedBook;
use std::alloc::{AllocError, Global};
use ticket_lock::Pass;
use trace_script::{Line, LineRoom, plain_emission, prepare};
use trace_workers::{Asked, Ready};

/// The command of a line that asks for one. So only memory can be missing.
#[tactic(auto, using(crate::proofs::PartAsking::same_command))]
fn prepared<'a>(alloc: Global, line: &[u8]) -> Result<Ready<'a>, AllocError>
    ensures { IfOk result (λ ready. (command : Command) → line_of line.now ≡ Ok (Ask command) → command_of ready ≡ command) }
{
    let mut room = LineRoom::new(alloc);
    let mut pairs = Vec::new(alloc);
    let Ok(Line::Ask(command)) = prepare(&mut room, &mut pairs, line) else {
        return Err(AllocError);
    };
    Ok(Ready::Command(command.copied(alloc)?))
}

impl<'a> Asked for AskedLine<'a> {
    ghost command = { asked_command };

    #[tactic(auto, using(crate::proofs::PartAsking::same_command))]
    fn read<'r, B: SharedBook>(
        self,
        alloc: Global,
        _pass: &Pass<B>,
    ) -> Result<Ready<'r>, AllocError>
    where
        Self: 'r,
    {
        let mut pairs = Vec::new(alloc);
        match plain_emission(self.line, &mut pairs)? {
            Some(head) => Ok(Ready::Emission {
                event: head.event,
                cpu: head.cpu,
                pid: head.pid,
                pairs,
            }),
            None => prepared(alloc, self.line),
        }
    }
}
