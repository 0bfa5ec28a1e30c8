//! The lines of a part's threads, separated from their numbers.

ghost use Rattle.std.specs.Prelude.{◌≡◌, map, IfOk};
ghost use Rattle.script_reader.specs.PartReads.{asked_of, commands_in};
ghost use Rattle.trace_session.specs.PartTexts.{asked_command, items_in};
ghost use Rattle.trace_workers.specs.BlockRuns.{commands_of};

use crate::part_line::AskedLine;
use script_reader::part_line::PartLine;
use std::alloc::{AllocError, Global};

/// The numbers and the lines of a thread.
fn split_thread<'a>(
    alloc: Global,
    thread: Vec<PartLine<'a>>,
) -> Result<(Vec<usize>, Vec<AskedLine<'a>>), AllocError>
    ensures numbers { IfOk result (λ halves. halves.0.items ≡ map (λ asked. asked.number) (map asked_of thread.entry.items)) }
    ensures commands { IfOk result (λ halves. map asked_command halves.1.items ≡ map (λ asked. asked.command) (map asked_of thread.entry.items)) }
{
    let mut numbers = Vec::with_capacity(alloc, thread.len())?;
    let mut lines = Vec::with_capacity(alloc, thread.len())?;
    for PartLine { number, line, .. } in thread {
        numbers.push(number)?;
        lines.push(AskedLine { line })?;
    }
    Ok((numbers, lines))
}

/// The numbers and the lines of each thread.
pub(crate) fn split_threads<'a>(
    alloc: Global,
    threads: Vec<Vec<PartLine<'a>>>,
) -> Result<(Vec<Vec<usize>>, Vec<Vec<AskedLine<'a>>>), AllocError>
    ensures numbers { IfOk result (λ halves.
        items_in halves.0.items ≡ map (map (λ asked. asked.number)) (commands_in threads.entry.items)) }
    ensures commands { IfOk result (λ halves.
        commands_of asked_command halves.1.items ≡ map (map (λ asked. asked.command)) (commands_in threads.entry.items)) }
{
    let mut numbers = Vec::new(alloc);
    let mut lines = Vec::new(alloc);
    for thread in threads {
        let (own_numbers, own_lines) = split_thread(alloc, thread)?;
        numbers.push(own_numbers)?;
        lines.push(own_lines)?;
    }
    Ok((numbers, lines))
}
