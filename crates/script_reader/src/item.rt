//! The items of a script, read one after the other: a line by itself, or a whole part. Most items of most scripts are emissions or reads, which are
//! read at once where they lie; any other is read out of line.

ghost use Rattle.std.specs.Prelude.{◌≡◌, ℕ, List, ◌+◌, ◌-◌, ◌<◌, ◌≤◌, ◌^◌, ◌∷◌, drop, length, IfOk, Ok};
ghost use Rattle.std.specs.Option.{option_copied};
ghost use Rattle.trace_script.specs.Lines.{line_of};
ghost use Rattle.trace_script.specs.PlainEmissions.{IsPlainEmission};
ghost use Rattle.trace_script.specs.declared.line.Line.TheVariants.{Ask, Parallel};
ghost use Rattle.script_reader.specs.Items.{Single, items_from};
ghost use Rattle.script_reader.specs.NextItems.{item_read, begins_with, IfPlain, IsEmission, IsSaid, HasFaultLine, HasItsText};
ghost use Rattle.script_reader.specs.PartReads.{item_of, HasItsLine};
ghost use Rattle.script_reader.specs.private.NextReads.{IsNextRead};
ghost use Rattle.script_reader.specs.ScriptLines.{lines_of, lines_left, bytes_left};

use crate::part::{FaultAt, Part, read_line, read_part};
use crate::part_line::PartLine;
use crate::script::{first_line, line_of_len};
use std::alloc::{AllocError, Global};
use trace_command::Command;
use trace_format::BorrowedPair;
use trace_script::{FirstCommand, Line, LineRoom, ScriptFault, first_emission, first_read};

/// An item that was read out of line.
#[derive(Drop)]
pub enum ItemRead<'a, 'p> {
    /// A line by itself, and what it asks for or its fault.
    Line {
        line: &'a [u8],
        said: Result<Line<'p>, ScriptFault>,
    },
    /// A part: the string that begins with its lines, and the lines of the commands of each of its threads.
    Threads {
        text: &'a [u8],
        threads: Vec<Vec<PartLine<'a>>>,
    },
    /// The fault of the earliest line of a part that has one, and that line.
    Fault {
        at: FaultAt,
        line: &'a [u8],
    },
}

/// An item that is no command read where it lies, and what follows it.
#[derive(Drop)]
pub struct OtherItem<'a, 'p> {
    pub item: ItemRead<'a, 'p>,
    /// The number of the first line after it.
    pub number: usize,
    /// What follows it, if anything does.
    pub rest: Option<&'a [u8]>,
}

/// A part that was read, as an item. The string begins with it.
fn part_item<'a, 'p>(text: &'a [u8], part: Part<'a>) -> ItemRead<'a, 'p>
    ensures text { HasItsText text.entry.now result }
    ensures item { (number : ℕ) → item_read number result ≡ item_of part.entry }
    ensures said { IsSaid result }
    ensures line { (first : ℕ) (lines : List (List ℕ)) → HasItsLine first lines part.entry → HasFaultLine first lines result }
{
    match part {
        Part::Threads(threads) => ItemRead::Threads { text, threads },
        Part::Fault { at, line } => ItemRead::Fault { at, line },
    }
}

/// Whether a line begins a part, if an `end` follows it.
fn begins(said: &Result<Line<'_>, ScriptFault>) -> bool
    ensures { result ≡ begins_with said.now }
{
    matches!(said, Ok(Line::Parallel))
}

/// Reads on at a line `parallel`: the part that it begins, if a line `end` follows it; else that line by itself. It is kept out of line, so
/// that other lines don't take the room of a part. The text is that which begins with the line. The clauses of [`other_item`] are here in one word.
#[inline(never)]
fn part_or_line<'a, 'p>(
    alloc: Global,
    number: usize,
    text: &'a [u8],
    line: &'a [u8],
    after: Option<&'a [u8]>,
) -> Result<OtherItem<'a, 'p>, AllocError>
    requires room { number + length text.now < 2 ^ 63 - 1 }
    requires lines { lines_of text.now ≡ line.now ∷ lines_left (option_copied after) }
    requires shorter { bytes_left (option_copied after) ≤ length text.now }
    requires says { Ok Parallel ≡ line_of line.now }
    ensures { IsNextRead number text.now result }
{
    match read_part(alloc, number + 1, after)? {
        Some(read) => Ok(OtherItem {
            item: part_item(text, read.part),
            number: number + 1 + read.lines + 1,
            rest: read.rest,
        }),
        None => Ok(OtherItem {
            item: ItemRead::Line {
                line,
                said: Ok(Line::Parallel),
            },
            number: number + 1,
            rest: after,
        }),
    }
}

/// Reads the item that a string begins with, whose first line has this number: a part, where that line is `parallel` and a line `end` follows
/// it; else one line, whose words and pairs lie in the line, the room and the list. It fails only if memory is refused. It is kept out of line, so that
/// the commands that [`next_item`] reads don't take its room.
#[inline(never)]
#[tactic(auto, using(crate::proofs::ItemReading::line_next, crate::proofs::ItemReading::line_left))]
pub fn other_item<'a: 'r, 'r, 'p>(
    alloc: Global,
    room: &'r mut LineRoom,
    pairs: &'p mut Vec<BorrowedPair<'r>>,
    number: usize,
    text: &'a [u8],
) -> Result<OtherItem<'a, 'p>, AllocError>
    requires room { number + length text.now < 2 ^ 63 - 1 }
    ensures read { IfOk result (λ other. items_from number 0 (lines_of text.now)
        ≡ item_read number other.item ∷ items_from other.number 0 (lines_left (option_copied other.rest))) }
    ensures lines { IfOk result (λ other. lines_left (option_copied other.rest) ≡ drop (other.number - number) (lines_of text.now)) }
    ensures number { IfOk result (λ other. number < other.number) }
    ensures said { IfOk result (λ other. IsSaid other.item) }
    ensures line { IfOk result (λ other. HasFaultLine number (lines_of text.now) other.item) }
    ensures text { IfOk result (λ other. HasItsText text.now other.item) }
    ensures shorter { IfOk result (λ other. bytes_left (option_copied other.rest) ≤ length text.now) }
    ensures room { IfOk result (λ other. other.number + bytes_left (option_copied other.rest) ≤ number + length text.now + 1) }
{
    let (line, after) = first_line(text);
    let said = read_line(room, pairs, line)?;
    if begins(&said) {
        return part_or_line(alloc, number, text, line, after);
    }
    Ok(OtherItem {
        item: ItemRead::Line { line, said },
        number: number + 1,
        rest: after,
    })
}

/// A command by itself, whose strings lie in its line.
#[derive(Drop)]
pub struct PlainItem<'a, 'p> {
    pub line: &'a [u8],
    pub command: Command<'p>,
    /// What follows the line, if anything does.
    pub rest: Option<&'a [u8]>,
}

/// The item that a string begins with.
#[derive(Drop)]
pub enum NextItem<'a, 'p> {
    /// An emission, whose pairs lie in a list.
    Emission(PlainItem<'a, 'p>),
    /// A read.
    Read(PlainItem<'a, 'a>),
    /// Another item, which [`other_item`] reads.
    Other,
}

/// Reads the item that a string begins with, if it is a line that [`first_emission`] or [`first_read`] reads. The pairs are left in the list, which
/// keeps its room from item to item. It fails only if memory is refused.
#[inline(always)]
#[tactic(auto, using(crate::proofs::ItemReading::plain_next))]
pub fn next_item<'a, 'p>(
    text: &'a [u8],
    pairs: &'p mut Vec<BorrowedPair<'a>>,
) -> Result<NextItem<'a, 'p>, AllocError>
    ensures read { IfOk result (λ next. IfPlain next (λ plain. (number : ℕ) → items_from number 0 (lines_of text.now)
        ≡ Single number plain.line.now ∷ items_from (number + 1) 0 (lines_left (option_copied plain.rest)))) }
    ensures lines { IfOk result (λ next. IfPlain next (λ plain. lines_of text.now ≡ plain.line.now ∷ lines_left (option_copied plain.rest))) }
    ensures said { IfOk result (λ next. IfPlain next (λ plain. line_of plain.line.now ≡ Ok (Ask plain.command))) }
    ensures shorter { IfOk result (λ next. IfPlain next (λ plain. bytes_left (option_copied plain.rest) ≤ length text.now)) }
    ensures found { IfOk result (λ next. (line : List ℕ) (lines : List (List ℕ)) → lines_of text.now ≡ line ∷ lines
        → IsPlainEmission line → IsEmission next) }
{
    if let Some(FirstCommand { command, len }) = first_emission(text, pairs)? {
        let (line, rest) = line_of_len(text, len);
        return Ok(NextItem::Emission(PlainItem {
            line,
            command,
            rest,
        }));
    }
    let Some(FirstCommand { command, len }) = first_read(text) else {
        return Ok(NextItem::Other);
    };
    let (line, rest) = line_of_len(text, len);
    Ok(NextItem::Read(PlainItem {
        line,
        command,
        rest,
    }))
}
