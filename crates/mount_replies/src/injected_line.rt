//! A line that is written to `inject`, as an event: its pairs, and those of the fields that it leaves out.

ghost use Rattle.std.specs.Prelude.{◌≡◌, ◌++◌, ◌∷◌, [], ℕ, List, Some, Ok, IfOk, OnOk, codes};
ghost use Rattle.std.specs.List.{list_any, slice_get};
ghost use Rattle.std.specs.Str.{bytes_eq};
ghost use Rattle.trace_format.specs.Definitions.{Definition};
ghost use Rattle.trace_format.specs.declared.pair.Pair.{Pair as PairSeen};
ghost use Rattle.trace_command.specs.Requests.{Request, Emission};
ghost use Rattle.tracer_specification.specs.Settings.{declared_events};
ghost use Rattle.mount_replies.specs.Injections.{default_pair, left_out, pairs_asked as asked_pairs, pairs_of_line as pairs_of};
ghost use Rattle.mount_replies.specs.Mounted.{HasLedTo};
ghost use Rattle.mount_replies.specs.Steps.{AsksFor};
ghost use Rattle.mount_replies.specs.private.LineRuns.{DoesInjection};
ghost use Rattle.mount_replies.specs.Lines as lines;

use crate::commands::is_blank;
use crate::fault::LineFault;
use crate::mount::Mount;
use std::alloc::{AllocError, Global};
use trace_command::{BorrowedPairs, Command, Refusal};
use trace_format::{BorrowedPair, Field, Pair, borrowed};
use trace_lex::Text;
use trace_script::{Line, LineError, LineRoom, plain_pairs, prepare};

/// The line of a script that the pairs of a line are those of.
fn emission_line(alloc: Global, line: &[u8]) -> Result<Vec<u8>, AllocError>
    ensures { IfOk result (λ text. text.items ≡ codes "emit 0 0 e " ++ line.now) }
{
    let mut text = Vec::from_slice(alloc, b"emit 0 0 e ".as_slice())?;
    text.extend_from_slice(line)?;
    Ok(text)
}

/// The pairs of the emission that a line asks for.
fn pairs_asked(line: Line<'_>) -> Option<BorrowedPairs<'_>>
    ensures { result ≡ asked_pairs (Ok line.entry) }
{
    match line {
        Line::Ask(Command::Emit { pairs, .. }) => Some(pairs),
        _ => None,
    }
}

/// The pairs of a line that is not blank, of which this is the line of a script.
fn pairs_of_line<'a, 'p>(
    room: &'a mut LineRoom,
    list: &'p mut Vec<BorrowedPair<'a>>,
    text: &'a [u8],
) -> Result<Option<BorrowedPairs<'p>>, AllocError>
    ensures { (line : List ℕ) → text.now ≡ codes "emit 0 0 e " ++ line → IfOk result (λ pairs. pairs ≡ pairs_of line) }
{
    match prepare(room, list, text) {
        Ok(line) => Ok(pairs_asked(line)),
        Err(LineError::Fault(_)) => Ok(None),
        Err(LineError::Memory) => Err(AllocError),
    }
}

/// Whether a pair names this field.
fn is_named(pairs: &[BorrowedPair<'_>], field: &Field) -> bool
    ensures { result ≡ list_any (λ (pair : PairSeen). bytes_eq pair.name field.now.name) pairs.now }
{
    pairs
        .iter()
        .any(|pair| pair.name() == field.name.as_bytes())
}

/// What is written for a field that is left out: 0, or nothing.
fn default_value(field: &Field) -> &'static [u8]
    ensures { record { name = field.now.name; value = result.now } ≡ default_pair field.now }
{
    if field.kind.is_text() { b"" } else { b"0" }
}

/// The pair of a field that is left out.
fn default_pair(alloc: Global, field: &Field) -> Result<Pair, AllocError>
    ensures { IfOk result (λ pair. pair ≡ default_pair field.now) }
{
    let name = Text::from_slice(alloc, field.name.as_bytes())?;
    let value = Text::from_slice(alloc, default_value(field))?;
    Ok(Pair { name, value })
}

/// Appends the pair of a field, if it is left out of these.
#[tactic(auto, unfolding(crate::specs::Injections::left_out))]
fn push_if_left_out(
    alloc: Global,
    left: &mut Vec<Pair>,
    pairs: &[BorrowedPair<'_>],
    field: &Field,
) -> Result<(), AllocError>
    ensures { OnOk result (left.new.items ≡ left.old.items ++ left_out pairs.now (field.now ∷ [])) }
{
    if is_named(pairs, field) {
        return Ok(());
    }
    left.push(default_pair(alloc, field)?)?;
    Ok(())
}

/// The pairs of the fields that are left out of these.
fn left_out(
    alloc: Global,
    pairs: &[BorrowedPair<'_>],
    fields: &[Field],
) -> Result<Vec<Pair>, AllocError>
    ensures { IfOk result (λ left. left.items ≡ left_out pairs.now fields.now) }
{
    let mut left = Vec::new(alloc);
    for field in fields {
        push_if_left_out(alloc, &mut left, pairs, field)?;
    }
    Ok(left)
}

/// The same pairs in a list.
fn listed<'a>(
    alloc: Global,
    pairs: &'a [BorrowedPair<'a>],
) -> Result<Vec<BorrowedPair<'a>>, AllocError>
    ensures { IfOk result (λ list. list.items ≡ pairs.now) }
{
    let mut list = Vec::with_capacity(alloc, pairs.len())?;
    for pair in pairs {
        list.push_reserved(BorrowedPair::new(pair.name(), pair.value()));
    }
    Ok(list)
}

/// Pairs, and others behind them.
fn with_others<'a>(
    alloc: Global,
    pairs: &'a [BorrowedPair<'a>],
    others: &'a [Pair],
) -> Result<Vec<BorrowedPair<'a>>, AllocError>
    ensures { IfOk result (λ all. all.items ≡ pairs.now ++ others.now) }
{
    let mut all = listed(alloc, pairs)?;
    let mut more = borrowed(alloc, others)?;
    all.append(&mut more)?;
    Ok(all)
}

impl Mount {
    // Does a line, as an event of this process.
    pub(crate) fn do_injection(&mut self, event: u8, pid: u32, line: &[u8]) -> Result<(), LineFault>
        ensures { (past : List Request) (own : Definition) → HasLedTo past self.old → slice_get (declared_events past) event ≡ Some own
            → DoesInjection past self.old self.new (lines.asked_by_line self.old.live.config.cpus pid own line.now) result }
    {
        if is_blank(line) {
            return Ok(());
        }
        let mut pairs = Vec::new(self.alloc);
        match plain_pairs(line, &mut pairs) {
            Ok(true) => self.do_pairs(event, pid, pairs.as_slice()),
            Ok(false) => self.do_other_line(event, pid, line),
            Err(_) => Err(LineFault::Refused(Refusal::Memory)),
        }
    }

    // Likewise a line that is not blank, whatever stands in it.
    fn do_other_line(&mut self, event: u8, pid: u32, line: &[u8]) -> Result<(), LineFault>
        ensures { (past : List Request) (own : Definition) → HasLedTo past self.old → slice_get (declared_events past) event ≡ Some own
            → DoesInjection past self.old self.new (lines.asked_by_pairs self.old.live.config.cpus pid own (pairs_of line.now)) result }
    {
        let Ok(text) = emission_line(self.alloc, line) else {
            return Err(LineFault::Refused(Refusal::Memory));
        };
        let mut room = LineRoom::new(self.alloc);
        let mut list = Vec::new(self.alloc);
        match pairs_of_line(&mut room, &mut list, &text) {
            Ok(Some(pairs)) => self.do_pairs(event, pid, pairs.as_slice()),
            Ok(None) => Err(LineFault::NoCommand),
            Err(_) => Err(LineFault::Refused(Refusal::Memory)),
        }
    }

    // Likewise a line of these pairs.
    fn do_pairs(&mut self, event: u8, pid: u32, pairs: &[BorrowedPair<'_>]) -> Result<(), LineFault>
        ensures { (past : List Request) (own : Definition) → HasLedTo past self.old → slice_get (declared_events past) event ≡ Some own
            → DoesInjection past self.old self.new (lines.asked_by_pairs self.old.live.config.cpus pid own (Some pairs.now)) result }
    {
        let cpus = self.live.config().cpus;
        let Some(own) = self.live.event(usize::from(event)) else {
            return Err(LineFault::NoCommand);
        };
        if cpus == 0 {
            return Err(LineFault::NoCommand);
        }
        let Ok(name) = Text::from_slice(self.alloc, own.name()) else {
            return Err(LineFault::Refused(Refusal::Memory));
        };
        let Ok(left) = left_out(self.alloc, pairs, own.fields()) else {
            return Err(LineFault::Refused(Refusal::Memory));
        };
        let cpu = pid % cpus;
        let process = (pid % (1 << 31)) as i32;
        if left.is_empty() {
            return self.do_emission(name.as_bytes(), cpu, process, pairs);
        }
        match with_others(self.alloc, pairs, &left) {
            Ok(all) => self.do_emission(name.as_bytes(), cpu, process, all.as_slice()),
            Err(_) => Err(LineFault::Refused(Refusal::Memory)),
        }
    }

    // Does an emission of these pairs.
    fn do_emission(
        &mut self,
        event: &[u8],
        cpu: u32,
        pid: i32,
        pairs: &[BorrowedPair<'_>],
    ) -> Result<(), LineFault>
        ensures { (past : List Request) → HasLedTo past self.old
            → DoesInjection past self.old self.new (AsksFor (Emission event.now cpu pid pairs.now)) result }
    {
        match self.ask_emission(&Command::emit(event, cpu, pid, pairs)) {
            Ok(_) => Ok(()),
            Err(refusal) => Err(LineFault::Refused(refusal)),
        }
    }
}
