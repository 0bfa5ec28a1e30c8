//! Replies, refusals and faults as the bytes that a session writes.

ghost use Rattle.std.specs.Prelude.{◌≡◌, ◌++◌, ◌∷◌, IfOk, codes};
ghost use Rattle.std.specs.Fmt.{decimal};
ghost use Rattle.trace_script.specs.Rendering.{detail_of, refusal_line, fault_line, rendered};

use crate::fault::ScriptFault;
use std::alloc::{AllocError, Global};
use trace_command::{Refusal, Reply};

/// What became of a line.
#[derive(Clone, PartialEq, Eq, Drop)]
pub enum Outcome {
    /// A command that was done, with this reply.
    Replied(Reply),
    /// A command that was refused.
    Refused(Refusal),
    /// The line has this fault.
    Fault(ScriptFault),
}

/// What is printed behind a refusal's name: where, or which field.
#[tactic(auto, unfolding(crate::specs::Rendering::detail_of))]
fn detail(alloc: Global, refusal: &Refusal) -> Result<Vec<u8>, AllocError>
    ensures { IfOk result (λ text. text.items ≡ detail_of refusal.now) }
{
    match refusal {
        Refusal::BadDefinition { at, .. }
        | Refusal::FilterSyntax { at, .. }
        | Refusal::NoSuchField { at }
        | Refusal::WrongOperator { at, .. }
        | Refusal::HistSyntax { at, .. } => offset_text(alloc, *at),
        Refusal::BadRow { row } => field_name(alloc, row.get().field.as_bytes()),
        _ => Ok(Vec::new(alloc)),
    }
}

/// ` at K`.
fn offset_text(alloc: Global, at: usize) -> Result<Vec<u8>, AllocError>
    ensures { IfOk result (λ text. text.items ≡ codes " at " ++ decimal at) }
{
    Ok(format!(in alloc; " at {at}")?.into_bytes())
}

/// A field's name, behind a blank.
fn field_name(alloc: Global, field: &[u8]) -> Result<Vec<u8>, AllocError>
    ensures { IfOk result (λ text. text.items ≡ 32 ∷ field.now) }
{
    let mut text = Vec::from_slice(alloc, b" ")?;
    text.extend_from_slice(field)?;
    Ok(text)
}

/// The line of a refusal.
#[tactic(auto, unfolding(crate::specs::Rendering::refusal_line))]
fn refusal_line(alloc: Global, number: usize, refusal: &Refusal) -> Result<Vec<u8>, AllocError>
    ensures { IfOk result (λ text. text.items ≡ refusal_line number refusal.now) }
{
    let code = refusal.number();
    let name = refusal.name();
    let detail = detail(alloc, refusal)?;
    let mut text = format!(in alloc; "! {number}: N{code} {name}")?.into_bytes();
    text.extend_from_slice(&detail)?;
    text.push(b'\n')?;
    Ok(text)
}

/// The line of a script fault.
#[tactic(auto, unfolding(crate::specs::Rendering::fault_line))]
fn fault_line(alloc: Global, number: usize, fault: ScriptFault) -> Result<Vec<u8>, AllocError>
    ensures { IfOk result (λ text. text.items ≡ fault_line number fault) }
{
    let name = fault.name();
    Ok(format!(in alloc; "! {number}: script {name}\n")?.into_bytes())
}

/// The bytes that are written for the line of this number, which counts from 1.
pub fn render(alloc: Global, line_number: usize, outcome: &Outcome) -> Result<Vec<u8>, AllocError>
    ensures { IfOk result (λ text. text.items ≡ rendered line_number outcome.now) }
{
    match outcome {
        Outcome::Replied(Reply::Done) => Ok(Vec::new(alloc)),
        Outcome::Replied(Reply::Text(text)) => Vec::from_slice(alloc, text.as_bytes()),
        Outcome::Refused(refusal) => refusal_line(alloc, line_number, refusal),
        Outcome::Fault(fault) => fault_line(alloc, line_number, *fault),
    }
}
