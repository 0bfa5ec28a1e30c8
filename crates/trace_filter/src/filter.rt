//! Filters.

ghost use Rattle.std.specs.Prelude.{◌≡◌, ◌↔◌, ◌≤◌, ◌-◌, List, ℕ, None, IfOk, IfErr, IsErr, IsTrue, length, reverse, take, drop, map};
ghost use Rattle.std.specs.List.{prefix_len};

use crate::fault::FilterFault;
use crate::steps::{Step, compile, evaluate};
use crate::syntax::{Verdict, read_syntax};
use std::alloc::{AllocError, Global};
use std::marker::Model;
use trace_format::{Emission, EventDef, Row};
use trace_lex::{trim, trim_end};

/// A filter has at most so many bytes, without the blanks at both ends.
const LONGEST: usize = 1024;

/// A filter of an event, which passes some of its emissions (events.rst, "Event filtering").
#[derive(Drop)]
pub struct Filter {
    text: Vec<u8>,
    steps: Vec<Step>,
}

impl Model for Filter {
    ghost use Rattle.std.specs.Prelude.{◌≡◌, map};
    ghost use Rattle.trace_filter.specs.declared.token.Comparison.TheVariants as comparisons;
    ghost use Rattle.trace_filter.specs.Tokens.{spots_of, tokens_of};
    ghost use Rattle.trace_filter.specs.Filters.{Parsed};
    ghost use Rattle.trace_filter.specs.Steps.{move_of, moves_about, subjects_tested};

    ghost Value = { Parsed };

    ghost view = { λ f. record { text = f.text.items; subjects = subjects_tested (map move_of f.steps.items) } };

    // The steps are those of the text, with tests of these subjects.
    ghost invariant = { λ f. map move_of f.steps.items ≡ moves_about (subjects_tested (map move_of f.steps.items)) comparisons.Eq (tokens_of (spots_of f.text.items)) };
}

impl Filter {
    ghost use Rattle.trace_format.specs.Definitions.{Definition, IsDefinition};
    ghost use Rattle.trace_format.specs.Cells.{IsRowOf};
    ghost use Rattle.trace_filter.specs.Grammar.{Expr, Spells};
    ghost use Rattle.trace_filter.specs.Tokens.{spots_of, tokens_of};
    ghost use Rattle.trace_filter.specs.Truth.{Holds};
    ghost use Rattle.trace_filter.specs.Values.{holds_of};
    ghost use Rattle.trace_filter.specs.Filters.{IsFilter, IsFilterOf, IsRefused, IsTold, Passes, IsOkUnlessMemory, IsAsTold, IsAnswered, answer_of};

    /// The filter of an event that a text is: tests `name op value`, joined by `&&` and `||`, negated by `!`, grouped by parentheses. By its
    /// form, reading takes time linear in the text.
    pub fn parse(alloc: Global, text: &[u8], def: &EventDef) -> Result<Filter, FilterFault>
        // What is read is a filter of the event.
        ensures read { IfOk result (IsFilterOf def.now text.now) }
        // What is a filter of the event is read, unless memory is refused.
        ensures only { IsFilter def.now text.now → IsOkUnlessMemory result }
        // What is refused is refused for the first cause in the order of refusals.
        ensures refused { IfErr result (IsTold def.now text.now) }
        // And for no other.
        ensures told { (fault : FilterFault) → IsRefused def.now text.now fault → IsAsTold result fault }
        // All of this as one function of the text.
        ensures exact { IsAnswered result (answer_of def.now text.now) }
    {
        Filter::read(alloc, text, def)
    }

    #[tactic(auto, unfolding(crate::specs::Filters::answer_of))]
    fn read(alloc: Global, text: &[u8], def: &EventDef) -> Result<Filter, FilterFault>
        ensures exact { IsAnswered result (answer_of def.now text.now) }
        ensures definition { IfOk result (λ _. IsDefinition def.now) }
    {
        let body = trim_end(text);
        let trimmed = trim(text);
        if trimmed.len() > LONGEST {
            return Err(FilterFault::TooLong);
        }
        let (verdict, cause) = read_syntax(body, text.len());
        match verdict {
            Verdict::Fine => {}
            Verdict::TooDeep => return Err(FilterFault::TooDeep),
            Verdict::WrongAt(at) => return Err(FilterFault::FilterSyntax { at, cause }),
        }
        let steps = compile(alloc, body, def.fields())?;
        Ok(Filter {
            text: Vec::from_slice(alloc, trimmed)?,
            steps,
        })
    }

    /// Whether the filter holds of a row of its event, emitted on a CPU by a process. It takes no memory.
    #[inline(never)]
    pub fn passes(&self, row: &Row, cpu: u32, pid: i32) -> bool
        // As one function of the filter and the emission.
        ensures exact { result ≡ holds_of self.now (record { values = row.now.values; cpu = cpu; pid = pid }) }
        // It passes what a tree that its text spells holds of.
        ensures truth { (definition : Definition) → (written : List ℕ) → IsFilterOf definition written self.now → IsRowOf definition row.now → IsTrue result ↔ Passes definition written (record { values = row.now.values; cpu = cpu; pid = pid }) }
        // All such trees agree.
        ensures each { (definition : Definition) → (written : List ℕ) → IsFilterOf definition written self.now → IsRowOf definition row.now → (tree : Expr) → Spells (tokens_of (spots_of written)) tree → IsTrue result ↔ Holds definition.fields (record { values = row.now.values; cpu = cpu; pid = pid }) tree }
    {
        evaluate(&self.steps, &Emission { row, cpu, pid })
    }

    /// The filter's text, without blanks at both ends.
    pub fn text(&self) -> &[u8]
        ensures { result.now ≡ self.now.text }
    {
        self.text.as_slice()
    }
}

ghost use Rattle.trace_filter.specs.declared.fault.FilterFault.{FilterFault as fault_type};
ghost use Rattle.trace_filter.specs.Filters.{IsFilter as IsFilterText, IsRefused as IsRefusedText};

/// Whether a text is a filter of an event: whether `Filter::parse` refuses it only if it runs out of memory.
#[tactic(auto, using(crate::proofs::FilterLemmas::never_refused))]
pub fn applies_to(alloc: Global, text: &[u8], def: &EventDef) -> Result<bool, AllocError>
    ensures filter { IfOk result (λ applies. IsTrue applies ↔ IsFilterText def.now text.now) }
    ensures unrefused { IfOk result (λ applies. IsTrue applies ↔ ((fault : fault_type) → IsRefusedText def.now text.now fault → ⊥)) }
{
    match Filter::parse(alloc, text, def) {
        Ok(_) => Ok(true),
        Err(FilterFault::Memory) => Err(AllocError),
        Err(_) => Ok(false),
    }
}
