//! Filters as lists of steps, and their value: one pass over the tokens, with no tree, and one pass over the steps for each emission.
//!
//! A filter is alternatives of factors: `||` binds loosest, then `&&`, then `!`, and `(` opens a filter within. So three truth values say all that has
//! to be known of what is inside one `(` (`Frame`, frames.rt): whether an alternative before this one held (`any`), whether all factors of this one did
//! so far (`all`), and whether the next operand is inverted (`odd`). A `(` puts the frame aside and begins a new one; a `)` takes it up again, with what
//! was found inside as one more operand. `n > 2 && !(m == 1 || m == 3)`, where n is 5 and m is 3:
//!
//! ```text
//!   step        any  all  odd     put aside
//!                -   yes   -
//!   n > 2        -   yes   -
//!   &&           -   yes   -
//!   !            -   yes  yes
//!   (            -   yes   -      (-, yes, yes)
//!   m == 1       -    -    -      (-, yes, yes)
//!   ||           -   yes   -      (-, yes, yes)
//!   m == 3       -   yes   -      (-, yes, yes)
//!   )            -    -    -                       what was inside held, and is inverted
//! ```
//!
//! In the end the filter holds if `any` or `all` does: this one doesn't. At most 16 `(` are open at once, so frames need no memory. That this is the
//! truth of the tree which the grammar gives the text is a theorem (laws.rt). syntax.rt has seen before that the text is one of the grammar.

ghost use Rattle.std.specs.Prelude.{◌≡◌, ◌++◌, [], false, None, Some, OnOk, IfOk, IfErr, map};
ghost use Rattle.trace_format.specs.Cells.{datum_of};
ghost use Rattle.trace_format.specs.declared.operand.Operand.TheVariants as operands;
ghost use Rattle.trace_filter.specs.declared.token.Comparison.TheVariants as comparisons;
ghost use Rattle.trace_filter.specs.Tokens.{spots_from, tokens_of};
ghost use Rattle.trace_filter.specs.Subjects.{first_fault, IsToldAs};
ghost use Rattle.trace_filter.specs.Steps.{move_of, moves_from, evaluated, at_start, fresh, with_operand};

use crate::fault::{FilterCause, FilterFault};
use crate::frames::Frames;
use crate::test::{compare_values, read_literal, takes};
use crate::token::{Comparison, Token, next_token};
use std::alloc::Global;
use trace_format::{Emission, Field, Operand, Value};

/// A test: the value that the subject has, against a written one.
#[derive(Drop)]
pub(crate) struct Test {
    subject: Operand,
    comparison: Comparison,
    value: Value,
}

#[derive(Drop)]
pub(crate) enum Step {
    Open,
    Close,
    Not,
    And,
    Or,
    Test(Test),
}

impl Test {
    ghost use Rattle.trace_format.specs.Operands.{operand_value};
    ghost use Rattle.trace_filter.specs.Steps.{test_of};

    /// Whether the test holds of an emission.
    #[inline(always)]
    fn holds(&self, emission: &Emission) -> bool
        ensures { result ≡ test_of self.now.comparison (operand_value emission.now self.now.subject) (datum_of self.now.value) }
    {
        match self.subject {
            Operand::Pid => compare_values(
                self.comparison,
                &Value::Num(i128::from(emission.pid)),
                &self.value,
            ),
            Operand::Cpu => compare_values(
                self.comparison,
                &Value::Num(i128::from(emission.cpu)),
                &self.value,
            ),
            Operand::Field { index, .. } => match emission.field(index) {
                Some(value) => compare_values(self.comparison, value, &self.value),
                None => false,
            },
        }
    }
}

impl Frames {
    ghost use Rattle.trace_filter.specs.Steps.{state_of, behind_move};

    /// Behind one more step.
    fn take(&mut self, step: &Step, emission: &Emission)
        ensures { state_of self.new ≡ behind_move emission.now (state_of self.old) (move_of step.now) }
    {
        match step {
            Step::Open => self.open(),
            Step::Close => self.close(),
            Step::Not => self.invert(),
            Step::And => {}
            Step::Or => self.or_else(),
            Step::Test(test) => self.test(test.holds(emission)),
        }
    }
}

/// The part of a filter that was compiled.
#[derive(Drop)]
pub(crate) struct Compiler {
    subject: Operand,
    comparison: Comparison,
    steps: Vec<Step>,
}

impl Compiler {
    ghost use Rattle.trace_filter.specs.private.Seen.{token_of};
    ghost use Rattle.trace_filter.specs.Steps.{moves_of, comparison_behind};
    ghost use Rattle.trace_filter.specs.Subjects.{fault_at, subject_behind};

    fn new(alloc: Global) -> Compiler
        ensures subject { result.subject ≡ operands.Pid }
        ensures comparison { result.comparison ≡ comparisons.Eq }
        ensures steps { result.steps.items ≡ [] }
    {
        Compiler {
            subject: Operand::Pid,
            comparison: Comparison::Eq,
            steps: Vec::new(alloc),
        }
    }

    /// Takes one more token, or tells what is wrong with it.
    fn take(
        &mut self,
        alloc: Global,
        fields: &[Field],
        at: usize,
        token: Token,
    ) -> Result<(), FilterFault>
        ensures fits { OnOk result (fault_at fields.now self.old.subject (token_of token.entry) at ≡ None) }
        ensures subject { OnOk result (self.new.subject ≡ subject_behind fields.now self.old.subject (token_of token.entry)) }
        ensures comparison { OnOk result (self.new.comparison ≡ comparison_behind self.old.comparison (token_of token.entry)) }
        ensures steps { OnOk result (map move_of self.new.steps.items ≡ map move_of self.old.steps.items ++ moves_of self.old.subject self.old.comparison (token_of token.entry)) }
        ensures refused { IfErr result (IsToldAs (fault_at fields.now self.old.subject (token_of token.entry) at)) }
    {
        let step = match token {
            Token::Open => Step::Open,
            Token::Close => Step::Close,
            Token::Bang => Step::Not,
            Token::AndAnd => Step::And,
            Token::OrOr => Step::Or,
            Token::Compare(comparison) => {
                if !takes(self.subject, comparison) {
                    return Err(FilterFault::WrongOperator { at });
                }
                self.comparison = comparison;
                return Ok(());
            }
            Token::Name(name) => {
                let Some(subject) = Operand::named(fields, name) else {
                    return Err(FilterFault::NoSuchField { at });
                };
                self.subject = subject;
                return Ok(());
            }
            Token::Value(literal) => {
                let Some(value) = read_literal(alloc, self.subject, literal)? else {
                    let cause = FilterCause::Value;
                    return Err(FilterFault::FilterSyntax { at, cause });
                };
                Step::Test(Test {
                    subject: self.subject,
                    comparison: self.comparison,
                    value,
                })
            }
            Token::Illegible => return Ok(()),
        };
        self.steps.push(step)?;
        Ok(())
    }
}

/// The steps of a text that is a filter, or the first of its tests that does not fit its field.
pub(crate) fn compile(
    alloc: Global,
    text: &[u8],
    fields: &[Field],
) -> Result<Vec<Step>, FilterFault>
    ensures fits { OnOk result (first_fault fields.now operands.Pid (spots_from false 0 0 text.now) ≡ None) }
    ensures steps { IfOk result (λ steps. map move_of steps.items ≡ moves_from fields.now operands.Pid comparisons.Eq (tokens_of (spots_from false 0 0 text.now))) }
    ensures refused { IfErr result (IsToldAs (first_fault fields.now operands.Pid (spots_from false 0 0 text.now))) }
{
    let mut compiler = Compiler::new(alloc);
    let mut from = 0;
    let mut value_due = false;
    while let Some(spot) = next_token(text, from, value_due) {
        compiler.take(alloc, fields, spot.at, spot.token)?;
        from = spot.end;
        value_due = spot.token.is_comparison();
    }
    let Compiler {
        subject: _,
        comparison: _,
        steps,
    } = compiler;
    Ok(steps)
}

/// Whether a filter holds of an emission. Tests that only `&&` joins need no frames: one truth value says what they leave.
pub(crate) fn evaluate(steps: &[Step], emission: &Emission) -> bool
    ensures { result ≡ evaluated emission.now at_start (map move_of steps.now) }
{
    let mut all = true;
    for (i, step) in steps.iter().enumerate() {
        match step {
            Step::Test(test) => all = all && test.holds(emission),
            Step::And => continue,
            _ => return evaluate_after(all, &steps[i..], emission),
        }
    }
    all
}

/// Whether the rest of a filter holds of an emission, after factors that all hold or not.
#[inline(never)]
fn evaluate_after(all: bool, steps: &[Step], emission: &Emission) -> bool
    ensures { result ≡ evaluated emission.now (record { frame = with_operand fresh all; outer = [] }) (map move_of steps.now) }
{
    let mut frames = Frames::new();
    frames.test(all);
    for step in steps {
        frames.take(step, emission);
    }
    frames.total()
}
