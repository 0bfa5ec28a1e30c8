//! Why a text is no trigger of an event.

ghost use Rattle.std.specs.Prelude.{◌≡◌, ◌+◌, ◌<◌, ◌^◌, ◌-◌, ◌++◌, Some};
ghost use Rattle.std.specs.Fmt.{WritesOnOk, decimal};
ghost use Rattle.trace_trigger.specs.declared.fault.TriggerFault.TheVariants as faults;
ghost use Rattle.trace_trigger.specs.Frames.{IsWithin, moved};

use std::alloc::{AllocError, AllocFailed};
use std::error::Error;
use std::fmt;
use std::fmt::{Display, Formatter};
use trace_filter::{FilterCause, FilterFault};

/// Why a text was refused as a trigger. Offsets count bytes from 0 in the whole text.
#[derive(Debug, Drop)]
pub enum TriggerFault {
    /// No trigger is written so.
    BadText { cause: TextCause },
    /// The filter has over 1,024 bytes without the blanks at both ends.
    FilterTooLong,
    /// Over 16 `!` and `(` of the filter are open at once.
    FilterTooDeep,
    /// A hist trigger has over three keys.
    TooManyKeys,
    /// A hist trigger has over three values besides `hitcount`.
    TooManyValues,
    /// A hist trigger has over two sort keys.
    TooManySortKeys,
    /// The first token with which no filter goes on, the end of a text where more was to come, or a value that is no number.
    FilterSyntax { at: usize, cause: FilterCause },
    /// The event has no field of this name, which is in the filter, or is a key or a value of a hist trigger.
    NoSuchField { at: usize },
    /// A field can't be used so.
    WrongOperator { at: usize, cause: OperatorCause },
    /// The leftmost offset at which a hist trigger's text breaks the grammar: an attribute, an item of a list, the end of the first word if there
    /// are no keys, or what follows that word and is no condition.
    HistSyntax { at: usize, cause: HistCause },
    /// A histogram may have 128 to 131,072 entries; other sizes are rounded up to a power of two first.
    BadSize,
    Memory,
}

/// Why a text is neither a hist trigger nor a snapshot trigger.
#[derive(Clone, Copy, Debug, PartialEq, Eq)]
pub enum TextCause {
    /// It begins with neither `hist:` nor `snapshot`, after an optional `!`.
    Kind,
    /// What follows `snapshot:` is no count from 1 to 2^32 - 1.
    Count,
    /// `snapshot` goes on with something else than a blank or `:`.
    AfterSnapshot,
    /// What follows the first word is neither nothing nor `if`, a blank and a filter.
    Condition,
    /// Nothing follows `if`.
    Filter,
}

/// What can't be done with the field where an operator is wrong.
#[derive(Clone, Copy, Debug, PartialEq, Eq)]
pub enum OperatorCause {
    /// The filter compares it as it can't be.
    Compared,
    /// It is a string and a key with a modifier, which numbers alone take.
    Modified,
    /// It is a string and a value, which is summed.
    Summed,
}

/// What is wrong where a hist trigger's text breaks the grammar.
#[derive(Clone, Copy, Debug, PartialEq, Eq)]
pub enum HistCause {
    /// The attribute begins as none does.
    Unknown,
    /// There is a size already, or this one isn't written in digits.
    Size,
    /// There is an action already.
    Action,
    /// There is an attribute of this name, or of another name for the same, already.
    Repeated,
    /// This is no table's name.
    Name,
    /// This is no key, or a key before it has its name.
    Key { is_first: bool },
    /// This is no value, or it is there already.
    Value { is_first: bool },
    /// This can't be sorted by, or its name is there already.
    Sort { is_first: bool },
    /// The first word ends here and has no keys.
    NoKeys,
    /// What follows the first word is neither nothing nor `if`, a blank and a filter.
    Condition,
}

impl Display for TriggerFault {
    ghost use Rattle.trace_trigger.specs.TriggerFaultTexts.{shown_trigger_fault};

    ghost output = { λ fault. Some (shown_trigger_fault fault) };

    #[tactic(auto, unfolding(crate::specs::TriggerFaultTexts::shown_trigger_fault))]
    fn fmt<W: fmt::Write>(&self, f: &mut Formatter<W>) -> fmt::Result {
        match self {
            TriggerFault::BadText { .. } => f.write_str("no trigger is written so"),
            TriggerFault::FilterTooLong => f.write_str("a filter too long"),
            TriggerFault::FilterTooDeep => f.write_str("a filter nested too deep"),
            TriggerFault::TooManyKeys => f.write_str("too many keys"),
            TriggerFault::TooManyValues => f.write_str("too many values"),
            TriggerFault::TooManySortKeys => f.write_str("too many sort keys"),
            TriggerFault::FilterSyntax { at, .. } => write_at(f, "syntax error at byte ", *at),
            TriggerFault::NoSuchField { at } => write_at(f, "no such field at byte ", *at),
            TriggerFault::WrongOperator { at, .. } => write_at(f, "wrong operator at byte ", *at),
            TriggerFault::HistSyntax { at, .. } => {
                write_at(f, "syntax error of the hist trigger at byte ", *at)
            }
            TriggerFault::BadSize => f.write_str("there may be 128 to 131072 entries"),
            TriggerFault::Memory => f.write_str("out of memory"),
        }
    }
}

/// Writes what is wrong and where.
fn write_at<W: fmt::Write>(f: &mut Formatter<W>, fault: &str, at: usize) -> fmt::Result
    ensures { WritesOnOk W.write_str_gives f.old result (fault.now ++ decimal at) f.new }
{
    write!(f, "{fault}{at}")
}

impl Error for TriggerFault {}

impl From<AllocError> for TriggerFault {
    ghost from_gives = { λ _ fault. fault ≡ faults.Memory };

    fn from(_error: AllocError) -> TriggerFault {
        TriggerFault::Memory
    }
}

impl<T: Drop> From<AllocFailed<T>> for TriggerFault {
    ghost from_gives = { λ _ fault. fault ≡ faults.Memory };

    fn from(_error: AllocFailed<T>) -> TriggerFault {
        TriggerFault::Memory
    }
}

impl TriggerFault {
    /// The fault of a filter whose text begins at this byte.
    pub(crate) fn of_filter(before: usize, fault: FilterFault) -> TriggerFault
        requires { IsWithin (2 ^ 64 - 1 - before) fault }
        ensures { result ≡ moved before fault }
    {
        match fault {
            FilterFault::TooLong => TriggerFault::FilterTooLong,
            FilterFault::TooDeep => TriggerFault::FilterTooDeep,
            FilterFault::FilterSyntax { at, cause } => TriggerFault::FilterSyntax {
                at: before + at,
                cause,
            },
            FilterFault::NoSuchField { at } => TriggerFault::NoSuchField { at: before + at },
            FilterFault::WrongOperator { at } => TriggerFault::WrongOperator {
                at: before + at,
                cause: OperatorCause::Compared,
            },
            FilterFault::Memory => TriggerFault::Memory,
        }
    }
}
