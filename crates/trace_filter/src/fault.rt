//! Why a text is no filter of an event.

ghost use Rattle.std.specs.Prelude.{◌≡◌, Some};
ghost use Rattle.trace_filter.specs.declared.fault.FilterFault.TheVariants as faults;

use std::alloc::{AllocError, AllocFailed};
use std::error::Error;
use std::fmt;
use std::fmt::{Display, Formatter};

/// What could go on where a filter is refused for its syntax.
#[derive(Clone, Copy, Debug, PartialEq, Eq)]
pub enum FilterCause {
    /// A field's name, `!` or `(` is due: at the beginning, and after `(`, `!`, `&&` and `||`.
    Operand,
    /// An operator is due, after a name.
    Operator,
    /// A value is due, after an operator; or the value there does not fit the field: a number field takes numbers without quotes.
    Value,
    /// `&&` or `||` is due, or `)` if a `(` is open, or the end if none is: after a value or `)`.
    Joint,
    /// Likewise, after a value that has only bytes of operators (`=`, `!`, `<`, `>`, `~`), so that more of an operator may have been meant.
    JointAfterSigns,
}

/// Why a text was refused as a filter. Offsets count bytes from 0 in the text as written.
#[derive(Debug, Drop)]
pub enum FilterFault {
    /// The text has over 1,024 bytes without the blanks at both ends.
    TooLong,
    /// Over 16 `!` and `(` are open at once.
    TooDeep,
    /// The first token with which no filter goes on, the end of a text where more was to come, or a value that is no number.
    FilterSyntax { at: usize, cause: FilterCause },
    /// The event has no field of this name.
    NoSuchField { at: usize },
    /// The field can't be compared so.
    WrongOperator { at: usize },
    Memory,
}

impl Display for FilterFault {
    ghost use Rattle.trace_filter.specs.FilterFaultTexts.{shown_filter_fault};

    ghost output = { λ fault. Some (shown_filter_fault fault) };

    #[tactic(auto, unfolding(crate::specs::FilterFaultTexts::shown_filter_fault))]
    fn fmt<W: fmt::Write>(&self, f: &mut Formatter<W>) -> fmt::Result {
        match self {
            FilterFault::TooLong => f.write_str("the filter is too long"),
            FilterFault::TooDeep => f.write_str("the filter is nested too deep"),
            FilterFault::FilterSyntax { at, .. } => write!(f, "syntax error at byte {at}"),
            FilterFault::NoSuchField { at } => write!(f, "no such field at byte {at}"),
            FilterFault::WrongOperator { at } => write!(f, "wrong operator at byte {at}"),
            FilterFault::Memory => f.write_str("out of memory"),
        }
    }
}

impl Error for FilterFault {}

impl From<AllocError> for FilterFault {
    ghost from_gives = { λ _ fault. fault ≡ faults.Memory };

    fn from(_error: AllocError) -> FilterFault {
        FilterFault::Memory
    }
}

impl<T: Drop> From<AllocFailed<T>> for FilterFault {
    ghost from_gives = { λ _ fault. fault ≡ faults.Memory };

    fn from(_error: AllocFailed<T>) -> FilterFault {
        FilterFault::Memory
    }
}
