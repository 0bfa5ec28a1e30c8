//! Refusals: why a command was not done.

ghost use Rattle.std.specs.Prelude.{◌≡◌, Some};
ghost use Rattle.trace_command.specs.Refusals.{refusal_of_definition, refusal_of_catalog, refusal_of_row, refusal_of_filter, refusal_of_trigger, shown_name as shown_name_of};
ghost use Rattle.trace_command.specs.declared.refusal.Refusal.TheVariants.{Memory};

use std::alloc::{AllocError, AllocFailed};
use std::error::Error;
use std::fmt::{Display, Formatter, Write};
use std::{fmt, str};
use trace_filter::{FilterCause, FilterFault};
use trace_format::{BoxedBadRow, CatalogFault, DeclarationCause, DefinitionFault, RowFault};
use trace_trigger::{HistCause, OperatorCause, TextCause, TriggerFault};

/// What there would be too many of.
#[derive(Clone, Copy, Debug, PartialEq, Eq)]
pub enum Limit {
    /// An event has at most 16 fields.
    Fields,
    /// There are at most 64 events.
    Events,
    /// There are at most eight instances, the top one among them.
    Instances,
    /// An event has at most four triggers in an instance.
    Triggers,
    /// A hist trigger has at most three keys.
    Keys,
    /// A hist trigger has at most three values besides `hitcount`.
    Values,
    /// A hist trigger is sorted by at most two names.
    SortKeys,
    /// A filter has at most 1,024 bytes.
    FilterBytes,
    /// At most 16 `!` and `(` of a filter are open at once.
    Openings,
}

/// Why a command was refused. A refused command changes nothing and is not in the history.
/// `at` is a place in the text as it was written: how many bytes stand before it. The cause beside it, which no reply shows, is what its parser found
/// wrong there.
#[derive(Clone, Debug, PartialEq, Eq)]
pub enum Refusal {
    /// No file of the tracing tree has this path.
    NoSuchFile,
    /// The file can't be read.
    NotReadable,
    /// The file can't be written.
    NotWritable,
    /// What was written is no value of the file, a limit was given for a file that is no pipe, or a number of
    /// the configuration is out of range.
    BadValue,
    /// Likewise, of what was written to a `trigger` file, with its cause. It has the number and the name of `BadValue`.
    BadTrigger { cause: TextCause },
    /// No event of this name was declared; or none at all, where a filter is written for all.
    NoSuchEvent,
    /// An event of this name was declared before.
    EventExists,
    /// The text is no declaration of an event: with what begins at this byte none goes on, or more was to come at the text's end.
    BadDefinition { at: usize, cause: DeclarationCause },
    /// A record of the event would not fit a page.
    TooBig,
    /// The text is no filter: with what begins at this byte none goes on, or it is no number though its field needs one, or more was to come at
    /// the text's end.
    FilterSyntax { at: usize, cause: FilterCause },
    /// The event has no field of the name at this byte.
    NoSuchField { at: usize },
    /// The field does not take the operator at this byte, or it is a string that a hist trigger is to sum.
    WrongOperator { at: usize, cause: OperatorCause },
    /// The text is no hist trigger: with what begins at this byte none goes on.
    HistSyntax { at: usize, cause: HistCause },
    /// The size of a hist trigger is out of range: it may have 65 to 131,072 entries, rounded up to a power of two.
    BadSize,
    /// Such a trigger is attached already.
    TriggerExists,
    /// No such trigger is attached.
    NoSuchTrigger,
    /// There would be too many of these.
    TooMany { limit: Limit },
    /// An instance of this name is there already.
    InstanceExists,
    /// No instance of this name is there.
    NoSuchInstance,
    /// What would be changed is in use.
    Busy,
    /// The CPU's number is not below the number of CPUs.
    NoSuchCpu,
    /// The pairs are no row of the event.
    BadRow { row: BoxedBadRow },
    /// The history has as many entries as it may have.
    HistoryFull,
    /// Memory was refused.
    Memory,
    /// All tickets are drawn.
    Worn,
}

impl Drop for Refusal {
    // Not derived, so that no crate above proves the drops of its parts.
    fn drop(self) {
        match self {
            Refusal::NoSuchFile
            | Refusal::NotReadable
            | Refusal::NotWritable
            | Refusal::BadValue
            | Refusal::BadTrigger { cause: _ }
            | Refusal::NoSuchEvent
            | Refusal::EventExists
            | Refusal::BadDefinition { at: _, cause: _ }
            | Refusal::TooBig
            | Refusal::FilterSyntax { at: _, cause: _ }
            | Refusal::NoSuchField { at: _ }
            | Refusal::WrongOperator { at: _, cause: _ }
            | Refusal::HistSyntax { at: _, cause: _ }
            | Refusal::BadSize
            | Refusal::TriggerExists
            | Refusal::NoSuchTrigger
            | Refusal::TooMany { limit: _ }
            | Refusal::InstanceExists
            | Refusal::NoSuchInstance
            | Refusal::Busy
            | Refusal::NoSuchCpu
            | Refusal::BadRow { row: _ }
            | Refusal::HistoryFull
            | Refusal::Memory
            | Refusal::Worn => {}
        }
    }
}

impl From<AllocError> for Refusal {
    ghost from_gives = { λ _ refusal. refusal ≡ Memory };

    fn from(_error: AllocError) -> Refusal {
        Refusal::Memory
    }
}

impl<T: Drop> From<AllocFailed<T>> for Refusal {
    ghost from_gives = { λ _ refusal. refusal ≡ Memory };

    fn from(_error: AllocFailed<T>) -> Refusal {
        Refusal::Memory
    }
}

impl From<DefinitionFault> for Refusal {
    ghost from_gives = { λ fault refusal. refusal ≡ refusal_of_definition fault };

    fn from(fault: DefinitionFault) -> Refusal {
        match fault {
            DefinitionFault::BadDefinition { at, cause } => Refusal::BadDefinition { at, cause },
            DefinitionFault::Memory => Refusal::Memory,
        }
    }
}

impl From<CatalogFault> for Refusal {
    ghost from_gives = { λ fault refusal. refusal ≡ refusal_of_catalog fault };

    fn from(fault: CatalogFault) -> Refusal {
        match fault {
            CatalogFault::EventExists => Refusal::EventExists,
            CatalogFault::TooManyFields => Refusal::TooMany {
                limit: Limit::Fields,
            },
            CatalogFault::TooManyEvents => Refusal::TooMany {
                limit: Limit::Events,
            },
            CatalogFault::TooBig => Refusal::TooBig,
            CatalogFault::Memory => Refusal::Memory,
        }
    }
}

impl From<FilterFault> for Refusal {
    ghost from_gives = { λ fault refusal. refusal ≡ refusal_of_filter fault };

    fn from(fault: FilterFault) -> Refusal {
        match fault {
            FilterFault::TooLong => Refusal::TooMany {
                limit: Limit::FilterBytes,
            },
            FilterFault::TooDeep => Refusal::TooMany {
                limit: Limit::Openings,
            },
            FilterFault::FilterSyntax { at, cause } => Refusal::FilterSyntax { at, cause },
            FilterFault::NoSuchField { at } => Refusal::NoSuchField { at },
            FilterFault::WrongOperator { at } => Refusal::WrongOperator {
                at,
                cause: OperatorCause::Compared,
            },
            FilterFault::Memory => Refusal::Memory,
        }
    }
}

impl From<TriggerFault> for Refusal {
    ghost from_gives = { λ fault refusal. refusal ≡ refusal_of_trigger fault };

    fn from(fault: TriggerFault) -> Refusal {
        match fault {
            TriggerFault::BadText { cause } => Refusal::BadTrigger { cause },
            TriggerFault::FilterTooLong => Refusal::TooMany {
                limit: Limit::FilterBytes,
            },
            TriggerFault::FilterTooDeep => Refusal::TooMany {
                limit: Limit::Openings,
            },
            TriggerFault::TooManyKeys => Refusal::TooMany { limit: Limit::Keys },
            TriggerFault::TooManyValues => Refusal::TooMany {
                limit: Limit::Values,
            },
            TriggerFault::TooManySortKeys => Refusal::TooMany {
                limit: Limit::SortKeys,
            },
            TriggerFault::FilterSyntax { at, cause } => Refusal::FilterSyntax { at, cause },
            TriggerFault::NoSuchField { at } => Refusal::NoSuchField { at },
            TriggerFault::WrongOperator { at, cause } => Refusal::WrongOperator { at, cause },
            TriggerFault::HistSyntax { at, cause } => Refusal::HistSyntax { at, cause },
            TriggerFault::BadSize => Refusal::BadSize,
            TriggerFault::Memory => Refusal::Memory,
        }
    }
}

impl From<RowFault> for Refusal {
    ghost from_gives = { λ fault refusal. refusal ≡ refusal_of_row fault };

    fn from(fault: RowFault) -> Refusal {
        match fault {
            RowFault::BadRow { row } => Refusal::BadRow { row },
            RowFault::Memory => Refusal::Memory,
        }
    }
}

impl Refusal {
    ghost use Rattle.trace_command.specs.Refusals.{number_of, name_of};

    /// The refusal's number, from 1 to 24, as it is printed after the letter N.
    #[tactic(auto, unfolding(crate::specs::Refusals::number_of))]
    pub fn number(&self) -> u8
        ensures { result ≡ number_of self.now }
    {
        match self {
            Refusal::NoSuchFile => 1,
            Refusal::NotReadable => 2,
            Refusal::NotWritable => 3,
            Refusal::BadValue | Refusal::BadTrigger { .. } => 4,
            Refusal::NoSuchEvent => 5,
            Refusal::EventExists => 6,
            Refusal::BadDefinition { .. } => 7,
            Refusal::TooBig => 8,
            Refusal::FilterSyntax { .. } => 9,
            Refusal::NoSuchField { .. } => 10,
            Refusal::WrongOperator { .. } => 11,
            Refusal::HistSyntax { .. } => 12,
            Refusal::BadSize => 13,
            Refusal::TriggerExists => 14,
            Refusal::NoSuchTrigger => 15,
            Refusal::TooMany { .. } => 16,
            Refusal::InstanceExists => 17,
            Refusal::NoSuchInstance => 18,
            Refusal::Busy => 19,
            Refusal::NoSuchCpu => 20,
            Refusal::BadRow { .. } => 21,
            Refusal::HistoryFull => 22,
            Refusal::Memory => 23,
            Refusal::Worn => 24,
        }
    }

    /// The refusal's name, as it is printed after its number.
    #[tactic(auto, unfolding(crate::specs::Refusals::name_of))]
    pub fn name(&self) -> &'static str
        ensures { result.now ≡ name_of self.now }
    {
        match self {
            Refusal::NoSuchFile => "NoSuchFile",
            Refusal::NotReadable => "NotReadable",
            Refusal::NotWritable => "NotWritable",
            Refusal::BadValue | Refusal::BadTrigger { .. } => "BadValue",
            Refusal::NoSuchEvent => "NoSuchEvent",
            Refusal::EventExists => "EventExists",
            Refusal::BadDefinition { .. } => "BadDefinition",
            Refusal::TooBig => "TooBig",
            Refusal::FilterSyntax { .. } => "FilterSyntax",
            Refusal::NoSuchField { .. } => "NoSuchField",
            Refusal::WrongOperator { .. } => "WrongOperator",
            Refusal::HistSyntax { .. } => "HistSyntax",
            Refusal::BadSize => "BadSize",
            Refusal::TriggerExists => "TriggerExists",
            Refusal::NoSuchTrigger => "NoSuchTrigger",
            Refusal::TooMany { .. } => "TooMany",
            Refusal::InstanceExists => "InstanceExists",
            Refusal::NoSuchInstance => "NoSuchInstance",
            Refusal::Busy => "Busy",
            Refusal::NoSuchCpu => "NoSuchCpu",
            Refusal::BadRow { .. } => "BadRow",
            Refusal::HistoryFull => "HistoryFull",
            Refusal::Memory => "Memory",
            Refusal::Worn => "Worn",
        }
    }
}

/// A field's name as text; U+FFFD stands for one that is not UTF-8.
#[tactic(auto, unfolding(crate::specs::Refusals::shown_name))]
fn shown_name(name: &[u8]) -> &str
    ensures { result.now ≡ shown_name_of name.now }
{
    match str::from_utf8(name) {
        Ok(text) => text,
        Err(_) => "\u{fffd}",
    }
}

/// `N7 BadDefinition at 2`, as a script's output has it after the line's number.
impl Display for Refusal {
    ghost use Rattle.trace_command.specs.Refusals.{shown};

    ghost output = { λ refusal. Some (shown refusal) };

    #[tactic(auto, unfolding(crate::specs::Refusals::shown, crate::specs::Refusals::shown_detail))]
    fn fmt<W: Write>(&self, f: &mut Formatter<W>) -> fmt::Result {
        let number = self.number();
        let name = self.name();
        match self {
            Refusal::BadDefinition { at, .. }
            | Refusal::FilterSyntax { at, .. }
            | Refusal::NoSuchField { at }
            | Refusal::WrongOperator { at, .. }
            | Refusal::HistSyntax { at, .. } => write!(f, "N{number} {name} at {at}"),
            Refusal::BadRow { row } => {
                let field = shown_name(row.get().field.as_bytes());
                write!(f, "N{number} {name} {field}")
            }
            _ => write!(f, "N{number} {name}"),
        }
    }
}

impl Error for Refusal {}
