//! Why a declaration, an event or a row was refused.

ghost use Rattle.std.specs.Prelude.{◌≡◌};
ghost use Rattle.trace_format.specs.declared.fault.DefinitionFault.TheVariants as definition;
ghost use Rattle.trace_format.specs.declared.fault.CatalogFault.TheVariants as catalog;
ghost use Rattle.trace_format.specs.declared.fault.RowFault.TheVariants as row;

use crate::bad_row::BoxedBadRow;
use std::alloc::{AllocError, AllocFailed};
use thiserror::Error;

/// What is wrong at the offset at which a declaration is refused.
#[derive(Clone, Copy, Debug, PartialEq, Eq)]
pub enum DeclarationCause {
    /// The event's name is due.
    EventName,
    /// A type is due.
    FieldType,
    /// `int` or `long` is due, after `unsigned`.
    UnsignedType,
    /// The name and the length of a string field are due, after `char`; or the name is one that no field may have here.
    StringField,
    /// The name of a number field is due.
    FieldName,
    /// No field may have this name.
    ReservedName,
    /// A field has this name already.
    RepeatedName,
    /// A `;` is due, after a field.
    Semicolon,
}

/// Why a text declares no event.
#[derive(Debug, Drop, Error)]
pub enum DefinitionFault {
    /// At this byte begins the first word or `;` with which no declaration goes on, or the text ends here, where more was to come.
    #[error("bad definition at byte {at}")]
    BadDefinition { at: usize, cause: DeclarationCause },
    #[error("out of memory")]
    Memory,
}

/// Why an event was not added to a catalog.
#[derive(Debug, Drop, Error)]
pub enum CatalogFault {
    /// An event of the name is there.
    #[error("the event exists")]
    EventExists,
    /// The event has over 16 fields.
    #[error("too many fields")]
    TooManyFields,
    /// 64 events are there.
    #[error("too many events")]
    TooManyEvents,
    /// The event's record takes more bytes than a page has.
    #[error("the record is larger than a page")]
    TooBig,
    #[error("out of memory")]
    Memory,
}

/// What is wrong with a row at the name that its refusal tells.
#[derive(Clone, Copy, Debug, PartialEq, Eq)]
pub enum RowCause {
    /// The event has no field of this name.
    Unknown,
    /// A pair before has this name already.
    Repeated,
    /// The value is no number from -2^63 to 2^64 - 1 (what `trace_lex::number` reads).
    NoNumber,
    /// The value is a number out of the range of the field's type.
    OutOfRange,
    /// The value has a byte that is not from 0x20 to 0x7e.
    BadByte,
    /// The value is too long for the field.
    TooLong,
    /// No pair gives the field a value.
    Missing,
}

/// Why pairs of names and texts give no row.
#[derive(Debug, Drop, Error)]
pub enum RowFault {
    /// A pair is wrong or repeated, or a field is missing.
    #[error("a field is wrong, repeated or missing")]
    BadRow { row: BoxedBadRow },
    #[error("out of memory")]
    Memory,
}

impl From<AllocError> for DefinitionFault {
    ghost from_gives = { λ _ fault. fault ≡ definition.Memory };

    fn from(_error: AllocError) -> DefinitionFault {
        DefinitionFault::Memory
    }
}

impl From<AllocError> for CatalogFault {
    ghost from_gives = { λ _ fault. fault ≡ catalog.Memory };

    fn from(_error: AllocError) -> CatalogFault {
        CatalogFault::Memory
    }
}

impl<T: Drop> From<AllocFailed<T>> for CatalogFault {
    ghost from_gives = { λ _ fault. fault ≡ catalog.Memory };

    fn from(_error: AllocFailed<T>) -> CatalogFault {
        CatalogFault::Memory
    }
}

impl From<AllocError> for RowFault {
    ghost from_gives = { λ _ fault. fault ≡ row.Memory };

    fn from(_error: AllocError) -> RowFault {
        RowFault::Memory
    }
}

impl<T: Drop> From<AllocFailed<T>> for RowFault {
    ghost from_gives = { λ _ fault. fault ≡ row.Memory };

    fn from(_error: AllocFailed<T>) -> RowFault {
        RowFault::Memory
    }
}
