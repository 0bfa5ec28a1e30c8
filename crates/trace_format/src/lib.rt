//! Event types and rows of a tracer, after "Event Tracing" (events.rst).
//!
//! A declaration defines an event: its name, and its fields with types. A `Catalog` keeps the declared events. A `Row` has a value
//! for each field of an event, from pairs of names and texts or from values in order; its payload is the bytes that a record keeps of it. Texts
//! are bytes. Beside them stands what a hist trigger tells entries apart and sorts them by ("hist triggers" of histogram.rst): a `Key` names a field.
#![tactic(auto)]

mod bad_row;
mod borrowed_pair;
mod borrowed_value;
mod catalog;
mod emission;
mod event;
mod fault;
mod field_value;
mod from_values;
mod given;
mod in_order;
mod key;
mod kind;
pub mod laws;
mod modifier;
mod operand;
mod pair;
mod payload;
mod reader;
mod row;
mod sizes;
mod sort_rule;
mod value;
mod words;

pub use bad_row::{BadRow, BoxedBadRow};
pub use borrowed_pair::{BorrowedPair, borrowed};
pub use borrowed_value::BorrowedValue;
pub use catalog::Catalog;
pub use emission::Emission;
pub use event::{EventDef, Field};
pub use fault::{CatalogFault, DeclarationCause, DefinitionFault, RowCause, RowFault};
pub use field_value::FieldValue;
pub use key::Key;
pub use kind::{Kind, NumberType};
pub use modifier::Modifier;
pub use operand::Operand;
pub use pair::Pair;
pub use row::{Row, RowMemory};
pub use sizes::{payload_size, record_size};
pub use sort_rule::{SortRule, SortSource};
pub use trace_lex::Text;
pub use value::Value;
