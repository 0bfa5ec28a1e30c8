//! The words of a tracer's texts: strings of bytes, blanks, names and numbers. Declarations, filters, scripts and what is written to files
//! are made of them.
#![tactic(auto)]

mod blanks;
mod decimal;
pub mod laws;
mod name;
mod numeral;
mod prefix;
mod text;

pub use blanks::{blanks_len, is_blank, trim, trim_end};
pub use decimal::{all_digits, decimal_number, digits_value, has_leading_zero, written_number};
pub use name::{is_name, is_name_byte};
pub use numeral::{magnitude, number};
pub use prefix::{len_before, rest_of};
pub use text::Text;
