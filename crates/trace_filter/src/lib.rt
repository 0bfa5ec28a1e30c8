//! Event filters.
#![tactic(auto)]

mod fault;
mod filter;
mod frames;
mod glob;
pub mod laws;
mod steps;
mod syntax;
mod test;
mod token;

pub use fault::{FilterCause, FilterFault};
pub use filter::{Filter, applies_to};
pub use token::is_sign;
