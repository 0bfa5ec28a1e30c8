//! The files of a mounted tracer that tools ask for and commands don't know: what they show, and what a write to one comes to.
#![tactic(auto)]

mod config;
mod laws;
mod text;
mod word;
mod write;
mod wrong;

pub use laws::examples_are_computed;
pub use text::text_of;
pub use write::{ToolWrite, write_of};
pub use wrong::{wrong_offset, wrong_words};
