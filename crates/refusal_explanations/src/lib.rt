//! What people are told of a line of a script that was refused or has a fault: where it is, what is wrong in words, the line with a caret under
//! the byte where it is wrong, and what was meant, if something near is there.
#![tactic(auto)]

mod caret;
mod cut;
mod explainer;
mod fault;
mod fault_words;
mod hist;
mod layout;
mod left_out;
mod meant;
mod near;
mod place;
mod subject;
mod words;

pub use cut::{after, up_to};
pub use explainer::Explainer;
pub use fault_words::line_words;
pub use layout::{ScriptLine, push_padding, push_shown};
pub use place::{injection_offset, write_offset};
pub use words::{command_words, injection_words, sentence, write_words};
