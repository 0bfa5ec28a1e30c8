//! Scripts read as items: a script is read from a reader, its lines are told apart, and the next item is a line by itself or a whole parallel part.
#![tactic(auto)]

mod end;
pub mod item;
pub mod laws;
mod lines_from;
pub mod part;
pub mod part_line;
mod script;
mod source;
mod stop;
mod told;

pub use lines_from::LinesFrom;
pub use script::{MOST_SCRIPT_BYTES, read_script};
pub use source::{Input, Source};
pub use stop::Stop;
pub use told::Told;
