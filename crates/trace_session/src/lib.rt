//! Whole sessions: a script is read, its lines and parts run on a book, and their output goes to a writer.
#![tactic(auto)]

mod device;
mod environment;
pub mod laws;
mod line;
mod output;
mod part_ask;
mod part_line;
mod part_run;
mod part_split;
mod part_text;
mod replies;
mod session;
mod status;
mod step;
mod told;

pub use device::{Output, Sink};
pub use script_reader::{Input, MOST_SCRIPT_BYTES, Source, item, part};
pub use session::run_session;
pub use status::Status;
pub use trace_workers::{Gate, OpenGate, Point};
