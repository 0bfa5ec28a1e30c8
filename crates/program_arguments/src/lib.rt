//! The command line of tracectl: what its words ask for, and what is told of words that are wrong; and what that of tracectl_mount has of it.
#![tactic(auto)]

mod help;
mod options;
mod program;
mod stop;
mod words;

pub use options::{
    OutOfRange, add_config, add_number, add_option, check_config, config_of, number_of,
};
pub use program::Program;
pub use stop::{Stop, told};
pub use words::{Notes, Script, Words, words_of};
