//! The folders and files of a mounted tracer: which there are, what they are called, and the numbers by which a file system knows them.
#![tactic(auto)]

mod address;
mod entry;
mod fixed;
pub mod laws;
mod node;
mod number;
mod path;
mod scene;

pub use entry::Entry;
pub use file_list::{File, FileKind, Folder, LayoutFile, ToolFile, TopTool};
pub use node::{Node, Owner};
pub use scene::{Event, Instance, Scene};
