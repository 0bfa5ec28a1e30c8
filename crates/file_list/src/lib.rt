//! The files that there are: a table of all of them, and those that there are after the lines of a script (`tracectl --list`).
#![tactic(auto)]

mod access;
mod file;
mod files;
mod folder;
pub mod laws;
mod listing;
mod names;

pub use access::Access;
pub use file::{File, FileKind};
pub use files::{FILES, FOLDERS, Item, LayoutFile, ToolFile, TopTool};
pub use folder::Folder;
pub use names::Names;
