//! The binary pages of a ring, as Linux hands them out by `per_cpu/cpuN/trace_pipe_raw`, and the texts that say how they are laid out.
#![tactic(auto)]

mod event;
mod format;
mod headers;
pub mod laws;
mod layout;
mod page;
mod page_row;
mod record;
mod room;
mod taken;
mod zeros;

pub use format::{format_text, id_text};
pub use headers::{header_event, header_page, print_format};
pub use page::{PAGE_SIZE, Page, fill_page};
pub use page_row::PageRow;
pub use record::row_of_record;
pub use taken::page_of_taken;
