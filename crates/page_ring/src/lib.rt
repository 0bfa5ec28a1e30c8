//! One overwriting ring of records on pages, as "The Generic Ring Buffer" of
//! ring-buffer-design.rst describes it: a circle of pages that loses its oldest page whole, and one
//! reader page outside the circle, which is swapped with the head page where it has nothing unread.
//!
//! A ring's contracts speak of the events that it stands for: the puts and the consuming reads
//! since it was new or cleared. `specs/Account.antt` says from scratch what such a list means, and
//! `laws` says it once more in the words of the subject.
#![tactic(auto)]

mod kept_records;
pub mod laws;
mod page;
mod pages;
mod ring_copy;
mod rings;

pub use kept_records::KeptRecords;
pub use ring_copy::RingCopy;
pub use rings::{Kept, Put, Ring, RingStats};
pub use trace_record::{Head, read_head, write_head};
