//! One instance: what it keeps, what changes it, how its files are read and written, and what an emission does there.
#![tactic(auto)]

mod attach;
mod change;
mod event;
mod file;
mod hists;
mod instance;
mod late_reply;
mod plan;
mod read;
mod tables;
mod take;
mod text;
mod trigger;
mod trigger_list;
mod waiting;
mod write;

pub use change::{
    Delivery, FilterChange, INSTANCES, InstanceChange, NewHist, Reach, TriggerChange,
};
pub use file::{File, event_at};
pub use hists::{AttachedHist, MOST_TRIGGERS, Passed};
pub use instance::Instance;
pub use late_reply::{Copied, LateReply, copy_file};
pub use plan::{Plan, Touched};
pub use read::{FileSource, Shown, declarations, read_file};
pub use tables::Table;
pub use take::take_records;
pub use trigger::AttachedSnapshot;
pub use waiting::has_waiting;
pub use write::{WrittenText, written_change};
