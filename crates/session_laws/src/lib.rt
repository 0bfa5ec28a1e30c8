//! What sessions come to, in a user's own words. It is all in `specs/`; the code here names theorems, and has a sink that hears a session.
#![tactic(auto)]

pub mod heard_lines;
pub mod laws;
pub mod listener;
