//! A ticket lock over a value that keeps a list of entries, the history of the calls that were done on it.
//!
//! A caller draws a ticket, waits until it is served, and has the value for one turn, in which it may add one entry.
//! [`TicketLock`] is the lock, a [`Pass`] the right to ask under a range of callers' numbers, and a [`Held`] a turn,
//! which has to be given back by `TicketLock::release`. `docs/LOCK.md` says what is promised, and by which clauses.
#![tactic(auto)]

mod drawn;
mod entries;
mod lock;
mod moves;
mod passes;
mod turns;
mod views;

pub use drawn::Drawn;
pub use entries::Logged;
pub use lock::TicketLock;
pub use passes::{Pass, TryAcquireError, Worn};
pub use turns::Held;
