//! What every item of a session needs.

use shared_book::SharedBook;
use std::alloc::Global;
use ticket_lock::TicketLock;

/// The runtime, the allocator, the lock over the session's book, and the gate for parallel parts.
#[derive(Drop)]
pub(crate) struct Environment<'a, B: SharedBook, R, G> {
    pub rt: &'a R,
    pub alloc: Global,
    pub lock: &'a TicketLock<B>,
    pub gate: &'a G,
}
