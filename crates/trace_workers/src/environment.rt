//! What stays the same while a block runs.

use shared_book::SharedBook;
use std::alloc::Global;
use std::sync::atomic::AtomicBool;
use ticket_lock::TicketLock;

/// The runtime, the allocator, the lock over the book, the gate, and whether a thread could not be started.
#[derive(Drop)]
pub struct Environment<'a, B: SharedBook, R, G> {
    pub rt: &'a R,
    pub alloc: Global,
    pub lock: &'a TicketLock<B>,
    pub gate: &'a G,
    pub missed: &'a AtomicBool,
}
