//! What the proofs know of each pass. No value of these types is made, but for `Opening`, which has one number.
use std::collections::LinkedList;
use std::snapshot::Snapshot;

/// Where a pass stands.
pub enum Stage {
    /// It asks for nothing.
    Idle,
    /// It has drawn this ticket and waits for it to be served.
    Waiting(u64),
    /// This ticket of its is served: it owns the value.
    Holding(u64),
    /// It was joined to another, which has all that it had.
    Spent,
}

/// What a pass knows of its lock.
pub struct View<E> {
    /// Its names are the caller's numbers from `low` up to below `end`.
    pub low: u64,
    pub end: u64,
    /// The entries that it has seen; of a holder, those that it found.
    pub seen: LinkedList<E>,
    /// The base of the value.
    pub base: LinkedList<u64>,
    /// Of the values of NEXT that it knows, the greatest.
    pub front: u64,
    pub stage: Stage,
    /// What the last join noted: the name at which its second half begins, and what the two halves had seen.
    pub middle: u64,
    pub left: LinkedList<E>,
    pub right: LinkedList<E>,
    /// What it found in SERVING since it last looked at NEXT, if nobody was in line; 0 otherwise.
    pub watched: u64,
}

/// What the table is told once, when it is made: the first ticket and the value.
pub struct Opening<T> {
    pub first: u64,
    pub value: Snapshot<T>,
}

impl<T> Drop for Opening<T> {
    fn drop(self) {
        let Opening { first: _, value: _ } = self;
    }
}
