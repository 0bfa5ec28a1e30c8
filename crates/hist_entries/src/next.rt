//! Where the next row is counted.

/// Where the next row is counted.
#[derive(Clone, Copy)]
pub enum Next {
    /// Nothing is reserved.
    Unknown,
    /// In the entry at this index.
    At(usize),
    /// In no entry: its key is new, and there is no room.
    Dropped,
}
