//! What a sort key of a hist trigger means.

/// What entries are sorted by.
#[derive(Clone, Copy, PartialEq, Eq)]
pub enum SortSource {
    /// A key, by its index among the keys.
    Key(usize),
    /// A value's sum, by its index among the values.
    Value(usize),
    /// The hitcount.
    Hitcount,
}

/// A sort key, as it is looked up.
#[derive(Clone, Copy, PartialEq, Eq)]
pub struct SortRule {
    pub source: SortSource,
    /// Whether greater ones come first.
    pub descending: bool,
}
