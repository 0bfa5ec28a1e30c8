//! Which events are wanted.

/// The events of which an emission may do more than count the clock (`Tracer::wanted`), a bit of each, after so many commands. So of two masks the one
/// after more commands is the later one, and those after equally many are the same.
#[derive(Clone, Copy, Drop)]
#[repr(C)]
pub struct Mask {
    /// How many commands were done before.
    pub entries: u64,
    /// A bit of each event: that of event 1, the first declared, is the lowest.
    pub events: u64,
}
