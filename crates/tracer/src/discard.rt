//! Dropping what is not needed any more, out of line, so that calls that do without don't pay for the code.

use tracer_state::{Change, Prepared, PreparedLate};

/// Drops what was prepared for a command that is refused.
#[cold]
#[inline(never)]
pub(crate) fn let_go_change(_prepared: Prepared) {}

/// Drops what was prepared for a read that is refused.
#[cold]
#[inline(never)]
pub(crate) fn let_go_late(_prepared: PreparedLate) {}

/// Likewise for a read of records of which no text is made.
#[cold]
#[inline(never)]
pub(crate) fn let_go_take(_change: Change) {}
