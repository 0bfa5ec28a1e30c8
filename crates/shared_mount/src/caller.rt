//! Callers of a mounted tracer that is shared.

use crate::live_mount::LiveMount;
use std::fmt;
use std::fmt::{Debug, Formatter};
use std::ops::Range;
use ticket_lock::{Drawn, Pass};

/// Who may have turns at a mounted tracer, as any of a range of callers' numbers; it has them under the first. Clauses know what it has seen of the
/// history.
pub struct Caller {
    pub(crate) pass: Pass<LiveMount>,
}

impl Drop for Caller {
    // Not derived, so that no crate above proves the drops of its parts.
    fn drop(self) {
        let Caller { pass: _ } = self;
    }
}

impl Caller {
    ghost use Rattle.std.specs.Prelude.{◌≡◌};
    ghost use Rattle.shared_mount.specs.MountCallers.{caller_view};

    /// The callers' numbers that it has, from the first up to below the end.
    pub fn names(&self) -> Range<u32>
        ensures start { result.start ≡ (caller_view self.now).low }
        ensures end { result.end ≡ (caller_view self.now).end }
    {
        self.pass.names()
    }

    #[inline(always)]
    pub(crate) fn into_pass(self) -> Pass<LiveMount>
        ensures { result ≡ self.pass }
    {
        let Caller { pass } = self;
        pass
    }
}

impl Debug for Caller {
    fn fmt<W: fmt::Write>(&self, f: &mut Formatter<W>) -> fmt::Result {
        let pass = &self.pass;
        write!(f, "Caller({pass:?})")
    }
}

/// A caller that is in line: it has drawn a ticket, which is not served yet. It cannot be dropped: no later ticket would ever be served.
pub struct InLine {
    pub(crate) drawn: Drawn<LiveMount>,
}

impl InLine {
    /// Gives the ticket up, unserved: nobody is served any more.
    pub fn abandon(self) {
        let InLine { drawn } = self;
        drawn.abandon();
    }
}

impl Debug for InLine {
    fn fmt<W: fmt::Write>(&self, f: &mut Formatter<W>) -> fmt::Result {
        let drawn = &self.drawn;
        write!(f, "InLine({drawn:?})")
    }
}
