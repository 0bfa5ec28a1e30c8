//! A caller in line.

use shared_mount::InLine;

/// A caller that is in line. A console that is dropped in line would give its ticket up, and nobody would be served any more: so it has its turn first
/// (`Console::leave`).
pub struct Queued {
    pub(crate) line: InLine,
}

impl Queued {
    ghost use Rattle.std.specs.Prelude.{◌≡◌};

    pub fn into_line(self) -> InLine
        ensures { result ≡ self.line }
    {
        let Queued { line } = self;
        line
    }
}

impl Drop for Queued {
    fn drop(self) {
        let Queued { line } = self;
        line.abandon();
    }
}
