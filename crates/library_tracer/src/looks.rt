//! What a console looks up in its tracer, without a command.

ghost use Rattle.std.specs.Prelude.{◌≡◌, List, IfOk, length};
ghost use Rattle.trace_command.specs.Paths as paths;
ghost use Rattle.trace_command.specs.Requests.{Request};
ghost use Rattle.tracer_specification.specs.Waiting.{waiting};
ghost use Rattle.tracer.specs.LiveMasks.{IsMaskAfter};
ghost use Rattle.tracer.specs.Lives.{IsLive};
ghost use Rattle.library_tracer.specs.ListedFiles.{files_after};

use crate::files::files_of;
use crate::mask::Mask;
use shared_mount::Look;
use std::alloc::{AllocError, Global};
use trace_command::Refusal;
use tracer::Tracer;

/// Whether a record waits to be read in the pipe at this path.
#[derive(Drop)]
pub(crate) struct Waiting<'a> {
    pub path: &'a [u8],
}

impl<'a> Look for Waiting<'a> {
    type Answer = Result<bool, Refusal>;

    ghost tells = { λ look live seen. (past : List Request) → IsLive live.config past live
        → seen ≡ waiting live.config past (paths.address_of look.path.now).instance (paths.address_of look.path.now).file };

    fn look(&self, tracer: &Tracer) -> Result<bool, Refusal> {
        tracer.waiting(self.path)
    }
}

/// The list of the files that there are.
#[derive(Drop)]
pub(crate) struct Files {
    pub alloc: Global,
}

impl Look for Files {
    type Answer = Result<Vec<u8>, AllocError>;

    ghost tells = { λ _ live list. (past : List Request) → IsLive live.config past live
        → IfOk list (λ text. text.items ≡ files_after live.config past) };

    fn look(&self, tracer: &Tracer) -> Result<Vec<u8>, AllocError> {
        files_of(self.alloc, tracer)
    }
}

/// The events that are wanted, and after how many commands.
#[derive(Drop)]
pub(crate) struct Wanted;

impl Look for Wanted {
    type Answer = Mask;

    ghost tells = { λ _ live mask. (past : List Request) → IsLive live.config past live
        → (mask.entries ≡ length past) × IsMaskAfter past mask.events };

    fn look(&self, tracer: &Tracer) -> Mask {
        Mask {
            entries: tracer.done(),
            events: tracer.wanted(),
        }
    }
}
