//! How the folders and files follow a command that adds to them: what is to be added is noted once the command was prepared, so that its refusals come first,
//! and before it is carried out, since a note takes memory. If it is refused then, the note is taken back.

ghost use Rattle.std.specs.Prelude.{◌≡◌, OnOk, OnErr};
ghost use Rattle.mount_tree.specs.Scenes.{with_event, with_instance};

use mount_tree::Scene;
use std::alloc::AllocError;
use tracer_state::Prepared;

/// Notes an instance. If memory is refused, nothing has changed.
pub(crate) fn note_instance(scene: &mut Scene, name: &[u8]) -> Result<(), AllocError>
    ensures ok { OnOk result (scene.new ≡ with_instance name.now scene.old) }
    ensures err { OnErr result (scene.new ≡ scene.old) }
{
    if !scene.can_make() {
        return Err(AllocError);
    }
    scene.add_instance(name)
}

/// Notes an event, likewise.
pub(crate) fn note_event(scene: &mut Scene, name: &[u8]) -> Result<(), AllocError>
    ensures ok { OnOk result (scene.new ≡ with_event name.now scene.old) }
    ensures err { OnErr result (scene.new ≡ scene.old) }
{
    if !scene.can_declare() {
        return Err(AllocError);
    }
    scene.add_event(name)
}

/// Drops what was prepared for a command of which there was no memory for a note.
#[cold]
#[inline(never)]
pub(crate) fn let_go(_prepared: Prepared) {}
