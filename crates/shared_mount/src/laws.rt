//! What a history of turns is to a mounted tracer. The function does nothing: its contract is a theorem.

ghost use Rattle.shared_mount.specs.MountHistories.{HistoriesAreTurns};

/// The entries of a history are turns of a mounted tracer, one after another from the first: so each theorem of `mount_replies` that is of turns holds of
/// the one history that all callers share.
pub fn histories_are_turns()
    ensures { HistoriesAreTurns }
{}
