//! An exchange of a mount: a request and its reply, or something that is told.

use crate::entry::Entry;
use ghost_list::GhostList;
use mount_replies::Mount;
use std::snapshot::Snapshot;

/// An exchange, as far as clauses need it: what was done before it, the mounted tracer before and after it, and the bytes that were read and written.
#[derive(Drop)]
pub(crate) struct Exchange {
    pub past: Snapshot<GhostList<Entry>>,
    pub before: Snapshot<Mount>,
    pub after: Snapshot<Mount>,
    pub asked: GhostList<u8>,
    pub bytes: GhostList<u8>,
}
