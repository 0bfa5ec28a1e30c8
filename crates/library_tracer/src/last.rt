//! What a call came to, and what is wrong with one that was not done, in words.

use trace_script::Outcome;

/// What the last call came to.
pub(crate) struct Last {
    pub(crate) outcome: Outcome,
    /// What is wrong. Nothing reads them where the outcome is a reply.
    pub(crate) words: &'static str,
}

impl Drop for Last {
    // Not derived, so that a console's drop is not proved by its parts.
    fn drop(self) {
        let Last {
            outcome: _,
            words: _,
        } = self;
    }
}
