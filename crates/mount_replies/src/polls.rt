//! What a pipe's open file has to do with polls.

ghost use Rattle.std.specs.Prelude.{◌≡◌};
ghost use Rattle.mount_replies.specs.Services.{armed, no_polls, polled_by};

/// The polls of a pipe's open file: by which number they are told, if one ever wanted that; by which one is to be told next, if one is; and whether the
/// last read was told that the pipe ends; and of a file of binary pages whether a poll was told since the last read that a read would not wait.
#[derive(Clone, Copy)]
pub struct Polls {
    pub asked: Option<u64>,
    pub wakeup: Option<u64>,
    pub told_end: bool,
    pub told_ready: bool,
}

impl Polls {
    /// No poll asked for anything.
    pub(crate) fn new() -> Polls
        ensures { result ≡ no_polls }
    {
        Polls {
            asked: None,
            wakeup: None,
            told_end: false,
            told_ready: false,
        }
    }

    /// After a read: a poll that ever asked to be told is to be told again.
    pub(crate) fn armed(self, told_end: bool) -> Polls
        ensures { result ≡ armed told_end self }
    {
        Polls {
            asked: self.asked,
            wakeup: self.asked,
            told_end,
            told_ready: false,
        }
    }

    /// After a poll that asked to be told by this number, and that waits for it, or not.
    pub(crate) fn polled_by(self, wakeup: u64, waits: bool) -> Polls
        ensures { result ≡ polled_by wakeup waits self }
    {
        Polls {
            asked: Some(wakeup),
            wakeup: if waits { Some(wakeup) } else { self.wakeup },
            told_end: !waits && self.told_end,
            told_ready: self.told_ready,
        }
    }

    /// After a poll that was told whether a read would not wait.
    pub(crate) fn told(self, told_ready: bool) -> Polls
        ensures { result ≡ record self { told_ready = told_ready } }
    {
        Polls {
            asked: self.asked,
            wakeup: self.wakeup,
            told_end: self.told_end,
            told_ready,
        }
    }

    /// After the poll was told.
    pub(crate) fn without_wakeup(self) -> Polls
        ensures { result ≡ record self { wakeup = None } }
    {
        Polls {
            asked: self.asked,
            wakeup: None,
            told_end: self.told_end,
            told_ready: self.told_ready,
        }
    }
}
