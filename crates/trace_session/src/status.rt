//! How a session ended.

ghost use Rattle.std.specs.Prelude.{◌≡◌};

/// How a session ended.
#[derive(Clone, Copy, Debug, PartialEq, Eq)]
pub enum Status {
    /// Every command succeeded.
    Done,
    /// The script ran to its end, and some commands were refused.
    Refused,
    /// A fault in the script ended the session.
    Fault,
    /// Memory was refused, or a thread could not be started.
    Memory,
    /// A read or a write failed, or the script is too long.
    Device,
    /// The gate stopped a part.
    Stopped,
}

impl Status {
    ghost use Rattle.trace_session.specs.Sessions.{code_of};

    /// The exit status of the program, from 0 to 4.
    pub fn code(self) -> u8
        ensures { result ≡ code_of self }
    {
        match self {
            Status::Done => 0,
            Status::Refused => 1,
            Status::Fault => 2,
            Status::Memory => 3,
            Status::Device => 4,
            Status::Stopped => 1,
        }
    }
}
