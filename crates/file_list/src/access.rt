//! How each file can be used.

ghost use Rattle.std.specs.Prelude.{◌≡◌};
ghost use Rattle.file_list.specs.Files.{access_word};

/// How a file can be used.
#[derive(Clone, Copy, Debug, PartialEq, Eq)]
pub enum Access {
    Read,
    Write,
    Both,
}

impl Access {
    /// `r`, `w` or `rw`.
    #[tactic(auto, unfolding(crate::specs::Files::access_word))]
    pub fn word(self) -> &'static str
        ensures { result.now ≡ access_word self }
    {
        match self {
            Access::Read => "r",
            Access::Write => "w",
            Access::Both => "rw",
        }
    }
}
