//! What is told of a node.

ghost use Rattle.std.specs.Prelude.{◌≡◌, ◌<◌, ◌^◌};

/// What kind of node.
#[derive(Clone, Copy, Debug, PartialEq, Eq)]
pub enum FileKind {
    Directory,
    Regular,
}

impl FileKind {
    ghost use Rattle.fuse_wire.specs.Replies.{kind_number};

    /// Its number, as a directory's entry tells it.
    pub fn number(self) -> u32
        ensures value { result ≡ kind_number self }
        ensures bound { result < 16 }
    {
        match self {
            FileKind::Directory => 4,
            FileKind::Regular => 8,
        }
    }
}

/// The attributes of a node. Its times are 0, and it takes no blocks.
#[derive(Clone, Copy, Debug, PartialEq, Eq)]
pub struct Attributes {
    pub node: u64,
    pub size: u64,
    pub kind: FileKind,
    /// The permission bits; no more than the low twelve are told.
    pub permissions: u16,
    /// How many names it has.
    pub links: u32,
    pub uid: u32,
    pub gid: u32,
    pub block_size: u32,
}

impl Attributes {
    ghost use Rattle.fuse_wire.specs.Replies.{mode_of};

    /// Its kind and its permission bits.
    pub fn mode(&self) -> u32
        ensures { result ≡ mode_of self.now }
    {
        self.kind.number() * 4096 + u32::from(self.permissions % 4096)
    }
}
