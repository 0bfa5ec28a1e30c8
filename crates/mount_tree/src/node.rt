//! Nodes: what a mounted tracer's folders and files are known by.

ghost use Rattle.std.specs.Prelude.{◌≡◌};
ghost use Rattle.mount_tree.specs.Children.{is_top};
ghost use Rattle.mount_tree.specs.Nodes.{owner_number};

use file_list::{File, Folder};

/// Whose a folder or a file is.
#[derive(Clone, Copy)]
pub enum Owner {
    /// The top instance's.
    Top,
    /// That of another instance, by how many were made before it. No later one has this number, not even one of the same name.
    Made(u32),
}

/// A folder or a file. Nothing keeps a table of nodes: a node names what it means, and whether that is there is asked of a `Scene`.
#[derive(Clone, Copy)]
pub enum Node {
    Folder(Owner, Folder),
    File(Owner, File),
}

impl Owner {
    /// 0 for the top instance; one more than how many were made before for another.
    pub(crate) fn number(self) -> u64
        ensures { result ≡ owner_number self }
    {
        match self {
            Owner::Top => 0,
            Owner::Made(serial) => u64::from(serial) + 1,
        }
    }

    /// Whether it is the top instance.
    pub(crate) fn is_top(self) -> bool
        ensures { result ≡ is_top self }
    {
        match self {
            Owner::Top => true,
            Owner::Made(_) => false,
        }
    }
}
