//! The number of a node, which a file system tells as its inode and node number, and the node of a number.
//!
//! A number is one more than three numbers packed: whose the node is, the CPU or event, and the kind.
//!
//! ```text
//!     number - 1   =   owner: 33 bits   index: 8 bits   kind: 6 bits
//! ```

ghost use Rattle.std.specs.Prelude.{◌≡◌, ◌≢◌, ◌≤◌, ◌^◌, IfSome, IfNone};
ghost use Rattle.mount_tree.specs.Nodes.{FitsItsTypes, index_of, number_of, owner_number, owner_of, place_of, top};
ghost use Rattle.mount_tree.specs.TreeNames.{node_parent};
ghost use Rattle.mount_tree.specs.private.KindPlaces.{node_at};

use crate::node::{Node, Owner};
use file_list::{FOLDERS, File, Folder};

/// The values of the index, and of the kind.
const INDEXES: u64 = 256;

const PLACES: u64 = 64;

impl Node {
    /// The mounted folder. Its number is 1.
    #[tactic(auto, unfolding(crate::specs::Nodes::number_of))]
    pub fn top() -> Node
        ensures { (result ≡ top) × (number_of result ≡ 1) }
    {
        Node::Folder(Owner::Top, Folder::Root)
    }

    /// The folder that it is in: that of the mounted folder is itself.
    pub fn parent(self) -> Node
        ensures { result ≡ node_parent self }
    {
        match self {
            Node::Folder(Owner::Made(_), Folder::Root) => {
                Node::Folder(Owner::Top, Folder::Instances)
            }
            Node::Folder(owner, folder) => Node::Folder(owner, folder.parent()),
            Node::File(owner, file) => Node::Folder(owner, file.parent()),
        }
    }

    /// Whose it is.
    pub fn owner(self) -> Owner
        ensures { result ≡ owner_of self }
    {
        match self {
            Node::Folder(owner, _) | Node::File(owner, _) => owner,
        }
    }

    fn index(self) -> u8
        ensures { result ≡ index_of self }
    {
        match self {
            Node::Folder(_, folder) => folder.index(),
            Node::File(_, file) => file.index(),
        }
    }

    // The row of its kind: those of folders come first.
    fn place(self) -> u8
        ensures { result ≡ place_of self }
    {
        match self {
            Node::Folder(_, folder) => folder.row() as u8,
            Node::File(_, file) => (FOLDERS.len() + file.row()) as u8,
        }
    }

    /// Its number. No two nodes have one number.
    #[tactic(auto, unfolding(crate::specs::Nodes::number_of))]
    pub fn number(self) -> u64
        ensures { result ≡ number_of self }
    {
        (self.owner().number() * INDEXES + u64::from(self.index())) * PLACES
            + u64::from(self.place())
            + 1
    }

    /// The node of this number; `None`, if no node has it. Whether the node is there is not looked at.
    pub fn from_number(number: u64) -> Option<Node>
        ensures found { IfSome result (λ node. FitsItsTypes node × (number_of node ≡ number)) }
        ensures none { IfNone result ((node : Node) → FitsItsTypes node → number_of node ≢ number) }
    {
        let Some(packed) = number.checked_sub(1) else {
            return None;
        };
        let Some(owner) = owner_from(packed / (INDEXES * PLACES)) else {
            return None;
        };
        let index = (packed / PLACES % INDEXES) as u8;
        let place = (packed % PLACES) as u8;
        let Some(node) = node_from(owner, index, place) else {
            return None;
        };
        same_number(node, number)
    }
}

// The node, if this is its number.
fn same_number(node: Node, number: u64) -> Option<Node>
    ensures found { IfSome result (λ other. (other ≡ node) × (number_of node ≡ number)) }
    ensures none { IfNone result (number_of node ≢ number) }
{
    if node.number() == number {
        Some(node)
    } else {
        None
    }
}

// The owner of this number.
fn owner_from(number: u64) -> Option<Owner>
    ensures found { IfSome result (λ owner. owner_number owner ≡ number) }
    ensures none { IfNone result ((owner : Owner) → owner_number owner ≤ 2 ^ 32 → owner_number owner ≢ number) }
{
    let Some(serial) = number.checked_sub(1) else {
        return Some(Owner::Top);
    };
    match u32::try_from(serial) {
        Ok(serial) => Some(Owner::Made(serial)),
        Err(_) => None,
    }
}

// The node of this kind, of the CPU or event at this index if it is one of those.
fn node_from(owner: Owner, index: u8, place: u8) -> Option<Node>
    ensures { result ≡ node_at owner index place }
{
    let place = usize::from(place);
    if place < FOLDERS.len() {
        let folder = Folder::at(place)?;
        Some(Node::Folder(owner, folder.of(index)))
    } else {
        let file = File::at(place - FOLDERS.len())?;
        Some(Node::File(owner, file.of(index)))
    }
}
