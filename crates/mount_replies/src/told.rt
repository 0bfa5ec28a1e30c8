//! What is told of folders and files. Nothing of it changes anything.

ghost use Rattle.std.specs.Prelude.{◌≡◌};
ghost use Rattle.mount_replies.specs.Mounted.{terms_of};
ghost use Rattle.mount_replies.specs.private.ShortReplies.{IsShort};
ghost use Rattle.file_list.specs.FileKinds.{access_of_file};
ghost use Rattle.mount_replies.specs.Told as told;

use crate::mount::Mount;
use crate::telling::MOST_DATA;
use file_list::Access;
use fuse_wire::headers::{
    FUSE_ATOMIC_O_TRUNC, FUSE_BIG_WRITES, FUSE_KERNEL_VERSION, MINOR_VERSION, O_ACCMODE, O_RDONLY,
    O_TRUNC, O_WRONLY, R_OK, W_OK, X_OK,
};
use fuse_wire::{Agreement, Attributes, Errno, FileKind, Reply};
use mount_tree::{File, Node};

/// What kind of node.
pub(crate) fn kind_of_node(node: Node) -> FileKind
    ensures { result ≡ told.kind_of_node node }
{
    match node {
        Node::Folder(_, _) => FileKind::Directory,
        Node::File(_, _) => FileKind::Regular,
    }
}

/// The permissions that it can have at most.
fn permissions_of(node: Node) -> u16
    ensures { result ≡ told.permissions_of node }
{
    match node {
        Node::Folder(_, _) => 0o777,
        Node::File(_, file) => file_permissions(file.access()),
    }
}

fn file_permissions(access: Access) -> u16
    ensures { result ≡ told.file_permissions access }
{
    match access {
        Access::Read => 0o444,
        Access::Write => 0o222,
        Access::Both => 0o666,
    }
}

fn can_read(access: Access) -> bool
    ensures { result ≡ told.can_read access }
{
    match access {
        Access::Read | Access::Both => true,
        Access::Write => false,
    }
}

fn can_write(access: Access) -> bool
    ensures { result ≡ told.can_write access }
{
    match access {
        Access::Write | Access::Both => true,
        Access::Read => false,
    }
}

/// Whether a file may be used so.
fn may(access: Access, reads: bool, writes: bool) -> bool
    ensures { result ≡ told.may access reads writes }
{
    (can_read(access) || !reads) && (can_write(access) || !writes)
}

/// Whether the flags of open(2) want a file emptied.
pub(crate) fn empties(flags: u32) -> bool
    ensures { result ≡ told.empties flags }
{
    flags / O_TRUNC % 2 == 1
}

/// Whether a file may be opened with these flags.
pub(crate) fn may_open(file: File, flags: u32) -> bool
    ensures { result ≡ told.may (access_of_file file) (told.wants_read flags) (told.wants_write flags) }
{
    may(
        file.access(),
        flags % (O_ACCMODE + 1) != O_WRONLY,
        flags % (O_ACCMODE + 1) != O_RDONLY || empties(flags),
    )
}

/// Whether a node may be used so, by the mask of access(2).
fn may_use(node: Node, mask: u32) -> bool
    ensures { result ≡ told.may_use node mask }
{
    match node {
        Node::Folder(_, _) => true,
        Node::File(_, file) => {
            may(file.access(), mask / R_OK % 2 == 1, mask / W_OK % 2 == 1) && mask % 2 != X_OK
        }
    }
}

/// INIT: what is agreed. Nothing is read ahead, so that the page cache asks for one page a READ: a READ of binary pages gives one.
pub(crate) fn agree(major: u32, flags: u32) -> Reply<'static>
    ensures reply { result ≡ told.agree major flags }
    ensures short { IsShort result }
{
    if major < FUSE_KERNEL_VERSION {
        return Reply::Error(Errno::EPROTO);
    }
    Reply::Init(Agreement {
        major: FUSE_KERNEL_VERSION,
        minor: MINOR_VERSION,
        max_readahead: 0,
        flags: flags / FUSE_ATOMIC_O_TRUNC % 2 * FUSE_ATOMIC_O_TRUNC
            + flags / FUSE_BIG_WRITES % 2 * FUSE_BIG_WRITES,
        max_background: 65_535,
        congestion_threshold: 65_535,
        max_write: MOST_DATA,
    })
}

impl Mount {
    /// The node that a request is about, if it is there.
    pub(crate) fn known(&self, node: Option<Node>) -> Option<Node>
        ensures { result ≡ told.known self.now.scene node }
    {
        let node = node?;
        if self.scene.exists(node) {
            Some(node)
        } else {
            None
        }
    }

    /// The attributes of a node of this size.
    #[inline(always)]
    pub(crate) fn attributes_of(&self, node: Node, size: u64) -> Attributes
        ensures { result ≡ told.attributes_of (terms_of self.now) node size }
    {
        Attributes {
            node: node.number(),
            size,
            kind: kind_of_node(node),
            permissions: self.mode & permissions_of(node),
            links: 1,
            uid: self.uid,
            gid: self.gid,
            block_size: 4096,
        }
    }

    /// OPENDIR: a folder has no handle.
    pub(crate) fn open_folder(&self, node: Option<Node>) -> Reply<'static>
        ensures reply { result ≡ told.open_folder self.now.scene node }
        ensures short { IsShort result }
    {
        match self.known(node) {
            Some(Node::Folder(_, _)) => Reply::Opened {
                handle: 0,
                flags: 0,
            },
            Some(Node::File(_, _)) => Reply::Error(Errno::ENOTDIR),
            None => Reply::Error(Errno::ENOENT),
        }
    }

    /// ACCESS.
    pub(crate) fn check_access(&self, node: Option<Node>, mask: u32) -> Reply<'static>
        ensures reply { result ≡ told.check_access self.now.scene node mask }
        ensures short { IsShort result }
    {
        let Some(node) = self.known(node) else {
            return Reply::Error(Errno::ENOENT);
        };
        if may_use(node, mask) {
            Reply::Done
        } else {
            Reply::Error(Errno::EACCES)
        }
    }
}
