//! What a folder always has: its files, and the folders in it.

ghost use Rattle.std.specs.Prelude.{◌≡◌, slice_get};
ghost use Rattle.std.specs.Option.{option_map};
ghost use Rattle.mount_tree.specs.Children.{fixed_children, folder_child, item_child, node_named};
ghost use Rattle.mount_tree.specs.FolderEntries.{child_of};

use crate::entry::Entry;
use crate::node::{Node, Owner};
use file_list::{Folder, Item};

/// More than what any folder always has.
const MOST_FIXED: usize = 64;

pub(crate) fn folder_entry(
    owner: Owner,
    name: &'static str,
    folder: Folder,
) -> Option<Entry<'static>>
    ensures { option_map child_of result ≡ Some (folder_child owner name.entry.now folder) }
{
    Some(Entry {
        name: name.as_bytes(),
        node: Node::Folder(owner, folder),
    })
}

// Of a row in a folder's list, for the CPU or event at this index.
fn item_entry(owner: Owner, index: u8, item: Item) -> Option<Entry<'static>>
    ensures { option_map child_of result ≡ Some (item_child owner index item) }
{
    match item {
        Item::Folder(folder) => folder_entry(owner, folder.name(), folder.of(index)),
        Item::File(file) => Some(Entry {
            name: file.name().as_bytes(),
            node: Node::File(owner, file.of(index)),
        }),
    }
}

// Of those that a folder always has.
pub(crate) fn fixed_entry(owner: Owner, folder: Folder, index: usize) -> Option<Entry<'static>>
    ensures { option_map child_of result ≡ slice_get (fixed_children owner folder) index }
{
    let item = folder.items(owner.is_top()).get(index)?;
    item_entry(owner, folder.index(), *item)
}

// The node of this name among those that a folder always has.
pub(crate) fn fixed_named(owner: Owner, folder: Folder, name: &[u8]) -> Option<Node>
    ensures { result ≡ node_named name.now (fixed_children owner folder) }
{
    for index in 0..MOST_FIXED {
        let Some(entry) = fixed_entry(owner, folder, index) else {
            return None;
        };
        if entry.name == name {
            return Some(entry.node);
        }
    }
    None
}
