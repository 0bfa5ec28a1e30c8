//! Lists of folders.

ghost use Rattle.std.specs.Prelude.{◌≡◌, ◌+◌, ◌^◌, ◌<◌, ◌≤◌, ◌⊎◌, ℕ, [], length, true, false, vec_capacity, IfOk, OnOk};
ghost use Rattle.fuse_wire.specs.Replies.{reply_bytes};
ghost use Rattle.mount_tree.specs.FolderLists.{folder_list};
ghost use Rattle.mount_replies.specs.Mounted.{most_reply};
ghost use Rattle.mount_replies.specs.Services.{most_data};
ghost use Rattle.mount_replies.specs.Told.{dirent_of as listed_entry, listed_from, read_folder as read_folder_reply};
ghost use Rattle.mount_replies.specs.private.Pushed.{HasPushed};
ghost use Rattle.mount_tree.specs.FolderEntries.{child_of};

use crate::mount::Mount;
use crate::telling::{MOST_DATA, tell, tell_error};
use crate::told::kind_of_node;
use fuse_wire::{Bytes, DirectoryEntry, Errno, Reply};
use mount_tree::{Entry, Node};
use std::alloc::AllocError;

/// More entries than there is ever room for.
const MOST_LISTED: u64 = 131_073;

/// An entry as it is listed, with the offset at which the list goes on.
fn dirent_of<'a>(entry: &Entry<'a>, offset: u64) -> DirectoryEntry<'a>
    ensures { result ≡ listed_entry (child_of entry.now) offset }
{
    DirectoryEntry {
        node: entry.node.number(),
        offset,
        kind: kind_of_node(entry.node),
        name: Bytes::new(entry.name),
    }
}

impl Mount {
    // Appends an entry of a folder, if there is one and room for it. Whether it did.
    fn push_entry(
        &self,
        folder: Node,
        index: u64,
        size: u32,
        data: &mut Vec<u8>,
    ) -> Result<bool, AllocError>
        requires { index < 2 ^ 33 }
        ensures ended { IfOk result (λ pushed. pushed ≡ false → (data.new.items ≡ data.old.items)
            × ((room : ℕ) → length data.old.items + room ≡ size → listed_from room index (folder_list self.now.scene folder) ≡ [])) }
        ensures more { IfOk result (λ pushed. pushed ≡ true → HasPushed data.old.items data.new.items size index (folder_list self.now.scene folder)) }
    {
        let Some(entry) = self.scene.entry(folder, index as usize) else {
            return Ok(false);
        };
        dirent_of(&entry, index + 1).push(size, data)
    }

    // Appends the entries of a folder from the one at this index on, as far as there is room.
    fn push_entries(
        &self,
        folder: Node,
        first: u64,
        size: u32,
        data: &mut Vec<u8>,
    ) -> Result<(), AllocError>
        requires first { first ≤ 2 ^ 32 }
        requires size { size ≤ most_data }
        requires empty { data.old.items ≡ [] }
        ensures entries { OnOk result (data.new.items ≡ listed_from size first (folder_list self.now.scene folder)) }
        ensures few { OnOk result (length data.new.items ≤ size) }
    {
        for count in 0..MOST_LISTED {
            let pushed = self.push_entry(folder, first + count, size, data)?;
            if !pushed {
                return Ok(());
            }
        }
        Ok(())
    }

    /// READDIR: the entries of a folder from the one at this index on.
    pub(crate) fn read_folder(
        &self,
        unique: u64,
        folder: Option<Node>,
        offset: u64,
        size: u32,
        out: &mut Vec<u8>,
    )
        requires room { most_reply ≤ vec_capacity out.old }
        ensures bytes { (out.new.items ≡ reply_bytes unique (read_folder_reply self.now.scene folder offset size))
            ⊎ (out.new.items ≡ reply_bytes unique (Reply.Error Errno.ENOMEM)) }
        ensures capacity { vec_capacity out.old ≤ vec_capacity out.new }
    {
        let Some(folder) = self.known(folder) else {
            return tell_error(unique, Errno::ENOENT, out);
        };
        let mut data = Vec::new(self.alloc);
        match self.push_entries(folder, offset.min(1 << 32), size.min(MOST_DATA), &mut data) {
            Ok(()) => tell(unique, &Reply::Data(Bytes::new(&data)), out),
            Err(_) => tell_error(unique, Errno::ENOMEM, out),
        }
    }
}
