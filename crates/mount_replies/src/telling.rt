//! Replies, lists and parts of texts as bytes.

ghost use Rattle.std.specs.Prelude.{◌≡◌, ◌+◌, ◌≤◌, [], ◌++◌, length, min, drop, vec_capacity, OnOk};
ghost use Rattle.fuse_wire.specs.Replies.{reply_bytes, reply_size, wakeup_bytes, IsSendable};
ghost use Rattle.mount_replies.specs.Mounted.{most_reply, wrong_reply};
ghost use Rattle.mount_replies.specs.Served.{part_of as part_of_text};
ghost use Rattle.mount_replies.specs.Services.{most_data};
ghost use Rattle.mount_replies.specs.private.ShortReplies.{IsShort};

use fuse_wire::{Bytes, DirectoryEntry, Errno, Reply, encode, encode_wakeup, has_reply};
use mount_tree::Node;
use std::alloc::AllocError;

/// The most bytes that are told of a file or a folder at once.
pub const MOST_DATA: u32 = 131_072;

/// Makes the bytes of a reply. There is room for them.
pub(crate) fn tell(unique: u64, reply: &Reply<'_>, out: &mut Vec<u8>)
    requires sendable { IsSendable reply.now }
    requires room { reply_size reply.now ≤ vec_capacity out.old }
    ensures bytes { out.new.items ≡ reply_bytes unique reply.now }
    ensures capacity { vec_capacity out.old ≤ vec_capacity out.new }
{
    match encode(unique, reply, out) {
        Ok(()) => {}
        Err(_) => unreachable!(),
    }
}

/// The part of a text that a read gives.
pub(crate) fn part_of(text: &[u8], offset: u64, size: u32) -> &[u8]
    ensures part { result.now ≡ part_of_text offset size text.now }
    ensures few { length result.now ≤ most_data }
{
    let from = text.len().min(offset as usize);
    let rest = &text[from..];
    &rest[..rest.len().min(size.min(MOST_DATA) as usize)]
}

/// Tells the part of a text that a read gives.
pub(crate) fn tell_part(unique: u64, text: &[u8], offset: u64, size: u32, out: &mut Vec<u8>)
    requires room { most_reply ≤ vec_capacity out.old }
    ensures bytes { out.new.items ≡ reply_bytes unique (Reply.Data (part_of_text offset size text.now)) }
    ensures capacity { vec_capacity out.old ≤ vec_capacity out.new }
{
    let part = part_of(text, offset, size);
    tell(unique, &Reply::Data(Bytes::new(part)), out);
}

/// Tells an error.
pub(crate) fn tell_error(unique: u64, errno: Errno, out: &mut Vec<u8>)
    requires room { most_reply ≤ vec_capacity out.old }
    ensures bytes { out.new.items ≡ reply_bytes unique (Reply.Error errno) }
    ensures capacity { vec_capacity out.old ≤ vec_capacity out.new }
{
    tell(unique, &Reply::Error(errno), out);
}

/// Tells that a request's body is wrong, where its opcode has a reply.
pub(crate) fn tell_wrong(opcode: u32, unique: u64, out: &mut Vec<u8>)
    requires room { most_reply ≤ vec_capacity out.old }
    requires empty { out.old.items ≡ [] }
    ensures bytes { out.new.items ≡ wrong_reply opcode unique }
    ensures capacity { vec_capacity out.old ≤ vec_capacity out.new }
{
    if has_reply(opcode) {
        tell_error(unique, Errno::EINVAL, out);
    }
}

/// Tells a reply that gives no part of a file or a folder.
pub(crate) fn tell_short(unique: u64, reply: &Reply<'_>, out: &mut Vec<u8>)
    requires room { most_reply ≤ vec_capacity out.old }
    requires short { IsShort reply.now }
    ensures bytes { out.new.items ≡ reply_bytes unique reply.now }
    ensures capacity { vec_capacity out.old ≤ vec_capacity out.new }
{
    tell(unique, reply, out);
}

/// Tells the poll whose number this is that its file is ready.
pub(crate) fn tell_wakeup(wakeup: u64, out: &mut Vec<u8>)
    requires room { most_reply ≤ vec_capacity out.old }
    ensures bytes { out.new.items ≡ wakeup_bytes wakeup }
    ensures capacity { vec_capacity out.old ≤ vec_capacity out.new }
{
    match encode_wakeup(wakeup, out) {
        Ok(()) => {}
        Err(_) => unreachable!(),
    }
}
