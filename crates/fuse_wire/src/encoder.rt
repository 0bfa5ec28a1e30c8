//! Replies as bytes.

ghost use Rattle.std.specs.Prelude.{vec_len, vec_capacity, ◌≡◌, ◌+◌, ◌*◌, ◌<◌, ◌≤◌, ◌^◌, [], ◌++◌, length, OnOk, OnErr};
ghost use Rattle.std.specs.List.{flat_map};
ghost use Rattle.fuse_wire.specs.Parts.{bytes_of};
ghost use Rattle.fuse_wire.specs.Replies.{attr, init_out, out_header, message, reply_bytes, reply_size, wakeup_bytes, IsSendable};

use crate::attributes::Attributes;
use crate::reply::{Agreement, Reply};
use crate::words::{Word, pair, triple, word};
use std::alloc::AllocError;

/// How many bytes a reply's header takes.
const HEADER_SIZE: u32 = 16;

/// What a wakeup has in place of an error.
const WAKEUP: u32 = 1;

/// The attributes of a node.
fn attribute_words(attributes: &Attributes) -> [Word; 11]
    ensures { flat_map (λ word. word) result ≡ bytes_of (attr attributes.now) }
{
    [
        word(attributes.node),
        word(attributes.size),
        word(0),
        word(0),
        word(0),
        word(0),
        pair(0, 0),
        pair(0, attributes.mode()),
        pair(attributes.links, attributes.uid),
        pair(attributes.gid, 0),
        pair(attributes.block_size, 0),
    ]
}

/// What a server agrees to.
fn agreement_words(agreement: &Agreement) -> [Word; 8]
    ensures { flat_map (λ word. word) result ≡ bytes_of (init_out agreement.now) }
{
    [
        pair(agreement.major, agreement.minor),
        pair(agreement.max_readahead, agreement.flags),
        triple(
            agreement.max_background,
            agreement.congestion_threshold,
            agreement.max_write,
        ),
        pair(0, 0),
        pair(0, 0),
        pair(0, 0),
        pair(0, 0),
        pair(0, 0),
    ]
}

/// Appends a header for a body of so many bytes.
#[inline(always)]
fn push_header(out: &mut Vec<u8>, size: u32, error: u32, unique: u64) -> Result<(), AllocError>
    requires { 16 + size < 2 ^ 32 }
    ensures ok { OnOk result (out.new.items ≡ out.old.items ++ bytes_of (out_header (16 + size) error unique)) }
    ensures len { OnOk result (vec_len out.new ≡ vec_len out.old + 16) }
    ensures full { OnErr result (vec_capacity out.old < vec_len out.old + 16) }
    ensures capacity { vec_capacity out.old ≤ vec_capacity out.new }
{
    let words = [pair(HEADER_SIZE + size, error), word(unique)];
    out.extend_from_slice(words.as_flattened())
}

/// Appends a header and a body.
#[inline(always)]
fn push_message(out: &mut Vec<u8>, error: u32, unique: u64, body: &[u8]) -> Result<(), AllocError>
    requires { 16 + length body.now < 2 ^ 32 }
    ensures ok { OnOk result (out.new.items ≡ out.old.items ++ message error unique body.now) }
    ensures len { OnOk result (vec_len out.new ≡ vec_len out.old + (16 + length body.now)) }
    ensures full { OnErr result (vec_capacity out.old < vec_len out.old + (16 + length body.now)) }
    ensures capacity { vec_capacity out.old ≤ vec_capacity out.new }
{
    push_header(out, body.len() as u32, error, unique)?;
    out.extend_from_slice(body)
}

/// Appends a header and a body of words.
#[inline(always)]
fn push_words(out: &mut Vec<u8>, unique: u64, words: &[Word]) -> Result<(), AllocError>
    requires { length words.now < 2 ^ 16 }
    ensures ok { OnOk result (out.new.items ≡ out.old.items ++ message 0 unique (flat_map (λ word. word) words.now)) }
    ensures len { OnOk result (vec_len out.new ≡ vec_len out.old + (16 + 8 * length words.now)) }
    ensures full { OnErr result (vec_capacity out.old < vec_len out.old + (16 + 8 * length words.now)) }
    ensures capacity { vec_capacity out.old ≤ vec_capacity out.new }
{
    push_message(out, 0, unique, words.as_flattened())
}

/// Appends a header and a body of one word, by one move.
#[inline(always)]
fn push_word(out: &mut Vec<u8>, unique: u64, body: Word) -> Result<(), AllocError>
    ensures ok { OnOk result (out.new.items ≡ out.old.items ++ message 0 unique body) }
    ensures len { OnOk result (vec_len out.new ≡ vec_len out.old + 24) }
    ensures full { OnErr result (vec_capacity out.old < vec_len out.old + 24) }
    ensures capacity { vec_capacity out.old ≤ vec_capacity out.new }
{
    let words = [pair(HEADER_SIZE + 8, 0), word(unique), body];
    out.extend_from_slice(words.as_flattened())
}

/// Appends a header and a body: words, and the attributes of a node.
fn push_node(
    out: &mut Vec<u8>,
    unique: u64,
    words: &[Word],
    attributes: &Attributes,
) -> Result<(), AllocError>
    requires { length words.now < 2 ^ 16 }
    ensures ok { OnOk result (out.new.items
        ≡ out.old.items ++ message 0 unique (flat_map (λ word. word) words.now ++ bytes_of (attr attributes.now))) }
    ensures len { OnOk result (vec_len out.new ≡ vec_len out.old + (104 + 8 * length words.now)) }
    ensures full { OnErr result (vec_capacity out.old < vec_len out.old + (104 + 8 * length words.now)) }
    ensures capacity { vec_capacity out.old ≤ vec_capacity out.new }
{
    let first = words.as_flattened();
    let last = attribute_words(attributes);
    push_header(out, (first.len() + 88) as u32, 0, unique)?;
    out.extend_from_slice(first)?;
    out.extend_from_slice(last.as_flattened())
}

fn push_entry(
    out: &mut Vec<u8>,
    unique: u64,
    node: u64,
    attributes: &Attributes,
) -> Result<(), AllocError>
    ensures ok { OnOk result (out.new.items ≡ out.old.items ++ reply_bytes unique (Reply.Entry node attributes.now)) }
    ensures len { OnOk result (vec_len out.new ≡ vec_len out.old + 144) }
    ensures full { OnErr result (vec_capacity out.old < vec_len out.old + 144) }
    ensures capacity { vec_capacity out.old ≤ vec_capacity out.new }
{
    let words = [word(node), word(0), word(0), word(0), pair(0, 0)];
    push_node(out, unique, &words, attributes)
}

fn push_attributes(
    out: &mut Vec<u8>,
    unique: u64,
    attributes: &Attributes,
) -> Result<(), AllocError>
    ensures ok { OnOk result (out.new.items ≡ out.old.items ++ reply_bytes unique (Reply.Attributes attributes.now)) }
    ensures len { OnOk result (vec_len out.new ≡ vec_len out.old + 120) }
    ensures full { OnErr result (vec_capacity out.old < vec_len out.old + 120) }
    ensures capacity { vec_capacity out.old ≤ vec_capacity out.new }
{
    push_node(out, unique, &[word(0), pair(0, 0)], attributes)
}

fn push_stat_fs(
    out: &mut Vec<u8>,
    unique: u64,
    block_size: u32,
    name_length: u32,
) -> Result<(), AllocError>
    ensures ok { OnOk result (out.new.items ≡ out.old.items ++ reply_bytes unique (Reply.StatFs block_size name_length)) }
    ensures len { OnOk result (vec_len out.new ≡ vec_len out.old + 96) }
    ensures full { OnErr result (vec_capacity out.old < vec_len out.old + 96) }
    ensures capacity { vec_capacity out.old ≤ vec_capacity out.new }
{
    let words = [
        word(0),
        word(0),
        word(0),
        word(0),
        word(0),
        pair(block_size, name_length),
        pair(block_size, 0),
        pair(0, 0),
        pair(0, 0),
        pair(0, 0),
    ];
    push_words(out, unique, &words)
}

/// Appends the bytes of a reply.
#[inline(always)]
fn push_reply(unique: u64, reply: &Reply<'_>, out: &mut Vec<u8>) -> Result<(), AllocError>
    requires { IsSendable reply.now }
    ensures ok { OnOk result (out.new.items ≡ out.old.items ++ reply_bytes unique reply.now) }
    ensures len { OnOk result (vec_len out.new ≡ vec_len out.old + reply_size reply.now) }
    ensures full { OnErr result (vec_capacity out.old < vec_len out.old + reply_size reply.now) }
    ensures capacity { vec_capacity out.old ≤ vec_capacity out.new }
{
    match reply {
        Reply::Error(errno) => push_message(out, errno.negated(), unique, &[]),
        Reply::Done => push_message(out, 0, unique, &[]),
        Reply::Init(agreement) => push_words(out, unique, &agreement_words(agreement)),
        Reply::Entry { node, attributes } => push_entry(out, unique, *node, attributes),
        Reply::Attributes(attributes) => push_attributes(out, unique, attributes),
        Reply::Opened { handle, flags } => {
            push_words(out, unique, &[word(*handle), pair(*flags, 0)])
        }
        Reply::Data(bytes) => push_message(out, 0, unique, bytes.as_slice()),
        Reply::Written { size } => push_word(out, unique, pair(*size, 0)),
        Reply::StatFs {
            block_size,
            name_length,
        } => push_stat_fs(out, unique, *block_size, *name_length),
        Reply::Poll { events } => push_word(out, unique, pair(*events, 0)),
    }
}

/// Empties `out` and writes the reply to the request of this number into it. If memory is refused, `out` is empty.
pub fn encode(unique: u64, reply: &Reply<'_>, out: &mut Vec<u8>) -> Result<(), AllocError>
    requires { IsSendable reply.now }
    ensures ok { OnOk result (out.new.items ≡ reply_bytes unique reply.now) }
    ensures err { OnErr result (out.new.items ≡ []) }
    // It fails only where room was missing, and no room is given up.
    ensures full { OnErr result (vec_capacity out.old < reply_size reply.now) }
    ensures capacity { vec_capacity out.old ≤ vec_capacity out.new }
{
    out.clear();
    let pushed = push_reply(unique, reply, out);
    if pushed.is_err() {
        out.clear();
    }
    pushed
}

/// Empties `out` and writes the message into it that a polled file may be ready: of the poll whose request has this number as `wakeup`. No reply
/// comes to it. If memory is refused, `out` is empty.
pub fn encode_wakeup(wakeup: u64, out: &mut Vec<u8>) -> Result<(), AllocError>
    ensures ok { OnOk result (out.new.items ≡ wakeup_bytes wakeup) }
    ensures err { OnErr result (out.new.items ≡ []) }
    // It fails only where room was missing, and no room is given up.
    ensures full { OnErr result (vec_capacity out.old < 24) }
    ensures capacity { vec_capacity out.old ≤ vec_capacity out.new }
{
    out.clear();
    let pushed = push_message(out, WAKEUP, 0, [word(wakeup)].as_flattened());
    if pushed.is_err() {
        out.clear();
    }
    pushed
}
