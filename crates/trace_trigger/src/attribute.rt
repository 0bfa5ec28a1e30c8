//! The attributes of a hist trigger: what stands between the `:` of its first word.

ghost use Rattle.std.specs.Prelude.{◌≡◌, ◌≤◌, ◌<◌, ◌+◌, ◌^◌, IfOk, length, map};
ghost use Rattle.std.specs.List.{All};
ghost use Rattle.trace_trigger.specs.HistAttributes as attributes;

use crate::parts::is_word;
use crate::piece::{ListItem, cut_at};
use crate::spec::Action;
use std::alloc::{AllocError, Global};
use trace_format::Text;
use trace_lex::{len_before, rest_of};

/// What an attribute is about.
#[derive(Clone, Copy, PartialEq, Eq)]
pub(crate) enum Topic {
    Keys,
    Values,
    Sort,
    Size,
    /// The name of the table.
    Name,
    /// What is asked for.
    Asked(Action),
    /// No attribute begins so.
    Unknown,
}

/// An attribute: its offset, what it is about, how many bytes come before its value, and the value.
#[derive(Drop)]
pub(crate) struct Attribute {
    pub(crate) at: usize,
    pub(crate) topic: Topic,
    pub(crate) skip: usize,
    pub(crate) value: Text,
}

/// How many bytes there are up to the first `=`, that one too; all, if there is none.
fn head_len(written: &[u8]) -> usize
    ensures value { result ≡ attributes.head_len written.now }
    ensures bound { result ≤ length written.now }
{
    let len = len_before(b'=', written);
    if len < written.len() { len + 1 } else { len }
}

/// What is asked for by an attribute that has no value.
fn asked_by(head: &[u8]) -> Topic
    ensures { result ≡ attributes.asked_by head.now }
{
    if is_word(head, b"pause") {
        Topic::Asked(Action::Pause)
    } else if is_word(head, b"continue") || is_word(head, b"cont") {
        Topic::Asked(Action::Continue)
    } else if is_word(head, b"clear") {
        Topic::Asked(Action::Clear)
    } else {
        Topic::Unknown
    }
}

fn is_values(head: &[u8]) -> bool
    ensures { result ≡ attributes.is_values head.now }
{
    is_word(head, b"values=") || is_word(head, b"vals=") || is_word(head, b"val=")
}

/// What an attribute with this head is about.
fn topic_of(head: &[u8]) -> Topic
    ensures { result ≡ attributes.topic_of head.now }
{
    if is_word(head, b"keys=") || is_word(head, b"key=") {
        Topic::Keys
    } else if is_values(head) {
        Topic::Values
    } else if is_word(head, b"sort=") {
        Topic::Sort
    } else if is_word(head, b"size=") {
        Topic::Size
    } else if is_word(head, b"name=") {
        Topic::Name
    } else {
        asked_by(head)
    }
}

fn attribute_of(alloc: Global, piece: &ListItem) -> Result<Attribute, AllocError>
    ensures { IfOk result (λ attribute. attribute ≡ attributes.attribute_of piece.now) }
{
    let written = piece.bytes.as_bytes();
    let skip = head_len(written);
    Ok(Attribute {
        at: piece.at,
        topic: topic_of(&written[..skip]),
        skip,
        value: Text::from_slice(alloc, rest_of(written, skip))?,
    })
}

/// The attributes that pieces are.
fn attributes_of(alloc: Global, pieces: &[ListItem]) -> Result<Vec<Attribute>, AllocError>
    ensures { IfOk result (λ found. found.items ≡ map attributes.attribute_of pieces.now) }
{
    let mut found = Vec::with_capacity(alloc, pieces.len())?;
    for piece in pieces {
        found.push_reserved(attribute_of(alloc, piece)?);
    }
    Ok(found)
}

/// The attributes of a string that begins at an offset.
#[tactic(auto, using(crate::proofs::Located::found_located))]
pub(crate) fn attributes_at(
    alloc: Global,
    at: usize,
    text: &[u8],
) -> Result<Vec<Attribute>, AllocError>
    requires { at + length text.now < 2 ^ 64 }
    ensures value { IfOk result (λ found. found.items ≡ attributes.attributes_at at text.now) }
    ensures located { IfOk result (λ found. All attributes.IsLocated found.items) }
{
    let pieces = cut_at(alloc, b':', at, text)?;
    attributes_of(alloc, &pieces)
}
