//! A write that was refused.

ghost use Rattle.std.specs.Prelude.{◌≡◌, ◌++◌, IfOk, codes};
ghost use Rattle.trace_command.specs.Paths as paths;
ghost use Rattle.error_log.specs.Errors as errors;
ghost use Rattle.error_log.specs.Logs as logs;

use crate::blame::{MOST_BYTES, caret_of, column_at, line_at, window};
use mount_tree::Owner;
use std::alloc::{AllocError, Global};
use std::marker::Model;
use trace_command::{EventFile, FileName, TopFile, address_of};
use trace_lex::Text;

/// A write that was refused: whose file was written, when, what the file is called, what is kept of the line to blame, for which there is room from the
/// beginning, one sentence of what is wrong, and where in what is kept the byte is that is to blame.
#[derive(Drop)]
pub struct NotedError {
    owner: Owner,
    time: u64,
    name: Text,
    written: Vec<u8>,
    sentence: &'static str,
    at: usize,
}

impl Model for NotedError {
    ghost use Rattle.std.specs.Prelude.{◌≤◌, vec_capacity};
    ghost use Rattle.error_log.specs.Errors.{ErrorSeen};

    ghost Value = { ErrorSeen };

    ghost view = { λ e. record { owner = e.owner; time = e.time; name = e.name; written = e.written.items; sentence = e.sentence.now; at = e.at } };

    ghost invariant = { λ e. 256 ≤ vec_capacity e.written };
}

/// The name of a trigger file.
fn trigger_name(alloc: Global, event: &[u8]) -> Result<Text, AllocError>
    ensures { IfOk result (λ name. name ≡ codes "hist:synthetic:" ++ event.now) }
{
    let mut name = Vec::from_slice(alloc, b"hist:synthetic:".as_slice())?;
    name.extend_from_slice(event)?;
    Ok(Text::from(name))
}

/// What the file of a path is called.
fn name_at(alloc: Global, path: &[u8]) -> Result<Text, AllocError>
    ensures { IfOk result (λ name. name ≡ errors.name_at path.now) }
{
    match address_of(path).file {
        Some(FileName::OfEvent(event, EventFile::Trigger)) => trigger_name(alloc, event),
        Some(FileName::OfEvent(_, EventFile::Filter))
        | Some(FileName::OfInstance(TopFile::EventsFilter)) => {
            Text::from_slice(alloc, b"event filter parse error".as_slice())
        }
        _ => Text::from_slice(alloc, path),
    }
}

/// Whether two instances are one.
fn is_same(one: Owner, other: Owner) -> bool
    ensures { result ≡ logs.is_same one other }
{
    match (one, other) {
        (Owner::Top, Owner::Top) => true,
        (Owner::Made(one), Owner::Made(other)) => one == other,
        _ => false,
    }
}

impl NotedError {
    /// A write to the file of this path of an instance, of whose refusal nothing is said yet.
    pub(crate) fn begin(
        alloc: Global,
        owner: Owner,
        time: u64,
        path: &[u8],
    ) -> Result<NotedError, AllocError>
        ensures { IfOk result (λ error. error ≡ errors.begun owner time path.now) }
    {
        let name = name_at(alloc, path)?;
        let written = Vec::with_capacity(alloc, MOST_BYTES)?;
        Ok(NotedError {
            owner,
            time,
            name,
            written,
            sentence: "",
            at: 0,
        })
    }

    /// It was one of this text, and was refused: this is wrong, at this offset.
    pub(crate) fn refuse(&mut self, text: &[u8], sentence: &'static str, offset: usize)
        ensures { self.new ≡ errors.refused self.old text.now sentence.now offset }
    {
        let column = column_at(text, offset);
        let kept = window(line_at(text, offset), column);
        self.written.clear();
        self.written.extend_from_slice(kept).unwrap();
        self.sentence = sentence;
        self.at = caret_of(column);
    }

    /// Whether it is this instance's.
    pub(crate) fn is_of(&self, owner: Owner) -> bool
        ensures { result ≡ logs.is_of owner self.now }
    {
        is_same(owner, self.owner)
    }

    /// Whose it is.
    pub(crate) fn owner(&self) -> Owner
        ensures { result ≡ self.now.owner }
    {
        self.owner
    }

    /// When it was.
    pub(crate) fn time(&self) -> u64
        ensures { result ≡ self.now.time }
    {
        self.time
    }

    /// What the file is called.
    pub(crate) fn name(&self) -> &[u8]
        ensures { result.now ≡ self.now.name }
    {
        self.name.as_bytes()
    }

    /// What is kept of the line to blame.
    pub(crate) fn written(&self) -> &[u8]
        ensures { result.now ≡ self.now.written }
    {
        self.written.as_slice()
    }

    /// What is wrong.
    pub(crate) fn sentence(&self) -> &'static str
        ensures { result.now ≡ self.now.sentence }
    {
        self.sentence
    }

    /// Where in that the byte is that is to blame.
    pub(crate) fn at(&self) -> usize
        ensures { result ≡ self.now.at }
    {
        self.at
    }
}
