//! An open file.

ghost use Rattle.std.specs.Prelude.{◌≡◌, ℕ, List, true, false, drop, length, Some, None};
ghost use Rattle.std.specs.Option.{option_map};
ghost use Rattle.trace_command.specs.FileNames.{bytes_now};
ghost use Rattle.mount_replies.specs.Pipes.{is_used_up};
ghost use Rattle.mount_replies.specs.Services.{after_reading, armed, is_read_out, just_opened, without_rest};

use crate::polls::Polls;
use crate::stream::Stream;
use crate::telling::MOST_DATA;
use mount_tree::{File, Owner};
use std::alloc::Global;
use std::marker::Model;
use trace_lex::Text;

/// An open file: whose it is and which, whether it was opened to be emptied and nothing was written yet, and the text that its reads give, of which
/// so many bytes were given and won't be again, or the length of one that was read to its end; of a pipe also whether a read gave records, and its polls;
/// of `inject` what was written.
pub struct OpenFile {
    owner: Owner,
    file: File,
    starts_over: bool,
    text: Option<Text>,
    given: usize,
    ended: Option<u64>,
    has_read: bool,
    polls: Polls,
    stream: Stream,
}

/// Whether a read of so many bytes at an offset comes to the end of a text.
pub(crate) fn is_read_out(offset: u64, size: u32, text: &[u8]) -> bool
    ensures { result ≡ is_read_out offset size text.now }
{
    text.len() as u64 <= offset || text.len() as u64 - offset <= u64::from(size.min(MOST_DATA))
}

impl Drop for OpenFile {
    // Not derived, so that where one is let go its text and its stream are not followed.
    fn drop(self) {
        let OpenFile {
            owner: _,
            file: _,
            starts_over: _,
            text: _,
            given: _,
            ended: _,
            has_read: _,
            polls: _,
            stream: _,
        } = self;
    }
}

impl Model for OpenFile {
    ghost use Rattle.std.specs.Prelude.{drop, ◌≤◌, length, unwrap_or, []};
    ghost use Rattle.std.specs.Option.{option_map};
    ghost use Rattle.mount_replies.specs.Services.{OpenSeen};

    ghost Value = { OpenSeen };

    ghost view = { λ f. record { owner = f.owner; file = f.file; starts_over = f.starts_over; text = option_map (drop f.given) f.text; ended = f.ended; has_read = f.has_read; polls = f.polls; stream = f.stream } };

    ghost invariant = { λ f. f.given ≤ length (unwrap_or f.text []) };
}

impl OpenFile {
    /// One that was just opened.
    pub fn new(alloc: Global, owner: Owner, file: File, starts_over: bool) -> OpenFile
        ensures { result ≡ just_opened owner file starts_over }
    {
        OpenFile {
            owner,
            file,
            starts_over,
            text: None,
            given: 0,
            ended: None,
            has_read: false,
            polls: Polls::new(),
            stream: Stream::new(alloc),
        }
    }

    /// Whose it is.
    pub fn owner(&self) -> Owner
        ensures { result ≡ self.now.owner }
    {
        self.owner
    }

    /// Which it is.
    pub fn file(&self) -> File
        ensures { result ≡ self.now.file }
    {
        self.file
    }

    /// Whether it was opened to be emptied, and nothing was written yet.
    pub fn starts_over(&self) -> bool
        ensures { result ≡ self.now.starts_over }
    {
        self.starts_over
    }

    /// What its reads give, if there is something.
    pub fn text(&self) -> Option<&[u8]>
        ensures { option_map bytes_now result ≡ self.now.text }
    {
        match &self.text {
            Some(text) => Some(&text.as_bytes()[self.given..]),
            None => None,
        }
    }

    /// Whether a read of it gave records.
    pub fn has_read(&self) -> bool
        ensures { result ≡ self.now.has_read }
    {
        self.has_read
    }

    /// Whether nothing is left for its reads of what was taken.
    pub fn is_used_up(&self) -> bool
        ensures { result ≡ is_used_up self.now }
    {
        match self.text() {
            Some(text) => text.is_empty(),
            None => true,
        }
    }

    /// How long the text was that was read to its end, if one was.
    pub fn ended(&self) -> Option<u64>
        ensures { result ≡ self.now.ended }
    {
        self.ended
    }

    /// Its polls.
    pub fn polls(&self) -> Polls
        ensures { result ≡ self.now.polls }
    {
        self.polls
    }

    /// What was written to it, if it is `inject`.
    pub fn stream(&self) -> &Stream
        ensures { result.now ≡ self.now.stream }
    {
        &self.stream
    }

    /// After a read of so many bytes at an offset of this text, which later reads go on in, unless that came to its end.
    pub fn after_reading(mut self, offset: u64, size: u32, text: Text) -> OpenFile
        ensures { result ≡ after_reading offset size text self }
    {
        self.given = 0;
        if is_read_out(offset, size, text.as_bytes()) {
            self.ended = Some(text.as_bytes().len() as u64);
            self.text = None;
        } else {
            self.ended = None;
            self.text = Some(text);
        }
        self
    }

    /// After its text was read to its end: only the length is kept.
    pub fn without_text(mut self) -> OpenFile
        ensures none { self.text ≡ None → result ≡ self }
        ensures some { (text : List ℕ) → self.text ≡ Some text → result ≡ record self { text = None; ended = Some (length text) } }
    {
        if let Some(text) = &self.text {
            self.ended = Some((text.as_bytes().len() - self.given) as u64);
            self.text = None;
            self.given = 0;
        }
        self
    }

    /// With records that were taken, of whose text so many bytes were given.
    pub fn with_records(mut self, text: Text, given: usize) -> OpenFile
        ensures { result ≡ record self { text = Some (drop given text); has_read = true; polls = armed false self.polls } }
    {
        self.given = given.min(text.as_bytes().len());
        self.text = Some(text);
        self.has_read = true;
        self.polls = self.polls.armed(false);
        self
    }

    /// Without the first bytes of its text, which a read gave.
    pub fn after_giving(mut self, count: usize) -> OpenFile
        ensures { result ≡ record self { text = option_map (drop count) self.text; has_read = true; polls = armed false self.polls } }
    {
        if let Some(text) = &self.text {
            self.given += count.min(text.as_bytes().len() - self.given);
        }
        self.has_read = true;
        self.polls = self.polls.armed(false);
        self
    }

    /// After a read that found no record: it was told the end, or to come again.
    pub fn after_dry_read(mut self, told_end: bool) -> OpenFile
        ensures { result ≡ record self { polls = armed told_end self.polls } }
    {
        self.polls = self.polls.armed(told_end);
        self
    }

    /// After something was written to it.
    pub fn after_write(mut self) -> OpenFile
        ensures { result ≡ record self { starts_over = false } }
    {
        self.starts_over = false;
        self
    }

    /// With other polls.
    pub fn with_polls(mut self, polls: Polls) -> OpenFile
        ensures { result ≡ record self { polls = polls } }
    {
        self.polls = polls;
        self
    }

    /// Takes out what is kept of its stream.
    pub fn take_rest(&mut self, alloc: Global) -> Text
        ensures value { result ≡ self.old.stream.rest }
        ensures after { self.new ≡ record self.old { stream = without_rest self.old.stream } }
    {
        self.stream.take_rest(alloc)
    }

    /// With another stream.
    pub fn with_stream(mut self, stream: Stream) -> OpenFile
        ensures { result ≡ record self { stream = stream } }
    {
        self.stream = stream;
        self
    }
}
