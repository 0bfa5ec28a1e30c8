//! The open files, by their handles.

ghost use Rattle.std.specs.Prelude.{◌≡◌, ℕ, List, Option, Some, [], length, set, drop, true, false, is_none, unwrap_or, position, OnErr, OnOk, IfOk};
ghost use Rattle.std.specs.List.{list_any};
ghost use Rattle.std.specs.Option.{option_copied, option_map};
ghost use Rattle.trace_command.specs.FileNames.{bytes_now};
ghost use Rattle.mount_replies.specs.Served.{is_before_end};
ghost use Rattle.mount_replies.specs.Services.{OpenSeen, armed, drop_rest, file_at, free_handle, has_wakeup, is_read_out, text_at, wakeup_at, with_change, with_dry_read, with_file, with_poll, with_reading, with_records, with_stream, with_told_ready, with_write, without_file, without_wakeup};

use crate::open_file::OpenFile;
use crate::stream::Stream;
use std::alloc::{AllocError, Global};
use std::marker::Model;
use std::mem;
use trace_lex::Text;

/// The open files: for each handle its file, if it has one. Unless `may_wake`, no poll of one is to be told.
#[derive(Drop)]
pub struct OpenFiles {
    alloc: Global,
    slots: Vec<Option<OpenFile>>,
    may_wake: bool,
}

impl Model for OpenFiles {
    ghost use Rattle.std.specs.Prelude.{◌≡◌, false, List, Option};
    ghost use Rattle.std.specs.List.{list_any};
    ghost use Rattle.mount_replies.specs.Services.{OpenSeen, has_wakeup};

    ghost Value = { List (Option OpenSeen) };

    ghost view = { λ f. f.slots.items };

    ghost invariant = { λ f. f.may_wake ≡ false → list_any has_wakeup f.slots.items ≡ false };
}

// Whether a poll of the file is to be told.
fn has_wakeup(slot: &Option<OpenFile>) -> bool
    ensures { result ≡ has_wakeup slot.now }
{
    match slot {
        Some(file) => file.polls().wakeup.is_some(),
        None => false,
    }
}

// The first slot that has no file.
fn first_free(slots: &[Option<OpenFile>]) -> Option<usize>
    ensures { result ≡ position (λ (file : Option OpenSeen). is_none file) slots.now }
{
    slots.iter().position(|slot| !slot.is_some())
}

// Adds a file at a handle that is not in use, or is the next one.
fn add_at(
    slots: &mut Vec<Option<OpenFile>>,
    handle: usize,
    file: OpenFile,
) -> Result<(), AllocError>
    ensures ok { OnOk result (slots.new.items ≡ with_file handle file slots.old.items) }
    ensures err { OnErr result (slots.new.items ≡ slots.old.items) }
{
    if handle < slots.len() {
        slots[handle] = Some(file);
    } else {
        slots.push(Some(file))?;
    }
    Ok(())
}

// Takes the file of a handle out.
fn take_at(slots: &mut Vec<Option<OpenFile>>, handle: u64) -> Option<OpenFile>
    ensures value { result ≡ file_at handle slots.old.items }
    ensures after { slots.new.items ≡ without_file handle slots.old.items }
{
    let index = handle as usize;
    if index >= slots.len() {
        return None;
    }
    mem::replace(&mut slots[index], None)
}

// Puts a file in the place of the one of a handle.
fn put_at(slots: &mut Vec<Option<OpenFile>>, handle: u64, file: Option<OpenFile>)
    ensures { slots.new.items ≡ set slots.old.items handle file }
{
    let index = handle as usize;
    if index < slots.len() {
        slots[index] = file;
    }
}

// Whether a poll of some file is to be told.
fn any_has_wakeup(slots: &[Option<OpenFile>]) -> bool
    ensures { result ≡ list_any has_wakeup slots.now }
{
    slots.iter().any(|slot| has_wakeup(slot))
}

impl OpenFiles {
    /// None.
    pub fn new(alloc: Global) -> OpenFiles
        ensures { result ≡ [] }
    {
        OpenFiles {
            alloc,
            slots: Vec::new(alloc),
            may_wake: false,
        }
    }

    /// The open file of a handle.
    pub fn get(&self, handle: u64) -> Option<&OpenFile>
        ensures { option_copied result ≡ file_at handle self.now }
    {
        match self.slots.get(handle as usize) {
            Some(Some(file)) => Some(file),
            _ => None,
        }
    }

    /// How many handles there may be.
    pub fn count(&self) -> usize
        ensures { result ≡ length self.now }
    {
        self.slots.len()
    }

    /// Whether a poll of some file may have to be told.
    #[inline(always)]
    pub fn may_wake(&self) -> bool
        ensures { result ≡ false → list_any has_wakeup self.now ≡ false }
    {
        self.may_wake
    }

    /// The number by which a poll of a file is to be told that it is ready, if one is.
    pub fn wakeup(&self, handle: u64) -> Option<u64>
        ensures { result ≡ wakeup_at handle self.now }
    {
        match self.get(handle) {
            Some(file) => file.polls().wakeup,
            None => None,
        }
    }

    /// What the reads of a file give, if there is something.
    pub fn text(&self, handle: u64) -> Option<&[u8]>
        ensures { option_map bytes_now result ≡ text_at handle self.now }
    {
        match self.get(handle) {
            Some(file) => file.text(),
            None => None,
        }
    }

    /// Whether an offset is before the end of the text that was read to its end, or none was.
    pub fn is_before_end(&self, handle: u64, offset: u64) -> bool
        ensures { (file : OpenSeen) → file_at handle self.now ≡ Some file → result ≡ is_before_end offset file.ended }
    {
        match self.get(handle) {
            Some(file) => match file.ended() {
                Some(end) => offset < end,
                None => true,
            },
            None => true,
        }
    }

    /// What is left of the text that the reads of a file give.
    pub fn rest(&self, handle: u64) -> &[u8]
        ensures { result.now ≡ unwrap_or (text_at handle self.now) [] }
    {
        match self.text(handle) {
            Some(text) => text,
            None => &[],
        }
    }

    // The lowest handle that is not in use.
    fn free_handle(&self) -> usize
        ensures { result ≡ free_handle self.now }
    {
        first_free(&self.slots).unwrap_or(self.slots.len())
    }

    /// Gives a file that was just opened the lowest handle that is not in use.
    pub fn open(&mut self, file: OpenFile) -> Result<u64, AllocError>
        requires { file.polls.wakeup ≡ None }
        ensures handle { IfOk result (λ handle. handle ≡ free_handle self.old) }
        ensures ok { IfOk result (λ handle. self.new ≡ with_file handle file self.old) }
        ensures err { OnErr result (self.new ≡ self.old) }
    {
        let handle = self.free_handle();
        add_at(&mut self.slots, handle, file)?;
        Ok(handle as u64)
    }

    /// Takes back a file that was just opened with this handle, where there were so many handles before.
    pub fn take_back(&mut self, handle: u64, count: usize)
        ensures { (before : List (Option OpenSeen)) (file : OpenSeen) → count ≡ length before → handle ≡ free_handle before
            → self.old ≡ with_file handle file before → self.new ≡ before }
    {
        if (handle as usize) < count {
            self.put(handle, None);
        } else {
            drop(self.slots.pop());
        }
    }

    // Takes the file of a handle out.
    fn take(&mut self, handle: u64) -> Option<OpenFile>
        ensures value { result ≡ file_at handle self.old }
        ensures after { self.new ≡ without_file handle self.old }
    {
        take_at(&mut self.slots, handle)
    }

    // Puts a file back.
    fn put(&mut self, handle: u64, file: Option<OpenFile>)
        ensures { self.new ≡ set self.old handle file }
    {
        let wakes = has_wakeup(&file);
        put_at(&mut self.slots, handle, file);
        self.may_wake = self.may_wake || wakes;
    }

    /// Closes the file of a handle.
    pub fn close(&mut self, handle: u64) -> Option<OpenFile>
        ensures value { result ≡ file_at handle self.old }
        ensures after { self.new ≡ without_file handle self.old }
    {
        self.take(handle)
    }

    /// A read of so many bytes at an offset of this text was answered.
    pub fn note_reading(&mut self, handle: u64, offset: u64, size: u32, text: Text)
        ensures { self.new ≡ with_reading offset size text handle self.old }
    {
        let Some(file) = self.take(handle) else {
            return;
        };
        self.put(handle, Some(file.after_reading(offset, size, text)));
    }

    /// The text that the reads of the file give was read to its end.
    pub fn give_back(&mut self, handle: u64)
        ensures { (offset size : ℕ) (text : List ℕ) → text_at handle self.old ≡ Some text → is_read_out offset size text ≡ true
            → self.new ≡ with_reading offset size text handle self.old }
    {
        let Some(file) = self.take(handle) else {
            return;
        };
        self.put(handle, Some(file.without_text()));
    }

    /// Records were taken for a read of the file, whose text this is, and so many bytes of it were given.
    pub fn keep_records(&mut self, handle: u64, text: Text, given: usize)
        ensures { self.new ≡ with_records (drop given text) handle self.old }
    {
        let Some(file) = self.take(handle) else {
            return;
        };
        self.put(handle, Some(file.with_records(text, given)));
    }

    /// So many bytes more of the records' text were given, if there is one.
    pub fn give(&mut self, handle: u64, count: usize)
        ensures { self.new ≡ with_change (λ file. record file { text = option_map (drop count) file.text; has_read = true; polls = armed false file.polls }) handle self.old }
    {
        let Some(file) = self.take(handle) else {
            return;
        };
        self.put(handle, Some(file.after_giving(count)));
    }

    /// A read of the file found no record: it was told the end, or to come again.
    pub fn note_dry_read(&mut self, handle: u64, told_end: bool)
        ensures { self.new ≡ with_dry_read told_end handle self.old }
    {
        let Some(file) = self.take(handle) else {
            return;
        };
        self.put(handle, Some(file.after_dry_read(told_end)));
    }

    /// Whether a read of the file gave records.
    pub fn has_read(&self, handle: u64) -> bool
        ensures { (file : OpenSeen) → file_at handle self.now ≡ Some file → result ≡ file.has_read }
    {
        match self.get(handle) {
            Some(file) => file.has_read(),
            None => false,
        }
    }

    /// Whether a poll of the file was told since its last read that a read would not wait.
    pub fn was_told_ready(&self, handle: u64) -> bool
        ensures { (file : OpenSeen) → file_at handle self.now ≡ Some file → result ≡ file.polls.told_ready }
    {
        match self.get(handle) {
            Some(file) => file.polls().told_ready,
            None => false,
        }
    }

    /// A poll of the file asked to be told by this number; it waits for that, or not.
    pub fn keep_poll(&mut self, handle: u64, wakeup: u64, waits: bool)
        ensures { self.new ≡ with_poll wakeup waits handle self.old }
    {
        let Some(file) = self.take(handle) else {
            return;
        };
        let polls = file.polls().polled_by(wakeup, waits);
        self.put(handle, Some(file.with_polls(polls)));
    }

    /// A poll of the file was told whether a read would not wait.
    pub fn note_poll(&mut self, handle: u64, told_ready: bool)
        ensures { self.new ≡ with_told_ready told_ready handle self.old }
    {
        let Some(file) = self.take(handle) else {
            return;
        };
        let polls = file.polls().told(told_ready);
        self.put(handle, Some(file.with_polls(polls)));
    }

    /// A poll of the file was told.
    pub fn forget_wakeup(&mut self, handle: u64)
        ensures { self.new ≡ without_wakeup handle self.old }
    {
        let Some(file) = self.take(handle) else {
            return;
        };
        let polls = file.polls().without_wakeup();
        self.put(handle, Some(file.with_polls(polls)));
    }

    /// Takes out what is kept of the stream of the file.
    pub fn take_rest(&mut self, handle: u64) -> Text
        ensures value { (file : OpenSeen) → file_at handle self.old ≡ Some file → result ≡ file.stream.rest }
        ensures after { self.new ≡ drop_rest handle self.old }
    {
        let Some(mut file) = self.take(handle) else {
            return Text::new(self.alloc);
        };
        let rest = file.take_rest(self.alloc);
        self.put(handle, Some(file));
        rest
    }

    /// This was written to the stream of the file.
    pub fn keep_stream(&mut self, handle: u64, stream: Stream)
        ensures { self.new ≡ with_stream stream handle self.old }
    {
        let Some(file) = self.take(handle) else {
            return;
        };
        self.put(handle, Some(file.with_stream(stream)));
    }

    /// Looks whether a poll of some file is still to be told.
    pub fn look_for_wakeups(&mut self)
        ensures { self.new ≡ self.old }
    {
        self.may_wake = any_has_wakeup(&self.slots);
    }

    /// Something was written to the file.
    pub fn note_write(&mut self, handle: u64)
        ensures { self.new ≡ with_write handle self.old }
    {
        let Some(file) = self.take(handle) else {
            return;
        };
        self.put(handle, Some(file.after_write()));
    }
}
