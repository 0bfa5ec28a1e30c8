//! Reads of open files.

ghost use Rattle.std.specs.Prelude.{◌≡◌, ◌≤◌, ℕ, [], List, Some, true, vec_capacity};
ghost use Rattle.fuse_wire.specs.Replies.{reply_bytes};
ghost use Rattle.fuse_wire.specs.declared.reply.Reply.TheVariants as replies;
ghost use Rattle.trace_command.specs.Requests.{Request};
ghost use Rattle.file_list.specs.FileKinds.{kind_of_file};
ghost use Rattle.mount_tree.specs.Children.{is_there};
ghost use Rattle.mount_tree.specs.declared.node.Node.TheVariants as nodes;
ghost use Rattle.error_log.specs.Logs.{log_text};
ghost use Rattle.mount_stub_files.specs.ToolTexts.{tool_text};
ghost use Rattle.mount_replies.specs.Mounted.{HasLedTo, IsTold, TellsBy, most_reply, service_of, terms_of};
ghost use Rattle.mount_replies.specs.Served.{given_records, given_tool, is_cached as of_page_cache, is_nonblocking as nonblocking, part_of, read_anew as anew, read_dry as dry_step, read_file, read_pipe as pipe_step, read_records as taking, records_for as records};
ghost use Rattle.mount_replies.specs.Services.{OpenSeen, file_at, text_at, with_reading};
ghost use Rattle.mount_replies.specs.Sizes.{text_in as text_of};
ghost use Rattle.mount_replies.specs.Steps.{Parks, Plain};
ghost use Rattle.mount_replies.specs.private.TextReads.{cached_read, text_made, text_read};

use crate::errno::errno_of_refused;
use crate::mount::Mount;
use crate::open_file::is_read_out;
use crate::parked::{Parked, add};
use crate::telling::{MOST_DATA, tell_error, tell_part};
use fuse_wire::Errno;
use fuse_wire::headers::{FUSE_READ_LOCKOWNER, O_NONBLOCK};
use mount_tree::{File, FileKind, Node, Owner};
use std::alloc::Global;
use trace_command::Reply as Answer;
use trace_lex::Text;

/// The most bytes of a line of a pipe, with a line of lost records before it.
const MOST_LINE: u32 = 2048;

/// How many records are taken for a read of so many bytes.
fn records_for(size: u32) -> u64
    ensures { result ≡ records size }
{
    u64::from((size.min(MOST_DATA) / MOST_LINE).max(1))
}

/// The text of an answer.
fn text_in(alloc: Global, answer: Answer) -> Text
    ensures { result ≡ text_of answer }
{
    match answer {
        Answer::Text(text) => text,
        Answer::Done => Text::new(alloc),
    }
}

/// Whether a read may not wait.
pub(crate) fn is_nonblocking(flags: u32) -> bool
    ensures { result ≡ nonblocking flags }
{
    flags / O_NONBLOCK % 2 == 1
}

/// Whether a READ with these flags is the page cache's.
pub(crate) fn is_cached(read_flags: u32) -> bool
    ensures { result ≡ of_page_cache read_flags }
{
    read_flags / FUSE_READ_LOCKOWNER % 2 != 1
}

impl Mount {
    /// READ, or a read that was parked. `cached`: it is the page cache's.
    pub(crate) fn read(
        &mut self,
        read: Parked,
        offset: u64,
        cached: bool,
        flags: u32,
        out: &mut Vec<u8>,
    )
        requires room { most_reply ≤ vec_capacity out.old }
        requires empty { out.old.items ≡ [] }
        ensures told { (past : List Request) → HasLedTo past self.old → IsTold past self.old self.new
            (read_file (terms_of self.old) (service_of past self.old) read offset cached flags (file_at read.handle self.old.files)) read.unique out.new.items }
        ensures capacity { vec_capacity out.old ≤ vec_capacity out.new }
    {
        let Some(open_file) = self.files.get(read.handle) else {
            return tell_error(read.unique, Errno::EBADF, out);
        };
        let owner = open_file.owner();
        let file = open_file.file();
        if !self.scene.exists(Node::File(owner, file)) {
            return tell_error(read.unique, Errno::ENOENT, out);
        }
        match file.kind() {
            FileKind::Pipe if cached => tell_error(read.unique, Errno::EINVAL, out),
            FileKind::Pipe => {
                let has_read = open_file.has_read();
                self.read_pipe(read, flags, owner, file, has_read, out);
            }
            FileKind::RawPipe => self.read_raw(read, cached, flags, owner, file.index(), out),
            FileKind::Inject => tell_error(read.unique, Errno::EACCES, out),
            _ if cached => self.read_cached(read, owner, file, offset, out),
            _ => self.read_text(read, owner, file, offset, out),
        }
    }

    // READ by the page cache of a file that is no pipe: of the text that was counted, if there is one.
    fn read_cached(
        &mut self,
        read: Parked,
        owner: Owner,
        file: File,
        offset: u64,
        out: &mut Vec<u8>,
    )
        requires there { is_there self.old.scene (nodes.File owner file) ≡ true }
        requires room { most_reply ≤ vec_capacity out.old }
        ensures told { (past : List Request) (own : OpenSeen) → HasLedTo past self.old → file_at read.handle self.old.files ≡ Some own
            → own.owner ≡ owner → own.file ≡ file → IsTold past self.old self.new
            (cached_read (terms_of self.old) (service_of past self.old) self.old.scene read offset own) read.unique out.new.items }
        ensures capacity { vec_capacity out.old ≤ vec_capacity out.new }
    {
        if offset != 0 {
            return self.read_text(read, owner, file, offset, out);
        }
        match self.counted.text(Node::File(owner, file).number()) {
            Some(text) => match text.clone() {
                Ok(text) => self.give_text(read, text, 0, out),
                Err(_) => tell_error(read.unique, Errno::ENOMEM, out),
            },
            None => self.read_text(read, owner, file, offset, out),
        }
    }

    // READ of a file that is no pipe: it goes on in the text that an earlier read made, or makes it.
    fn read_text(&mut self, read: Parked, owner: Owner, file: File, offset: u64, out: &mut Vec<u8>)
        requires there { is_there self.old.scene (nodes.File owner file) ≡ true }
        requires room { most_reply ≤ vec_capacity out.old }
        ensures told { (past : List Request) (own : OpenSeen) → HasLedTo past self.old → file_at read.handle self.old.files ≡ Some own
            → own.owner ≡ owner → own.file ≡ file → IsTold past self.old self.new
            (text_read (terms_of self.old) (service_of past self.old) self.old.scene read offset own) read.unique out.new.items }
        ensures capacity { vec_capacity out.old ≤ vec_capacity out.new }
    {
        if offset != 0 {
            if let Some(text) = self.files.text(read.handle) {
                let is_read_out = is_read_out(offset, read.size, text);
                tell_part(read.unique, text, offset, read.size, out);
                if is_read_out {
                    self.files.give_back(read.handle);
                }
                return;
            }
            if !self.files.is_before_end(read.handle, offset) {
                return tell_part(read.unique, &[], offset, read.size, out);
            }
        }
        self.make_text(read, owner, file, offset, out);
    }

    // Makes the text of a file that is no pipe.
    fn make_text(&mut self, read: Parked, owner: Owner, file: File, offset: u64, out: &mut Vec<u8>)
        requires there { is_there self.old.scene (nodes.File owner file) ≡ true }
        requires room { most_reply ≤ vec_capacity out.old }
        ensures told { (past : List Request) → HasLedTo past self.old → IsTold past self.old self.new
            (text_made (terms_of self.old) (service_of past self.old) self.old.scene read offset owner file (kind_of_file file)) read.unique out.new.items }
        ensures capacity { vec_capacity out.old ≤ vec_capacity out.new }
    {
        match file.kind() {
            FileKind::Tool => self.read_tool(read, owner, file, offset, out),
            FileKind::ErrorLog => self.read_log(read, owner, offset, out),
            FileKind::Text
            | FileKind::Trace
            | FileKind::Pipe
            | FileKind::RawPipe
            | FileKind::Inject => self.read_anew(read, owner, file, offset, out),
        }
    }

    // Makes the text of a file that tools ask for.
    fn read_tool(&mut self, read: Parked, owner: Owner, file: File, offset: u64, out: &mut Vec<u8>)
        requires room { most_reply ≤ vec_capacity out.old }
        ensures told { (past : List Request) → HasLedTo past self.old → IsTold past self.old self.new
            (given_tool read.handle offset read.size self.old.files (tool_text self.old.live.config past owner file)) read.unique out.new.items }
        ensures capacity { vec_capacity out.old ≤ vec_capacity out.new }
    {
        let config = self.live.config();
        let instance = self.instance_of(owner);
        let catalog = self.live.catalog();
        let text = mount_stub_files::text_of(
            self.alloc,
            config,
            catalog,
            &self.scene,
            owner,
            instance,
            file,
        );
        match text {
            Ok(Some(text)) => self.give_text(read, text, offset, out),
            Ok(None) => tell_error(read.unique, Errno::ENOENT, out),
            Err(_) => tell_error(read.unique, Errno::ENOMEM, out),
        }
    }

    // Makes the text of `error_log`.
    fn read_log(&mut self, read: Parked, owner: Owner, offset: u64, out: &mut Vec<u8>)
        requires room { most_reply ≤ vec_capacity out.old }
        ensures told { TellsBy self.old self.new
            (given_tool read.handle offset read.size self.old.files (Some (log_text owner self.old.errors))) read.unique out.new.items }
        ensures capacity { vec_capacity out.old ≤ vec_capacity out.new }
    {
        match self.errors.text(self.alloc, owner) {
            Ok(text) => self.give_text(read, text, offset, out),
            Err(_) => tell_error(read.unique, Errno::ENOMEM, out),
        }
    }

    // Makes the text of any other file: asks the tracer.
    fn read_anew(&mut self, read: Parked, owner: Owner, file: File, offset: u64, out: &mut Vec<u8>)
        requires there { is_there self.old.scene (nodes.File owner file) ≡ true }
        requires room { most_reply ≤ vec_capacity out.old }
        ensures told { TellsBy self.old self.new
            (anew self.old.scene read.handle offset read.size (nodes.File owner file) self.old.files) read.unique out.new.items }
        ensures capacity { vec_capacity out.old ≤ vec_capacity out.new }
    {
        match self.ask_read(owner, file, None) {
            Ok(answer) => self.give_text(read, text_in(self.alloc, answer), offset, out),
            Err(refusal) => tell_error(read.unique, errno_of_refused(refusal), out),
        }
    }

    // Gives a part of a text that was just made, in which later reads go on.
    pub(crate) fn give_text(&mut self, read: Parked, text: Text, offset: u64, out: &mut Vec<u8>)
        requires room { most_reply ≤ vec_capacity out.old }
        ensures kept { self.new ≡ record self.old { files = with_reading offset read.size text read.handle self.old.files } }
        ensures bytes { out.new.items ≡ reply_bytes read.unique (replies.Data (part_of offset read.size text)) }
        ensures capacity { vec_capacity out.old ≤ vec_capacity out.new }
    {
        tell_part(read.unique, text.as_bytes(), offset, read.size, out);
        self.files
            .note_reading(read.handle, offset, read.size, text);
    }

    // READ of a pipe.
    fn read_pipe(
        &mut self,
        read: Parked,
        flags: u32,
        owner: Owner,
        file: File,
        has_read: bool,
        out: &mut Vec<u8>,
    )
        requires there { is_there self.old.scene (nodes.File owner file) ≡ true }
        requires room { most_reply ≤ vec_capacity out.old }
        requires empty { out.old.items ≡ [] }
        ensures told { (past : List Request) (own : OpenSeen) → HasLedTo past self.old → file_at read.handle self.old.files ≡ Some own
            → own.owner ≡ owner → own.file ≡ file → own.has_read ≡ has_read
            → IsTold past self.old self.new
            (pipe_step (terms_of self.old) (service_of past self.old) read flags own) read.unique out.new.items }
        ensures capacity { vec_capacity out.old ≤ vec_capacity out.new }
    {
        if !self.files.rest(read.handle).is_empty() {
            return self.read_rest(read, out);
        }
        match self.dry_pipe(owner, file) {
            Some(tracing) => {
                let ends = has_read && !tracing;
                self.read_dry(read, flags, ends, out);
            }
            None => self.read_records(read, owner, file, out),
        }
    }

    // READ of a pipe in which no record waits: it ends, or the read waits, unless it may not.
    pub(crate) fn read_dry(&mut self, read: Parked, flags: u32, ends: bool, out: &mut Vec<u8>)
        requires room { most_reply ≤ vec_capacity out.old }
        requires empty { out.old.items ≡ [] }
        ensures told { TellsBy self.old self.new (dry_step read flags ends self.old.files) read.unique out.new.items }
        ensures capacity { vec_capacity out.old ≤ vec_capacity out.new }
    {
        if ends {
            tell_part(read.unique, &[], 0, 0, out);
            self.files.note_dry_read(read.handle, true);
        } else if is_nonblocking(flags) {
            tell_error(read.unique, Errno::EAGAIN, out);
            self.files.note_dry_read(read.handle, false);
        } else {
            self.park(read, out);
        }
    }

    // Lets a read wait.
    fn park(&mut self, read: Parked, out: &mut Vec<u8>)
        requires room { most_reply ≤ vec_capacity out.old }
        requires empty { out.old.items ≡ [] }
        ensures told { TellsBy self.old self.new (Parks read) read.unique out.new.items }
        ensures capacity { vec_capacity out.old ≤ vec_capacity out.new }
    {
        let Ok(()) = add(&mut self.parked, read) else {
            return tell_error(read.unique, Errno::ENOMEM, out);
        };
    }

    // Gives what was kept of a pipe.
    pub(crate) fn read_rest(&mut self, read: Parked, out: &mut Vec<u8>)
        requires room { most_reply ≤ vec_capacity out.old }
        ensures told { (past : List Request) (text : List ℕ) → HasLedTo past self.old → text_at read.handle self.old.files ≡ Some text
            → IsTold past self.old self.new (Plain (given_records read.handle read.size text self.old.files)) read.unique out.new.items }
        ensures capacity { vec_capacity out.old ≤ vec_capacity out.new }
    {
        let text = self.files.rest(read.handle);
        tell_part(read.unique, text, 0, read.size, out);
        self.files
            .give(read.handle, read.size.min(MOST_DATA) as usize);
    }

    // Takes records of a pipe.
    fn read_records(&mut self, read: Parked, owner: Owner, file: File, out: &mut Vec<u8>)
        requires there { is_there self.old.scene (nodes.File owner file) ≡ true }
        requires room { most_reply ≤ vec_capacity out.old }
        ensures told { TellsBy self.old self.new
            (taking self.old.scene read.handle read.size (nodes.File owner file) self.old.files) read.unique out.new.items }
        ensures capacity { vec_capacity out.old ≤ vec_capacity out.new }
    {
        match self.ask_read(owner, file, Some(records_for(read.size))) {
            Ok(answer) => {
                let text = text_in(self.alloc, answer);
                tell_part(read.unique, text.as_bytes(), 0, read.size, out);
                self.files
                    .keep_records(read.handle, text, read.size.min(MOST_DATA) as usize);
            }
            Err(refusal) => tell_error(read.unique, errno_of_refused(refusal), out),
        }
    }
}
