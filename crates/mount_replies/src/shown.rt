//! Requests that are served of a text which was made beside the turns.
//!
//! The text of a trace or of histograms may be long, and whoever shares the mounted tracer would wait while it is made. So whoever serves a request that
//! wants one may ask for a copy (`copy_wanted`), let the mounted tracer go, make the text of the copy, and then serve the request of it (`answer_shown`):
//! the size that a look-up tells, or the text that a READ begins. It is what the file showed when it was copied. Where this isn't done, `answer` makes the
//! text itself.

ghost use Rattle.std.specs.Prelude.{◌≡◌, ◌≤◌, ℕ, List, [], None, Ok, Some, IfOk, IfSome, true, false, vec_capacity};
ghost use Rattle.std.specs.Option.{option_map};
ghost use Rattle.trace_command.specs.Requests.{Request as Command};
ghost use Rattle.trace_command.specs.declared.command.Reply.TheVariants as answers;
ghost use Rattle.trace_instance.specs.LateReplies.{reply_of};
ghost use Rattle.tracer.specs.Lives.{live_answer};
ghost use Rattle.mount_tree.specs.Children.{is_there};
ghost use Rattle.mount_tree.specs.declared.node.Node.TheVariants as nodes;
ghost use Rattle.mount_replies.specs.Mounted.{HasLedTo, IsMounted, IsStep, IsTold, most_reply, service_of, terms_of};
ghost use Rattle.mount_replies.specs.Services.{file_at, node_of};
ghost use Rattle.mount_replies.specs.ShownTexts as texts;
ghost use Rattle.mount_replies.specs.ShownTexts.{IsCopied, IsServedOf, WasShown, node_shown};
ghost use Rattle.mount_replies.specs.Steps.{read_of};
ghost use Rattle.mount_replies.specs.private.ShortReplies.{IsShort};
ghost use Rattle.mount_replies.specs.private.Tellings.{telling_of};
ghost use Rattle.mount_replies.specs.Told as told;

use crate::counted::Counted;
use crate::mount::Mount;
use crate::parked::read_of_pipe;
use crate::reading::is_cached;
use crate::sizes::{FIRST_SERIAL, Telling};
use crate::telling::tell_short;
use fuse_wire::{Errno, Operation, Reply, Request, decode};
use mount_tree::{File, Node, Owner};
use std::alloc::{AllocError, Global};
use std::mem;
use trace_command::{CpuFile, EventFile, Reply as Answer, TopFile};
use trace_instance::LateReply;
use trace_lex::Text;
use tracer::MOST_DONE;

/// What a file with a long text showed: whose it is and which, after how many commands, and the text.
#[derive(Drop)]
pub struct ShownText {
    pub owner: Owner,
    pub file: File,
    pub after: u64,
    pub text: Text,
}

/// A copy of what such a file shows: whose it is and which, after how many commands it was copied, and the reply of a read of it, to be made of the copy.
#[derive(Drop)]
pub struct CopiedText {
    pub owner: Owner,
    pub file: File,
    pub after: u64,
    pub late: LateReply,
}

impl CopiedText {
    /// Makes the text, whatever was done to the mounted tracer since it was copied. The only error is that memory is refused.
    pub fn text(self, alloc: Global) -> Result<ShownText, AllocError>
        ensures whose { IfOk result (λ shown. (shown.owner ≡ self.owner) × (shown.file ≡ self.file) × (shown.after ≡ self.after)) }
        ensures text { IfOk result (λ shown. reply_of self.late ≡ answers.Text shown.text) }
    {
        let CopiedText {
            owner,
            file,
            after,
            late,
        } = self;
        match late.reply(alloc)? {
            Answer::Text(text) => Ok(ShownText {
                owner,
                file,
                after,
                text,
            }),
            Answer::Done => Err(AllocError),
        }
    }
}

/// Whether a file has a long text: it shows a trace or histograms.
fn shows_long_text(file: File) -> bool
    ensures { result ≡ texts.shows_long_text file }
{
    match file {
        File::OfInstance(TopFile::Trace | TopFile::Snapshot) => true,
        File::OfCpu(_, CpuFile::Trace) => true,
        File::OfEvent(_, EventFile::Hist) => true,
        _ => false,
    }
}

/// The node, if it is a file with a long text.
fn long_text_node(node: Option<Node>) -> Option<Node>
    ensures { result ≡ texts.long_text_node node }
{
    match node {
        Some(Node::File(owner, file)) if shows_long_text(file) => Some(Node::File(owner, file)),
        _ => None,
    }
}

/// Whether a reply is a text.
fn is_text(late: &LateReply) -> bool
    ensures { result ≡ true → (text : List ℕ) × (reply_of late.now ≡ answers.Text text) }
{
    match late {
        LateReply::Made(Answer::Done) => false,
        LateReply::Made(Answer::Text(_)) => true,
        LateReply::Trace(_, _) => true,
        LateReply::Hists(_) => true,
    }
}

/// Whether it is the same owner.
fn is_same_owner(one: Owner, other: Owner) -> bool
    ensures { result ≡ true → one ≡ other }
{
    match (one, other) {
        (Owner::Top, Owner::Top) => true,
        (Owner::Made(one), Owner::Made(other)) => one == other,
        _ => false,
    }
}

/// Whether it is the same file with a long text.
fn is_same_file(one: File, other: File) -> bool
    ensures { result ≡ true → one ≡ other }
{
    match (one, other) {
        (File::OfInstance(TopFile::Trace), File::OfInstance(TopFile::Trace)) => true,
        (File::OfInstance(TopFile::Snapshot), File::OfInstance(TopFile::Snapshot)) => true,
        (File::OfCpu(one, CpuFile::Trace), File::OfCpu(other, CpuFile::Trace)) => one == other,
        (File::OfEvent(one, EventFile::Hist), File::OfEvent(other, EventFile::Hist)) => {
            one == other
        }
        _ => false,
    }
}

/// Whether this node is the file whose text that is.
fn is_of(node: Option<Node>, shown: &ShownText) -> bool
    ensures { result ≡ true → node ≡ Some (node_shown shown.now) }
{
    match node {
        Some(Node::File(owner, file)) => {
            is_same_owner(owner, shown.owner) && is_same_file(file, shown.file)
        }
        _ => false,
    }
}

impl Mount {
    /// A copy of what the file shows whose long text a request wants. None, if it wants none, or the size of one that is remembered, or if memory is refused.
    pub fn copy_wanted(&self, asked: &[u8]) -> Option<CopiedText>
        ensures { (past : List Command) → IsMounted past self.now → IfSome result (λ copied. IsCopied (terms_of self.now) past copied) }
    {
        let Ok(request) = decode(asked) else {
            return None;
        };
        let node = Node::from_number(request.node % FIRST_SERIAL);
        match self.text_wanted(node, &request.operation) {
            Some(Node::File(owner, file)) if !self.is_remembered(&request.operation, owner, file) =>
                { self.copy_text(owner, file) }
            _ => None,
        }
    }

    // Whether an operation wants but the size of a text, which is remembered.
    fn is_remembered(&self, operation: &Operation<'_>, owner: Owner, file: File) -> bool {
        match operation {
            Operation::Read { .. } => false,
            _ => self.recent_size(Node::File(owner, file)).is_some(),
        }
    }

    // A copy of what a file shows, if it is there and has a long text.
    fn copy_text(&self, owner: Owner, file: File) -> Option<CopiedText>
        ensures { (past : List Command) → HasLedTo past self.now → IfSome result (λ copied. IsCopied (terms_of self.now) past copied) }
    {
        if !shows_long_text(file) || !self.scene.exists(Node::File(owner, file)) {
            return None;
        }
        let late = self.copy_shown(owner, file)?;
        if !is_text(&late) {
            return None;
        }
        Some(CopiedText {
            owner,
            file,
            after: self.live.done(),
            late,
        })
    }

    // The reply of a read of a file, to be made of a copy. This is no command.
    fn copy_shown(&self, owner: Owner, file: File) -> Option<LateReply>
        requires { is_there self.now.scene (nodes.File owner file) ≡ true }
        ensures { (past : List Command) → HasLedTo past self.now → IfSome result (λ late.
            live_answer self.now.live.config past (read_of self.now.scene (nodes.File owner file) None) ≡ Ok (reply_of late)) }
    {
        let address = self.scene.address(owner, file);
        match self.live.prepare_copy_at(MOST_DONE, address, None) {
            Ok(mut prepared) => Some(mem::replace(
                &mut prepared.late,
                LateReply::Made(Answer::Done),
            )),
            Err(_) => None,
        }
    }

    // The node of an open file.
    fn open_node(&self, handle: u64) -> Option<Node>
        ensures { result ≡ option_map node_of (file_at handle self.now.files) }
    {
        match self.files.get(handle) {
            Some(file) => Some(Node::File(file.owner(), file.file())),
            None => None,
        }
    }

    // The node of this name in a folder.
    fn named(&self, folder: Option<Node>, name: &[u8]) -> Option<Node>
        ensures { result ≡ told.found_in self.now.scene name.now folder }
    {
        match folder {
            Some(folder) => self.scene.lookup(folder, name),
            None => None,
        }
    }

    // The file whose text a request wants, if it wants one.
    fn text_wanted(&self, node: Option<Node>, operation: &Operation<'_>) -> Option<Node>
        ensures { result ≡ texts.text_wanted self.now.scene self.now.files node operation.now }
    {
        match operation {
            Operation::Lookup { name } => long_text_node(self.named(node, name.as_slice())),
            Operation::GetAttr => long_text_node(self.known(node)),
            Operation::Read {
                handle,
                offset,
                read_flags,
                ..
            } => {
                if *offset != 0 || is_cached(*read_flags) {
                    return None;
                }
                long_text_node(self.known(self.open_node(*handle)))
            }
            _ => None,
        }
    }

    /// As `answer`, but a request that wants the text of this file is served of this text, which was made beside the turns. Tells whether it was.
    pub fn answer_shown(&mut self, asked: &[u8], shown: ShownText, reply: &mut Vec<u8>) -> bool
        requires room { most_reply ≤ vec_capacity reply.old }
        requires empty { reply.old.items ≡ [] }
        requires nothing_owed { self.old.owes ≡ false }
        ensures served { (past : List Command) → IsMounted past self.old → WasShown (terms_of self.old) past shown
            → IsServedOf result past self.old self.new shown asked.now reply.new.items }
        ensures capacity { vec_capacity reply.old ≤ vec_capacity reply.new }
    {
        let Ok(request) = decode(asked) else {
            self.answer(asked, reply);
            return false;
        };
        let node = Node::from_number(request.node % FIRST_SERIAL);
        if !is_of(self.text_wanted(node, &request.operation), &shown) {
            self.answer(asked, reply);
            return false;
        }
        self.show(&request, shown, reply);
        self.look_after_call();
        true
    }

    // Serves a request that wants this text of it.
    fn show(&mut self, request: &Request<'_>, shown: ShownText, out: &mut Vec<u8>)
        requires room { most_reply ≤ vec_capacity out.old }
        requires empty { out.old.items ≡ [] }
        ensures told { (past : List Command) → HasLedTo past self.old → IsTold past self.old self.new
            (texts.shown_step (terms_of self.old) (service_of past self.old) request.now.unique shown request.now.operation) request.now.unique out.new.items }
        ensures capacity { vec_capacity out.old ≤ vec_capacity out.new }
    {
        match &request.operation {
            Operation::Read { handle, size, .. } => {
                let read = read_of_pipe(request.unique, *handle, *size);
                self.give_text(read, shown.text, 0, out);
            }
            Operation::Lookup { .. } => {
                let reply = self.tell_shown(Telling::Entry(request.unique), shown);
                tell_short(request.unique, &reply, out);
            }
            _ => {
                let reply = self.tell_shown(Telling::Attributes, shown);
                tell_short(request.unique, &reply, out);
            }
        }
    }

    // Tells the size of a text, which is remembered.
    fn tell_shown(&mut self, telling: Telling, shown: ShownText) -> Reply<'static>
        ensures step { (past : List Command) → HasLedTo past self.old → IsStep past self.old self.new
            (texts.tell_shown (service_of past self.old) shown (telling_of telling (terms_of self.old) (node_shown shown))) (Some result) }
        ensures short { IsShort result }
    {
        let node = Node::File(shown.owner, shown.file);
        let size = shown.text.as_bytes().len() as u64;
        let count = Counted {
            node: node.number(),
            size,
            after: shown.after,
            text: Some(shown.text),
        };
        match self.counted.keep(count) {
            Ok(()) => self.tell(telling, node, size),
            Err(_) => Reply::Error(Errno::ENOMEM),
        }
    }
}
