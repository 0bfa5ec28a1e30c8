//! Look-ups, and the sizes that they tell: the length of what a file shows, which is remembered until a command is done.

ghost use Rattle.std.specs.Prelude.{◌≡◌, ◌<◌, ◌^◌, List, Some, IfOk, IfSome, length, true};
ghost use Rattle.trace_command.specs.Requests.{Request};
ghost use Rattle.file_list.specs.FileKinds.{kind_of_file};
ghost use Rattle.file_list.specs.declared.file.File.TheVariants as files;
ghost use Rattle.mount_tree.specs.Children.{is_there};
ghost use Rattle.mount_tree.specs.declared.node.Node.TheVariants as nodes;
ghost use Rattle.mount_tree.specs.declared.node.Owner.TheVariants as owners;
ghost use Rattle.mount_replies.specs.Mounted.{HasLedTo, IsStep, service_of, terms_of};
ghost use Rattle.mount_replies.specs.Services.{count_of};
ghost use Rattle.mount_replies.specs.private.ShortReplies.{IsShort};
ghost use Rattle.mount_replies.specs.private.Tellings.{size_found, size_of_pages, sized_step, telling_of};
ghost use Rattle.mount_tree.specs.Nodes.{number_of};
ghost use Rattle.mount_replies.specs.Sizes as sizes;

use crate::counted::Counted;
use crate::mount::Mount;
use fuse_wire::headers::FATTR_SIZE;
use fuse_wire::{Errno, Reply};
use mount_tree::{File, FileKind, Node, Owner};
use std::alloc::AllocError;
use std::mem;
use trace_command::{Refusal, Reply as Answer};
use trace_lex::Text;
use tracer::MOST_DONE;

/// The numbers of nodes are below this one.
pub(crate) const FIRST_SERIAL: u64 = 1 << 47;

/// How many numbers a file of binary pages has.
const MOST_SERIALS: u64 = 1 << 17;

/// What is told of a node: to the look-up of this number that it is there, or its attributes.
#[derive(Clone, Copy)]
pub(crate) enum Telling {
    Entry(u64),
    Attributes,
}

/// The number of an instance's file of binary pages.
fn made_number(serial: u32, cpu: u8) -> u64
    ensures is { result ≡ number_of (nodes.File (owners.Made serial) (files.RawPipe cpu)) }
    ensures low { result < 2 ^ 47 }
{
    Node::File(Owner::Made(serial), File::RawPipe(cpu)).number()
}

/// The number of a file of binary pages: it is below `FIRST_SERIAL`.
fn raw_number(owner: Owner, cpu: u8) -> u64
    ensures is { result ≡ number_of (nodes.File owner (files.RawPipe cpu)) }
    ensures low { result < 2 ^ 47 }
{
    match owner {
        Owner::Top => Node::File(Owner::Top, File::RawPipe(cpu)).number(),
        Owner::Made(serial) => made_number(serial, cpu),
    }
}

/// By which number a look-up tells a node: another one for each look-up of a file of binary pages, since whoever reads by one number gets what is in the
/// page cache for it.
fn entry_number(unique: u64, node: Node) -> u64
    ensures { result ≡ sizes.entry_number unique node }
{
    match node {
        Node::File(owner, File::RawPipe(cpu)) => {
            raw_number(owner, cpu) + unique / 2 % MOST_SERIALS * FIRST_SERIAL
        }
        _ => node.number(),
    }
}

/// The size that is told of a file of binary pages: one that no reader by the page cache comes to, and none to whoever asks for it.
fn raw_size(telling: Telling) -> u64
    ensures { result ≡ size_of_pages telling }
{
    match telling {
        Telling::Entry(_) => 1 << 40,
        Telling::Attributes => 0,
    }
}

impl Mount {
    // What a read of a file that the tracer has would show now. This is no command.
    fn shown_text(&self, owner: Owner, file: File) -> Result<Text, AllocError>
        requires { is_there self.now.scene (nodes.File owner file) ≡ true }
        ensures { (past : List Request) → HasLedTo past self.now → IfOk result (λ text.
            text ≡ sizes.text_answered (sizes.answer_now (terms_of self.now) (service_of past self.now) owner file)) }
    {
        let address = self.scene.address(owner, file);
        match self.live.prepare_read_at(MOST_DONE, address, None) {
            Ok(mut prepared) => match mem::replace(&mut prepared.reply, Answer::Done) {
                Answer::Text(text) => Ok(text),
                Answer::Done => Ok(Text::new(self.alloc)),
            },
            Err(refusal) => match &refusal {
                Refusal::Memory => Err(AllocError),
                _ => Ok(Text::new(self.alloc)),
            },
        }
    }

    // What a read of a file that is no pipe would show now.
    fn text_now(&self, owner: Owner, file: File) -> Result<Text, AllocError>
        requires { is_there self.now.scene (nodes.File owner file) ≡ true }
        ensures { (past : List Request) → HasLedTo past self.now → IfOk result (λ text.
            text ≡ sizes.text_now (terms_of self.now) (service_of past self.now) owner file) }
    {
        match file.kind() {
            FileKind::Tool => {
                let config = self.live.config();
                let instance = self.instance_of(owner);
                let text = mount_stub_files::text_of(
                    self.alloc,
                    config,
                    self.live.catalog(),
                    &self.scene,
                    owner,
                    instance,
                    file,
                )?;
                Ok(text.unwrap_or(Text::new(self.alloc)))
            }
            FileKind::ErrorLog => self.errors.text(self.alloc, owner),
            FileKind::Text
            | FileKind::Trace
            | FileKind::Pipe
            | FileKind::RawPipe
            | FileKind::Inject => self.shown_text(owner, file),
        }
    }

    // Counts the text of a file that is no pipe.
    #[inline(never)]
    fn count_text(&mut self, telling: Telling, owner: Owner, file: File) -> Reply<'static>
        requires { is_there self.old.scene (nodes.File owner file) ≡ true }
        ensures step { (past : List Request) → HasLedTo past self.old → IsStep past self.old self.new
            (sizes.count_text (terms_of self.old) (service_of past self.old) (telling_of telling (terms_of self.old) (nodes.File owner file)) owner file) (Some result) }
        ensures short { IsShort result }
    {
        let node = Node::File(owner, file);
        let Ok(text) = self.text_now(owner, file) else {
            return Reply::Error(Errno::ENOMEM);
        };
        let size = text.as_bytes().len() as u64;
        let count = Counted {
            node: node.number(),
            size,
            after: self.live.done(),
            text: Some(text),
        };
        match self.counted.keep(count) {
            Ok(()) => self.tell(telling, node, size),
            Err(_) => Reply::Error(Errno::ENOMEM),
        }
    }

    // The size of a file that was counted, if no command was done since.
    pub(crate) fn recent_size(&self, node: Node) -> Option<u64>
        ensures { (past : List Request) → HasLedTo past self.now
            → result ≡ size_found (length past) (count_of (number_of node) self.now.counted) }
    {
        let count = self.counted.of(node.number())?;
        if count.after == self.live.done() {
            Some(count.size)
        } else {
            None
        }
    }

    // What is told of a node of this size.
    #[inline(always)]
    pub(crate) fn tell(&self, telling: Telling, node: Node, size: u64) -> Reply<'static>
        ensures reply { result ≡ telling_of telling (terms_of self.now) node size }
        ensures short { IsShort result }
    {
        let attributes = self.attributes_of(node, size);
        match telling {
            Telling::Entry(unique) => Reply::Entry {
                node: entry_number(unique, node),
                attributes,
            },
            Telling::Attributes => Reply::Attributes(attributes),
        }
    }

    // Tells of a file.
    fn tell_file(&mut self, telling: Telling, owner: Owner, file: File) -> Reply<'static>
        requires { is_there self.old.scene (nodes.File owner file) ≡ true }
        ensures step { (past : List Request) → HasLedTo past self.old → IsStep past self.old self.new
            (sizes.size_by_kind (terms_of self.old) (service_of past self.old) (telling_of telling (terms_of self.old) (nodes.File owner file))
            (size_of_pages telling) owner file (kind_of_file file)) (Some result) }
        ensures short { IsShort result }
    {
        let node = Node::File(owner, file);
        match file.kind() {
            FileKind::Pipe => self.tell(telling, node, 1),
            FileKind::RawPipe => self.tell(telling, node, raw_size(telling)),
            FileKind::Inject => self.tell(telling, node, 0),
            FileKind::ErrorLog => self.count_text(telling, owner, file),
            FileKind::Text | FileKind::Trace | FileKind::Tool => match self.recent_size(node) {
                Some(size) => self.tell(telling, node, size),
                None => self.count_text(telling, owner, file),
            },
        }
    }

    // Tells of a node, if it is there.
    fn tell_node(&mut self, telling: Telling, node: Option<Node>) -> Reply<'static>
        requires { IfSome node (λ n. is_there self.old.scene n ≡ true) }
        ensures step { (past : List Request) → HasLedTo past self.old → IsStep past self.old self.new
            (sized_step telling (terms_of self.old) (service_of past self.old) node) (Some result) }
        ensures short { IsShort result }
    {
        match node {
            Some(Node::File(owner, file)) => self.tell_file(telling, owner, file),
            Some(node) => self.tell(telling, node, 0),
            None => Reply::Error(Errno::ENOENT),
        }
    }

    /// LOOKUP: the node of this name in a folder.
    pub(crate) fn look_up(
        &mut self,
        unique: u64,
        folder: Option<Node>,
        name: &[u8],
    ) -> Reply<'static>
        ensures step { (past : List Request) → HasLedTo past self.old → IsStep past self.old self.new
            (sizes.look_up (terms_of self.old) (service_of past self.old) unique folder name.now) (Some result) }
        ensures short { IsShort result }
    {
        let node = match folder {
            Some(folder) => self.scene.lookup(folder, name),
            None => None,
        };
        self.tell_node(Telling::Entry(unique), node)
    }

    /// GETATTR.
    pub(crate) fn get_attributes(&mut self, node: Option<Node>) -> Reply<'static>
        ensures step { (past : List Request) → HasLedTo past self.old → IsStep past self.old self.new
            (sizes.get_attributes (terms_of self.old) (service_of past self.old) node) (Some result) }
        ensures short { IsShort result }
    {
        let node = self.known(node);
        self.tell_node(Telling::Attributes, node)
    }

    /// SETATTR: nothing is set, and no size but 0 is accepted.
    pub(crate) fn set_attributes(
        &mut self,
        node: Option<Node>,
        valid: u32,
        size: u64,
    ) -> Reply<'static>
        ensures step { (past : List Request) → HasLedTo past self.old → IsStep past self.old self.new
            (sizes.set_attributes (terms_of self.old) (service_of past self.old) node valid size) (Some result) }
        ensures short { IsShort result }
    {
        if valid / FATTR_SIZE % 2 == 1 && size != 0 {
            return Reply::Error(Errno::EINVAL);
        }
        self.get_attributes(node)
    }
}
