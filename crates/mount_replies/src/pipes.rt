//! Looks at pipes, which ask nothing of the tracer: whether a read of one would wait.

ghost use Rattle.std.specs.Prelude.{◌≡◌, true, false, List, None, is_some, IfSome};
ghost use Rattle.trace_buffer.specs.Buffers as buffers;
ghost use Rattle.trace_command.specs.Requests.{Request};
ghost use Rattle.tracer_specification.specs.Settings.{is_tracing, is_there as exists};
ghost use Rattle.trace_instance.specs.Instances.{InstanceStandsFor};
ghost use Rattle.tracer.specs.Lives.{IsLive};
ghost use Rattle.mount_tree.specs.Children.{owner_is_there};
ghost use Rattle.mount_tree.specs.NodePaths.{owner_name};
ghost use Rattle.mount_replies.specs.Mounted.{HasLedTo, service_of, terms_of};
ghost use Rattle.mount_replies.specs.Pipes.{has_news, has_nothing, is_dry, is_no, tells_end, waits_at, would_wait};
ghost use Rattle.mount_replies.specs.Services.{file_at};
ghost use Rattle.mount_replies.specs.private.DryPipes.{AreDryNow};
ghost use Rattle.mount_replies.specs.private.Looks.{pipe_in};

use crate::dry_pipes::{DryPipe, DryPipes};
use crate::mount::Mount;
use crate::open_file::OpenFile;
use mount_tree::{File, Owner};
use trace_command::{CpuFile, Refusal, TopFile};
use trace_instance::{File as Opened, Instance, has_waiting};

/// Whether none waits.
fn is_no(waits: Result<bool, Refusal>) -> bool
    ensures { result ≡ is_no waits }
{
    match waits {
        Ok(waits) => !waits,
        Err(_) => false,
    }
}

/// Whether a poll is told that a file ends: not of one of binary pages, of which it is told just whether there is a page.
fn tells_end(file: File) -> bool
    ensures { result ≡ tells_end file }
{
    !matches!(file, File::RawPipe(_))
}

impl Mount {
    /// The instance of a file, if it is there.
    pub(crate) fn instance_of(&self, owner: Owner) -> Option<&Instance>
        ensures there { (past : List Request) → IsLive self.now.live.config past self.now.live → owner_is_there self.now.scene owner ≡ true
            → is_some result ≡ exists (owner_name self.now.scene owner) past }
        ensures gone { owner_is_there self.now.scene owner ≡ false → result ≡ None }
        ensures stands { (past : List Request) → IsLive self.now.live.config past self.now.live → IfSome result (λ instance.
            InstanceStandsFor self.now.live.config (owner_name self.now.scene owner) past instance.now) }
        ensures cpus { IfSome result (λ instance. buffers.cpus instance.now.sides.live ≡ self.now.live.config.cpus) }
    {
        // Does nothing, but that the proof knows that some requests led to it.
        self.live.was_led();
        match owner {
            Owner::Top => self.live.instance(None),
            Owner::Made(serial) => {
                let name = self.scene.instance_name(serial)?;
                self.live.instance(Some(name))
            }
        }
    }

    // The pipe that a file is, if it is one of a CPU that is there.
    fn pipe_of(&self, file: File) -> Option<Opened>
        ensures { result ≡ pipe_in self.now.live.config.cpus file }
    {
        match file {
            File::OfInstance(TopFile::TracePipe) => Some(Opened::OfInstance(TopFile::TracePipe)),
            File::OfCpu(cpu, CpuFile::TracePipe) | File::RawPipe(cpu) => {
                let cpu = u32::from(cpu);
                if cpu < self.live.config().cpus {
                    Some(Opened::OfCpu(cpu, CpuFile::TracePipe))
                } else {
                    None
                }
            }
            _ => None,
        }
    }

    /// Of a pipe in which no record waits, whether its instance records any.
    pub(crate) fn dry_pipe(&self, owner: Owner, file: File) -> Option<bool>
        ensures is { (past : List Request) → HasLedTo past self.now
            → is_some result ≡ is_dry (terms_of self.now) (service_of past self.now) owner file }
        ensures tracing { (past : List Request) → HasLedTo past self.now
            → IfSome result (λ tracing. tracing ≡ is_tracing (owner_name self.now.scene owner) past) }
    {
        let pipe = self.pipe_of(file)?;
        let instance = self.instance_of(owner)?;
        if is_no(has_waiting(instance, pipe)) {
            Some(instance.is_tracing())
        } else {
            None
        }
    }

    // As `dry_pipe`, but the tracer is not asked of a pipe that is known to be dry; one that is found dry is known from now on.
    fn dry_pipe_once(&self, owner: Owner, file: File, pipes: &mut DryPipes) -> Option<bool>
        requires dry { AreDryNow self.now pipes.old }
        ensures is { (past : List Request) → HasLedTo past self.now
            → is_some result ≡ is_dry (terms_of self.now) (service_of past self.now) owner file }
        ensures tracing { (past : List Request) → HasLedTo past self.now
            → IfSome result (λ tracing. tracing ≡ is_tracing (owner_name self.now.scene owner) past) }
        ensures dry { AreDryNow self.now pipes.new }
    {
        if let Some(tracing) = pipes.tracing_of(owner, file) {
            return Some(tracing);
        }
        let tracing = self.dry_pipe(owner, file)?;
        pipes.note(DryPipe {
            owner,
            file,
            tracing,
        });
        Some(tracing)
    }

    /// Whether a read of an open file would wait, where these pipes are known to be dry.
    pub(crate) fn would_wait(&self, file: &OpenFile, pipes: &mut DryPipes) -> bool
        requires dry { AreDryNow self.now pipes.old }
        ensures waits { (past : List Request) → HasLedTo past self.now
            → result ≡ would_wait (terms_of self.now) (service_of past self.now) file.now }
        ensures dry { AreDryNow self.now pipes.new }
    {
        if !file.is_used_up() {
            return false;
        }
        match self.dry_pipe_once(file.owner(), file.file(), pipes) {
            Some(tracing) => tracing || !file.has_read(),
            None => false,
        }
    }

    /// Whether no record is there for a read of an open file.
    pub(crate) fn has_nothing(&self, file: &OpenFile) -> bool
        ensures { (past : List Request) → HasLedTo past self.now
            → result ≡ has_nothing (terms_of self.now) (service_of past self.now) file.now }
    {
        file.is_used_up() && self.dry_pipe(file.owner(), file.file()).is_some()
    }

    /// Whether something is there for a poll of an open file that is to be told.
    pub(crate) fn has_news(&self, file: &OpenFile) -> bool
        ensures { (past : List Request) → HasLedTo past self.now
            → result ≡ has_news (terms_of self.now) (service_of past self.now) file.now }
    {
        if !file.is_used_up() {
            return true;
        }
        match self.dry_pipe(file.owner(), file.file()) {
            Some(tracing) => {
                tells_end(file.file()) && file.has_read() && !tracing && !file.polls().told_end
            }
            None => true,
        }
    }

    /// Whether a read of this handle would wait, where these pipes are known to be dry.
    pub(crate) fn waits_at(&self, handle: u64, pipes: &mut DryPipes) -> bool
        requires dry { AreDryNow self.now pipes.old }
        ensures waits { (past : List Request) → HasLedTo past self.now
            → result ≡ waits_at (terms_of self.now) (service_of past self.now) (file_at handle self.now.files) }
        ensures dry { AreDryNow self.now pipes.new }
    {
        match self.files.get(handle) {
            Some(file) => self.would_wait(file, pipes),
            None => false,
        }
    }
}
