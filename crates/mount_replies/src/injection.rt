//! Writes to `inject`: a stream of lines, an event each.

ghost use Rattle.std.specs.Prelude.{◌≡◌, ◌<◌, ◌≤◌, ◌+◌, ◌-◌, ◌^◌, ◌++◌, [], ℕ, List, Some, IfOk, MatchOption, length};
ghost use Rattle.std.specs.List.{slice_get};
ghost use Rattle.trace_format.specs.Definitions.{Definition};
ghost use Rattle.trace_command.specs.Requests.{Request};
ghost use Rattle.tracer_specification.specs.Settings.{declared_events};
ghost use Rattle.mount_replies.specs.FileWrites as writes;
ghost use Rattle.mount_replies.specs.Mounted.{HasLedTo, IsStep, service_of, terms_of};
ghost use Rattle.mount_replies.specs.Services.{OpenSeen, file_at};
ghost use Rattle.mount_replies.specs.private.LineRuns.{InjectsTo};
ghost use Rattle.mount_replies.specs.private.ShortReplies.{IsShort};
ghost use Rattle.mount_replies.specs.private.Targets.{EndsStream, IsTarget, NotesInjection};
ghost use Rattle.mount_replies.specs.Lines as lines;

use crate::commands::newline_at;
use crate::fault::{LineFault, Progress, Stop};
use crate::mount::Mount;
use crate::noting::{MOST_KEPT, note_injection};
use crate::stream::Stream;
use crate::writing::Target;
use fuse_wire::{Errno, Reply};
use mount_tree::{File, Owner};
use std::alloc::{AllocError, Global};
use trace_command::Refusal;
use trace_lex::Text;

/// The bytes of a write with what was kept before them; none, if nothing was.
fn joined(alloc: Global, kept: &[u8], bytes: &[u8]) -> Result<Option<Vec<u8>>, AllocError>
    ensures { IfOk result (λ joined. MatchOption joined (kept.now ≡ []) (λ all. all.items ≡ kept.now ++ bytes.now)) }
{
    if kept.is_empty() {
        return Ok(None);
    }
    let mut joined = Vec::from_slice(alloc, kept)?;
    joined.extend_from_slice(bytes)?;
    Ok(Some(joined))
}

/// What follows the last newline.
fn last_piece(bytes: &[u8]) -> &[u8]
    ensures { result.now ≡ lines.last_piece (lines.pieces_of bytes.now) }
{
    let mut rest = bytes;
    while let Some(at) = newline_at(rest) {
        rest = &rest[at + 1..];
    }
    rest
}

impl Mount {
    // Does the lines that end in a write of so many bytes after so many that were kept, all of which are these.
    fn do_stream<'a>(
        &mut self,
        event: u8,
        pid: u32,
        kept: usize,
        size: usize,
        bytes: &'a [u8],
    ) -> Progress<'a>
        ensures runs { (past : List Request) (own : Definition) → HasLedTo past self.old → slice_get (declared_events past) event ≡ Some own
            → InjectsTo past self.old self.new
            (lines.stream_lines (lines.asked_by_line self.old.live.config.cpus pid own) kept size 0 (lines.pieces_of bytes.now)) result }
        ensures few { result.done ≤ length bytes.now - kept }
    {
        let mut rest = bytes;
        let mut from = 0usize;
        let mut done = 0usize;
        while let Some(at) = newline_at(rest) {
            let line = &rest[..at];
            if let Err(fault) = self.do_injection(event, pid, line) {
                return Progress {
                    done,
                    stop: Some(Stop { line, fault }),
                };
            }
            from += at + 1;
            done = from.saturating_sub(kept);
            rest = &rest[at + 1..];
        }
        if rest.len() > MOST_KEPT {
            return Progress {
                done,
                stop: Some(Stop {
                    line: rest,
                    fault: LineFault::TooLong,
                }),
            };
        }
        Progress { done, stop: None }
    }

    /// WRITE of `inject`.
    pub(crate) fn inject(
        &mut self,
        target: Target,
        event: u8,
        lock_owner: u64,
        pid: u32,
        bytes: &[u8],
    ) -> Reply<'static>
        requires { length bytes.now < 2 ^ 32 }
        ensures step { (past : List Request) (own : OpenSeen) → HasLedTo past self.old → file_at target.handle self.old.files ≡ Some own
            → IsTarget own target → own.file ≡ File.Inject event → IsStep past self.old self.new
            (writes.inject (terms_of self.old) (service_of past self.old) target.handle lock_owner pid bytes.now own
            (slice_get (declared_events past) event)) (Some result) }
        ensures short { IsShort result }
    {
        if self.live.event(usize::from(event)).is_none() {
            return Reply::Error(Errno::ENOENT);
        }
        let Some(open_file) = self.files.get(target.handle) else {
            return Reply::Error(Errno::EBADF);
        };
        let stream = open_file.stream();
        if !stream.is_stream && newline_at(bytes).is_none() {
            return self.inject_at_once(target, event, pid, bytes);
        }
        let kept = stream.rest.as_bytes().len();
        match joined(self.alloc, stream.rest.as_bytes(), bytes) {
            Ok(Some(all)) => self.inject_stream(
                target,
                event,
                lock_owner,
                pid,
                kept,
                bytes.len(),
                &all,
            ),
            Ok(None) => self.inject_stream(target, event, lock_owner, pid, 0, bytes.len(), bytes),
            Err(_) => Reply::Error(Errno::ENOMEM),
        }
    }

    // A write that is an event at once.
    fn inject_at_once(
        &mut self,
        target: Target,
        event: u8,
        pid: u32,
        bytes: &[u8],
    ) -> Reply<'static>
        requires { length bytes.now < 2 ^ 32 }
        ensures step { (past : List Request) (own : OpenSeen) (is : Definition) → HasLedTo past self.old → IsTarget own target
            → slice_get (declared_events past) event ≡ Some is → IsStep past self.old self.new
            (writes.inject_at_once (terms_of self.old) (service_of past self.old) pid bytes.now own is) (Some result) }
        ensures short { IsShort result }
    {
        match self.do_injection(event, pid, bytes) {
            Ok(()) => Reply::Written {
                size: bytes.len() as u32,
            },
            Err(fault) => {
                let stop = Stop { line: bytes, fault };
                let told = self.note_injection(target.owner, target.file, event, stop);
                Reply::Error(told.errno())
            }
        }
    }

    // Notes why a line is no event. What is told: that, or that there was no memory to note it.
    pub(crate) fn note_injection(
        &mut self,
        owner: Owner,
        file: File,
        event: u8,
        stop: Stop<'_>,
    ) -> LineFault
        ensures { NotesInjection owner file event self.old self.new stop.entry result }
    {
        let Ok(()) = self.begin_note(owner, file) else {
            return LineFault::Refused(Refusal::Memory);
        };
        match self.live.event(usize::from(event)) {
            Some(_) => note_injection(&mut self.errors, stop.line, &stop.fault),
            None => self.errors.take_back(),
        }
        stop.fault
    }

    // A write of so many bytes to a stream, all of which, with what was kept before them, are these.
    fn inject_stream(
        &mut self,
        target: Target,
        event: u8,
        lock_owner: u64,
        pid: u32,
        kept: usize,
        size: usize,
        bytes: &[u8],
    ) -> Reply<'static>
        requires few { size < 2 ^ 32 }
        requires size { kept + size ≡ length bytes.now }
        ensures step { (past : List Request) (own : OpenSeen) (is : Definition) (written : List ℕ) → HasLedTo past self.old
            → file_at target.handle self.old.files ≡ Some own → IsTarget own target → slice_get (declared_events past) event ≡ Some is
            → bytes.now ≡ own.stream.rest ++ written → kept ≡ length own.stream.rest → size ≡ length written → IsStep past self.old self.new
            (writes.inject_stream (terms_of self.old) (service_of past self.old) target.handle lock_owner pid written own is) (Some result) }
        ensures short { IsShort result }
    {
        let Ok(rest) = Text::from_slice(self.alloc, last_piece(bytes)) else {
            return Reply::Error(Errno::ENOMEM);
        };
        let progress = self.do_stream(event, pid, kept, size, bytes);
        let after = Stream {
            is_stream: true,
            rest,
            lock_owner,
            pid,
        };
        self.end_stream(target, event, after, size as u32, progress)
    }

    // Tells how many bytes were written to a stream, or why none were, which is noted.
    fn end_stream(
        &mut self,
        target: Target,
        event: u8,
        after: Stream,
        size: u32,
        progress: Progress<'_>,
    ) -> Reply<'static>
        requires { progress.done < 2 ^ 32 }
        ensures ends { EndsStream self.old self.new target event after size progress.entry result }
        ensures short { IsShort result }
    {
        let Progress { done, stop } = progress;
        let Some(stop) = stop else {
            self.files.keep_stream(target.handle, after);
            return Reply::Written { size };
        };
        if done != 0 {
            self.files
                .keep_stream(target.handle, after.without_rest(self.alloc));
            return Reply::Written { size: done as u32 };
        }
        let told = self.note_injection(target.owner, target.file, event, stop);
        if !told.is_memory() {
            self.files.take_rest(target.handle);
        }
        Reply::Error(told.errno())
    }
}
