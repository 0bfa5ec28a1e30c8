//! Reads of `trace_pipe_raw`: binary pages, as Linux hands them out.
//!
//! A read by the page cache, as for splice(2), gets a whole page or an error, since what is less is the end of a file for it: EINVAL where read(2) left a
//! part of a page; with nothing there EAGAIN, so that it gives what it has. Only the first one after a poll that was told that a page is there gets a page without events instead, because
//! whoever polled takes EAGAIN then for the end. A read(2) gets what is left of the page before, or a new one; with nothing there it waits.

ghost use Rattle.std.specs.Prelude.{◌≡◌, ◌≤◌, ℕ, [], List, Some, true, vec_capacity, IfOk};
ghost use Rattle.trace_command.specs.Requests.{Request};
ghost use Rattle.mount_tree.specs.Children.{is_there};
ghost use Rattle.mount_tree.specs.declared.node.Node.TheVariants as nodes;
ghost use Rattle.mount_replies.specs.Mounted.{HasLedTo, IsTold, most_reply, service_of, terms_of};
ghost use Rattle.mount_replies.specs.Served as pages;
ghost use Rattle.mount_replies.specs.RawPages.{next_count, next_page};
ghost use Rattle.mount_replies.specs.Services.{OpenSeen, file_at};

use crate::errno::errno_of_refused;
use crate::mount::Mount;
use crate::parked::Parked;
use crate::telling::{MOST_DATA, tell_error, tell_part};
use fuse_wire::Errno;
use kernel_pages::{PAGE_SIZE, Page, fill_page, page_of_taken};
use mount_tree::{File, Owner};
use std::alloc::AllocError;
use trace_command::CpuFile;

/// The most records that a page tells (`kernel_pages::laws::page_has_few_records`).
const MOST_ROWS: u64 = 340;

impl Mount {
    /// READ of a CPU's binary pages.
    pub(crate) fn read_raw(
        &mut self,
        read: Parked,
        cached: bool,
        flags: u32,
        owner: Owner,
        cpu: u8,
        out: &mut Vec<u8>,
    )
        requires there { is_there self.old.scene (nodes.File owner (File.RawPipe cpu)) ≡ true }
        requires room { most_reply ≤ vec_capacity out.old }
        requires empty { out.old.items ≡ [] }
        ensures told { (past : List Request) (own : OpenSeen) → HasLedTo past self.old → file_at read.handle self.old.files ≡ Some own
            → own.owner ≡ owner → own.file ≡ File.RawPipe cpu → IsTold past self.old self.new
            (pages.read_raw (terms_of self.old) (service_of past self.old) read cached flags own) read.unique out.new.items }
        ensures capacity { vec_capacity out.old ≤ vec_capacity out.new }
    {
        if cached {
            if !self.files.rest(read.handle).is_empty() {
                return tell_error(read.unique, Errno::EINVAL, out);
            }
            self.read_whole_page(read, owner, cpu, out)
        } else {
            let has_read = self.files.has_read(read.handle);
            self.read_pages(read, flags, owner, cpu, has_read, out)
        }
    }

    // READ by the page cache.
    fn read_whole_page(&mut self, read: Parked, owner: Owner, cpu: u8, out: &mut Vec<u8>)
        requires there { is_there self.old.scene (nodes.File owner (File.RawPipe cpu)) ≡ true }
        requires room { most_reply ≤ vec_capacity out.old }
        requires empty { out.old.items ≡ [] }
        ensures told { (past : List Request) (own : OpenSeen) → HasLedTo past self.old → file_at read.handle self.old.files ≡ Some own
            → own.owner ≡ owner → own.file ≡ File.RawPipe cpu → IsTold past self.old self.new
            (pages.read_whole_page (terms_of self.old) (service_of past self.old) read own) read.unique out.new.items }
        ensures capacity { vec_capacity out.old ≤ vec_capacity out.new }
    {
        if (read.size as usize) < PAGE_SIZE {
            return tell_error(read.unique, Errno::EINVAL, out);
        }
        match self.dry_pipe(owner, File::RawPipe(cpu)) {
            Some(_) => self.read_no_page(read, out),
            None => self.read_page(read, owner, cpu, out),
        }
    }

    // READ by the page cache where no record waits.
    fn read_no_page(&mut self, read: Parked, out: &mut Vec<u8>)
        requires room { most_reply ≤ vec_capacity out.old }
        requires empty { out.old.items ≡ [] }
        ensures told { (past : List Request) (own : OpenSeen) → HasLedTo past self.old → file_at read.handle self.old.files ≡ Some own
            → IsTold past self.old self.new (pages.read_no_page read own self.old.files) read.unique out.new.items }
        ensures capacity { vec_capacity out.old ≤ vec_capacity out.new }
    {
        if !self.files.was_told_ready(read.handle) {
            tell_error(read.unique, Errno::EAGAIN, out);
            return self.files.note_dry_read(read.handle, false);
        }
        match fill_page(self.alloc, &[]) {
            Ok(page) => {
                tell_part(read.unique, page.bytes.as_bytes(), 0, read.size, out);
                self.files.note_dry_read(read.handle, false);
            }
            Err(_) => tell_error(read.unique, Errno::ENOMEM, out),
        }
    }

    // read(2): what is left of a page, or a new one.
    fn read_pages(
        &mut self,
        read: Parked,
        flags: u32,
        owner: Owner,
        cpu: u8,
        has_read: bool,
        out: &mut Vec<u8>,
    )
        requires there { is_there self.old.scene (nodes.File owner (File.RawPipe cpu)) ≡ true }
        requires room { most_reply ≤ vec_capacity out.old }
        requires empty { out.old.items ≡ [] }
        ensures told { (past : List Request) (own : OpenSeen) → HasLedTo past self.old → file_at read.handle self.old.files ≡ Some own
            → own.owner ≡ owner → own.file ≡ File.RawPipe cpu → own.has_read ≡ has_read → IsTold past self.old self.new
            (pages.read_pages (terms_of self.old) (service_of past self.old) read flags own) read.unique out.new.items }
        ensures capacity { vec_capacity out.old ≤ vec_capacity out.new }
    {
        if !self.files.rest(read.handle).is_empty() {
            return self.read_rest(read, out);
        }
        match self.dry_pipe(owner, File::RawPipe(cpu)) {
            Some(tracing) => {
                let ends = has_read && !tracing;
                self.read_dry(read, flags, ends, out);
            }
            None => self.read_page(read, owner, cpu, out),
        }
    }

    // Takes as many records as a page tells, and gives the page.
    fn read_page(&mut self, read: Parked, owner: Owner, cpu: u8, out: &mut Vec<u8>)
        requires there { is_there self.old.scene (nodes.File owner (File.RawPipe cpu)) ≡ true }
        requires room { most_reply ≤ vec_capacity out.old }
        ensures told { (past : List Request) (own : OpenSeen) → HasLedTo past self.old → file_at read.handle self.old.files ≡ Some own
            → own.owner ≡ owner → own.file ≡ File.RawPipe cpu → IsTold past self.old self.new
            (pages.read_page (terms_of self.old) (service_of past self.old) read own) read.unique out.new.items }
        ensures capacity { vec_capacity out.old ≤ vec_capacity out.new }
    {
        let Ok(page) = self.next_page(owner, cpu) else {
            return tell_error(read.unique, Errno::ENOMEM, out);
        };
        let pipe = File::OfCpu(cpu, CpuFile::TracePipe);
        match self.ask_take(owner, pipe, page.taken as u64) {
            Ok(()) => {
                let size = read.size.min(MOST_DATA) as usize;
                tell_part(read.unique, page.bytes.as_bytes(), 0, read.size, out);
                self.files.keep_records(read.handle, page.bytes, size);
            }
            Err(refusal) => tell_error(read.unique, errno_of_refused(refusal), out),
        }
    }

    // The page of the first records that wait in a CPU's pipe, of as many as it tells.
    fn next_page(&self, owner: Owner, cpu: u8) -> Result<Page, AllocError>
        requires { is_there self.now.scene (nodes.File owner (File.RawPipe cpu)) ≡ true }
        ensures { (past : List Request) → HasLedTo past self.now → IfOk result (λ page.
            (page.bytes ≡ next_page (terms_of self.now) (service_of past self.now) owner cpu)
            × (page.taken ≡ next_count (terms_of self.now) (service_of past self.now) owner cpu)) }
    {
        let catalog = self.live.catalog();
        let cpu = u32::from(cpu);
        match self.instance_of(owner) {
            Some(instance) if cpu < self.live.config().cpus => {
                let taken = instance.buffer().preview_cpu(cpu, MOST_ROWS)?;
                page_of_taken(self.alloc, catalog, &taken)
            }
            _ => fill_page(self.alloc, &[]),
        }
    }
}
