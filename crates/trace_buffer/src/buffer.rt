//! The rings of a buffer, one for each CPU ("The Generic Ring Buffer" of ring-buffer-design.rst), and reads of one of them or of all.
#![tactic(auto)]

ghost use Rattle.std.specs.Prelude.{◌≡◌, ℕ, ◌+◌, ◌<◌, ◌≤◌, ◌^◌, ◌%◌, List, [], ◌∷◌, length, map, min, replicate, slice_index, slice_set, IfOk, IfSome, ◌++◌};
ghost use Rattle.trace_record.specs.Record.{IsRecord};
ghost use Rattle.page_ring.specs.Events as event;
ghost use Rattle.page_ring.specs.Account.{put_answer, readings_of};
ghost use Rattle.page_ring.specs.Copies.{copied_of};
ghost use Rattle.page_ring.specs.Shown as shown;
ghost use Rattle.trace_buffer.specs.Copies.{copies_of};
ghost use Rattle.trace_buffer.specs.Families.{events_of, with_events, with_cleared, all_cleared, any_has_waiting, cpu_has_waiting, cpu_readings, cpu_stats, kept_count};
ghost use Rattle.trace_buffer.specs.Orders as orders;
ghost use Rattle.trace_buffer.specs.CpuCounts.{after_reads_of_each};
ghost use Rattle.trace_buffer.specs.Buffers as seen;
ghost use Rattle.trace_buffer.specs.Buffers.{StandsFor, offers};
ghost use Rattle.trace_buffer.specs.CpuReadings.{kept_reading, taken_reading};
ghost use Rattle.trace_buffer.specs.private.Nexts.{next_of};

use crate::CPUS;
use crate::buffer_copy::BufferCopy;
use crate::cursor::{Cursor, read_in_order};
use crate::merge::{push_kept, sort_by_time};
use crate::taken::{Taken, push_taken};
use crate::times::{Next, sooner};
use page_ring::{Kept, KeptRecords, Put, Ring, RingCopy, RingStats};
use std::alloc::{AllocError, Global};
use std::marker::Model;

/// The rings of 1 to 8 CPUs, all of one shape.
#[derive(Drop)]
pub struct Buffer {
    alloc: Global,
    pages: u32,
    page_bytes: u32,
    rings: Vec<Ring>,
}

impl Model for Buffer {
    ghost use Rattle.trace_buffer.specs.Buffers.{Seen};

    ghost Value = { Seen };

    ghost use Rattle.trace_buffer.specs.Sound.{seen, IsSound};

    ghost view = { seen };

    ghost invariant = { IsSound };
}

impl Buffer {
    /// Empty rings for so many CPUs, each of so many pages in a circle, each for so many bytes of records. The only error is that memory is
    /// refused.
    pub fn new(alloc: Global, cpus: u32, pages: u32, page_bytes: u32) -> Result<Buffer, AllocError>
        requires cpus { (1 ≤ cpus) × (cpus ≤ 8) }
        requires pages { (2 ≤ pages) × (pages ≤ 1024) }
        requires page_bytes { (64 ≤ page_bytes) × (page_bytes ≤ 4080) × (page_bytes % 8 ≡ 0) }
        ensures stands { IfOk result (λ buffer. StandsFor buffer (replicate cpus [])) }
        ensures cpus { IfOk result (λ buffer. seen.cpus buffer ≡ cpus) }
        ensures pages { IfOk result (λ buffer. buffer.pages ≡ pages) }
        ensures page_bytes { IfOk result (λ buffer. buffer.page_bytes ≡ page_bytes) }
        ensures offers { IfOk result (λ buffer. offers buffer ≡ replicate cpus 0) }
    {
        let mut rings = Vec::with_capacity(alloc, cpus as usize)?;
        for _cpu in 0..cpus {
            rings.push(Ring::new(alloc, pages, page_bytes)?)?;
        }
        Ok(Buffer {
            alloc,
            pages,
            page_bytes,
            rings,
        })
    }

    /// How many CPUs there are.
    pub fn cpus(&self) -> u32
        ensures cpus { result ≡ seen.cpus self.now }
        ensures range { (1 ≤ result) × (result ≤ 8) }
    {
        self.rings.len() as u32
    }

    /// Writes a record into a CPU's ring, over older ones where that is allowed. It takes no memory.
    pub fn put(&mut self, cpu: u32, rec: &[u8], overwrite: bool) -> Put
        requires cpu { cpu < seen.cpus self.old }
        requires is_record { IsRecord rec.now }
        requires fits { length rec.now ≤ self.old.page_bytes }
        requires few { slice_index (offers self.old) cpu < shown.most_offered }
        ensures stands { (family : List (List event.Event)) → StandsFor self.old family
            → StandsFor self.new (with_events cpu (event.Put rec.now overwrite ∷ []) family) }
        ensures answer { (family : List (List event.Event)) → StandsFor self.old family
            → result ≡ put_answer self.old.pages self.old.page_bytes (events_of family cpu) rec.now overwrite }
        ensures cpus { seen.cpus self.new ≡ seen.cpus self.old }
        ensures pages { self.new.pages ≡ self.old.pages }
        ensures page_bytes { self.new.page_bytes ≡ self.old.page_bytes }
        ensures offers { offers self.new
            ≡ slice_set (offers self.old) cpu (slice_index (offers self.old) cpu + 1) }
    {
        self.rings[cpu as usize].put(rec, overwrite)
    }

    // The ring of a CPU.
    fn ring(&self, cpu: u32) -> &Ring
        requires { cpu < seen.cpus self.now }
        ensures pages { result.now.pages ≡ self.now.pages }
        ensures page_bytes { result.now.page_bytes ≡ self.now.page_bytes }
        ensures stands { (family : List (List event.Event)) → StandsFor self.now family
            → shown.StandsFor result.now (events_of family cpu) }
    {
        &self.rings[cpu as usize]
    }

    /// The statistics of a CPU's ring.
    pub fn stats(&self, cpu: u32) -> RingStats
        requires { cpu < seen.cpus self.now }
        ensures { (family : List (List event.Event)) → StandsFor self.now family
            → result ≡ cpu_stats self.now.pages self.now.page_bytes family cpu }
    {
        self.ring(cpu).stats()
    }

    /// The records that a CPU's ring keeps, in order, as consuming reads of it would find them. Nothing is consumed.
    pub fn cpu_kept(&self, cpu: u32) -> KeptRecords<'_>
        requires { cpu < seen.cpus self.now }
        ensures records { (family : List (List event.Event)) → StandsFor self.now family
            → result ≡ cpu_readings self.now.pages self.now.page_bytes family cpu }
        ensures few { length result ≤ 2 ^ 32 }
    {
        self.ring(cpu).kept()
    }

    /// A copy of what the rings show, for a reader that lets go of the buffer before it looks at the records. It takes memory for the bytes of the kept
    /// records, at most those of the rings' pages. The only error is that memory is refused.
    pub fn copy(&self) -> Result<BufferCopy, AllocError>
        ensures { IfOk result (λ copy. (family : List (List event.Event)) → StandsFor self.now family
            → copy ≡ copies_of self.now.pages self.now.page_bytes family) }
    {
        let mut rings = Vec::with_capacity(self.alloc, self.rings.len())?;
        for cpu in 0..self.cpus() {
            rings.push(self.copy_cpu(cpu)?)?;
        }
        Ok(BufferCopy::new(rings))
    }

    /// A copy of what a CPU's ring shows. The only error is that memory is refused.
    pub fn copy_cpu(&self, cpu: u32) -> Result<RingCopy, AllocError>
        requires { cpu < seen.cpus self.now }
        ensures { IfOk result (λ copy. (family : List (List event.Event)) → StandsFor self.now family
            → copy ≡ copied_of self.now.pages self.now.page_bytes (events_of family cpu)) }
    {
        self.ring(cpu).copy(self.alloc)
    }

    /// Whether a record waits to be read in some ring: whether a consuming read of all CPUs would take one. Nothing is consumed.
    pub fn has_waiting(&self) -> bool
        ensures { (family : List (List event.Event)) → StandsFor self.now family
            → result ≡ any_has_waiting self.now.pages self.now.page_bytes family }
    {
        for cpu in 0..self.cpus() {
            if self.cpu_has_waiting(cpu) {
                return true;
            }
        }
        false
    }

    /// Likewise in a CPU's ring.
    pub fn cpu_has_waiting(&self, cpu: u32) -> bool
        requires { cpu < seen.cpus self.now }
        ensures { (family : List (List event.Event)) → StandsFor self.now family
            → result ≡ cpu_has_waiting self.now.pages self.now.page_bytes family cpu }
    {
        self.ring(cpu).has_waiting()
    }

    /// The records that all rings keep, each with its CPU: by timestamp, those of one timestamp by the lower CPU, and then in ring order.
    /// Nothing is consumed. The only error is that memory is refused.
    pub fn merged(&self) -> Result<Vec<(u32, Kept<'_>)>, AllocError>
        ensures { IfOk result (λ records. (family : List (List event.Event)) → StandsFor self.now family
            → map kept_reading records.items ≡ orders.merged self.now.pages self.now.page_bytes family) }
    {
        let mut records = self.all_kept()?;
        sort_by_time(&mut records)?;
        Ok(records)
    }

    // The records that all rings keep, one CPU after another.
    fn all_kept(&self) -> Result<Vec<(u32, Kept<'_>)>, AllocError>
        ensures { IfOk result (λ records. (family : List (List event.Event)) → StandsFor self.now family
            → map kept_reading records.items ≡ orders.kept_from self.now.pages self.now.page_bytes 0 family) }
    {
        let mut records = Vec::with_capacity(self.alloc, self.entries() as usize)?;
        for cpu in 0..self.cpus() {
            push_kept(&mut records, cpu, self.cpu_kept(cpu))?;
        }
        Ok(records)
    }

    // How many records all rings keep, for the room that a list of them takes.
    fn entries(&self) -> u64
        ensures few { (family : List (List event.Event)) → StandsFor self.now family
            → kept_count self.now.pages self.now.page_bytes family ≤ 2 ^ 35 }
    {
        let mut entries = 0u64;
        for cpu in 0..self.cpus() {
            // What is known of its length bounds the sum.
            let _kept = self.cpu_kept(cpu);
            entries = entries.saturating_add(self.stats(cpu).entries);
        }
        entries
    }

    /// What the next consuming reads of all CPUs would take, one after another, up to `limit` records: each read takes the earliest of the
    /// CPUs' first records, of equal ones that of the lower CPU. Nothing is consumed. The only error is that memory is refused.
    pub fn preview_any(&self, limit: u64) -> Result<Vec<Taken<'_>>, AllocError>
        ensures taken { IfOk result (λ taken. (family : List (List event.Event)) → StandsFor self.now family
            → let count = min limit (kept_count self.now.pages self.now.page_bytes family) in
            map taken_reading taken.items
            ≡ (orders.consume_any self.now.pages self.now.page_bytes count family).taken) }
        ensures few { IfOk result (λ taken. (family : List (List event.Event)) → StandsFor self.now family
            → kept_count self.now.pages self.now.page_bytes family ≤ 2 ^ 35) }
    {
        // A theorem: a consuming read leaves the rest of what is listed.
        page_ring::laws::least_is_read();
        if self.cpus() == 1 {
            return self.preview_cpu(0, limit);
        }
        let cursors = self.cursors()?;
        let count = limit.min(self.entries()) as usize;
        read_in_order(self.alloc, cursors, limit, count)
    }

    // A cursor for each ring.
    fn cursors(&self) -> Result<Vec<Cursor<'_>>, AllocError>
        ensures cursors { IfOk result (λ cursors. (family : List (List event.Event)) → StandsFor self.now family
            → cursors.items ≡ map (readings_of self.now.pages self.now.page_bytes) family) }
        ensures few { IfOk result (λ cursors. length cursors.items ≤ 8) }
    {
        let mut cursors = Vec::with_capacity(self.alloc, self.rings.len())?;
        for cpu in 0..self.cpus() {
            cursors.push(Cursor::new(self.cpu_kept(cpu)))?;
        }
        Ok(cursors)
    }

    /// What the next consuming reads of one CPU would take, one after another, up to `limit` records. Nothing is consumed. The only error is
    /// that memory is refused.
    pub fn preview_cpu(&self, cpu: u32, limit: u64) -> Result<Vec<Taken<'_>>, AllocError>
        requires { cpu < seen.cpus self.now }
        ensures taken { IfOk result (λ taken. (family : List (List event.Event)) → StandsFor self.now family
            → let count = min limit (length (cpu_readings self.now.pages self.now.page_bytes family cpu)) in
            map taken_reading taken.items
            ≡ orders.taken_of_cpu self.now.pages self.now.page_bytes cpu count family) }
        ensures few { IfOk result (λ taken. (family : List (List event.Event)) → StandsFor self.now family
            → length (cpu_readings self.now.pages self.now.page_bytes family cpu) ≤ 2 ^ 32) }
    {
        let count = limit.min(self.stats(cpu).entries) as usize;
        let mut records = Vec::with_capacity(self.alloc, count)?;
        push_taken(&mut records, cpu, self.cpu_kept(cpu), limit)?;
        Ok(records)
    }

    /// Consumes what `preview_any` shows, and tells how many records that were.
    pub fn take_any(&mut self, limit: u64) -> u64
        ensures stands { (family : List (List event.Event)) → StandsFor self.old family
            → let count = min limit (kept_count self.old.pages self.old.page_bytes family) in
            StandsFor self.new (orders.consume_any self.old.pages self.old.page_bytes count family).family }
        ensures answer { (family : List (List event.Event)) → StandsFor self.old family
            → result ≡ min limit (kept_count self.old.pages self.old.page_bytes family) }
        ensures cpus { seen.cpus self.new ≡ seen.cpus self.old }
        ensures pages { self.new.pages ≡ self.old.pages }
        ensures page_bytes { self.new.page_bytes ≡ self.old.page_bytes }
        ensures offers { offers self.new ≡ offers self.old }
    {
        // A theorem, as in `preview_any`.
        page_ring::laws::least_is_read();
        for count in 0..limit {
            let Some(next) = self.next_read() else {
                return count;
            };
            self.take_cpu(next.cpu, 1);
        }
        limit
    }

    // The lowest CPU whose first kept record is the earliest.
    fn next_read(&self) -> Option<Next>
        ensures next { (family : List (List event.Event)) → StandsFor self.now family
            → result ≡ next_of 0 (map (readings_of self.now.pages self.now.page_bytes) family) }
        ensures cpu { IfSome result (λ next. next.cpu < seen.cpus self.now) }
    {
        let mut next = None;
        for cpu in (0..self.cpus()).rev() {
            next = sooner(cpu, self.ring(cpu).peek_ts(), next);
        }
        next
    }

    /// Consumes what `preview_cpu` shows, and tells how many records that were.
    pub fn take_cpu(&mut self, cpu: u32, limit: u64) -> u64
        requires { cpu < seen.cpus self.old }
        ensures stands { (family : List (List event.Event)) → StandsFor self.old family
            → let count = min limit (length (cpu_readings self.old.pages self.old.page_bytes family cpu)) in
            StandsFor self.new (orders.after_cpu_reads cpu count family) }
        ensures answer { (family : List (List event.Event)) → StandsFor self.old family
            → result ≡ min limit (length (cpu_readings self.old.pages self.old.page_bytes family cpu)) }
        ensures cpus { seen.cpus self.new ≡ seen.cpus self.old }
        ensures pages { self.new.pages ≡ self.old.pages }
        ensures page_bytes { self.new.page_bytes ≡ self.old.page_bytes }
        ensures offers { offers self.new ≡ offers self.old }
    {
        take_from(&mut self.rings[cpu as usize], limit)
    }

    /// Consumes so many records of each CPU, or as many as its ring keeps.
    pub fn take_each(&mut self, counts: &[u64; CPUS])
        ensures stands { (family : List (List event.Event)) → StandsFor self.old family
            → StandsFor self.new (after_reads_of_each self.old.pages self.old.page_bytes counts.now family) }
        ensures cpus { seen.cpus self.new ≡ seen.cpus self.old }
        ensures pages { self.new.pages ≡ self.old.pages }
        ensures page_bytes { self.new.page_bytes ≡ self.old.page_bytes }
        ensures offers { offers self.new ≡ offers self.old }
    {
        for cpu in 0..self.cpus() {
            let _taken = self.take_cpu(cpu, counts[cpu as usize]);
        }
    }

    /// Empties every ring: it is as when it was new, statistics too.
    pub fn clear(&mut self)
        ensures stands { (family : List (List event.Event)) → StandsFor self.old family
            → StandsFor self.new (all_cleared family) }
        ensures cpus { seen.cpus self.new ≡ seen.cpus self.old }
        ensures pages { self.new.pages ≡ self.old.pages }
        ensures page_bytes { self.new.page_bytes ≡ self.old.page_bytes }
        ensures offers { offers self.new ≡ replicate (seen.cpus self.old) 0 }
    {
        for cpu in 0..self.cpus() {
            self.clear_cpu(cpu);
        }
    }

    /// Empties a CPU's ring: it is as when it was new, statistics too. The other rings stay as they were.
    pub fn clear_cpu(&mut self, cpu: u32)
        requires { cpu < seen.cpus self.old }
        ensures stands { (family : List (List event.Event)) → StandsFor self.old family
            → StandsFor self.new (with_cleared cpu family) }
        ensures cpus { seen.cpus self.new ≡ seen.cpus self.old }
        ensures pages { self.new.pages ≡ self.old.pages }
        ensures page_bytes { self.new.page_bytes ≡ self.old.page_bytes }
        ensures offers { offers self.new ≡ slice_set (offers self.old) cpu 0 }
    {
        self.rings[cpu as usize].clear();
    }
}

// Consumes up to `limit` records of a ring, and tells how many these are.
fn take_from(ring: &mut Ring, limit: u64) -> u64
    ensures stands { (events : List event.Event) → shown.StandsFor ring.old events
        → let count = min limit (length (readings_of ring.old.pages ring.old.page_bytes events)) in
        shown.StandsFor ring.new (events ++ replicate count event.Take) }
    ensures answer { (events : List event.Event) → shown.StandsFor ring.old events
        → result ≡ min limit (length (readings_of ring.old.pages ring.old.page_bytes events)) }
    ensures pages { ring.new.pages ≡ ring.old.pages }
    ensures page_bytes { ring.new.page_bytes ≡ ring.old.page_bytes }
    ensures offered { shown.offered ring.new ≡ shown.offered ring.old }
{
    // A theorem: so many reads leave the rest of what is listed.
    page_ring::laws::least_is_read();
    for count in 0..limit {
        let Some(_lost) = ring.take() else {
            return count;
        };
    }
    limit
}
