//! A copy of what the rings of a buffer show.

ghost use Rattle.std.specs.Prelude.{◌≡◌, ◌<◌, ◌≤◌, ◌^◌, length, map, slice_index_or, IfOk};
ghost use Rattle.page_ring.specs.Copies.{Copied};
ghost use Rattle.trace_buffer.specs.Copies.{copied_from, merged_copies};
ghost use Rattle.trace_buffer.specs.CpuReadings.{kept_reading};

use crate::merge::{push_kept, sort_by_time};
use page_ring::{Kept, KeptRecords, RingCopy, RingStats};
use std::alloc::{AllocError, Global};
use std::marker::Model;

/// What the rings of 1 to 8 CPUs showed when they were copied.
#[derive(Drop)]
pub struct BufferCopy {
    rings: Vec<RingCopy>,
}

impl Model for BufferCopy {
    ghost use Rattle.std.specs.Prelude.{◌≤◌, List, length};
    ghost use Rattle.page_ring.specs.Copies.{Copied};

    ghost Value = { List Copied };

    ghost view = { λ b. b.rings.items };

    ghost invariant = { λ b. (1 ≤ length b.rings.items) × (length b.rings.items ≤ 8) };
}

impl BufferCopy {
    // The copies of so many rings.
    pub(crate) fn new(rings: Vec<RingCopy>) -> BufferCopy
        requires some { 1 ≤ length rings.items }
        requires few { length rings.items ≤ 8 }
        ensures { result ≡ rings.items }
    {
        BufferCopy { rings }
    }

    /// How many CPUs there are.
    pub fn cpus(&self) -> u32
        ensures cpus { result ≡ length self.now }
        ensures range { (1 ≤ result) × (result ≤ 8) }
    {
        self.rings.len() as u32
    }

    // The copy of the ring of a CPU.
    fn ring(&self, cpu: u32) -> &RingCopy
        requires { cpu < length self.now }
        ensures { result.now ≡ slice_index_or self.now cpu result.now }
    {
        &self.rings[cpu as usize]
    }

    /// The statistics of a CPU's ring.
    pub fn stats(&self, cpu: u32) -> RingStats
        requires { cpu < length self.now }
        ensures { (d : Copied) → result ≡ (slice_index_or self.now cpu d).stats }
    {
        self.ring(cpu).stats()
    }

    /// The records that a CPU's ring kept, in order.
    pub fn cpu_kept(&self, cpu: u32) -> KeptRecords<'_>
        requires { cpu < length self.now }
        ensures records { (d : Copied) → result ≡ (slice_index_or self.now cpu d).readings }
        ensures few { length result ≤ 2 ^ 32 }
    {
        self.ring(cpu).kept()
    }

    /// The records that all rings kept, each with its CPU: by timestamp, those of one timestamp by the lower CPU, and then in ring order. The only
    /// error is that memory is refused.
    #[tactic(auto, unfolding(crate::specs::Copies::merged_copies))]
    pub fn merged(&self, alloc: Global) -> Result<Vec<(u32, Kept<'_>)>, AllocError>
        ensures { IfOk result (λ records. map kept_reading records.items ≡ merged_copies self.now) }
    {
        let mut records = self.all_kept(alloc)?;
        sort_by_time(&mut records)?;
        Ok(records)
    }

    // The records that all rings kept, one CPU after another.
    fn all_kept(&self, alloc: Global) -> Result<Vec<(u32, Kept<'_>)>, AllocError>
        ensures { IfOk result (λ records. map kept_reading records.items ≡ copied_from 0 self.now) }
    {
        let mut records = Vec::with_capacity(alloc, self.entries() as usize)?;
        for cpu in 0..self.cpus() {
            push_kept(&mut records, cpu, self.cpu_kept(cpu))?;
        }
        Ok(records)
    }

    // How many records all rings kept, for the room that a list of them takes.
    fn entries(&self) -> u64 {
        let mut entries = 0u64;
        for cpu in 0..self.cpus() {
            entries = entries.saturating_add(self.stats(cpu).entries);
        }
        entries
    }
}
