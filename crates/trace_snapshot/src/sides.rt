//! The live and the spare side of an instance's rings.
//!
//! ```text
//!               live            spare
//!   new        [a b c]            -
//!   arm        [a b c]          [     ]     memory for the spare is taken here
//!   swap       [     ]          [a b c]     two buffers change places: nothing is copied or cleared
//!   d comes    [d    ]          [a b c]
//!   swap       [a b c]          [d    ]     what was spare is live again, with all that it holds
//! ```

ghost use Rattle.std.specs.Prelude.{◌≡◌, ◌≤◌, ◌%◌, true, is_some, option_copied, Some, None, IfOk, OnOk, OnErr};
ghost use Rattle.std.specs.Borrow.{sem};
ghost use Rattle.trace_snapshot.specs.Sides as sides;
ghost use Rattle.trace_snapshot.specs.Sides.{SideFamilies, StandsFor, IsNewSide, IsSpareOf, IsSpareCleared, HasShapeOf};
ghost use Rattle.trace_buffer.specs.Buffers.{Seen};
ghost use Rattle.trace_snapshot.specs.Lending.{LendsLive};

use std::alloc::{AllocError, Global};
use std::marker::Model;
use std::mem;
use trace_buffer::Buffer;

/// The rings of an instance: a live side, which is written to and read, and perhaps a spare one, which a snapshot shows.
#[derive(Drop)]
pub struct Sides {
    alloc: Global,
    cpus: u32,
    pages: u32,
    page_bytes: u32,
    live: Buffer,
    spare: Option<Buffer>,
}

impl Model for Sides {
    ghost use Rattle.trace_snapshot.specs.Sides.{SidesSeen};

    ghost Value = { SidesSeen };

    ghost use Rattle.trace_snapshot.specs.Sound.{seen, IsSound};

    ghost view = { seen };

    ghost invariant = { IsSound };
}

impl Sides {
    /// An empty live side for so many CPUs, with rings of so many pages in a circle, each for so many bytes of records; and no spare. The only
    /// error is that memory is refused.
    pub fn new(alloc: Global, cpus: u32, pages: u32, page_bytes: u32) -> Result<Sides, AllocError>
        requires cpus { (1 ≤ cpus) × (cpus ≤ 8) }
        requires pages { (2 ≤ pages) × (pages ≤ 1024) }
        requires page_bytes { (64 ≤ page_bytes) × (page_bytes ≤ 4080) × (page_bytes % 8 ≡ 0) }
        ensures live { IfOk result (λ made. IsNewSide cpus pages page_bytes made.live) }
        ensures spare { IfOk result (λ made. made.spare ≡ None) }
        ensures cpus { IfOk result (λ made. made.cpus ≡ cpus) }
        ensures pages { IfOk result (λ made. made.pages ≡ pages) }
        ensures page_bytes { IfOk result (λ made. made.page_bytes ≡ page_bytes) }
    {
        Ok(Sides {
            alloc,
            cpus,
            pages,
            page_bytes,
            live: Buffer::new(alloc, cpus, pages, page_bytes)?,
            spare: None,
        })
    }

    /// The live side.
    pub fn live(&self) -> &Buffer
        ensures { result.now ≡ self.now.live }
    {
        &self.live
    }

    /// The live side, to be written to or consumed from. The spare stays as it is.
    pub fn live_mut(&mut self) -> &mut Buffer
        ensures* writes_back { sem 𝓛 (LendsLive self.entry result) }
        ensures value { result.now ≡ self.old.live }
    {
        &mut self.live
    }

    /// The spare side, if there is one.
    pub fn spare(&self) -> Option<&Buffer>
        ensures { option_copied result ≡ self.now.spare }
    {
        self.spare.as_ref()
    }

    /// Exchanges the two sides, where an empty spare is made first if there is none. The only error is that memory is refused for that spare, and
    /// then nothing is changed.
    pub fn take_snapshot(&mut self) -> Result<(), AllocError>
        ensures live { OnOk result (IsSpareOf self.old self.old.spare self.new.live) }
        ensures spare { OnOk result (self.new.spare ≡ Some self.old.live) }
        ensures stands { OnOk result ((families : SideFamilies) → StandsFor self.old families
            → StandsFor self.new (sides.exchanged (sides.with_spare self.old.cpus families))) }
        ensures shape { HasShapeOf self.old self.new }
        ensures refused { OnErr result (self.new ≡ self.old) }
        ensures memory { OnErr result (self.old.spare ≡ None) }
    {
        self.arm()?;
        self.swap_armed();
        Ok(())
    }

    /// Makes an empty spare, if there is none. The only error is that memory is refused for it, and then nothing is changed.
    pub fn arm(&mut self) -> Result<(), AllocError>
        ensures live { self.new.live ≡ self.old.live }
        ensures armed { OnOk result (is_some self.new.spare ≡ true) }
        ensures spare { OnOk result ((side : Seen) → self.new.spare ≡ Some side → IsSpareOf self.old self.old.spare side) }
        ensures stands { OnOk result ((families : SideFamilies) → StandsFor self.old families
            → StandsFor self.new (sides.with_spare self.old.cpus families)) }
        ensures shape { HasShapeOf self.old self.new }
        ensures refused { OnErr result (self.new ≡ self.old) }
        ensures memory { OnErr result (self.old.spare ≡ None) }
    {
        if self.spare.is_none() {
            let spare = Buffer::new(self.alloc, self.cpus, self.pages, self.page_bytes)?;
            self.spare = Some(spare);
        }
        Ok(())
    }

    /// Frees the spare, if there is one, with what it holds.
    pub fn free(&mut self)
        ensures freed { self.new ≡ record self.old { spare = None } }
        ensures stands { (families : SideFamilies) → StandsFor self.old families
            → StandsFor self.new (sides.without_spare families) }
    {
        self.spare = None;
    }

    /// Empties the spare, if there is one.
    pub fn clear_spare(&mut self)
        ensures live { self.new.live ≡ self.old.live }
        ensures spare { IsSpareCleared self.old.spare self.new.spare }
        ensures stands { (families : SideFamilies) → StandsFor self.old families
            → StandsFor self.new (sides.spare_cleared families) }
        ensures shape { HasShapeOf self.old self.new }
    {
        if let Some(spare) = &mut self.spare {
            spare.clear();
        }
    }

    /// Exchanges the two sides: what was live is the spare, with its statistics, and what was the spare is live. Nothing is copied or cleared,
    /// and no memory is taken.
    pub fn swap_armed(&mut self)
        requires { is_some self.old.spare ≡ true }
        ensures spare { self.new.spare ≡ Some self.old.live }
        ensures live { Some self.new.live ≡ self.old.spare }
        ensures stands { (families : SideFamilies) → StandsFor self.old families
            → StandsFor self.new (sides.exchanged families) }
        ensures shape { HasShapeOf self.old self.new }
    {
        if let Some(spare) = &mut self.spare {
            mem::swap(&mut self.live, spare);
        }
    }
}
