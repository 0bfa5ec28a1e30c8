//! Pipes that are known to be dry while the parked reads are looked at, one after another: of many reads of one pipe, only the first asks the tracer.
//!
//! They are known of one state of the tracer. So each look begins with none, and the tracer stays as it is until the look ends.

ghost use Rattle.std.specs.Prelude.{◌≡◌, ◌⊎◌, IsTrue, IfSome, Some, None, All, Contains};

use mount_tree::{File, Owner};
use std::marker::Model;
use trace_command::{CpuFile, TopFile};

/// At most so many pipes are known. Of others the tracer is asked for each read.
const MOST_PIPES: usize = 8;

/// A pipe in which no record waits: whose it is and which, and whether its instance records any.
#[derive(Clone, Copy)]
pub struct DryPipe {
    pub owner: Owner,
    pub file: File,
    pub tracing: bool,
}

/// Pipes that are known to be dry, the first ones of as many slots.
#[derive(Drop)]
pub struct DryPipes {
    slots: [Option<DryPipe>; MOST_PIPES],
    known: usize,
}

impl Model for DryPipes {
    ghost use Rattle.std.specs.Prelude.{List, Option};
    ghost use Rattle.mount_replies.specs.declared.dry_pipes.DryPipe.{DryPipe as DryPipeValue};

    ghost Value = { List (Option DryPipeValue) };

    ghost view = { λ p. p.slots };
}

// Whether two instances are one.
fn is_same_owner(one: Owner, other: Owner) -> bool
    ensures { IsTrue result → one ≡ other }
{
    match (one, other) {
        (Owner::Top, Owner::Top) => true,
        (Owner::Made(one), Owner::Made(other)) => one == other,
        _ => false,
    }
}

// Whether two files are one pipe.
fn is_same_pipe(one: File, other: File) -> bool
    ensures { IsTrue result → one ≡ other }
{
    match (one, other) {
        (File::OfInstance(TopFile::TracePipe), File::OfInstance(TopFile::TracePipe)) => true,
        (File::OfCpu(cpu, CpuFile::TracePipe), File::OfCpu(other, CpuFile::TracePipe)) => {
            cpu == other
        }
        (File::RawPipe(cpu), File::RawPipe(other)) => cpu == other,
        _ => false,
    }
}

// Whether a pipe is this one.
fn is_pipe(pipe: &DryPipe, owner: Owner, file: File) -> bool
    ensures { IsTrue result → pipe.now ≡ record { owner = owner; file = file; tracing = pipe.now.tracing } }
{
    is_same_owner(pipe.owner, owner) && is_same_pipe(pipe.file, file)
}

impl DryPipes {
    /// None is known.
    pub fn new() -> DryPipes
        ensures { All (λ slot. slot ≡ None) result }
    {
        DryPipes {
            slots: [None; MOST_PIPES],
            known: 0,
        }
    }

    /// Whether the instance of a pipe records any, if the pipe is known to be dry.
    pub fn tracing_of(&self, owner: Owner, file: File) -> Option<bool>
        ensures { IfSome result (λ tracing. Contains self.now (Some (record { owner = owner; file = file; tracing = tracing }))) }
    {
        for index in 0..MOST_PIPES {
            let Some(pipe) = &self.slots[index] else {
                return None;
            };
            if is_pipe(pipe, owner, file) {
                return Some(pipe.tracing);
            }
        }
        None
    }

    /// The slots.
    pub fn slots(&self) -> &[Option<DryPipe>]
        ensures { result.now ≡ self.now }
    {
        &self.slots
    }

    /// One more is known, if a slot is left.
    pub fn note(&mut self, pipe: DryPipe)
        ensures { All (λ slot. Contains self.old slot ⊎ (slot ≡ Some pipe)) self.new }
    {
        if self.known < MOST_PIPES {
            self.slots[self.known] = Some(pipe);
            self.known += 1;
        }
    }
}
