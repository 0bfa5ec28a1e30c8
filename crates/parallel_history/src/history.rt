//! A run of several threads, from a new book to its history at the end.

ghost use Rattle.std.specs.Prelude.{◌≡◌, ◌≢◌, ◌⊎◌, ◌<◌, ◌≤◌, [], map, vec_len, true, Ok, Err, IfOk, IfErr, All, AllPairs};
ghost use Rattle.ticket_lock.specs.Calls.{view_of, IsOf, IsRoot};
ghost use Rattle.shared_book.specs.Bases.{numbers_of};
ghost use Rattle.trace_command.specs.Configs.{IsInRange};
ghost use Rattle.trace_command.specs.declared.command.Entry.{Entry};
ghost use Rattle.tracer_specification.specs.Blocks.{IsBlock, IsUnworn};
ghost use Rattle.trace_workers.specs.BlockRuns.{trails_of};
ghost use Rattle.trace_workers.specs.Gates.{LetsAllPass, StopsOne};
ghost use Rattle.trace_workers.specs.declared.fault.BlockFault.TheVariants.{Memory, Stopped};

use std::alloc::Global;
use std::sync::Wait;
use std::thread::Threads;
use ticket_lock::{Pass, TicketLock};
use trace_book::Book;
use trace_command::{Config, OwnedCommand, Refusal, Reply};
use trace_workers::{BlockFault, Gate, Part, run_block};

// Whether none of these replies is `Worn`.
fn is_unworn(replies: &[Result<Reply, Refusal>]) -> bool
    ensures { result ≡ true → IsUnworn replies.now }
{
    replies
        .iter()
        .all(|reply| !matches!(reply, Err(Refusal::Worn)))
}

// Likewise for each part.
fn are_unworn(done: &[Part]) -> bool
    ensures { result ≡ true → All (λ part. IsUnworn part.replies.items) done.now }
{
    done.iter().all(|part| is_unworn(&part.replies))
}

// A new book behind a lock, and the pass with all names.
fn locked_book(alloc: Global, config: Config) -> Result<(TicketLock<Book>, Pass<Book>), BlockFault>
    requires { IsInRange config }
    ensures of { IfOk result (λ r. IsOf r.0 r.1) }
    ensures root { IfOk result (λ r. IsRoot [] (numbers_of config) 0 (view_of r.1)) }
    ensures memory { IfErr result (λ fault. fault ≡ Memory) }
{
    let Ok(book) = Book::new(alloc, config) else {
        return Err(BlockFault::Memory);
    };
    match TicketLock::starting_at(alloc, 0, book) {
        Ok(locked) => Ok(locked),
        Err(_) => Err(BlockFault::Memory),
    }
}

// The book with the replies of the block that ran over it, unless one of them is `Worn`.
fn if_unworn(
    book: Book,
    done: Result<Vec<Part>, BlockFault>,
) -> Result<(Book, Vec<Part>), BlockFault>
    ensures done { IfOk result (λ r. (r.0 ≡ book) × (done ≡ Ok r.1)) }
    ensures unworn { IfOk result (λ r. All (λ part. IsUnworn part.replies.items) r.1.items) }
    ensures fault { IfErr result (λ fault. (fault ≡ Memory) ⊎ (done ≡ Err fault)) }
{
    match done {
        Ok(done) => {
            if are_unworn(&done) {
                Ok((book, done))
            } else {
                Err(BlockFault::Memory)
            }
        }
        Err(fault) => Err(fault),
    }
}

/// Runs parts concurrently over a new book, each on its own thread, and returns the book, whose history is exactly what they did, and their replies
/// in the order of the parts. Check a configuration by `Config::is_in_range` first.
///
/// Fails as `run_block` does; also with `Memory` if the book or the lock can't be made, or if a command got no turn because all tickets were drawn,
/// which is out of reach. After a fault nothing is returned and the book is dropped.
///
/// It waits for turns and threads, so neither that it returns nor the order of turns is promised.
pub fn history_of<R: Threads + Wait + Sync, G: Gate + Sync>(
    rt: &R,
    alloc: Global,
    config: Config,
    parts: Vec<Vec<OwnedCommand>>,
    gate: &G,
) -> Result<(Book, Vec<Part>), BlockFault>
    requires range { IsInRange config }
    requires few { vec_len parts ≤ 8 }
    ensures count { IfOk result (λ r. vec_len r.1 ≡ vec_len parts) }
    ensures config { IfOk result (λ r. r.0.config ≡ config) }
    ensures rising { IfOk result (λ r. AllPairs (λ (one other : Entry). one.ticket < other.ticket) r.0.entries) }
    // The history is one block of the parts, starting from nothing: each part's replies are the trail of its commands in it, and each entry is one of
    // these commands.
    ensures history { IfOk result (λ r.
        IsBlock config [] r.0.entries (trails_of (map (λ part. part.items) parts.items) r.1.items)) }
    ensures unworn { IfOk result (λ r. All (λ part. IsUnworn part.replies.items) r.1.items) }
    ensures open { G.is_open gate.now ≡ true → IfErr result (λ fault. fault ≢ Stopped) }
    ensures gate { IfOk result (λ r. LetsAllPass (G.may_answer gate.now) (map (λ part. part.items) parts.items)) }
    ensures stopped { IfErr result (λ fault. fault ≡ Stopped
        → StopsOne (G.may_answer gate.now) (map (λ part. part.items) parts.items)) }
{
    let Ok((lock, root)) = locked_book(alloc, config) else {
        return Err(BlockFault::Memory);
    };
    let (root, done) = run_block(rt, alloc, &lock, root, parts, gate);
    if_unworn(lock.close(root), done)
}
