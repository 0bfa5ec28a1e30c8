//! A tracer used as a library: a book, two writes, five emissions and two reads, whose replies are printed, and the history of these; and threads that
//! share a book. tests/library_example runs it.
#![tactic(auto)]

ghost use Rattle.std.specs.Prelude.{◌≡◌, IfOk, vec_len};

use parallel_history::history_of;
use std::alloc::{AllocError, Global};
use std::slice;
use std::sync::Wait;
use std::thread::Threads;
use trace_book::{
    Book, BorrowedPair, Command, CommandRef, Config, EntryRef, OwnedCommand, Refusal, Reply, Tracer,
};
use trace_workers::{BlockFault, OpenGate, Part};

const CONFIG: Config = Config {
    cpus: 1,
    pages: 2,
    page_bytes: 64,
    history_limit: 1_000,
};

/// The process that the emissions name.
const PROCESS: i32 = 7;

/// Does the command `emit 0 7 tick n=NUMBER`.
fn tick(alloc: Global, tracer: &mut Tracer, number: u32) -> Result<Reply, Refusal> {
    let value = format!(in alloc; "{number}")?;
    let pair = BorrowedPair::new(b"n", value.as_bytes());
    tracer.ask(&Command::emit(b"tick", 0, PROCESS, slice::from_ref(&pair)))
}

/// Declares an event, switches it on, and emits it five times.
fn emit_five(alloc: Global, tracer: &mut Tracer) -> Result<(), Refusal> {
    tracer.ask(&Command::append(b"synthetic_events", b"tick u64 n"))?;
    tracer.ask(&Command::write(b"events/synthetic/tick/enable", b"1"))?;
    for number in 1..6 {
        tick(alloc, tracer, number)?;
    }
    Ok(())
}

/// What is printed for bytes.
fn printed(bytes: &[u8]) -> &str {
    str::from_utf8(bytes).unwrap_or("no text")
}

/// Prints a text, and nothing for a command that has none.
fn show(rt: &impl Print, reply: Reply) {
    if let Reply::Text(text) = reply {
        let _ = print!(rt; "{}", printed(text.as_bytes()));
    }
}

/// Prints a line for each emission of a book's history: its ticket, event and pairs, which are read where the history keeps them.
fn show_emissions(rt: &impl Print, book: &Book) {
    for entry in book.entries() {
        let EntryRef {
            ticket,
            command,
            ..
        } = entry;
        if let CommandRef::Emit { event, pairs, .. } = command {
            let _ = print!(rt; "{ticket}: {}", printed(event));
            for pair in pairs {
                let _ = print!(rt; " {}={}", printed(pair.name()), printed(pair.value()));
            }
            let _ = println!(rt; "");
        }
    }
}

/// Consumes the oldest record of five, and shows it and the statistics of CPU 0 after it.
fn trace(rt: &(impl Print + AllocGlobal), tracer: &mut Tracer) -> Result<(), Refusal> {
    let alloc = rt.alloc();
    emit_five(alloc, tracer)?;
    let record = tracer.ask(&Command::take(b"trace_pipe", 1))?;
    show(rt, record);
    let statistics = tracer.ask(&Command::read(b"per_cpu/cpu0/stats"))?;
    show(rt, statistics);
    Ok(())
}

/// Prints a record that is consumed, the statistics after it, and the emissions of the history.
pub fn run(rt: &(impl Print + AllocGlobal)) -> Result<(), Refusal> {
    let mut tracer = Tracer::new(rt.alloc(), CONFIG)?;
    trace(rt, &mut tracer)?;
    show_emissions(rt, tracer.book());
    Ok(())
}

/// A part that makes an instance.
fn maker(alloc: Global) -> Result<Vec<OwnedCommand>, AllocError> {
    Ok(vec![in alloc; Command::mkdir(b"instances/a").copied(alloc)?]?)
}

/// Three parts, each of which makes the same instance.
fn makers(alloc: Global) -> Result<Vec<Vec<OwnedCommand>>, AllocError>
    ensures { IfOk result (λ parts. vec_len parts ≡ 3) }
{
    Ok(vec![in alloc; maker(alloc)?, maker(alloc)?, maker(alloc)?]?)
}

/// How many parts were told that all their commands are done.
fn made_by(done: &[Part]) -> usize {
    done.iter()
        .filter(|part| part.replies.iter().all(|reply| reply.is_ok()))
        .count()
}

/// How many of three threads that make one instance side by side are told that it is done, and how many entries the history has then.
pub fn race<R: Threads + Wait + Sync>(rt: &R, alloc: Global) -> Result<(usize, usize), BlockFault> {
    let parts = makers(alloc).map_err(|_| BlockFault::Memory)?;
    history_of(rt, alloc, CONFIG, parts, &OpenGate).map(|(book, done)| (
        made_by(&done),
        book.entries().len(),
    ))
}
