//! A whole session: a script is read, its items run in order, and their output is written.

ghost use Rattle.std.specs.Prelude.{◌≡◌, ◌≢◌, ◌<◌, ◌≤◌, ◌⊎◌, [], length, true, IfOk, IfSome, OnOk, IsErrOf};
ghost use Rattle.std.specs.Io.KnownBytes.{Appends, IsAtEnd};
ghost use Rattle.ticket_lock.specs.Calls.{view_of, IsOf};
ghost use Rattle.trace_command.specs.Configs.{IsInRange};
ghost use Rattle.trace_command.specs.declared.command.Config.{Config};
ghost use Rattle.script_reader.specs.Items.{HasNoPart};
ghost use Rattle.script_reader.specs.Sources.{ConsumesAtMost, Gives, GivesMore, GivesScript, HasRisen};
ghost use Rattle.trace_session.specs.Fronts.{AppendsSession, AppendsBegun, AppendsBegunFront, AppendsStopped};
ghost use Rattle.trace_session.specs.private.StepFronts.{PassesSession, PassesBegun, PassesStopped};
ghost use Rattle.trace_session.specs.Passes.{IsSessionPass, progress_of};
ghost use Rattle.trace_session.specs.Sessions.{beginning, IsWhole, IsRead};

use crate::device::Sink;
use crate::environment::Environment;
use crate::replies::Replies;
use crate::status::Status;
use crate::step::{NumberedText, do_command, do_item, do_other_command};
use script_reader::item::{NextItem, next_item, other_item};
use script_reader::{MOST_SCRIPT_BYTES, Source, Stop, read_script};
use shared_book::SharedBook;
use std::alloc::Global;
use std::sync::Wait;
use std::thread::Threads;
use ticket_lock::{Pass, TicketLock};
use trace_command::{Config, Refusal};
use trace_script::LineRoom;
use trace_workers::Gate;

/// The status after one more item, which is no fault.
fn with_item(status: Status, item: Status) -> Status
    ensures refused { item ≡ Status.Refused → result ≡ Status.Refused }
    ensures other { item ≢ Status.Refused → result ≡ status }
{
    match item {
        Status::Refused => Status::Refused,
        _ => status,
    }
}

/// Runs the items of a script in order, up to its end or the first fault, and appends their output to the replies.
fn do_items<B: SharedBook + Send, R: Threads + Wait + Sync, W: Sink, G: Gate + Sync>(
    env: &Environment<'_, B, R, G>,
    pass: Pass<B>,
    script: &[u8],
    room: &mut LineRoom,
    replies: &mut Replies,
    writer: &mut W,
) -> Result<Status, Stop>
    requires of { IsOf env.now.lock.now pass }
    requires session { (g : Config) × IsSessionPass g (view_of pass) }
    requires begins { progress_of (view_of pass) ≡ beginning }
    requires short { length script.now ≤ MOST_SCRIPT_BYTES }
    requires none { replies.old ≡ [] }
    ensures ok { IfOk result (λ status. (g : Config) → IsSessionPass g (view_of pass)
        → PassesSession g (G.may_answer env.now.gate.now) W.wants_first script.now status
        (W.contents writer.old) (W.contents writer.new) replies.new (W.heard writer.old) (W.heard writer.new)) }
    ensures whole { IfOk result IsWhole }
    ensures failures { OnOk result (W.failures writer.new ≡ W.failures writer.old) }
    ensures memory { IsErrOf result Stop.Memory → (g : Config) → IsSessionPass g (view_of pass)
        → PassesBegun g (G.may_answer env.now.gate.now) W.wants_first script.now
        (W.contents writer.old) (W.contents writer.new) replies.new (W.heard writer.old) (W.heard writer.new) }
    ensures unfailed { IsErrOf result Stop.Memory → W.failures writer.new ≡ W.failures writer.old }
    ensures stopped { IsErrOf result Stop.Stopped → (g : Config) → IsSessionPass g (view_of pass)
        → PassesStopped g (G.may_answer env.now.gate.now) W.wants_first script.now
        (W.contents writer.old) (W.contents writer.new) replies.new (W.heard writer.old) (W.heard writer.new) }
    ensures unwritten { IsErrOf result Stop.Stopped → W.failures writer.new ≡ W.failures writer.old }
    ensures open { G.is_open env.now.gate.now ≡ true → IsErrOf result Stop.Stopped → ⊥ }
    ensures risen { IsErrOf result Stop.Device → HasRisen (W.failures writer.old) (W.failures writer.new) }
    ensures device { IsErrOf result Stop.Device → (g : Config) → IsSessionPass g (view_of pass)
        → AppendsBegunFront g (G.may_answer env.now.gate.now) W.wants_first script.now
        (W.contents writer.old) (W.contents writer.new) (W.heard writer.old) (W.heard writer.new) }
{
    let mut pass = pass;
    let mut rest = Some(script);
    let mut number = 1;
    let mut status = Status::Done;
    let mut pairs = Vec::new(env.alloc);
    while let Some(text) = rest {
        let Ok(next) = next_item(text, &mut pairs) else {
            return Err(Stop::Memory);
        };
        match next {
            NextItem::Emission(plain) => {
                let line = NumberedText {
                    number,
                    text: plain.line,
                };
                let (back, done) = do_command(env, pass, line, &plain.command, replies, writer);
                pass = back;
                status = with_item(status, done?);
                number += 1;
                rest = plain.rest;
                continue;
            }
            NextItem::Read(plain) => {
                let line = NumberedText {
                    number,
                    text: plain.line,
                };
                let (back, ran) = do_other_command(
                    env,
                    pass,
                    line,
                    &plain.command,
                    replies,
                    writer,
                );
                pass = back;
                status = with_item(status, ran?);
                number += 1;
                rest = plain.rest;
                continue;
            }
            NextItem::Other => {}
        }
        let mut others = Vec::new(env.alloc);
        let Ok(other) = other_item(env.alloc, room, &mut others, number, text) else {
            return Err(Stop::Memory);
        };
        let (back, done) = do_item(env, pass, number, other.item, replies, writer);
        pass = back;
        match done? {
            Status::Fault => return Ok(Status::Fault),
            item_status => status = with_item(status, item_status),
        }
        number = other.number;
        rest = other.rest;
    }
    Ok(status)
}

/// Runs the items of a script in order, up to its end or the first fault, and writes their output. Nothing is left in the buffer unless a device
/// failed.
fn do_script<B: SharedBook + Send, R: Threads + Wait + Sync, W: Sink, G: Gate + Sync>(
    env: &Environment<'_, B, R, G>,
    pass: Pass<B>,
    script: &[u8],
    writer: &mut W,
) -> Result<Status, Stop>
    requires of { IsOf env.now.lock.now pass }
    requires session { (g : Config) × IsSessionPass g (view_of pass) }
    requires begins { progress_of (view_of pass) ≡ beginning }
    requires short { length script.now ≤ MOST_SCRIPT_BYTES }
    ensures ok { IfOk result (λ status. (g : Config) → IsSessionPass g (view_of pass)
        → AppendsSession g (G.may_answer env.now.gate.now) W.wants_first script.now status
        (W.contents writer.old) (W.contents writer.new) (W.heard writer.old) (W.heard writer.new)) }
    ensures whole { IfOk result IsWhole }
    ensures failures { OnOk result (W.failures writer.new ≡ W.failures writer.old) }
    ensures memory { IsErrOf result Stop.Memory → (g : Config) → IsSessionPass g (view_of pass)
        → AppendsBegun g (G.may_answer env.now.gate.now) W.wants_first script.now
        (W.contents writer.old) (W.contents writer.new) (W.heard writer.old) (W.heard writer.new) }
    ensures unfailed { IsErrOf result Stop.Memory → W.failures writer.new ≡ W.failures writer.old }
    ensures stopped { IsErrOf result Stop.Stopped → (g : Config) → IsSessionPass g (view_of pass)
        → AppendsStopped g (G.may_answer env.now.gate.now) W.wants_first script.now
        (W.contents writer.old) (W.contents writer.new) (W.heard writer.old) (W.heard writer.new) }
    ensures unwritten { IsErrOf result Stop.Stopped → W.failures writer.new ≡ W.failures writer.old }
    ensures open { G.is_open env.now.gate.now ≡ true → IsErrOf result Stop.Stopped → ⊥ }
    ensures risen { IsErrOf result Stop.Device → HasRisen (W.failures writer.old) (W.failures writer.new) }
    ensures device { IsErrOf result Stop.Device → (g : Config) → IsSessionPass g (view_of pass)
        → AppendsBegunFront g (G.may_answer env.now.gate.now) W.wants_first script.now
        (W.contents writer.old) (W.contents writer.new) (W.heard writer.old) (W.heard writer.new) }
{
    let mut replies = Replies::new(env.alloc)?;
    let mut room = LineRoom::new(env.alloc);
    match do_items(env, pass, script, &mut room, &mut replies, writer) {
        Err(Stop::Device) => Err(Stop::Device),
        ran => {
            replies.flush(writer)?;
            ran
        }
    }
}

/// A new book under a lock whose first ticket is 0, and its root pass.
fn new_book<B: SharedBook>(alloc: Global, config: Config) -> Result<(TicketLock<B>, Pass<B>), Stop>
    requires { IsInRange config }
    ensures of { IfOk result (λ made. IsOf made.0 made.1) }
    ensures session { IfOk result (λ made. IsSessionPass config (view_of made.1)) }
    ensures begins { IfOk result (λ made. progress_of (view_of made.1) ≡ beginning) }
    ensures device { IsErrOf result Stop.Device → ⊥ }
    ensures stopped { IsErrOf result Stop.Stopped → ⊥ }
{
    // The configuration is in range, so only memory can be refused.
    let Ok(book) = B::start(alloc, config) else {
        return Err(Stop::Memory);
    };
    let made = TicketLock::starting_at(alloc, 0, book)?;
    Ok(made)
}

/// The session, or why it stopped.
fn attempt<B: SharedBook + Send, T: Threads + Wait + Sync, R: Source, W: Sink, G: Gate + Sync>(
    rt: &T,
    alloc: Global,
    config: Config,
    reader: &mut R,
    writer: &mut W,
    gate: &G,
) -> Result<Status, Stop>
    requires { IsInRange config }
    ensures session { IfOk result (λ status. GivesScript (R.given reader.old) (R.given reader.new) (R.remaining reader.old) (λ script.
        AppendsSession config (G.may_answer gate.now) W.wants_first script status
        (W.contents writer.old) (W.contents writer.new) (W.heard writer.old) (W.heard writer.new))) }
    ensures whole { IfOk result IsWhole }
    ensures end { OnOk result (IsAtEnd (R.remaining reader.new)) }
    ensures ended { OnOk result (R.has_ended reader.new ≡ true) }
    ensures short { OnOk result (
        GivesScript (R.given reader.old) (R.given reader.new) (R.remaining reader.old) (λ script. length script ≤ MOST_SCRIPT_BYTES)) }
    ensures reads { OnOk result (R.failures reader.new ≡ R.failures reader.old) }
    ensures writes { OnOk result (W.failures writer.new ≡ W.failures writer.old) }
    ensures memory { IsErrOf result Stop.Memory → IfSome (R.remaining reader.old) (λ script.
        AppendsBegun config (G.may_answer gate.now) W.wants_first script
        (W.contents writer.old) (W.contents writer.new) (W.heard writer.old) (W.heard writer.new)) }
    ensures begun { IsErrOf result Stop.Memory → Gives (R.given reader.old) (R.given reader.new) (λ script. (length script ≤ MOST_SCRIPT_BYTES)
        × AppendsBegun config (G.may_answer gate.now) W.wants_first script
        (W.contents writer.old) (W.contents writer.new) (W.heard writer.old) (W.heard writer.new)) }
    ensures unread { IsErrOf result Stop.Memory → R.failures reader.new ≡ R.failures reader.old }
    ensures unfailed { IsErrOf result Stop.Memory → W.failures writer.new ≡ W.failures writer.old }
    ensures consumed { IsErrOf result Stop.Memory
        → ConsumesAtMost MOST_SCRIPT_BYTES (R.remaining reader.old) (R.remaining reader.new) }
    ensures stopped { IsErrOf result Stop.Stopped → GivesScript (R.given reader.old) (R.given reader.new) (R.remaining reader.old) (λ script.
        AppendsStopped config (G.may_answer gate.now) W.wants_first script
        (W.contents writer.old) (W.contents writer.new) (W.heard writer.old) (W.heard writer.new)) }
    ensures open { G.is_open gate.now ≡ true → IsErrOf result Stop.Stopped → ⊥ }
    ensures stopped_end { IsErrOf result Stop.Stopped → IsAtEnd (R.remaining reader.new) }
    ensures stopped_ended { IsErrOf result Stop.Stopped → R.has_ended reader.new ≡ true }
    ensures stopped_short { IsErrOf result Stop.Stopped
        → GivesScript (R.given reader.old) (R.given reader.new) (R.remaining reader.old) (λ script. length script ≤ MOST_SCRIPT_BYTES) }
    ensures stopped_reads { IsErrOf result Stop.Stopped → R.failures reader.new ≡ R.failures reader.old }
    ensures stopped_writes { IsErrOf result Stop.Stopped → W.failures writer.new ≡ W.failures writer.old }
    ensures device { IsErrOf result Stop.Device → IfSome (R.remaining reader.old) (λ script.
        AppendsBegunFront config (G.may_answer gate.now) W.wants_first script
        (W.contents writer.old) (W.contents writer.new) (W.heard writer.old) (W.heard writer.new)) }
    ensures front { IsErrOf result Stop.Device → Gives (R.given reader.old) (R.given reader.new) (λ script.
        AppendsBegunFront config (G.may_answer gate.now) W.wants_first script
        (W.contents writer.old) (W.contents writer.new) (W.heard writer.old) (W.heard writer.new)) }
    ensures unwritten { IsErrOf result Stop.Device → (HasRisen (W.failures writer.old) (W.failures writer.new)
        × (R.failures reader.new ≡ R.failures reader.old)
        × GivesScript (R.given reader.old) (R.given reader.new) (R.remaining reader.old) (λ script. length script ≤ MOST_SCRIPT_BYTES))
        ⊎ Appends (W.contents writer.old) (W.contents writer.new) [] }
    ensures only { IsErrOf result Stop.Device → HasRisen (R.failures reader.old) (R.failures reader.new)
        ⊎ HasRisen (W.failures writer.old) (W.failures writer.new)
        ⊎ GivesMore MOST_SCRIPT_BYTES (R.given reader.old) (R.given reader.new) (R.remaining reader.old) }
{
    let (lock, root) = new_book::<B>(alloc, config)?;
    let script = read_script(alloc, reader)?;
    let env = Environment {
        rt,
        alloc,
        lock: &lock,
        gate,
    };
    do_script(&env, root, &script, writer)
}

/// Runs a session: reads a script to its end, runs its lines and parallel parts in order on a new book of type `B`, and writes their output. A part's threads run
/// concurrently; its output is written once all have ended.
///
/// With `Done`, `Refused` and `Fault`, output and status are those of a lawful session of the script (`IsSession`); without parallel parts there is
/// only one. With `Memory`, no device failed, and the output of the first items was written, each whole. With `Stopped`, the gate stopped a part, and
/// the output of the items before it was written; only with a gate that isn't open and a script with a part. With `Device`, a read or a write failed
/// or the script has over 16,777,216 bytes, and a prefix of a session's output was written, nothing if a read failed or the script is too long.
///
/// Of every reader and writer, a file or standard output too: the script is what the reads told that they gave (`GivesScript`), and an `Output` holds
/// what its writes told that they took. Out of memory or at a failure, what the reads gave may be a part of the script (`begun`, `front`).
///
/// The gate may have answered `true` at each command of the parts whose output counts here (`LetsGivenPass`), and `false` at one of the part at which
/// it stopped. A writer that states what it heard has heard of each item written, in order, and of no other (`HearsAll`); with `Device`, of the first.
///
/// It waits for turns and threads, so it is not promised that it returns.
pub fn run_session<
    B: SharedBook + Send,
    T: Threads + Wait + Sync,
    R: Source,
    W: Sink,
    G: Gate + Sync,
>(rt: &T, alloc: Global, config: Config, reader: &mut R, writer: &mut W, gate: &G) -> Status
    requires { IsInRange config }

    // With memory and without failures: a lawful session of the bytes read, whose parts the gate let pass, and of which the writer has heard.
    ensures session { IsWhole result → GivesScript (R.given reader.old) (R.given reader.new) (R.remaining reader.old) (λ script.
        AppendsSession config (G.may_answer gate.now) W.wants_first script result
        (W.contents writer.old) (W.contents writer.new) (W.heard writer.old) (W.heard writer.new)) }
    ensures end { IsRead result → IsAtEnd (R.remaining reader.new) }
    ensures ended { IsRead result → R.has_ended reader.new ≡ true }
    ensures short { IsRead result
        → GivesScript (R.given reader.old) (R.given reader.new) (R.remaining reader.old) (λ script. length script ≤ MOST_SCRIPT_BYTES) }
    ensures failures { IsRead result
        → (R.failures reader.new ≡ R.failures reader.old) × (W.failures writer.new ≡ W.failures writer.old) }

    // Stopped by the gate at a part, in which it may answer `false`: the output of the items before it was written, and none of the part's. A script
    // without parts is never stopped.
    ensures stopped { result ≡ Status.Stopped → GivesScript (R.given reader.old) (R.given reader.new) (R.remaining reader.old) (λ script.
        AppendsStopped config (G.may_answer gate.now) W.wants_first script
        (W.contents writer.old) (W.contents writer.new) (W.heard writer.old) (W.heard writer.new)) }
    ensures part { result ≡ Status.Stopped
        → GivesScript (R.given reader.old) (R.given reader.new) (R.remaining reader.old) (λ script. HasNoPart script → ⊥) }
    ensures open { G.is_open gate.now ≡ true → result ≢ Status.Stopped }

    // Out of memory: no device failed, and the script was not seen to be too long.
    ensures memory { result ≡ Status.Memory → IfSome (R.remaining reader.old) (λ script.
        AppendsBegun config (G.may_answer gate.now) W.wants_first script
        (W.contents writer.old) (W.contents writer.new) (W.heard writer.old) (W.heard writer.new)) }
    ensures begun { result ≡ Status.Memory → Gives (R.given reader.old) (R.given reader.new) (λ script. (length script ≤ MOST_SCRIPT_BYTES)
        × AppendsBegun config (G.may_answer gate.now) W.wants_first script
        (W.contents writer.old) (W.contents writer.new) (W.heard writer.old) (W.heard writer.new)) }
    ensures unfailed { result ≡ Status.Memory
        → (R.failures reader.new ≡ R.failures reader.old) × (W.failures writer.new ≡ W.failures writer.old) }
    ensures consumed { result ≡ Status.Memory
        → ConsumesAtMost MOST_SCRIPT_BYTES (R.remaining reader.old) (R.remaining reader.new) }

    // A failure, or a script that is too long.
    ensures device { result ≡ Status.Device → IfSome (R.remaining reader.old) (λ script.
        AppendsBegunFront config (G.may_answer gate.now) W.wants_first script
        (W.contents writer.old) (W.contents writer.new) (W.heard writer.old) (W.heard writer.new)) }
    ensures front { result ≡ Status.Device → Gives (R.given reader.old) (R.given reader.new) (λ script.
        AppendsBegunFront config (G.may_answer gate.now) W.wants_first script
        (W.contents writer.old) (W.contents writer.new) (W.heard writer.old) (W.heard writer.new)) }
    ensures unwritten { result ≡ Status.Device → (HasRisen (W.failures writer.old) (W.failures writer.new)
        × (R.failures reader.new ≡ R.failures reader.old)
        × GivesScript (R.given reader.old) (R.given reader.new) (R.remaining reader.old) (λ script. length script ≤ MOST_SCRIPT_BYTES))
        ⊎ Appends (W.contents writer.old) (W.contents writer.new) [] }
    ensures only { result ≡ Status.Device → HasRisen (R.failures reader.old) (R.failures reader.new)
        ⊎ HasRisen (W.failures writer.old) (W.failures writer.new)
        ⊎ GivesMore MOST_SCRIPT_BYTES (R.given reader.old) (R.given reader.new) (R.remaining reader.old) }
{
    match attempt::<B, _, _, _, _>(rt, alloc, config, reader, writer, gate) {
        Ok(status) => status,
        Err(Stop::Memory) => Status::Memory,
        Err(Stop::Device) => Status::Device,
        Err(Stop::Stopped) => Status::Stopped,
    }
}
