//! A lock that serves its callers in the order of their tickets, over a table of two words and one slot.
//!
//! NEXT is the ticket that is drawn next, SERVING the one that is served, and the slot has the value while nobody holds it. Two callers, a and b:
//!
//! ```text
//!                           NEXT   SERVING   slot
//!   nobody is in line         7       7      value
//!   a draws 7                 8       7      value
//!   a enters                  8       7        -       b finds somebody in line, and waits
//!   a leaves                  8       8      value     the value is home before 8 is served
//!   b draws 8                 9       8      value
//!   b enters                  9       8        -
//! ```
//!
//! Only the caller whose ticket is served touches the slot, so its exchanges need no care of their own. Tickets rise, a holder adds at most one entry,
//! of its own ticket, and the value is home before the next ticket is served: so the list of entries grows in the order of the tickets, and each
//! caller finds all that was added before it.
//!
//! A pass that finds nobody in line, and then draws the ticket that it found, is served at once. Only `try_draw` draws while others are in line: a
//! ticket fixes who comes next, so a thread that has one and isn't running stops all others. One that waits without a ticket stops nobody.
ghost use Rattle.std.specs.Prelude.{◌≡◌, ◌↔◌, ◌+◌, ◌<◌, ◌≤◌, ◌^◌, [], ◌∷◌, All, AllPairs, Some, IfOk, IfErr, IfSome, IfNone, IsOk, IsSome, MatchResult, Box, false};
ghost use Rattle.std.specs.declared.alloc.Global.{Global};
ghost use Rattle.ticket_lock.specs.Entries.{IsBefore};

use crate::drawn::Drawn;
use crate::entries::Logged;
use crate::moves::{Draws, Enters, Halves, Leaves, Line, Looks, Meets, Watches};
use crate::passes::{Pass, PassSeat, TryAcquireError, Worn};
use crate::turns::{Held, Turn};
use crate::views::{Opening, View};
use atomic_table::{Refused, Table};
use crossbeam_utils::Backoff;
use std::alloc::{AllocFailed, Global};
use std::fmt;
use std::fmt::{Debug, Formatter};
use std::snapshot::Snapshot;
use std::sync::Wait;

// The word with the number of tickets drawn: the next ticket.
const NEXT: usize = 0;

// The word with the ticket that is served.
const SERVING: usize = 1;

// The slot with the value.
const SLOT: usize = 0;

// The number of callers.
const CALLERS: u32 = 65536;

// No ticket is drawn from here on.
const LAST: u64 = 1 << 63;

/// A lock that serves its callers in the order in which they draw their tickets.
#[derive(Drop)]
pub struct TicketLock<T: Logged> {
    table: Table<Option<Box<T>>, View<T::Entry>, Opening<T>, Line, Global>,
    ghost words: { table.shared.table_id.words ≡ 2 },
    ghost slots: { table.shared.table_id.slots ≡ 1 },
}

// The value of the one slot.
fn only<T>(mut slots: Vec<Option<T>>) -> T
    requires { (value : T) × (slots.items ≡ Some value ∷ []) }
    ensures { slots.items ≡ Some result ∷ [] }
{
    let last = slots.pop();
    slots.destroy_empty();
    let Some(Some(value)) = last else {
        unreachable!()
    };
    value
}

// One slot with the value in a box. The value comes back where there is no memory.
fn one_slot<T>(alloc: Global, value: T) -> Result<Vec<Option<Box<T>>>, AllocFailed<T>>
    ensures ok { IfOk result (λ slots. (boxed : Box T Global) × (slots.items ≡ Some boxed ∷ []) × (boxed.value ≡ value)) }
    ensures err { IfErr result (λ e. e.value ≡ value) }
{
    let boxed = Box::new(alloc, value)?;
    let mut slots = Vec::new(alloc);
    if let Err(AllocFailed { value }) = slots.push(Some(boxed)) {
        slots.destroy_empty();
        let Some(boxed) = value else { unreachable!() };
        return Err(AllocFailed {
            value: Box::into_inner(boxed),
        });
    }
    Ok(slots)
}

impl<T: Logged> TicketLock<T> {
    ghost use Rattle.ticket_lock.specs.Views.{HasAllNames};
    ghost use Rattle.ticket_lock.specs.Boxes.{inside};
    ghost use Rattle.ticket_lock.specs.private.Entered.{HasDrawn, HasEntered};
    ghost use Rattle.ticket_lock.specs.declared.views.Stage.TheVariants.{Idle, Waiting};
    ghost use Rattle.ticket_lock.specs.declared.views.View.{View};
    ghost use Rattle.ticket_lock.specs.Calls.{view_of, drawn_view, drawn_ticket, held_view, held_ticket, held_value, IsOf, IsTicketOf, IsTurnOf, IsRoot, AreHalves, IsMet, IsDrawn, Finds, MayLeave, IsBack, IsWorn, HasLooked, HasFailed, pass_of};

    /// A lock whose first ticket is `first`, and its root pass, which has all callers' numbers from 0 to 65,535. The
    /// value comes back where there is no memory.
    pub fn starting_at(
        alloc: Global,
        first: u64,
        value: T,
    ) -> Result<(TicketLock<T>, Pass<T>), AllocFailed<T>>
        requires first { first ≤ 2 ^ 63 }
        requires rising { AllPairs (IsBefore T.ticket) (T.entries value) }
        requires below { All (λ e. T.ticket e < first) (T.entries value) }
        requires callers { All (λ e. T.by e < 65536) (T.entries value) }
        ensures of { IfOk result (λ r. IsOf r.0 r.1) }
        ensures root { IfOk result (λ r. IsRoot (T.entries value) (T.base value) first (view_of r.1)) }
        ensures err { IfErr result (λ e. e.value ≡ value) }
    {
        let opening = Opening {
            first,
            value: Snapshot::of(&value),
        };
        let slots = one_slot(alloc, value)?;
        match Table::new(alloc, &[first, first], slots, &opening) {
            Ok((table, seat)) => {
                let pass = Pass {
                    seat,
                    low: 0,
                    end: CALLERS,
                };
                Ok((TicketLock { table }, pass))
            }
            Err(Refused { slots }) => Err(AllocFailed {
                value: Box::into_inner(only(slots)),
            }),
        }
    }

    /// Cuts a pass's names into two halves, the lower one first, each in a pass of its own that knows what the pass knew.
    /// Of an odd number of names the upper half has one more. A pass with one name comes back.
    pub fn split(&self, pass: Pass<T>) -> Result<(Pass<T>, Pass<T>), Pass<T>>
        requires { IsOf self.now pass }
        ensures ok { IsOk result ↔ ((view_of pass).low + 1 < (view_of pass).end) }
        ensures of { MatchResult result (λ h. IsOf self.now h.0 × IsOf self.now h.1) (λ p. IsOf self.now p) }
        ensures halves { IfOk result (λ h. AreHalves (view_of pass) (view_of h.0) (view_of h.1)) }
        ensures err { IfErr result (λ p. view_of p ≡ view_of pass) }
    {
        let Pass { mut seat, low, end } = pass;
        if end - low < 2 {
            return Err(Pass { seat, low, end });
        }
        let middle = low + (end - low) / 2;
        let upper = self.table.shared.split_seat::<Halves>(&mut seat);
        let lower = Pass {
            seat,
            low,
            end: middle,
        };
        Ok((
            lower,
            Pass {
                seat: upper,
                low: middle,
                end,
            },
        ))
    }

    /// One pass with the names of both, of which the second's begin where the first's end. It has seen the more of
    /// what both had seen.
    pub fn join(&self, first: Pass<T>, second: Pass<T>) -> Pass<T>
        requires first { IsOf self.now first }
        requires second { IsOf self.now second }
        requires adjacent { (view_of first).end ≡ (view_of second).low }
        ensures of { IsOf self.now result }
        ensures met { IsMet T.ticket T.by (view_of first) (view_of second) (view_of result) }
    {
        let Pass { mut seat, low, .. } = first;
        let Pass {
            seat: other,
            end,
            ..
        } = second;
        self.table.shared.join_seat::<Meets>(&mut seat, other);
        self.table.shared.load::<Looks<T>>(&mut seat, NEXT);
        Pass { seat, low, end }
    }

    /// Waits until nobody is in line, draws a ticket, and takes the value once that ticket is served. The pass comes back
    /// where all tickets are drawn.
    #[inline(always)]
    pub fn acquire<R: Wait>(&self, rt: &R, pass: Pass<T>) -> Result<Held<T>, Worn<T>>
        requires { IsOf self.now pass }
        ensures of { MatchResult result (λ h. IsTurnOf self.now h) (λ w. IsOf self.now w.pass) }
        ensures drawn { IfOk result (λ h. IsDrawn (view_of pass) (held_view h) (held_ticket h)) }
        ensures finds { IfOk result (λ h. Finds T.ticket T.by (view_of pass) (held_ticket h) (held_view h).seen) }
        ensures entries { IfOk result (λ h. T.entries (held_value h) ≡ (held_view h).seen) }
        ensures base { IfOk result (λ h. T.base (held_value h) ≡ (view_of pass).base) }
        ensures worn { IfErr result (λ w. IsWorn (view_of pass) (view_of w.pass)) }
    {
        let Pass { mut seat, low, end } = pass;
        let Some(ticket) = self.wait_and_draw(rt, &mut seat) else {
            return Err(Worn {
                pass: Pass { seat, low, end },
            });
        };
        let Some(value) = self.enter(&mut seat, ticket) else {
            unreachable!()
        };
        let turn = Turn {
            seat,
            low,
            end,
            ticket,
        };
        Ok(Held { turn, value })
    }

    /// Draws a ticket if nobody is in line, so that it is served at once, and takes the value. It waits for nobody.
    #[inline(always)]
    pub fn try_acquire(&self, pass: Pass<T>) -> Result<Held<T>, TryAcquireError<T>>
        requires { IsOf self.now pass }
        ensures of { MatchResult result (λ h. IsTurnOf self.now h) (λ e. IsOf self.now (pass_of e)) }
        ensures drawn { IfOk result (λ h. IsDrawn (view_of pass) (held_view h) (held_ticket h)) }
        ensures finds { IfOk result (λ h. Finds T.ticket T.by (view_of pass) (held_ticket h) (held_view h).seen) }
        ensures entries { IfOk result (λ h. T.entries (held_value h) ≡ (held_view h).seen) }
        ensures base { IfOk result (λ h. T.base (held_value h) ≡ (view_of pass).base) }
        ensures failed { IfErr result (λ e. HasFailed (view_of pass) e) }
    {
        let Pass { mut seat, low, end } = pass;
        match self.draw(&mut seat, false) {
            Ok(ticket) => {
                let Some(value) = self.enter(&mut seat, ticket) else {
                    unreachable!()
                };
                let turn = Turn {
                    seat,
                    low,
                    end,
                    ticket,
                };
                Ok(Held { turn, value })
            }
            Err(next) => Err(TicketLock::failed(Pass { seat, low, end }, next)),
        }
    }

    /// Draws a ticket though others may be in line, whose turns come first. It waits for nobody, and is busy only where
    /// another draws at the same moment.
    #[inline(always)]
    pub fn try_draw(&self, pass: Pass<T>) -> Result<Drawn<T>, TryAcquireError<T>>
        requires { IsOf self.now pass }
        ensures of { MatchResult result (λ d. IsTicketOf self.now d) (λ e. IsOf self.now (pass_of e)) }
        ensures looked { IfOk result (λ d. HasLooked (view_of pass) (drawn_view d)) }
        ensures failed { IfErr result (λ e. HasFailed (view_of pass) e) }
    {
        let Pass { mut seat, low, end } = pass;
        match self.draw(&mut seat, true) {
            Ok(ticket) => Ok(Drawn {
                seat,
                low,
                end,
                ticket,
            }),
            Err(next) => Err(TicketLock::failed(Pass { seat, low, end }, next)),
        }
    }

    /// Takes the value if the ticket is served; otherwise the ticket comes back as it was. It waits for nobody.
    #[inline(always)]
    pub fn try_enter(&self, drawn: Drawn<T>) -> Result<Held<T>, Drawn<T>>
        requires { IsTicketOf self.now drawn }
        ensures of { MatchResult result (λ h. IsTurnOf self.now h) (λ d. IsTicketOf self.now d) }
        ensures ticket { IfOk result (λ h. held_ticket h ≡ drawn_ticket drawn) }
        ensures drawn { IfOk result (λ h. IsDrawn (drawn_view drawn) (held_view h) (held_ticket h)) }
        ensures finds { IfOk result (λ h. Finds T.ticket T.by (drawn_view drawn) (held_ticket h) (held_view h).seen) }
        ensures entries { IfOk result (λ h. T.entries (held_value h) ≡ (held_view h).seen) }
        ensures base { IfOk result (λ h. T.base (held_value h) ≡ (drawn_view drawn).base) }
        ensures err { IfErr result (λ d. (drawn_view d ≡ drawn_view drawn) × (drawn_ticket d ≡ drawn_ticket drawn)) }
    {
        let Drawn {
            mut seat,
            low,
            end,
            ticket,
        } = drawn;
        let Some(value) = self.enter(&mut seat, ticket) else {
            return Err(Drawn {
                seat,
                low,
                end,
                ticket,
            });
        };
        let turn = Turn {
            seat,
            low,
            end,
            ticket,
        };
        Ok(Held { turn, value })
    }

    // Why no ticket was drawn, by what was found in NEXT.
    fn failed(pass: Pass<T>, next: u64) -> TryAcquireError<T>
        requires { (view_of pass).front ≡ next }
        ensures pass { pass_of result ≡ pass }
        ensures failed { (v : View T.Entry) → HasLooked v (view_of pass) → HasFailed v result }
    {
        if next < LAST {
            TryAcquireError::Busy(pass)
        } else {
            TryAcquireError::Worn(Worn { pass })
        }
    }

    // Draws a ticket while nobody is in line, however long it takes, if one is left. Most often nobody is in line.
    fn wait_and_draw<R: Wait>(&self, rt: &R, seat: &mut PassSeat<T>) -> Option<u64>
        requires of { seat.old.table_id ≡ self.now.table.shared.table_id }
        requires idle { seat.old.me.0.stage ≡ Idle }
        ensures of { seat.new.table_id ≡ seat.old.table_id }
        ensures slots { seat.new.me.1 ≡ seat.old.me.1 }
        ensures some { IfSome result (λ n. HasDrawn seat.old.me.0 seat.new.me.0 n × (n ≤ seat.new.me.0.watched)) }
        ensures none { IfNone result (IsWorn seat.old.me.0 seat.new.me.0) }
    {
        match self.draw(seat, false) {
            Ok(ticket) => Some(ticket),
            Err(_) => self.draw_later(rt, seat),
        }
    }

    // As `wait_and_draw`, of a pass that has tried.
    #[cold]
    #[inline(never)]
    fn draw_later<R: Wait>(&self, rt: &R, seat: &mut PassSeat<T>) -> Option<u64>
        requires of { seat.old.table_id ≡ self.now.table.shared.table_id }
        requires idle { seat.old.me.0.stage ≡ Idle }
        ensures of { seat.new.table_id ≡ seat.old.table_id }
        ensures slots { seat.new.me.1 ≡ seat.old.me.1 }
        ensures some { IfSome result (λ n. HasDrawn seat.old.me.0 seat.new.me.0 n × (n ≤ seat.new.me.0.watched)) }
        ensures none { IfNone result (IsWorn seat.old.me.0 seat.new.me.0) }
    {
        let backoff = Backoff::new();
        for _ in rt.forever() {
            match self.draw(seat, false) {
                Ok(ticket) => return Some(ticket),
                Err(next) if next >= LAST => return None,
                Err(_) => backoff.snooze(),
            }
        }
        unreachable!()
    }

    // Draws a ticket if one is left and nobody is in line, or the pass may stand in line. Otherwise what it found in NEXT.
    fn draw(&self, seat: &mut PassSeat<T>, in_line: bool) -> Result<u64, u64>
        requires of { seat.old.table_id ≡ self.now.table.shared.table_id }
        requires idle { seat.old.me.0.stage ≡ Idle }
        ensures of { seat.new.table_id ≡ seat.old.table_id }
        ensures slots { seat.new.me.1 ≡ seat.old.me.1 }
        ensures ok { IfOk result (λ n. HasDrawn seat.old.me.0 seat.new.me.0 n) }
        ensures first { in_line ≡ false → IfOk result (λ n. n ≤ seat.new.me.0.watched) }
        ensures err { IfErr result (λ n. HasLooked seat.old.me.0 seat.new.me.0 × (seat.new.me.0.front ≡ n) × (n ≤ 2 ^ 63)) }
    {
        let shared = &self.table.shared;
        let next = shared.load::<Looks<T>>(seat, NEXT);
        if next >= LAST {
            return Err(next);
        }
        let serving = shared.load::<Watches<T>>(seat, SERVING);
        if serving < next && !in_line {
            return Err(next);
        }
        let found = shared.compare_exchange::<Draws<T>>(seat, NEXT, next, next + 1);
        if found != next {
            return Err(found);
        }
        Ok(next)
    }

    // Takes the value out of its slot if the ticket is served, as one is that was drawn while nobody was in line.
    fn enter(&self, seat: &mut PassSeat<T>, ticket: u64) -> Option<Box<T>>
        requires of { seat.old.table_id ≡ self.now.table.shared.table_id }
        requires waiting { seat.old.me.0.stage ≡ Waiting ticket }
        requires slots { seat.old.me.1 ≡ [] }
        ensures of { seat.new.table_id ≡ seat.old.table_id }
        ensures first { ticket ≤ seat.old.me.0.watched → IsSome result }
        ensures some { IfSome result (λ value. HasEntered (inside T.entries) (inside T.base) T.ticket T.by seat.old.me.0 seat.new.me value) }
        ensures none { IfNone result (seat.new.me ≡ seat.old.me) }
    {
        let serving = self.table.shared.load::<Enters<T>>(seat, SERVING);
        if serving != ticket {
            return None;
        }
        let slot = self.table.shared.exchange(seat, SLOT, None);
        let Some(value) = slot else { unreachable!() };
        Some(value)
    }

    /// Puts the value back and serves the next ticket. It waits for nobody.
    ///
    /// The value has to have the base that was found, and the entries that were found; one may stand behind them, of the
    /// turn's ticket and under the pass's first name.
    pub fn release(&self, held: Held<T>) -> Pass<T>
        requires of { IsTurnOf self.now held }
        requires base { T.base (held_value held) ≡ (held_view held).base }
        requires entries { MayLeave T.ticket T.by (held_view held) (held_ticket held) (T.entries (held_value held)) }
        ensures of { IsOf self.now result }
        ensures back { IsBack (held_view held) (view_of result) (T.entries (held_value held)) }
    {
        let Held { turn, value } = held;
        let Turn {
            mut seat,
            low,
            end,
            ticket,
        } = turn;
        let before = self.table.shared.exchange(&mut seat, SLOT, Some(value));
        let None = before else { unreachable!() };
        self.table
            .shared
            .store::<Leaves<T>>(&mut seat, SERVING, ticket + 1);
        Pass { seat, low, end }
    }

    /// Ends the lock and gives its value, by the pass that has all names.
    pub fn close(self, pass: Pass<T>) -> T
        requires of { IsOf self pass }
        requires all_names { HasAllNames (view_of pass) }
        ensures entries { T.entries result ≡ (view_of pass).seen }
        ensures base { T.base result ≡ (view_of pass).base }
        ensures rising { AllPairs (IsBefore T.ticket) (T.entries result) }
        ensures callers { All (λ e. T.by e < 65536) (T.entries result) }
    {
        let TicketLock { table } = self;
        let Pass { seat, .. } = pass;
        let mut closed = table.close_with(seat);
        let slot = closed.take(SLOT);
        closed.free();
        let Some(value) = slot else { unreachable!() };
        Box::into_inner(value)
    }
}

impl<T: Logged> Debug for TicketLock<T> {
    fn fmt<W: fmt::Write>(&self, f: &mut Formatter<W>) -> fmt::Result {
        f.pad("TicketLock { .. }")
    }
}
