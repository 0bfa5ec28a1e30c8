//! The lock's rule and its kinds of move, as the table under the lock is told them.
use crate::entries::Logged;
use crate::views::{Opening, View};
use atomic_table::{Join, Play, Split, TableRule};
use std::marker::PhantomData;

/// The line of those who wait. It keeps the rule of the lock between any two steps.
pub struct Line;

impl<T: Logged> TableRule<Option<Box<T>>, View<T::Entry>, Opening<T>> for Line {
    ghost use Rattle.ticket_lock.specs.Boxes.{inside};
    ghost use Rattle.ticket_lock.specs.Rule.{IsSound};
    ghost use Rattle.ticket_lock.specs.Moves.{root};

    ghost holds = { λ opening. IsSound (inside T.entries) (inside T.base) T.ticket T.by (T.base opening.value.value) };

    ghost first = { λ opening. root (T.entries opening.value.value) (T.base opening.value.value) opening.first };
}

/// A look at NEXT.
pub struct Looks<T> {
    of: PhantomData<T>,
}

impl<T: Logged> Play<Option<Box<T>>, View<T::Entry>> for Looks<T> {
    ghost use Rattle.ticket_lock.specs.Boxes.{inside};
    ghost use Rattle.ticket_lock.specs.Moves.{looks};

    ghost then = { looks (inside T.entries) (inside T.base) T.ticket T.by };
}

/// A look at SERVING, by which a pass that asks for nothing sees whether somebody is in line.
pub struct Watches<T> {
    of: PhantomData<T>,
}

impl<T: Logged> Play<Option<Box<T>>, View<T::Entry>> for Watches<T> {
    ghost use Rattle.ticket_lock.specs.Moves.{watches};

    ghost then = { watches };
}

/// A try to draw a ticket.
pub struct Draws<T> {
    of: PhantomData<T>,
}

impl<T: Logged> Play<Option<Box<T>>, View<T::Entry>> for Draws<T> {
    ghost use Rattle.ticket_lock.specs.Boxes.{inside};
    ghost use Rattle.ticket_lock.specs.Moves.{draws};

    ghost then = { draws (inside T.entries) (inside T.base) T.ticket T.by };
}

/// A look at SERVING, by which a pass whose ticket is served enters.
pub struct Enters<T> {
    of: PhantomData<T>,
}

impl<T: Logged> Play<Option<Box<T>>, View<T::Entry>> for Enters<T> {
    ghost use Rattle.ticket_lock.specs.Boxes.{inside};
    ghost use Rattle.ticket_lock.specs.Moves.{enters};

    ghost then = { enters (inside T.entries) (inside T.base) T.ticket T.by };
}

/// A store to SERVING, by which the holder puts the value home.
pub struct Leaves<T> {
    of: PhantomData<T>,
}

impl<T: Logged> Play<Option<Box<T>>, View<T::Entry>> for Leaves<T> {
    ghost use Rattle.ticket_lock.specs.Boxes.{inside};
    ghost use Rattle.ticket_lock.specs.Moves.{leaves};

    ghost then = { leaves (inside T.entries) (inside T.base) T.ticket T.by };
}

/// A split of a pass into two halves.
pub struct Halves;

impl<E> Split<View<E>> for Halves {
    ghost use Rattle.ticket_lock.specs.Moves.{lower_half, upper_half};

    ghost left = { lower_half };

    ghost right = { upper_half };
}

/// A join of two passes.
pub struct Meets;

impl<E> Join<View<E>> for Meets {
    ghost use Rattle.ticket_lock.specs.Moves.{joined, spent};

    ghost both = { joined };

    ghost spent = { spent };
}
