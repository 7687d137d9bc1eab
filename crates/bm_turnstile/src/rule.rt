//! The rule of the tickets, and what each step on the table shows its seat.
ghost use Rattle.bm_turnstile.specs.Inside.Rule.{Kept, Advances, Draws, Looks};
ghost use Rattle.bm_turnstile.specs.Views.{first_view, gave, joined, new_view, spent_view};

use crate::booked::Booked;
use crate::view::View;
use atomic_table::{Join, Play, Seat, Split, TableRule};
use std::marker::PhantomData;
use std::snapshot::Snapshot;

/// A seat's place at the table.
pub type Place<T> = Seat<Option<T>, View<<T as Booked>::Fixed, <T as Booked>::Entry>>;

/// What holds between any two steps.
pub struct TicketRule<T> {
    state: PhantomData<T>,
}

impl<T: Booked> TableRule<Option<T>, View<T::Fixed, T::Entry>, Snapshot<T>> for TicketRule<T> {
    ghost holds = { λ key. Kept T.entries T.fixed T.replays T.seat_of (T.fixed key.value) };

    ghost first = { λ key. first_view (T.fixed key.value) };
}

/// A ticket is drawn.
pub struct Draw;

impl<T, X, E> Play<Option<T>, View<X, E>> for Draw {
    ghost then = { Draws };
}

/// The number of the ticket being served is read; if it is the seat's, the state is taken.
pub struct Look<T> {
    state: PhantomData<T>,
}

impl<T: Booked> Play<Option<T>, View<T::Fixed, T::Entry>> for Look<T> {
    ghost then = { Looks T.entries T.fixed T.replays T.seat_of };
}

/// The state goes back, and the next ticket is served.
pub struct Advance<T> {
    state: PhantomData<T>,
}

impl<T: Booked> Play<Option<T>, View<T::Fixed, T::Entry>> for Advance<T> {
    ghost then = { Advances T.entries };
}

/// The first seat gives the next number.
pub struct Give;

impl<X, E> Split<View<X, E>> for Give {
    ghost left = { gave };

    ghost right = { new_view };
}

/// The first seat takes over what another has seen.
pub struct TakeOver;

impl<X, E> Join<View<X, E>> for TakeOver {
    ghost both = { joined };

    ghost spent = { spent_view };
}
