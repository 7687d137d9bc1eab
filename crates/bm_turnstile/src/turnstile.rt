//! The turnstile: a state that seats call in the order of their tickets.
ghost use Rattle.std.specs.Prelude.{◌≡◌, ℕ, ◌+◌, ◌<◌, Some, [], ◌++◌, length, slice_get, map};
ghost use Rattle.std.specs.Prelude.{IfOk, OnErr};
ghost use Rattle.bm_turnstile.specs.Seen.{AllBelow, Covers, SeesMore, Turned, own};
ghost use Rattle.bm_turnstile.specs.Sittings.{IsFresh, IsPost, post, who};
ghost use Rattle.bm_turnstile.specs.Replies.{AddsReply, replies, replies_to};
ghost use Rattle.bm_turnstile.specs.Views.{AllIn, IsIdle, NewFrom, SeatsCover, SeatsFrom};
ghost use Rattle.bm_turnstile.specs.Views.{fixed_of, given_of, new_sitting, old_of};

use crate::booked::Booked;
use crate::rule::Place;
use crate::seat::TurnSeat;
use crate::tickets::{Tickets, alone};
use bm_base::Memory;
use std::alloc::Global;
use std::marker::Model;
use std::sync::Wait;

/// A state that seats call, one call at a time, in the order of their tickets. Contracts see which
/// turnstile it is.
#[derive(Drop)]
pub struct Turnstile<T: Booked + Drop> {
    tickets: Tickets<T>,
}

impl<T: Booked + Drop> Model for Turnstile<T> {
    ghost use Rattle.atomic_table.specs.Seated.{TableId, table_id_coded};

    ghost Value = { TableId };

    ghost coded = { table_id_coded };

    ghost view = { λ t. t.tickets.table.shared.table_id };
}

impl<T: Booked + Drop> Turnstile<T> {
    /// A turnstile for a state with an empty book, and `seats` seats, numbered from 0, which have
    /// seen nothing. `Memory` where memory was refused; the state is then dropped.
    pub fn new(
        alloc: Global,
        state: T,
        seats: u16,
    ) -> Result<(Turnstile<T>, Vec<TurnSeat<T>>), Memory>
        requires seats { 0 < seats }
        requires empty { T.entries state ≡ [] }
        requires replays { T.replays (T.fixed state) [] }
        ensures count { IfOk result (λ t. length t.1.items ≡ seats) }
        ensures each { IfOk result (λ t. (k : ℕ) (s : _) → slice_get t.1.items k ≡ Some s
            → IsFresh s × (who s ≡ post t.0 (Some (T.fixed state)) seats k)) }
    {
        Turnstile::seated(alloc, state, seats)
    }

    fn seated(
        alloc: Global,
        state: T,
        seats: u16,
    ) -> Result<(Turnstile<T>, Vec<TurnSeat<T>>), Memory>
        requires seats { 0 < seats }
        requires empty { T.entries state ≡ [] }
        requires replays { T.replays (T.fixed state) [] }
        ensures count { IfOk result (λ t. length t.1.items ≡ seats) }
        ensures given { IfOk result (λ t. given_of t.1.items ≡ seats) }
        ensures new { IfOk result (λ t. NewFrom (T.fixed state) 0 t.1.items) }
        ensures own { IfOk result (λ t. AllIn (λ s. s.table ≡ t.0) t.1.items) }
    {
        let (tickets, place) = Tickets::open(alloc, state)?;
        let mut all = alone(alloc, TurnSeat { place, number: 0 })?;
        for number in 1..seats {
            let seat = another(&tickets, &mut all[0], number);
            all.push(seat)?;
        }
        Ok((Turnstile { tickets }, all))
    }

    /// Waits until the seat's ticket is served, and makes the call. After `Ok` the seat has seen
    /// what it had seen before, then calls of other seats, and then its own; the reply is what the
    /// book gives after the entries before that. `Memory` where memory was refused; no call was
    /// made, and the seat may have seen more.
    pub fn turn<R: Wait>(
        &self,
        rt: &R,
        seat: &mut TurnSeat<T>,
        call: T::Call,
    ) -> Result<T::Reply, Memory>
        requires own { seat.old.table ≡ self.now }
        requires few { seat.old.turns < 4294967295 }
        requires taken { (about : _) → seat.old.fixed ≡ Some about → T.takes about call }
        ensures who { who seat.new ≡ who seat.old }
        ensures turns { seat.new.turns ≡ seat.old.turns + 1 }
        ensures ok { IfOk result (Turned T.seat_of T.call_of T.reply seat.old seat.new call) }
        ensures memory { OnErr result (SeesMore T.seat_of seat.old seat.new) }
        ensures replies { AddsReply T.seat_of T.call_of T.reply seat.old seat.new call result }
    {
        let number = seat.number;
        self.tickets.turn(rt, &mut seat.place, number, call)
    }

    /// Takes all seats back, in the order of their numbers, and returns the state. What each seat
    /// had seen is a prefix of the book's entries, and the book has exactly the calls and replies
    /// of each seat.
    pub fn close(self, seats: Vec<TurnSeat<T>>) -> T
        requires some { 0 < length seats.items }
        requires each { (k : ℕ) (s : _) → slice_get seats.items k ≡ Some s
            → IsPost self (length seats.items) k (who s) }
        ensures seen { (k : ℕ) (s : _) → slice_get seats.items k ≡ Some s
            → Covers T.seat_of k s.seen (T.entries result) }
        ensures own { (k : ℕ) (s : _) → slice_get seats.items k ≡ Some s
            → own T.seat_of k (T.entries result) ≡ own T.seat_of k s.seen }
        ensures replies { (k : ℕ) (s : _) → slice_get seats.items k ≡ Some s
            → replies T.seat_of T.call_of T.reply s.fixed k (T.entries result)
            ≡ replies_to T.seat_of T.call_of T.reply s }
        ensures below { AllBelow T.seat_of (length seats.items) (T.entries result) }
        ensures replays { T.replays (T.fixed result) (T.entries result) }
        ensures fixed { (s : _) → slice_get seats.items 0 ≡ Some s
            → s.fixed ≡ Some (T.fixed result) }
    {
        self.closed(seats)
    }

    fn closed(self, seats: Vec<TurnSeat<T>>) -> T
        requires some { 0 < length seats.items }
        requires own { AllIn (λ s. s.table ≡ self) seats.items }
        requires all { SeatsFrom 0 seats.items }
        requires given { given_of seats.items ≡ length seats.items }
        ensures cover { SeatsCover T.seat_of (T.entries result) seats.items }
        ensures below { AllBelow T.seat_of (length seats.items) (T.entries result) }
        ensures replays { T.replays (T.fixed result) (T.entries result) }
        ensures fixed { fixed_of seats.items ≡ Some (T.fixed result) }
    {
        let Turnstile { tickets } = self;
        let mut rest = seats;
        let first = rest.remove(0);
        let TurnSeat {
            mut place,
            number: _,
        } = first;
        join_all(&tickets, &mut place, rest);
        tickets.close(place)
    }
}

// A new seat, under the next number, which the first seat gives.
fn another<T: Booked + Drop>(
    tickets: &Tickets<T>,
    first: &mut TurnSeat<T>,
    number: u16,
) -> TurnSeat<T>
    requires own { first.old.table ≡ tickets.now.table.shared.table_id }
    requires first { first.old.number ≡ 0 }
    requires next { first.old.given ≡ number }
    requires few { number < 65535 }
    ensures first { first.new ≡ record first.old { given = number + 1 } }
    ensures seat { result ≡ new_sitting first.old number }
{
    let place = tickets.split(&mut first.place);
    TurnSeat { place, number }
}

// The first seat takes over what all others have seen.
fn join_all<T: Booked + Drop>(tickets: &Tickets<T>, first: &mut Place<T>, all: Vec<TurnSeat<T>>)
    requires own { first.old.table_id ≡ tickets.now.table.shared.table_id }
    requires all { AllIn (λ s. s.table ≡ tickets.now.table.shared.table_id) all.items }
    requires idle { IsIdle first.old.me.0 }
    requires first { first.old.me.0.number ≡ 0 }
    ensures own { first.new.table_id ≡ first.old.table_id }
    ensures view { let olds = map old_of all.items ++ first.old.me.0.olds in
        first.new.me ≡ (record first.old.me.0 { olds = olds }, first.old.me.1) }
{
    let mut rest = all;
    while let Some(seat) = rest.pop() {
        let TurnSeat { place, number: _ } = seat;
        tickets.join(first, place);
    }
}
