//! The copies that are under way, by their due moments.
ghost use Rattle.std.specs.Prelude.{◌≡◌, ◌≤◌, List, [], MatchResult, OnErr, OnOk};
ghost use Rattle.std.specs.VecDeque.{deque_len};
ghost use Rattle.std.specs.List.{insert};
ghost use Rattle.bm_fault.specs.Flying.{Flying};
ghost use Rattle.bm_fault.specs.Wires.{DueRise, first_due, first_flight, others, put_flying};
ghost use Rattle.bm_fault.specs.Views.{flying, IsKept};

use bm_base::{Memory, Moment, Tag};
use std::alloc::Global;
use std::collections::VecDeque;
use std::marker::Model;

/// A copy of a packet that is under way, with what it carries.
#[derive(Clone, Copy, PartialEq, Eq)]
pub struct Flight {
    pub packet: u32,
    pub tag: Tag,
}

/// A copy with the moment at which it is due.
#[derive(Clone, Copy)]
struct Queued {
    due: Moment,
    flight: Flight,
}

/// The copies that are under way, in the order in which they arrive: by their due moments, and at
/// one moment in the order in which they were put.
#[derive(Drop)]
pub struct Wire {
    flights: VecDeque<Queued>,
}

impl Model for Wire {
    ghost Value = { List Flying };

    ghost view = { flying };

    ghost invariant = { IsKept };
}

/// Puts a copy before the one at this place, or at the end.
#[inline(always)]
fn put_at(flights: &mut VecDeque<Queued>, place: usize, queued: Queued) -> Result<(), Memory>
    requires place { place ≤ deque_len flights.old }
    ensures items { OnOk result (flights.new.items ≡ insert flights.old.items place queued) }
    ensures memory { OnErr result (flights.new.items ≡ flights.old.items) }
{
    // Mostly no copy is due later, and then none is moved.
    if place == flights.len() {
        flights.push_back(queued)?;
    } else {
        flights.insert(place, queued)?;
    }
    Ok(())
}

impl Wire {
    /// A wire without copies.
    pub fn new(alloc: Global) -> Wire
        ensures { result ≡ [] }
    {
        Wire {
            flights: VecDeque::new(alloc),
        }
    }

    /// Puts a copy after those that are due no later. Where memory is refused, the wire stays as it
    /// was. Takes memory only if more copies are under way than ever before.
    pub fn put(&mut self, due: Moment, flight: Flight) -> Result<(), Memory>
        ensures { MatchResult result
            (λ _. self.new ≡ put_flying (record { due = due; flight = flight }) self.old)
            (λ _. self.new ≡ self.old) }
    {
        let place = self.flights.partition_point(|f| f.due.0 <= due.0);
        put_at(&mut self.flights, place, Queued { due, flight })?;
        Ok(())
    }

    /// The due moment of the next copy; None if no copy is under way.
    pub fn least(&self) -> Option<Moment>
        ensures first { result ≡ first_due self.now }
        ensures rising { DueRise 0 self.now }
    {
        Some(self.flights.front()?.due)
    }

    /// Takes the next copy: the one that is due first, and at one moment the one that was put
    /// first. None if no copy is under way. The others stay.
    pub fn pop(&mut self) -> Option<Flight>
        ensures first { result ≡ first_flight self.old }
        ensures others { self.new ≡ others self.old }
    {
        Some(self.flights.pop_front()?.flight)
    }
}
