//! A seat of a turnstile.
use crate::booked::Booked;
use crate::rule::Place;
use std::marker::Model;

/// A seat between two turns, which one thread has. Contracts see which turnstile's it is, its
/// number, and what it has seen.
#[derive(Drop)]
pub struct TurnSeat<T: Booked> {
    pub(crate) place: Place<T>,
    pub(crate) number: u16,
}

impl<T: Booked> Model for TurnSeat<T> {
    ghost use Rattle.bm_turnstile.specs.Sittings.{Sitting};
    ghost use Rattle.bm_turnstile.specs.Views.{IsResting, sitting};

    ghost Value = { Sitting T.Fixed T.Entry };

    ghost view = { λ s. sitting s.place.table_id s.place.me.0 };

    ghost invariant = { λ s. IsResting s.place.me s.number };
}
