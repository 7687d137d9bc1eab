//! A seat with its turnstile.
ghost use Rattle.std.specs.Prelude.{◌≡◌, ◌<◌, All, length, IfOk};
ghost use Rattle.std.specs.Arc.{arc_value};

use crate::tally::Tally;
use bm_base::Memory;
use bm_turnstile::{TurnSeat, Turnstile};
use std::alloc::Global;
use std::sync::{Arc, Wait};

/// A seat, its turnstile, and how many turns the seat made.
#[derive(Drop)]
pub struct Chair {
    turnstile: Arc<Turnstile<Tally>, Global>,
    seat: TurnSeat<Tally>,
    turns: u32,
    ghost own: { seat.table ≡ arc_value turnstile },
    ghost counted: { seat.turns ≡ turns },
}

impl Chair {
    /// Makes a turn; returns whether it was answered.
    pub fn turn<R: Wait>(&mut self, rt: &R, call: u32) -> bool {
        if self.turns == u32::MAX {
            return false;
        }
        let Chair {
            turnstile,
            seat,
            turns,
        } = self;
        *turns += 1;
        turnstile.turn(rt, seat, call).is_ok()
    }
}

/// A chair for each seat.
fn chairs_of(
    alloc: Global,
    turnstile: &Arc<Turnstile<Tally>, Global>,
    seats: Vec<TurnSeat<Tally>>,
) -> Result<Vec<Chair>, Memory>
    requires own { All (λ seat. seat.table ≡ arc_value turnstile.now) seats.items }
    requires new { All (λ seat. seat.turns ≡ 0) seats.items }
    ensures { IfOk result (λ chairs. length chairs.items ≡ length seats.items) }
{
    let mut chairs = Vec::new(alloc);
    for seat in seats {
        let turnstile = Arc::try_clone(turnstile)?;
        chairs.push(Chair {
            turnstile,
            seat,
            turns: 0,
        })?;
    }
    Ok(chairs)
}

/// A turnstile's chairs, one for each thread.
pub fn make_chairs(alloc: Global, threads: u16) -> Result<Vec<Chair>, Memory>
    requires { 0 < threads }
    ensures { IfOk result (λ chairs. length chairs.items ≡ threads) }
{
    let tally = Tally {
        calls: Vec::new(alloc),
    };
    let (turnstile, seats) = Turnstile::new(alloc, tally, threads)?;
    let shared = Arc::new(alloc, turnstile)?;
    chairs_of(alloc, &shared, seats)
}
