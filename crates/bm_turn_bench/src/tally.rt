//! A small book.
ghost use Rattle.std.specs.Prelude.{length};

use bm_base::Memory;
use bm_turnstile::Booked;
use std::alloc::Global;

/// A call, and the seat that made it.
#[derive(Clone, Copy)]
pub struct Made {
    pub seat: u16,
    pub call: u32,
}

/// It keeps its calls, and replies how many there were before.
#[derive(Drop)]
pub struct Tally {
    pub calls: Vec<Made>,
}

impl Booked for Tally {
    type Call = u32;

    type Reply = usize;

    type Fixed = ();

    type Entry = Made;

    ghost fixed = { λ _. tt };

    ghost entries = { λ tally. tally.calls.items };

    ghost seat_of = { λ made. made.seat };

    ghost call_of = { λ made. made.call };

    ghost takes = { λ _ _. Unit {0} };

    ghost reply = { λ _ calls _ _. length calls };

    ghost replays = { λ _ _. Unit {0} };

    fn apply(&mut self, seat: u16, call: u32) -> Result<usize, Memory> {
        let before = self.calls.len();
        self.calls.push(Made { seat, call })?;
        Ok(before)
    }
}
