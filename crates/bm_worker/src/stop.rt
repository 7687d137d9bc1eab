//! Why a worker gives up.
ghost use Rattle.std.specs.Prelude.{◌≡◌};

use bm_base::{Memory, Moment};

/// Why a worker gave up.
#[derive(Clone, Copy, PartialEq, Eq)]
pub enum Stop {
    /// Memory was refused.
    Memory,
    /// A moment was due above the last one that may be passed on. It comes from the event at this
    /// clock.
    Late { moment: Moment, clock: Moment },
}

impl From<Memory> for Stop {
    ghost use Rattle.bm_worker.specs.declared.stop.Stop.TheVariants.{Memory as stopped};

    ghost from_gives = { λ _ stop. stop ≡ stopped };

    fn from(_why: Memory) -> Stop {
        Stop::Memory
    }
}
