//! Why a controller of racks refuses a command.
ghost use Rattle.std.specs.Prelude.{◌≡◌};
ghost use Rattle.bm_controller.specs.declared.refusal.RackRefusal.TheVariants.{Base as base};
ghost use Rattle.bm_quota.specs.Refusals.{refusal_of};
ghost use Rattle.bm_quota.specs.declared.refusal.Refusal.TheVariants.{Memory as memory};

use bm_base::Memory;
use bm_quota::Refusal;
use bm_table::PlanFault;
use std::alloc::AllocError;
use thiserror::Error;

/// Why a command is refused where servers stand in racks.
#[derive(Clone, Copy, Debug, Drop, Error, PartialEq, Eq)]
pub enum RackRefusal {
    /// What a controller of one rack refuses too.
    #[error("{0}")]
    Base(Refusal),
    /// The server is the only active one in its rack.
    #[error("last in rack")]
    LastInRack,
    /// The server isn't in the bucket's rack.
    #[error("wrong rack")]
    WrongRack,
}

impl From<Memory> for RackRefusal {
    ghost from_gives = { λ _ refusal. refusal ≡ base memory };

    fn from(_e: Memory) -> RackRefusal {
        RackRefusal::Base(Refusal::Memory)
    }
}

impl From<AllocError> for RackRefusal {
    ghost from_gives = { λ _ refusal. refusal ≡ base memory };

    fn from(_e: AllocError) -> RackRefusal {
        RackRefusal::Base(Refusal::Memory)
    }
}

impl From<PlanFault> for RackRefusal {
    ghost from_gives = { λ fault refusal. refusal ≡ base (refusal_of fault) };

    fn from(fault: PlanFault) -> RackRefusal {
        RackRefusal::Base(Refusal::from(fault))
    }
}
