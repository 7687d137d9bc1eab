//! Why the controller refuses a command.
ghost use Rattle.std.specs.Prelude.{◌≡◌};
ghost use Rattle.bm_quota.specs.Refusals.{refusal_of};
ghost use Rattle.bm_quota.specs.declared.refusal.Refusal.TheVariants.{Memory as memory};

use bm_base::Memory;
use bm_table::{Limit, PlanFault};
use std::alloc::AllocError;
use thiserror::Error;

/// Why a command is refused. A server is known from the opening, or from when it is added, for
/// good; it is active until it is drained.
#[derive(Clone, Copy, Debug, Drop, Error, PartialEq, Eq)]
pub enum Refusal {
    /// The server to add is already known.
    #[error("known server")]
    KnownServer,
    /// The server isn't known.
    #[error("unknown server")]
    UnknownServer,
    /// The server isn't active.
    #[error("not active")]
    NotActive,
    /// The server is the only active one.
    #[error("last server")]
    LastServer,
    /// The bucket isn't below the number of buckets.
    #[error("bad bucket")]
    BadBucket,
    /// The bucket is already at that server.
    #[error("same server")]
    SameServer,
    /// The moment is below that of the last command.
    #[error("the moment is below that of the last command")]
    StampFell,
    /// A limit would be exceeded.
    #[error("too many {0}")]
    TooMany(Limit),
    /// Memory was refused.
    #[error("out of memory")]
    Memory,
}

impl From<Memory> for Refusal {
    ghost from_gives = { λ _ refusal. refusal ≡ memory };

    fn from(_e: Memory) -> Refusal {
        Refusal::Memory
    }
}

impl From<AllocError> for Refusal {
    ghost from_gives = { λ _ refusal. refusal ≡ memory };

    fn from(_e: AllocError) -> Refusal {
        Refusal::Memory
    }
}

impl From<PlanFault> for Refusal {
    ghost from_gives = { λ fault refusal. refusal ≡ refusal_of fault };

    fn from(fault: PlanFault) -> Refusal {
        match fault {
            PlanFault::StampFell => Refusal::StampFell,
            PlanFault::BadBucket(_) => Refusal::BadBucket,
            PlanFault::SameServer(_) => Refusal::SameServer,
            PlanFault::TooMany(limit) => Refusal::TooMany(limit),
            PlanFault::Memory => Refusal::Memory,
        }
    }
}
