//! Why a read, a write or an opening failed.
ghost use Rattle.std.specs.Prelude.{◌≡◌};
ghost use Rattle.bm_io.specs.declared.fault.IoFault.TheVariants.{Memory};

use std::alloc::{AllocError, AllocFailed};
use thiserror::Error;

/// A read was refused.
#[derive(Clone, Copy, Debug, PartialEq, Eq, Error)]
#[error("reading failed")]
pub struct Failed;

/// A write or an opening was refused.
#[derive(Clone, Copy, Debug, PartialEq, Eq, Error)]
pub enum IoFault {
    #[error("reading or writing failed")]
    Failed,
    #[error("memory was refused")]
    Memory,
}

impl From<AllocError> for IoFault {
    ghost from_gives = { λ _ e. e ≡ Memory };

    fn from(_e: AllocError) -> IoFault {
        IoFault::Memory
    }
}

impl<T: Drop> From<AllocFailed<T>> for IoFault {
    ghost from_gives = { λ _ e. e ≡ Memory };

    fn from(_e: AllocFailed<T>) -> IoFault {
        IoFault::Memory
    }
}
