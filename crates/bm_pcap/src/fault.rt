//! Why a capture can't be read.
ghost use Rattle.std.specs.Prelude.{◌≡◌};
ghost use Rattle.bm_pcap.specs.declared.fault.CaptureFault.TheVariants.{Memory, ReadFault};

use bm_io::Failed;
use std::alloc::{AllocError, AllocFailed};
use thiserror::Error;

/// Why a capture, of the classic form or of the pcapng form, can't be read: the first of these in
/// order of place. Blocks and records count from 1.
#[derive(Clone, Copy, Debug, PartialEq, Eq, Error)]
pub enum CaptureFault {
    /// Fewer than 24 octets, or no magic number. Of the pcapng form: the first block isn't a section
    /// header, or its magic is in neither order.
    #[error("not a capture")]
    NotACapture,
    /// The version isn't 2.4. Of the pcapng form: the major version of a section isn't 1.
    #[error("bad version")]
    BadVersion,
    /// The link type isn't supported. Only of the classic form.
    #[error("bad link type {0}")]
    BadLink(u16),
    /// The block with this number has an impossible length, a magic in neither order, an interface
    /// that isn't there, a packet that doesn't fit, or is interface 1,025 of its section. Only of
    /// the pcapng form.
    #[error("block {0} is bad")]
    BadBlock(u32),
    /// The source failed.
    #[error("read fault")]
    ReadFault,
    /// The capture has more than 268,435,456 octets.
    #[error("too many octets")]
    TooLarge,
    /// The record with this number states this captured length, which is above 262,144.
    #[error("record {0} states {1} octets")]
    BadLength(u32, u32),
    /// An octet follows record 200,000. Of the pcapng form: a packet does.
    #[error("too many packets")]
    TooManyPackets,
    /// Memory was refused.
    #[error("want of memory")]
    Memory,
}

impl From<Failed> for CaptureFault {
    ghost from_gives = { λ _ e. e ≡ ReadFault };

    fn from(_e: Failed) -> CaptureFault {
        CaptureFault::ReadFault
    }
}

impl From<AllocError> for CaptureFault {
    ghost from_gives = { λ _ e. e ≡ Memory };

    fn from(_e: AllocError) -> CaptureFault {
        CaptureFault::Memory
    }
}

impl<T: Drop> From<AllocFailed<T>> for CaptureFault {
    ghost from_gives = { λ _ e. e ≡ Memory };

    fn from(_e: AllocFailed<T>) -> CaptureFault {
        CaptureFault::Memory
    }
}

impl From<bm_base::Memory> for CaptureFault {
    ghost from_gives = { λ _ e. e ≡ Memory };

    fn from(_e: bm_base::Memory) -> CaptureFault {
        CaptureFault::Memory
    }
}
