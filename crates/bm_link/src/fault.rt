//! Why a record has no network part.
use thiserror::Error;

/// Why a frame has no IPv4 packet.
#[derive(Clone, Copy, Debug, PartialEq, Eq, Error)]
pub enum LinkFault {
    #[error("the link layer's header is cut short")]
    Short,
    #[error("the link layer carries something else than IPv4")]
    NotIpv4,
}
