//! Why a server doesn't take a copy.
use bm_encap::EncapFault;
use bm_tcp::InnerFault;
use thiserror::Error;

/// Why a server doesn't take the octets of a copy: the first of these that holds.
#[derive(Clone, Copy, Debug, PartialEq, Eq, Error)]
pub enum HandleFault {
    /// They aren't a carrier header with a packet.
    #[error("{0}")]
    BadEncap(EncapFault),
    /// They are for another server.
    #[error("the packet is another server's")]
    NotMine,
    /// The packet within isn't a TCP packet.
    #[error("{0}")]
    BadInner(InnerFault),
    #[error("no memory")]
    Memory,
}
