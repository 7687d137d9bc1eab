//! Why octets carry no tag.
use thiserror::Error;

/// Why octets aren't a carrier header with a packet: the first of these that holds. The numbers are
/// places of octets, counted from 0.
#[derive(Clone, Copy, Debug, PartialEq, Eq, Error)]
pub enum EncapFault {
    #[error("the carrier header is cut short")]
    Short,
    #[error("octet {0} of the outer header isn't right")]
    BadOuter(u8),
    #[error("the checksum isn't right")]
    BadSum,
    #[error("octet {0} of the option isn't right")]
    BadOption(u8),
    #[error("the total length isn't right")]
    BadLength,
}
