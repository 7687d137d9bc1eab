//! Why octets aren't an IPv4 header.
use thiserror::Error;

/// Why octets aren't an IPv4 packet: the first of these that holds.
#[derive(Clone, Copy, Debug, PartialEq, Eq, Error)]
pub enum Ipv4Fault {
    #[error("the IPv4 header is cut short")]
    Short,
    #[error("the version isn't 4")]
    NotVersion4,
    #[error("the header length is below 20 octets")]
    BadHeaderLength,
    #[error("the total length is below the header length")]
    BadTotalLength,
}
