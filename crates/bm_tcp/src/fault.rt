//! Why a payload isn't a TCP segment.
use thiserror::Error;

/// Why a payload isn't a TCP segment: the first of these that holds.
#[derive(Clone, Copy, Debug, PartialEq, Eq, Error)]
pub enum TcpFault {
    #[error("the TCP header is cut short")]
    Short,
    #[error("the data offset doesn't fit")]
    BadOffset,
}
