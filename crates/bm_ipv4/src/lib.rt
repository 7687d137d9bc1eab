//! IPv4 headers (RFC 791) and the Internet checksum (RFC 1071).
#![tactic(auto)]

mod checksum;
mod fault;
pub mod fields;
mod view;

pub use checksum::header_sum;
pub use fault::Ipv4Fault;
pub use view::{Ipv4View, read_ipv4};
