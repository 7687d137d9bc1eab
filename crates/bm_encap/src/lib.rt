//! Carrier headers: a packet on its way to a server, with what a mux wrote on it (IPv4 in IPv4,
//! with an option).
#![tactic(auto)]

mod fault;
mod header;
pub mod laws;
mod read;

pub use fault::EncapFault;
pub use header::{chain, set_chained, wrap};
pub use read::unwrap;
