//! Link layers, and what a captured record contains.
#![tactic(auto)]

mod fault;
mod network;
mod record;

pub use fault::LinkFault;
pub use network::{is_link, network_part};
pub use record::classify;
