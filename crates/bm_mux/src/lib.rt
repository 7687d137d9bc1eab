//! The muxes: each keeps a log and labels packets by its table.
#![tactic(auto)]

mod item;
mod mux;
mod notes;

pub use item::{MuxItem, Steered};
pub use mux::Mux;
