//! Impairments, which say what becomes of a packet's sendings, and the copies under way.
#![tactic(auto)]

mod faults;
mod rows;
mod wire;

pub use faults::Faults;
pub use rows::FaultRows;
pub use wire::{Flight, Wire};
