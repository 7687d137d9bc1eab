//! Worker 0 of a threaded run: it carries out the commands of the script.
#![tactic(auto)]

mod clock;
mod command;
pub mod laws;
mod lead;
mod leader;

pub use lead::{lead_phase, sync};
pub use leader::Leader;
