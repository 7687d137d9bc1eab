//! Quotas, and the shortest list of moves that meets them.
#![tactic(auto)]

pub mod laws;
mod rebalance;
mod refusal;
mod share;

pub use rebalance::{moves, moves_in};
pub use refusal::Refusal;
pub use share::quotas;
