//! The controllers: they add, drain and weigh servers and move buckets, and so make a plan.
#![tactic(auto)]

mod controller;
mod engine;
pub mod laws;
mod members;
mod racks;
mod rebalance;
mod refusal;

pub use controller::Controller;
pub use engine::Engine;
pub use members::Member;
pub use racks::RackController;
pub use refusal::RackRefusal;
