//! How long a connection may live so that no change of a script breaks it, whatever the traffic.
#![tactic(auto)]

mod explained;
pub mod laws;
mod script;
mod seen;

pub use explained::{Lifetime, NearMoves};
pub use script::lifetime;
