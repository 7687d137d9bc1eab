//! Which mux a packet goes to: a route that a caller supplies, and the program's own.
#![tactic(auto)]

mod route;

pub use route::{Route, setting_mux};
