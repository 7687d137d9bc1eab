//! The generated load: many short connections, while a server is added.
#![tactic(auto)]

pub mod laws;
mod line;
mod packets;
mod stage;

pub use line::summary;
pub use stage::load_stage;
