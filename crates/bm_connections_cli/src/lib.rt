//! What `beamer-connections` does: it replays a capture as `beamer replay` does, and reports what
//! became of each connection; or it says how long a connection may live so that no change of a script
//! breaks it.
#![tactic(auto)]

mod advice;
mod changes;
mod failing;
mod faults;
mod fields;
mod findings;
mod help;
mod json;
mod lifetime;
mod outlived;
mod parts;
mod put;
mod reason;
mod replays;
mod replies;
mod servers;
mod stories;
mod tell;
mod top;

pub use reason::{Reason, Reasons};
pub use top::beamer_connections;
