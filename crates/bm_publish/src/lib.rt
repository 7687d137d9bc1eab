//! The board: a table that one thread publishes and others read, without locks and without copies.
#![tactic(auto)]

mod look;
mod poster;
mod shown;
mod snapshot;

pub use look::{Guard, Look};
pub use poster::{Poster, board};
pub use snapshot::Snapshot;
