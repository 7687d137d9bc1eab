//! Whether events are a run: each is decided by what is known of those before it.
#![tactic(auto)]

mod decisions;
mod known;
mod leaves;
mod running;
mod shards;

pub use running::{Followed, follow};
