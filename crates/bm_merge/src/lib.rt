//! The logs of a threaded run, merged.
#![tactic(auto)]

mod beside;
pub mod laws;
mod logs;
mod rising;

pub use beside::{merge_rising_beside, room_for};
pub use logs::{join_in_order, merge};
pub use rising::{EventLog, merge_rising};
