//! A server: shards that many threads call in parallel, each through a seat of its own.
#![tactic(auto)]

pub mod laws;
mod seat;
mod seats;
mod server;

pub use bm_shard::HandleFault;
pub use seat::ServerSeat;
pub use server::{Books, Server};
