//! The replay of a stage: one thread, one event after another.
#![tactic(auto)]

mod carrier;
mod coming;
mod events;
mod mux;
mod player;
mod queue;
mod replaying;
mod shards;
mod slot;

pub use replaying::{replay, replay_keeping};
