//! A run of a stage in threads: workers, phases, and the history into which their logs merge.
#![tactic(auto)]

mod counting;
mod known;
mod mux_workers;
mod phase;
mod places;
mod routing;
mod run_logs;
mod servers;
mod threads;

pub use counting::seats;
pub use threads::run_threads;
