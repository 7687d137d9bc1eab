//! The protocol: events, verdicts, runs, premises and causes, and the laws over every run.
#![tactic(auto)]

mod clock;
mod events;
pub mod laws;
mod schedule;
mod verdict;

pub use clock::next_clock;
pub use events::{Cause, Event, History, Local, Log, Stage, Verdict, What, Why};
pub use schedule::{Call, Due};
pub use verdict::decide;
