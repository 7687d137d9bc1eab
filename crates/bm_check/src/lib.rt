//! The check of a printed report: whether it is the report of a run of its stage that is accounted
//! for.
#![tactic(auto)]

mod account;
mod answer;
mod checking;
mod compare;
mod copies;
pub mod laws;
mod lines;
mod orders;
mod reader;
mod verdicts;
mod words;

pub use answer::Answer;
pub use checking::check;
