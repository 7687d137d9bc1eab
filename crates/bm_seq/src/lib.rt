//! The receiving end of a TCP connection: sequence numbers, and what a segment does.
#![tactic(auto)]

pub mod laws;
mod receiver;

pub use receiver::{Receiver, acceptable};
