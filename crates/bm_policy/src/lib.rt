//! Which rack each server stands in.
#![tactic(auto)]

mod policy;

pub use policy::Policy;
