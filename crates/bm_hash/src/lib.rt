//! Which bucket and which shard a flow belongs to: FNV-1a with 64 bits over the flow's octets.
#![tactic(auto)]

mod fnv;

pub use fnv::{bucket_of, flow_hash, flow_octets, fnv_1a, hash_on, remainder, shard_of};

#[cfg(test)]
mod tests;
