//! Tests of `bm_seq`, `bm_conn`, `bm_core`, `bm_shard` and `bm_merge`, in a crate of their own:
//! running tests proves their crate again.
#![tactic(auto)]

#[cfg(test)]
mod conn;
#[cfg(test)]
mod flows;
#[cfg(test)]
mod merge;
#[cfg(test)]
mod seq;
#[cfg(test)]
mod shard;
#[cfg(test)]
mod verdicts;
