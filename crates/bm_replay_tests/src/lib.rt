//! Tests of `bm_replay`, of its reports, of `bm_running`, of `bm_connections` and of `bm_check`, in
//! a crate of their own: running tests proves their crate again.
#![tactic(auto)]

#[cfg(test)]
mod checks;
#[cfg(test)]
mod connections;
#[cfg(test)]
mod replays;
#[cfg(test)]
mod runs;
#[cfg(test)]
mod stages;
#[cfg(test)]
mod told;
