//! Tests of `bm_turnstile`, `bm_publish`, `bm_server`, `bm_mux` and `bm_worker`, in a crate of
//! their own: running tests proves their crate again.
#![tactic(auto)]

#[cfg(test)]
mod mux;
#[cfg(test)]
mod packets;
#[cfg(test)]
mod plans;
#[cfg(test)]
mod publish;
#[cfg(test)]
mod server;
#[cfg(test)]
mod turnstile;
#[cfg(test)]
mod vectors;
#[cfg(test)]
mod worker;
