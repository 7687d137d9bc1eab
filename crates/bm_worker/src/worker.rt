//! The worker of a mux.
use crate::{Caller, Stop};
use bm_mux::Mux;
use bm_publish::Snapshot;

/// The worker of a mux: it steers the mux's packets, and delivers their copies.
#[derive(Drop)]
pub struct MuxWorker {
    pub mux: Mux,
    pub caller: Caller,
    /// How many packets it delivered, in all phases.
    pub steps: u32,
    /// What was posted before the next phase.
    pub posted: Option<Snapshot>,
    /// Why it gave up, if it did. Then it does nothing any more.
    pub stop: Option<Stop>,
}
