//! The muxes, each with its version and its table.
ghost use Rattle.std.specs.Prelude.{◌≡◌, ◌≢◌, ℕ, ◌*◌, ◌^◌, ◌<◌, ◌≤◌, All, IfOk, Some, length};
ghost use Rattle.std.specs.Prelude.{slice_get};
ghost use Rattle.bm_core.specs.Schedule.{least};
ghost use Rattle.bm_table.specs.Tables.{change_moment, next_change};
ghost use Rattle.bm_replay.specs.declared.mux.Mux.{Mux};
ghost use Rattle.bm_replay.specs.Inside.Muxes.{HasTable, IsMoved, IsWritten, switch_after};
ghost use Rattle.bm_replay.specs.Inside.Muxes.{switches_of};

use crate::coming::sooner;
use bm_base::{Label, Memory, MuxId, Version};
use bm_core::{Call, Due};
use bm_table::{Change, Plan, Table};
use std::alloc::Global;
use std::marker::Model;

/// A mux: how many changes its table has, and the table.
#[derive(Drop)]
pub(crate) struct Mux {
    pub(crate) version: u32,
    pub(crate) table: Table,
}

/// The muxes of a stage, which contracts see as a list.
#[derive(Drop)]
pub(crate) struct Muxes {
    muxes: Vec<Mux>,
}

impl Model for Muxes {
    ghost use Rattle.std.specs.Prelude.{List};
    ghost use Rattle.bm_replay.specs.declared.mux.Mux.{Mux};

    ghost Value = { List Mux };

    ghost view = { λ a. a.muxes.items };
}

impl Muxes {
    /// This many muxes, each with the table of version 0.
    pub(crate) fn new(alloc: Global, plan: &Plan, total: u16) -> Result<Muxes, Memory>
        ensures so_many { IfOk result (λ muxes. length muxes ≡ total) }
        ensures each { IfOk result
            (λ muxes. (m : ℕ) → m < total → HasTable plan.now 0 (slice_get muxes m)) }
    {
        let mut list = Vec::new(alloc);
        for _ in 0..total {
            let table = Table::opening(alloc, plan)?;
            list.push(Mux { version: 0, table })?;
        }
        Ok(Muxes { muxes: list })
    }

    /// The label that the mux writes on a packet of the bucket.
    pub(crate) fn label(&self, mux: MuxId, bucket: u32) -> Label
        requires there { mux.0 < length self.now }
        requires bucket { (x : Mux) → slice_get self.now mux.0 ≡ Some x → bucket < length x.table }
        ensures { (x : Mux) → slice_get self.now mux.0 ≡ Some x → IsWritten x mux bucket result }
    {
        let by = &self.muxes[usize::from(mux.0)];
        Label {
            mux,
            version: Version(by.version),
            entry: by.table.entry(bucket),
        }
    }

    /// The mux carries out the change that leads to this version.
    pub(crate) fn switch(&mut self, mux: u16, version: u32, change: &Change)
        requires { mux < length self.old }
        ensures count { length self.new ≡ length self.old }
        ensures others { (m : ℕ) → m ≢ mux → slice_get self.new m ≡ slice_get self.old m }
        ensures moved { (x : Mux) → slice_get self.old mux ≡ Some x
            → IsMoved change.now version x (slice_get self.new mux) }
    {
        let by = &mut self.muxes[usize::from(mux)];
        by.table.apply(change);
        by.version = version;
    }

    /// The switch that comes first: of each mux, to the version after its own.
    pub(crate) fn soonest(&self, plan: &Plan, lags: &[u64], total: u16) -> Option<Due>
        requires there { total ≤ length self.now }
        requires lag_of_each { total ≤ length lags.now }
        requires few { length plan.now.changes ≤ 4096 }
        requires moments { (v : ℕ) → change_moment (next_change plan.now v) ≤ 4 * 10 ^ 18 }
        requires lags { All (λ lag. lag ≤ 86400 * 10 ^ 9) lags.now }
        ensures { result ≡ least (switches_of plan.now lags.now total self.now total) }
    {
        let mut soonest = None;
        for mux in 0..total {
            let version = self.muxes[usize::from(mux)].version;
            let lag = lags[usize::from(mux)];
            soonest = sooner(soonest, next_switch(plan, total, mux, version, lag));
        }
        soonest
    }
}

/// The mux's switch to the version after this one, if the plan leads there.
fn next_switch(plan: &Plan, total: u16, mux: u16, version: u32, lag: u64) -> Option<Due>
    requires moment { change_moment (next_change plan.now version) ≤ 4 * 10 ^ 18 }
    requires lag { lag ≤ 86400 * 10 ^ 9 }
    requires few { length plan.now.changes ≤ 4096 }
    ensures { result ≡ switch_after total lag mux version (next_change plan.now version) }
{
    let change = plan.next_change(Version(version))?;
    Some(Due {
        moment: change.moment.0 + lag,
        number: version as usize * usize::from(total) + usize::from(mux),
        call: Call::Switches(mux, version + 1),
    })
}
