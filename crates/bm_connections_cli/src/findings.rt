//! What is found out about a history beside its table.
ghost use Rattle.std.specs.Prelude.{◌≡◌, IfOk};
ghost use Rattle.bm_core.specs.Runs.{IsRun};
ghost use Rattle.bm_trace.specs.Swept.{AreCauses};
ghost use Rattle.bm_connections.specs.Connections as tables;
ghost use Rattle.bm_connections_cli.specs.Inside.Findings.{AreFindings};

use crate::servers::servers_of;
use bm_base::Memory;
use bm_connections::{
    Connection, CopyCount, Needs, OpenEnds, Summary, Unsteered, copies_in, needs_of, open_ends,
    summary_of, unsteered_in,
};
use bm_core::History;
use bm_trace::CauseList;
use std::alloc::Global;

/// What is found out about a history beside its table: what is counted, which connections are left
/// open, how long the old servers are needed, what isn't steered, and what looks like a copy.
#[derive(Drop)]
pub(crate) struct Findings {
    pub(crate) summary: Summary,
    pub(crate) ends: OpenEnds,
    pub(crate) needs: Needs,
    pub(crate) unsteered: Unsteered,
    pub(crate) copies: CopyCount,
}

/// What is found out about a history with these causes and this table.
#[tactic(auto, using(bm_trace::proofs::Ranged::ranges_of))]
pub(crate) fn find_out(
    alloc: Global,
    h: &History,
    causes: &CauseList,
    table: &[Connection],
) -> Result<Findings, Memory>
    requires run { IsRun h.now }
    requires causes { AreCauses h.now causes.now }
    requires table { table.now ≡ tables.connections h.now }
    ensures { IfOk result (AreFindings h.now) }
{
    let servers = servers_of(alloc, &h.stage.script)?;
    let summary = summary_of(alloc, h, causes, table, servers.as_slice())?;
    let ends = open_ends(alloc, &h.stage, table)?;
    let needs = needs_of(alloc, h, causes, servers.as_slice())?;
    let unsteered = unsteered_in(alloc, &h.stage.capture)?;
    let copies = copies_in(alloc, &h.stage.capture)?;
    Ok(Findings {
        summary,
        ends,
        needs,
        unsteered,
        copies,
    })
}
