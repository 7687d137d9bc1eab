//! The replay of a stage, and what becomes of its connections without its changes.
ghost use Rattle.std.specs.Prelude.{◌≡◌, [], IfOk, map};
ghost use Rattle.bm_core.specs.Runs.{IsRun};
ghost use Rattle.bm_core.specs.Stages.{IsSound};
ghost use Rattle.bm_link.specs.Fits.{ArePackets};
ghost use Rattle.bm_connections.specs.Base.{is_whole};
ghost use Rattle.bm_connections.specs.Connections as tables;
ghost use Rattle.bm_connections_cli.specs.Inside.Replays.{AreReplays};

use bm_base::{Memory, Octets};
use bm_cli::{replay_stage, replay_with_packets};
use bm_connections::{connections, part, wholes, with_changes};
use bm_core::{History, Stage};
use bm_trace::sweep;
use std::alloc::Global;
use std::sync::Wait;
use std::thread::Threads;

/// The replay of a stage, and of each connection whether it is whole in the replay of its base.
#[derive(Drop)]
pub(crate) struct Replayed {
    pub(crate) history: History,
    pub(crate) wholes: Vec<bool>,
}

/// Of each connection of the history, whether it is whole.
#[tactic(auto, using(bm_trace::proofs::Ranged::ranges_of))]
fn wholes_in(alloc: Global, h: &History) -> Result<Vec<bool>, Memory>
    requires { IsRun h.now }
    ensures { IfOk result (λ wholes. wholes.items ≡ map is_whole (tables.connections h.now)) }
{
    let causes = sweep(alloc, h)?;
    let table = connections(alloc, h, &causes)?;
    wholes(alloc, table.items())
}

/// Replays the base of the stage and the stage, which are one where the script has no changes.
/// `packets` has the packet of each record, and is freed as the stage is replayed.
pub(crate) fn replay_compared<R: Threads + Wait + Sync>(
    rt: &R,
    alloc: Global,
    stage: Stage,
    packets: Octets,
) -> Result<Replayed, Memory>
    requires sound { IsSound stage }
    requires packets { ArePackets stage.capture.records packets }
    ensures { IfOk result (λ replays. AreReplays stage replays.history replays.wholes.items) }
{
    if stage.script.plan.versions() == 0 {
        replay_unchanged(rt, alloc, stage, packets)
    } else {
        replay_both(rt, alloc, stage, packets)
    }
}

/// Replays a stage that is its own base.
fn replay_unchanged<R: Threads + Wait + Sync>(
    rt: &R,
    alloc: Global,
    stage: Stage,
    packets: Octets,
) -> Result<Replayed, Memory>
    requires sound { IsSound stage }
    requires packets { ArePackets stage.capture.records packets }
    requires unchanged { stage.script.plan.changes ≡ [] }
    ensures { IfOk result (λ replays. AreReplays stage replays.history replays.wholes.items) }
{
    let history = replay_stage(rt, alloc, stage, packets)?;
    let wholes = wholes_in(alloc, &history)?;
    Ok(Replayed { history, wholes })
}

/// Replays the base of the stage, and then the stage. `packets` has the packet of each record, and
/// is freed as the stage is replayed.
fn replay_both<R: Threads + Wait + Sync>(
    rt: &R,
    alloc: Global,
    stage: Stage,
    packets: Octets,
) -> Result<Replayed, Memory>
    requires sound { IsSound stage }
    requires packets { ArePackets stage.capture.records packets }
    ensures { IfOk result (λ replays. AreReplays stage replays.history replays.wholes.items) }
{
    let parted = part(alloc, stage)?;
    let (base, packets) = replay_with_packets(rt, alloc, parted.base, packets)?;
    let wholes = wholes_in(alloc, &base)?;
    let stage = with_changes(base.stage, parted.plan, parted.commands);
    let history = replay_stage(rt, alloc, stage, packets)?;
    Ok(Replayed { history, wholes })
}
