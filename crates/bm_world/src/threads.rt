//! A run of a stage in threads.
ghost use Rattle.std.specs.Prelude.{◌≡◌, [], ℕ, ◌+◌, length, slice_get, Some, All, IfOk};
ghost use Rattle.bm_core.specs.Stages.{IsSound};
ghost use Rattle.bm_core.specs.Threads.{IsThreadedRun};
ghost use Rattle.bm_fault.specs.Faults.{Gives, IsRule};
ghost use Rattle.bm_link.specs.Fits.{ArePackets};
ghost use Rattle.bm_route.specs.Routes.{Answers, IsRoute};
ghost use Rattle.bm_rows.specs.Rows.{items_of};
ghost use Rattle.bm_worker.specs.Environments.{In};
ghost use Rattle.bm_worker.specs.Assigned.{RoutedBy};
ghost use Rattle.bm_world.specs.Inside.RunStates.{IsBack, MakeRun};
ghost use Rattle.bm_world.specs.Inside.Routed.{AreRouted};
ghost use Rattle.bm_world.specs.Inside.Served.{IsNewRow};

use crate::known::known_servers;
use crate::mux_workers::{make_workers, take_apart};
use crate::phase::run_phases;
use crate::routing::route_all;
use crate::run_logs::merge_beside;
use crate::servers::{Rows, finish_all, make_servers};
use bm_base::{Fate, Flow, Hop, List, Memory, MuxId, Octets};
use bm_core::{Event, History, Log, Stage};
use bm_fault::Faults;
use bm_io::Gate;
use bm_lead::Leader;
use bm_publish::{Look, Poster, board};
use bm_route::Route;
use bm_worker::{Caller, Shared};
use std::alloc::Global;
use std::sync::Wait;
use std::thread::Threads;

/// The most threads that merge the merged groups of logs.
const MOST_MERGING: usize = 8;

/// What the workers give back.
#[derive(Drop)]
struct Back {
    /// A worker gave up for a moment that was too large.
    late: bool,
    /// The log of the controller, and those of the muxes.
    logs: Vec<Log>,
    /// Each worker's seats.
    rows: Rows,
}

/// The workers of a run, on a board where nothing is posted.
fn run_on_board<W: Threads + Wait + Sync, F: Fn(u32, Hop) -> Fate + Sync, G: Gate>(
    rt: &W,
    shared: &Shared<'_, F, G>,
    poster: &mut Poster,
    looks: Vec<Look>,
    rows: Rows,
) -> Result<Back, Memory>
    requires rule { IsRule F.Fn shared.now.rule }
    requires board { (poster.old.plan ≡ shared.now.stage.script.plan) × (poster.old.clocks ≡ []) }
    requires looks { All (λ look. look ≡ poster.old) looks.items }
    requires muxes { length looks.items ≡ shared.now.stage.script.setting.muxes }
    requires count { length rows.items ≡ length looks.items + 1 }
    requires rows { (w : ℕ) (seats : _) → slice_get (items_of rows.items) w ≡ Some seats
        → IsNewRow shared.now.servers w seats }
    ensures { IfOk result (λ back. In F.Fn shared.now IsBack shared.now.routes back.late
        back.logs.items (items_of back.rows.items)) }
{
    let alloc = shared.alloc();
    let stage = shared.stage();
    let mut others = rows;
    let first = others.remove(0);
    let mut leader = Leader::new(alloc, Caller::new(0, first));
    let mut workers = make_workers(alloc, stage.script.setting.buckets, looks, others)?;
    let late = run_phases(rt, shared, poster, &mut leader, workers.as_mut_slice())?;
    let (logs, rows) = take_apart(alloc, poster, leader, workers)?;
    Ok(Back { late, logs, rows })
}

/// The workers of a run, each with its row of seats.
fn run_workers<W: Threads + Wait + Sync, F: Fn(u32, Hop) -> Fate + Sync, G: Gate>(
    rt: &W,
    shared: &Shared<'_, F, G>,
    rows: Rows,
) -> Result<Back, Memory>
    requires rule { IsRule F.Fn shared.now.rule }
    requires count { length rows.items ≡ shared.now.stage.script.setting.muxes + 1 }
    requires rows { (w : ℕ) (seats : _) → slice_get (items_of rows.items) w ≡ Some seats
        → IsNewRow shared.now.servers w seats }
    ensures { IfOk result (λ back. In F.Fn shared.now IsBack shared.now.routes back.late
        back.logs.items (items_of back.rows.items)) }
{
    let script = &shared.stage().script;
    let (mut poster, looks) = board(rt, shared.alloc(), &script.plan, script.setting.muxes)?;
    let back = run_on_board(rt, shared, &mut poster, looks, rows);
    poster.end(rt);
    back
}

/// The events of a run, by clock, where each packet has this mux.
fn run_stage<W: Threads + Wait + Sync, F: Fn(u32, Hop) -> Fate + Sync, G: Gate>(
    rt: &W,
    alloc: Global,
    stage: &Stage,
    octets: Octets,
    routes: Vec<Option<MuxId>>,
    faults: &Faults<F>,
    gate: &G,
) -> Result<Vec<Event>, Memory>
    requires sound { IsSound stage.now }
    requires packets { ArePackets stage.now.capture.records octets }
    requires count { length routes.items ≡ length stage.now.capture.records }
    requires routed { AreRouted stage.now routes.items }
    requires faults { IsRule F.Fn faults.now.rule }
    ensures { IfOk result (λ events. MakeRun (RoutedBy routes.items) (Gives F.Fn faults.now.rule)
        stage.now events.items) }
{
    let setting = &stage.script.setting;
    let ids = known_servers(alloc, &stage.script)?;
    let (servers, rows) = make_servers(alloc, setting, ids.as_slice(), setting.muxes + 1)?;
    let shared = Shared::new(
        alloc,
        stage,
        &octets,
        routes.as_slice(),
        servers.as_slice(),
        faults,
        gate,
    );
    let back = run_workers(rt, &shared, rows);
    drop(shared);
    // Only the workers read these, and the merge needs their memory.
    drop(octets);
    drop(routes);
    let Back { late, logs, rows } = back?;
    let books = finish_all(alloc, servers, rows)?;
    if late {
        unreachable!();
    }
    let threads = usize::from(setting.muxes).min(MOST_MERGING);
    merge_beside(rt, alloc, threads, logs, books)
}

/// Carries the packets of a stage through its muxes and servers, the packets of each mux in a
/// thread of its own and the commands in another, and returns the history of what they did: a run
/// that follows the script as such threads do, and in which every packet, copy and command is
/// accounted for. `octets` has the packet of each record, and is dropped once all are carried.
/// `Memory` where memory was refused. It may wait.
pub fn run_threads<
    W: Threads + Wait + Sync,
    R: Fn(u32, &Flow) -> u16,
    F: Fn(u32, Hop) -> Fate + Sync,
    G: Gate,
>(
    rt: &W,
    alloc: Global,
    stage: Stage,
    octets: Octets,
    route: &Route<R>,
    faults: &Faults<F>,
    gate: &G,
) -> Result<History, Memory>
    requires sound { IsSound stage }
    requires packets { ArePackets stage.capture.records octets }
    requires route { IsRoute R.Fn route.now.rule route.now.muxes }
    requires muxes { route.now.muxes ≡ stage.script.setting.muxes }
    requires faults { IsRule F.Fn faults.now.rule }
    ensures stage { IfOk result (λ h. h.stage ≡ stage) }
    ensures run { IfOk result
        (IsThreadedRun (Answers R.Fn route.now.rule) (Gives F.Fn faults.now.rule)) }
{
    let routes = route_all(alloc, &stage, route)?;
    let events = run_stage(rt, alloc, &stage, octets, routes, faults, gate)?;
    Ok(History {
        stage,
        events: List::of(events),
    })
}
