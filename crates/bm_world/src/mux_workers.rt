//! The workers of the muxes, before the first phase and after the last.
ghost use Rattle.std.specs.Prelude.{◌≡◌, ℕ, ◌+◌, ◌<◌, ◌≤◌, ◌∷◌, length, map, slice_get, Some, All};
ghost use Rattle.std.specs.Prelude.{List as Items, IfOk, OnOk};
ghost use Rattle.bm_mux.specs.Muxes.{HasServers};
ghost use Rattle.bm_rows.specs.Rows.{items_of};
ghost use Rattle.bm_server.specs.Seats.{Seated};
ghost use Rattle.bm_world.specs.Inside.RunStates.{HaveNoTurns, IsNewWorker, WereShown, rows_of};
ghost use mathlib.Core.List.{IsPrefix};

use crate::servers::Rows;
use bm_base::{List, Memory, MuxId};
use bm_core::Log;
use bm_lead::Leader;
use bm_mux::Mux;
use bm_publish::{Look, Poster};
use bm_server::ServerSeat;
use bm_worker::{Caller, MuxWorker};
use std::alloc::Global;

/// The worker of a mux before its first phase. Takes no memory.
fn make_worker(
    alloc: Global,
    mux: u16,
    look: Look,
    buckets: u32,
    seats: Vec<ServerSeat>,
) -> MuxWorker
    requires mux { mux < 64 }
    requires look { (buckets ≡ look.plan.buckets) × HasServers look.plan }
    requires seats { HaveNoTurns seats.items }
    ensures { IsNewWorker look seats.items mux result }
{
    MuxWorker {
        mux: Mux::new(alloc, MuxId(mux), look, buckets),
        caller: Caller::new(mux + 1, seats),
        steps: 0,
        posted: None,
        stop: None,
    }
}

/// A worker for each mux, with its look and its row of seats.
pub(crate) fn make_workers(
    alloc: Global,
    buckets: u32,
    looks: Vec<Look>,
    rows: Rows,
) -> Result<Vec<MuxWorker>, Memory>
    requires few { length rows.items ≤ 64 }
    requires count { length looks.items ≡ length rows.items }
    requires looks { All (λ look. (buckets ≡ look.plan.buckets) × HasServers look.plan)
        looks.items }
    requires rows { All HaveNoTurns (items_of rows.items) }
    ensures count { IfOk result (λ workers. length workers.items ≡ length rows.items) }
    ensures each { IfOk result (λ workers. (m : ℕ) (look : _) (seats : Items (Items Seated)) (w : _)
        → slice_get looks.items m ≡ Some look → slice_get (items_of rows.items) m ≡ Some seats
        → slice_get workers.items m ≡ Some w → IsNewWorker look seats m w) }
{
    let mut workers = Vec::new(alloc);
    let mut mux = 0;
    for (look, seats) in looks.into_iter().zip(rows) {
        workers.push(make_worker(alloc, mux, look, buckets, seats))?;
        mux += 1;
    }
    Ok(workers)
}

/// What a mux's worker gives back: the mux's log, and the worker's seats. The mux was shown a
/// beginning of what was posted.
fn part(worker: MuxWorker, poster: &mut Poster) -> (Log, Vec<ServerSeat>)
    requires { worker.mux.seen.board ≡ poster.old.board }
    ensures kept { poster.new ≡ poster.old }
    ensures log { result.0 ≡ worker.mux.log }
    ensures seats { result.1.items ≡ worker.caller.seats }
    ensures shown { IsPrefix worker.mux.seen.clocks poster.old.clocks }
{
    let MuxWorker { mux, caller, .. } = worker;
    let log = mux.into_log(poster);
    (log, caller.into_seats())
}

/// What the workers give back: the logs of the controller and of the muxes, and each worker's
/// seats. The muxes were shown what was posted, and nothing else.
pub(crate) fn take_apart(
    alloc: Global,
    poster: &mut Poster,
    leader: Leader,
    workers: Vec<MuxWorker>,
) -> Result<(Vec<Log>, Rows), Memory>
    requires boards { (m : ℕ) (w : _) → slice_get workers.items m ≡ Some w
        → w.mux.seen.board ≡ poster.old.board }
    ensures logs { IfOk result
        (λ back. back.0.items ≡ leader.log.items ∷ map (λ w. w.mux.log) workers.items) }
    ensures rows { IfOk result
        (λ back. items_of back.1.items ≡ rows_of leader.caller.seats workers.items) }
    ensures shown { OnOk result (WereShown poster.old workers.items) }
{
    let Leader { caller, log, .. } = leader;
    let mut logs = Vec::new(alloc);
    let mut rows = Vec::new(alloc);
    logs.push(List::of(log))?;
    rows.push(caller.into_seats())?;
    for worker in workers {
        let (log, seats) = part(worker, poster);
        logs.push(log)?;
        rows.push(seats)?;
    }
    Ok((logs, rows))
}
