//! One phase of a run: worker 0 and the muxes' workers in parallel, and the Sync after it.
ghost use Rattle.std.specs.Prelude.{◌≡◌, ℕ, suc, ◌+◌, ◌-◌, ◌*◌, ◌^◌, ◌<◌, ◌≤◌, max, length, map};
ghost use Rattle.std.specs.Prelude.{slice_get, is_some, Ok as ok, All, IfErr};
ghost use Rattle.std.specs.Prelude.{IfOk, OnOk, MatchBool};
ghost use denote.Param.Send.{IsSync};
ghost use Rattle.bm_core.specs.Stages.{IsSound};
ghost use Rattle.bm_core.specs.Threads.{phase_of};
ghost use Rattle.bm_fault.specs.Faults.{IsRule};
ghost use Rattle.bm_worker.specs.Environments.{In};
ghost use Rattle.bm_worker.specs.Phases.{CanWork};
ghost use Rattle.bm_lead.specs.Leaders.{IsPhase, IsReady, IsStopFrom, IsSyncCommand, UnlessMemory};
ghost use Rattle.bm_lead.specs.Leads.{HasLed};
ghost use Rattle.bm_world.specs.Inside.RunStates.{HasMet, HaveNotStopped, HaveWorked, IsBetween};
ghost use Rattle.bm_world.specs.Inside.RunStates.{IsLate};
ghost use Rattle.bm_world.specs.Inside.RunStates.{IsNext, IsThrough, latest_in, left_of, one_stopped};
ghost use Rattle.bm_world.specs.Inside.RunStates.{stop_in};
ghost use Rattle.bm_world.specs.Inside.RunStates.{with_posts, wants_memory};
ghost use Rattle.bm_world.specs.Inside.GivenUp.{HasGivenUp};
ghost use Rattle.bm_world.specs.Inside.Running.{IsAtPhase};

use crate::places::{record_place, sync_at, sync_place};
use bm_base::{Fate, Hop, Memory, Moment};
use bm_core::Stage;
use bm_io::Gate;
use bm_lead::{Leader, lead_phase, sync};
use bm_publish::Poster;
use bm_worker::{MuxWorker, Shared, Span, Stop, work_all};
use std::sync::Wait;
use std::thread::{Threads, join_mut};

/// What comes after a phase.
#[derive(Clone, Copy, PartialEq, Eq)]
pub(crate) enum Next {
    /// A phase, with the records from this place on.
    Phase(u32),
    /// Nothing: that was the last one.
    End,
    /// A worker gave up, for a moment that was too large.
    Late,
}

/// The place of the first record after a phase, whose commands end at this place.
fn records_end(stage: &Stage, place: usize, from: u32) -> u32
    requires sound { IsSound stage.now }
    requires sync { place < length stage.now.script.commands
        → IsSyncCommand (slice_get stage.now.script.commands place) }
    requires within { from ≤ length stage.now.capture.records }
    ensures order { (from ≤ result) × (result ≤ length stage.now.capture.records) }
    ensures last { length stage.now.script.commands ≤ place
        → result ≡ length stage.now.capture.records }
    ensures numbers { (next p k : ℕ) → IsPhase stage.now.script.commands next place
        → IsAtPhase stage.now next p from → from < k → k ≤ result → phase_of stage.now k ≡ p }
    ensures next { (next p : ℕ) → IsPhase stage.now.script.commands next place
        → IsAtPhase stage.now next p from → place < length stage.now.script.commands
        → IsAtPhase stage.now (place + 1) (p + 1) result }
{
    let records = stage.capture.records.items();
    match sync_at(stage.script.commands.items(), place) {
        Some(at) => record_place(records, from, at),
        None => records.len() as u32,
    }
}

/// Lets each worker know what is posted. Takes no memory.
fn give_snapshots(poster: &Poster, workers: &mut [MuxWorker])
    ensures { workers.new ≡ map (with_posts poster.now) workers.old }
{
    for place in 0..workers.len() {
        workers[place].posted = Some(poster.snapshot());
    }
}

/// A phase of all workers, each in a thread of its own. Waits for all of them.
fn work_beside<W: Threads + Wait + Sync, F: Fn(u32, Hop) -> Fate + Sync, G: Gate>(
    rt: &W,
    shared: &Shared<'_, F, G>,
    poster: &mut Poster,
    leader: &mut Leader,
    workers: &mut [MuxWorker],
    span: Span,
    until: usize,
) -> Result<(), Stop>
    requires rule { IsRule F.Fn shared.now.rule }
    requires ready { IsReady shared.now.stage shared.now.servers poster.old leader.old }
    requires phase { IsPhase shared.now.stage.script.commands leader.old.next until }
    requires can { All (CanWork shared.now.stage shared.now.servers shared.now.routes span)
        workers.old }
    ensures led { UnlessMemory result (HasLed shared.now.stage shared.now.servers poster.old
        poster.new leader.old leader.new) }
    ensures next { OnOk result (leader.new.next ≡ until) }
    ensures stop { IfErr result (IsStopFrom (9 * 10 ^ 18) leader.new.caller.latest) }
    ensures count { length workers.new ≡ length workers.old }
    ensures worked { In F.Fn shared.now HaveWorked shared.now.routes span workers.old workers.new }
{
    let ((), led) = join_mut(
        rt,
        &mut ||
            requires { IsSync W.row × IsSync F.row × IsSync G.row
                × IsRule F.Fn shared.now.rule
                × All (CanWork shared.now.stage shared.now.servers shared.now.routes span)
                workers.now }
            ensures { (length workers.exit.now ≡ length workers.entry.now)
                × In F.Fn shared.entry.now HaveWorked shared.entry.now.routes span
                workers.entry.now workers.exit.now }
        { work_all(rt, shared, span, workers) },
        &mut || -> Result<(), Stop>
            requires { IsSync F.row × IsSync G.row
                × IsReady shared.now.stage shared.now.servers poster.now leader.now
                × IsPhase shared.now.stage.script.commands leader.now.next until }
            ensures { UnlessMemory result (HasLed shared.entry.now.stage shared.entry.now.servers
                poster.entry.now poster.exit.now leader.entry.now leader.exit.now)
                × OnOk result (leader.exit.now.next ≡ until)
                × IfErr result (IsStopFrom (9 * 10 ^ 18) leader.exit.now.caller.latest) }
        { lead_phase(rt, shared, poster, leader, until) },
    );
    led
}

/// Why worker 0 gave up, if it did.
fn stop_of(led: Result<(), Stop>) -> Option<Stop>
    ensures { result ≡ stop_in led }
{
    match led {
        Ok(()) => None,
        Err(stop) => Some(stop),
    }
}

/// Whether a worker gave up because memory was refused.
fn is_wanting(stop: Option<Stop>) -> bool
    ensures { result ≡ wants_memory stop }
{
    matches!(stop, Some(Stop::Memory))
}

/// Whether one of these workers did.
fn is_one_wanting(workers: &[MuxWorker]) -> bool
    ensures { result ≡ one_stopped wants_memory workers.now }
{
    workers.iter().any(|worker| is_wanting(worker.stop))
}

/// Whether a worker gave up.
fn is_one_stopped(workers: &[MuxWorker]) -> bool
    ensures { result ≡ one_stopped (λ stop. is_some stop) workers.now }
{
    workers.iter().any(|worker| worker.stop.is_some())
}

/// Whether a worker gave up for a moment that was too large. `Memory` where one gave up because
/// memory was refused.
fn is_late(led: Result<(), Stop>, workers: &[MuxWorker]) -> Result<bool, Memory>
    ensures { IfOk result (λ late. MatchBool late (IsLate led workers.now)
        ((led ≡ ok tt) × HaveNotStopped workers.now)) }
{
    let first = stop_of(led);
    if is_wanting(first) || is_one_wanting(workers) {
        return Err(Memory);
    }
    Ok(first.is_some() || is_one_stopped(workers))
}

/// The greatest clock of what all workers did.
fn latest_of(leader: &Leader, workers: &[MuxWorker]) -> Moment
    ensures { result.0 ≡ max leader.now.caller.latest (latest_in workers.now) }
{
    let mut latest = leader.caller.latest();
    for worker in workers {
        latest = latest.max(worker.caller.latest());
    }
    latest
}

/// Logs the Sync after a phase, once all workers have done the phase. Returns what comes next;
/// `start` is the place of the first record after the phase.
fn meet(
    stage: &Stage,
    leader: &mut Leader,
    workers: &[MuxWorker],
    start: u32,
) -> Result<Next, Memory>
    requires sound { IsSound stage.now }
    requires sync { leader.old.next < length stage.now.script.commands
        → IsSyncCommand (slice_get stage.now.script.commands leader.old.next) }
    ensures { IfOk result (HasMet stage.now leader.old leader.new workers.now start) }
{
    if leader.next >= stage.script.commands.items().len() {
        return Ok(Next::End);
    }
    match sync(stage, leader, latest_of(leader, workers)) {
        Ok(()) => Ok(Next::Phase(start)),
        Err(Stop::Late { .. }) => Ok(Next::Late),
        Err(Stop::Memory) => Err(Memory),
    }
}

/// A phase with the records from a place on, and the Sync after it. Returns what comes next.
pub(crate) fn run_phase<W: Threads + Wait + Sync, F: Fn(u32, Hop) -> Fate + Sync, G: Gate>(
    rt: &W,
    shared: &Shared<'_, F, G>,
    poster: &mut Poster,
    leader: &mut Leader,
    workers: &mut [MuxWorker],
    start: u32,
) -> Result<Next, Memory>
    requires rule { IsRule F.Fn shared.now.rule }
    requires between { In F.Fn shared.now IsBetween shared.now.routes poster.old leader.old
        workers.old start }
    ensures next { IfOk result
        (In F.Fn shared.now IsNext shared.now.routes poster.new leader.new workers.new) }
    ensures fewer { IfOk result (λ next. let all = length shared.now.stage.script.commands in
        left_of next leader.new.next all < suc (all - leader.old.next)) }
    ensures count { length workers.new ≡ length workers.old }
{
    let stage = shared.stage();
    let place = sync_place(stage.script.commands.items(), leader.next);
    let until = records_end(stage, place, start);
    let span = Span {
        from: start,
        until,
        after: leader.caller.latest(),
    };
    give_snapshots(poster, workers);
    let led = work_beside(rt, shared, poster, leader, workers, span, place);
    if is_late(led, workers)? {
        return Ok(Next::Late);
    }
    meet(stage, leader, workers, until)
}

/// All phases. Returns whether a worker gave up for a moment that was too large.
pub(crate) fn run_phases<W: Threads + Wait + Sync, F: Fn(u32, Hop) -> Fate + Sync, G: Gate>(
    rt: &W,
    shared: &Shared<'_, F, G>,
    poster: &mut Poster,
    leader: &mut Leader,
    workers: &mut [MuxWorker],
) -> Result<bool, Memory>
    requires rule { IsRule F.Fn shared.now.rule }
    requires first { In F.Fn shared.now IsBetween shared.now.routes poster.old leader.old
        workers.old 0 }
    ensures late { IfOk result (λ late. MatchBool late
        (In F.Fn shared.now HasGivenUp shared.now.routes poster.new leader.new workers.new)
        (In F.Fn shared.now IsThrough shared.now.routes poster.new leader.new workers.new)) }
    ensures count { length workers.new ≡ length workers.old }
{
    let mut next = Next::Phase(0);
    while let Next::Phase(start) = next {
        next = run_phase(rt, shared, poster, leader, workers, start)?;
    }
    Ok(next == Next::Late)
}
