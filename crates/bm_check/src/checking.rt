//! The check of a printed report.
ghost use Rattle.std.specs.Prelude.{◌≡◌, ◌+◌, ◌≤◌, ℕ, IfOk, IfSome, MatchOption, length, reverse};
ghost use Rattle.bm_base.specs.declared.flow.Flow.{Flow};
ghost use Rattle.bm_core.specs.Runs.{IsRun};
ghost use Rattle.bm_core.specs.Stages.{IsSound};
ghost use Rattle.bm_core.specs.declared.events.History.{History};
ghost use Rattle.bm_fault.specs.Faults.{Gives, IsRule};
ghost use Rattle.bm_route.specs.Routes.{Answers, IsRoute};
ghost use Rattle.bm_trace.specs.Report.{text};
ghost use Rattle.bm_trace.specs.Types.{AreEvents};
ghost use Rattle.bm_check.specs.Answers.{DifferAt, IsAccounted, IsAnswered, IsLeast, IsSure};
ghost use Rattle.bm_check.specs.Inside.Checking.{IsCompared, IsFound};

use crate::Answer;
use crate::account::is_accounted;
use crate::compare::{ExpectingSink, first_difference};
use crate::lines::{Reading, read_lines};
use bm_base::{Fate, Flow, Hop, List, Memory};
use bm_core::{Event, History, Stage};
use bm_fault::Faults;
use bm_route::Route;
use bm_running::{Followed, follow};
use bm_trace::{report_to, sweep, totals_of};
use std::alloc::Global;

/// The number of a line or an event. A report has at most 268,435,456 octets.
fn short(number: usize) -> u32
    requires { number ≤ 268435457 }
    ensures { result ≡ number }
{
    number as u32
}

/// What reading a report and following its events finds: the events, if they are a run that is
/// accounted for, or what is wrong.
#[derive(Drop)]
enum Found {
    Wrong(Answer),
    Events(List<Event>),
}

/// Reads the report and follows its events.
fn read_run<R: Fn(u32, &Flow) -> u16, F: Fn(u32, Hop) -> Fate>(
    alloc: Global,
    stage: &Stage,
    route: &Route<R>,
    faults: &Faults<F>,
    trace: &[u8],
) -> Result<Found, Memory>
    requires sound { IsSound stage.now }
    requires route { IsRoute R.Fn route.now.rule route.now.muxes }
    requires faults { IsRule F.Fn faults.now.rule }
    requires sure { IsSure (Answers R.Fn route.now.rule) (Gives F.Fn faults.now.rule) }
    requires short { length trace.now ≤ 268435456 }
    ensures { IfOk result (IsFound (Answers R.Fn route.now.rule) (Gives F.Fn faults.now.rule)
        stage.now trace.now) }
{
    let events = match read_lines(alloc, trace)? {
        Reading::Events(events) => events,
        Reading::Bad(number) => return Ok(Found::Wrong(Answer::NotLine(short(number)))),
    };
    let (tallies, losses) = match follow(alloc, stage, events.items())? {
        Followed::Runs(tallies, losses) => (tallies, losses),
        Followed::Stops(number) => return Ok(Found::Wrong(Answer::NotRun(short(number)))),
    };
    if !is_accounted(
        alloc,
        stage,
        route,
        faults,
        &tallies,
        &losses,
        events.items(),
    )? {
        return Ok(Found::Wrong(Answer::NotAccount));
    }
    Ok(Found::Events(events))
}

/// The number of the first line at which these octets differ from the report of the history, if
/// they do.
#[tactic(auto, using(bm_trace::proofs::Ranged::ranges_of))]
fn first_other_line(alloc: Global, h: &History, trace: &[u8]) -> Result<Option<usize>, Memory>
    requires run { IsRun h.now }
    requires short { length trace.now ≤ 268435456 }
    ensures least { IfOk result (λ found. MatchOption found (trace.now ≡ text h.now)
        (IsLeast (DifferAt trace.now (text h.now)))) }
    ensures few { IfOk result (λ found. IfSome found (λ n. n ≤ length trace.now + 1)) }
{
    let causes = sweep(alloc, h)?;
    let mut report = ExpectingSink::new(alloc, trace);
    let Ok(()) = report_to(h, &causes, &totals_of(h, &causes), &mut report) else {
        return Err(Memory);
    };
    // A sink promises only what was written to it, and not that it still expects this text.
    let (first, second) = report.written();
    Ok(first_difference(trace, first, second))
}

/// Compares the octets with the report of the history.
fn compare(alloc: Global, h: &History, trace: &[u8]) -> Result<Answer, Memory>
    requires run { IsRun h.now }
    requires short { length trace.now ≤ 268435456 }
    requires few { length h.now.events ≤ 268435456 }
    ensures { IfOk result (IsCompared h.now trace.now) }
{
    match first_other_line(alloc, h, trace)? {
        Some(number) => Ok(Answer::NotSame(short(number))),
        None => Ok(Answer::Yes(short(h.events.items().len()))),
    }
}

/// The first thing that is wrong with the report, or that nothing is.
fn judge<R: Fn(u32, &Flow) -> u16, F: Fn(u32, Hop) -> Fate>(
    alloc: Global,
    stage: Stage,
    route: &Route<R>,
    faults: &Faults<F>,
    trace: &[u8],
) -> Result<Answer, Memory>
    requires sound { IsSound stage }
    requires route { IsRoute R.Fn route.now.rule route.now.muxes }
    requires faults { IsRule F.Fn faults.now.rule }
    requires sure { IsSure (Answers R.Fn route.now.rule) (Gives F.Fn faults.now.rule) }
    requires short { length trace.now ≤ 268435456 }
    ensures { IfOk result (IsAnswered (Answers R.Fn route.now.rule) (Gives F.Fn faults.now.rule)
        stage trace.now) }
{
    match read_run(alloc, &stage, route, faults, trace)? {
        Found::Wrong(answer) => Ok(answer),
        Found::Events(events) => {
            let h = History { stage, events };
            let answer = compare(alloc, &h, trace)?;
            Ok(answer)
        }
    }
}

/// Whether the octets are the report of a run of the stage that is accounted for, or the first
/// thing that is wrong with them. The route and the impairment rule have one answer to each
/// question. For n octets and a stage of n records, moves and retirements of shards, the time is in
/// proportion to n log n, unless flows are chosen for one home (docs/SECURITY.md). The memory is in
/// proportion to n: the events, what is kept of them, and the report of these events from the first
/// octet on that differs. `Memory` where memory was refused.
pub fn check<R: Fn(u32, &Flow) -> u16, F: Fn(u32, Hop) -> Fate>(
    alloc: Global,
    stage: Stage,
    route: &Route<R>,
    faults: &Faults<F>,
    trace: &[u8],
) -> Result<Answer, Memory>
    requires sound { IsSound stage }
    requires route { IsRoute R.Fn route.now.rule route.now.muxes }
    requires faults { IsRule F.Fn faults.now.rule }
    requires sure { IsSure (Answers R.Fn route.now.rule) (Gives F.Fn faults.now.rule) }
    requires short { length trace.now ≤ 268435456 }
    // The first thing that is wrong, or yes.
    ensures answer { IfOk result (IsAnswered (Answers R.Fn route.now.rule)
        (Gives F.Fn faults.now.rule) stage trace.now) }
    // Yes wherever the octets are such a report.
    ensures yes { (h : History) → h.stage ≡ stage → AreEvents h.events → IsRun h
        → IsAccounted (Answers R.Fn route.now.rule) (Gives F.Fn faults.now.rule) h
        → text h ≡ trace.now → IfOk result (λ answer. answer ≡ Answer.Yes (length h.events)) }
{
    let answer = judge(alloc, stage, route, faults, trace)?;
    Ok(answer)
}
