//! The run of a generated load.
ghost use Rattle.std.specs.Prelude.{◌≤◌, IfOk, string_bytes};
ghost use Rattle.bm_load.specs.Loaded.{IsRunOfLoad};
ghost use Rattle.bm_cli.specs.Dues.{Shown};
ghost use Rattle.bm_cli.specs.Lines.{beamer_lines};
ghost use Rattle.bm_cli.specs.Telling.{Tells};
ghost use Rattle.bm_cli.specs.Loads.{IsSummaryOf};
ghost use Rattle.bm_cli.specs.Statuses.{did};

use crate::history::history_of;
use crate::mode::Mode;
use crate::status::{Status, say};
use bm_base::Memory;
use bm_core::History;
use bm_io::{Gate, Sink};
use bm_load::laws::loaded;
use bm_load::{load_stage, summary};
use bm_trace::{sweep, totals_of};
use std::alloc::Global;
use std::sync::Wait;
use std::thread::Threads;

/// Runs the load of n connections in threads, and writes its line.
pub(crate) fn run_load<R: Threads + Wait + Sync, K: Sink, G: Gate>(
    rt: &R,
    alloc: Global,
    n: u32,
    out: &mut K,
    gate: &G,
) -> Status
    requires { (1 ≤ n) × (n ≤ 20000) }
    ensures { Tells beamer_lines (Shown (IsSummaryOf n))
        (did K.written K.faults out.old out.new) result }
{
    match line_of(rt, alloc, n, gate) {
        Ok(line) => say(out, line.as_bytes(), Status::Done),
        Err(Memory) => Status::Memory,
    }
}

/// The line of the load of n connections, run in threads.
fn line_of<R: Threads + Wait + Sync, G: Gate>(
    rt: &R,
    alloc: Global,
    n: u32,
    gate: &G,
) -> Result<String, Memory>
    requires { (1 ≤ n) × (n ≤ 20000) }
    ensures { IfOk result (λ line. IsSummaryOf n (string_bytes line)) }
{
    let (stage, packets) = load_stage(alloc, n)?;
    let history = history_of(rt, alloc, Mode::Run, stage, packets, gate)?;
    line_by(alloc, n, &history)
}

/// The line of a run of the load of n connections.
#[tactic(auto, using(bm_trace::proofs::Ranged::ranges_of))]
fn line_by(alloc: Global, n: u32, history: &History) -> Result<String, Memory>
    requires count { (1 ≤ n) × (n ≤ 20000) }
    requires run { IsRunOfLoad n history.now }
    ensures { IfOk result (λ line. IsSummaryOf n (string_bytes line)) }
{
    loaded(history, n);
    let causes = sweep(alloc, history)?;
    let line = summary(alloc, n, &totals_of(history, &causes))?;
    Ok(line)
}
