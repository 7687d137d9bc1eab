//! The history of a stage, shown.
ghost use Rattle.std.specs.Prelude.{OnErr, OnOk};
ghost use Rattle.std.specs.Io.KnownBytes.{Appends};
ghost use Rattle.bm_core.specs.Runs.{IsRun};
ghost use Rattle.bm_core.specs.Stages.{IsSound};
ghost use Rattle.bm_io.specs.Causes.{HasIoCause};
ghost use Rattle.bm_io.specs.Written.{WritesPart};
ghost use Rattle.bm_link.specs.Fits.{ArePackets};
ghost use Rattle.bm_trace.specs.Report as report;
ghost use Rattle.bm_cli.specs.Dues.{Shown};
ghost use Rattle.bm_cli.specs.Headline.{IsReportOf};
ghost use Rattle.bm_cli.specs.Lines.{beamer_lines};
ghost use Rattle.bm_cli.specs.Telling.{Tells};
ghost use Rattle.bm_cli.specs.Statuses.{Writes, did};

use crate::history::history_of;
use crate::mode::Mode;
use crate::status::Status;
use bm_base::{Memory, Octets};
use bm_core::{History, Stage};
use bm_io::{Gate, IoFault, Sink};
use bm_trace::laws::events_fit;
use bm_trace::{report_beside, report_to, sweep, totals_of};
use std::alloc::Global;
use std::sync::Wait;
use std::thread::Threads;

/// The most threads that make the lines of the events.
const MOST_THREADS: usize = 8;

/// Plays the stage, and writes the report of its history. `packets` has the packet of each record,
/// and is dropped before the report is made.
pub(crate) fn show<R: Threads + Wait + Sync, K: Sink, G: Gate>(
    rt: &R,
    alloc: Global,
    mode: Mode,
    stage: Stage,
    packets: Octets,
    out: &mut K,
    gate: &G,
) -> Status
    requires sound { IsSound stage }
    requires packets { ArePackets stage.capture.records packets }
    ensures { Tells beamer_lines (Shown (IsReportOf mode stage))
        (did K.written K.faults out.old out.new) result }
{
    match history_of(rt, alloc, mode, stage, packets, gate) {
        Ok(history) => {
            // The proof wants to know that each number fits its type. Nothing is kept of what this reads.
            events_fit(&history);
            show_history(rt, alloc, mode, &history, out)
        }
        Err(Memory) => Status::Memory,
    }
}

/// How many threads write the lines of a run's events: as many as there are muxes, up to a limit,
/// minus the one that meanwhile finds the causes.
fn writers_of(history: &History) -> usize {
    let muxes = usize::from(history.stage.script.setting.muxes);
    muxes.min(MOST_THREADS).saturating_sub(1)
}

/// Writes the report of the history, in pieces; that of a run with several threads.
#[tactic(auto, using(bm_trace::proofs::Ranged::ranges_of))]
fn write_report<R: Threads + Sync, K: Sink>(
    rt: &R,
    alloc: Global,
    mode: Mode,
    history: &History,
    out: &mut K,
) -> Result<(), IoFault>
    requires { IsRun history.now }
    ensures ok { OnOk result (Appends (K.written out.old) (K.written out.new)
        (report.text history.now)) }
    ensures err { OnErr result (WritesPart (K.written out.old) (K.written out.new)
        (report.text history.now)) }
    ensures cause { HasIoCause (K.faults out.old) (K.faults out.new) result }
{
    match mode {
        Mode::Replay => {
            let Ok(causes) = sweep(alloc, history) else {
                return Err(IoFault::Memory);
            };
            report_to(history, &causes, &totals_of(history, &causes), out)
        }
        Mode::Run => report_beside(rt, alloc, writers_of(history), history, out),
    }
}

/// Writes the report of the history, and returns how that ended.
fn show_history<R: Threads + Sync, K: Sink>(
    rt: &R,
    alloc: Global,
    mode: Mode,
    history: &History,
    out: &mut K,
) -> Status
    requires { IsRun history.now }
    ensures { Writes Status.Done (report.text history.now)
        (did K.written K.faults out.old out.new) result }
{
    match write_report(rt, alloc, mode, history, out) {
        Ok(()) => Status::Done,
        Err(IoFault::Failed) => Status::WriteFault,
        Err(IoFault::Memory) => Status::Memory,
    }
}
