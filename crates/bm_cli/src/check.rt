//! The check of a trace, which is a printed report.
ghost use Rattle.std.specs.Prelude.{◌≡◌, ◌≢◌, ◌⊎◌, ◌<◌, ◌≤◌, ◌∷◌, [], IfErr, IfOk, IsErrAnd, Some};
ghost use Rattle.std.specs.Prelude.{length, string_bytes};
ghost use Rattle.std.specs.Result.{result_map_both};
ghost use Rattle.bm_core.specs.Rules.{fate_in, mux_of_kind};
ghost use Rattle.bm_core.specs.Stages.{IsSound};
ghost use Rattle.bm_io.specs.Causes.{Rose};
ghost use Rattle.bm_cli.specs.Checks.{IsCheckOf, checked_line, checked_status};
ghost use Rattle.bm_cli.specs.Dues.{Judged, due_of_check};
ghost use Rattle.bm_cli.specs.Ends.{Ends};
ghost use Rattle.bm_cli.specs.Inside.Traces.{ReadsTrace, ReadsTraceFile};
ghost use Rattle.bm_cli.specs.Lines.{beamer_lines, fault_status};
ghost use Rattle.bm_cli.specs.Names.{AsksAll, AsksPrefix};
ghost use Rattle.bm_cli.specs.Reading.{Holds};
ghost use Rattle.bm_cli.specs.Stages.{IsOutside};
ghost use Rattle.bm_cli.specs.Statuses.{did};
ghost use Rattle.bm_cli.specs.Telling.{Tells};

use crate::fault::StageFault;
use crate::front::read_front;
use crate::lines::refuse;
use crate::mode::Mode;
use crate::stage::read_stage;
use crate::status::{Status, say};
use bm_base::{Fate, Flow, Hop, Memory};
use bm_check::{Answer, check};
use bm_core::Stage;
use bm_fault::{FaultRows, Faults};
use bm_io::{Files, Sink};
use bm_route::{Route, setting_mux};
use bm_words::Names;
use std::alloc::{AllocError, Global};

/// The most octets of a trace.
const LONGEST: usize = 268_435_456;

/// Reads the script, the capture and then the trace, and writes what a check of the trace answers.
pub(crate) fn check_files<F: Files, K: Sink>(
    alloc: Global,
    trace: &str,
    capture: &str,
    script: &str,
    files: &mut F,
    out: &mut K,
) -> Status
    requires room { F.open_now files.old < 4294967295 }
    ensures ends { Holds (F.octets files.old) (λ reads.
        Ends beamer_lines
        (due_of_check trace.now (record { capture = capture.now; script = Some script.now }) reads)
        (did F.asked F.faults files.old files.new)
        (did K.written K.faults out.old out.new) result) }
    ensures octets { F.octets files.new ≡ F.octets files.old }
    ensures open { F.open_now files.new ≡ F.open_now files.old }
{
    match read_traced(alloc, files, trace, capture, script) {
        Ok((stage, trace)) => show_check(alloc, stage, &trace, out),
        Err(fault) => refuse(alloc, &fault, out),
    }
}

/// Reads the script, the capture and then the trace. Only these names are asked for, and none after
/// a fault.
fn read_traced<F: Files>(
    alloc: Global,
    files: &mut F,
    trace: &str,
    capture: &str,
    script: &str,
) -> Result<(Stage, Vec<u8>), StageFault>
    requires room { F.open_now files.old < 4294967295 }
    ensures read { Holds (F.octets files.old) (λ reads.
        ReadsTrace trace.now capture.now script.now reads (did F.asked F.faults files.old files.new)
        (result_map_both (λ read. (read.0, read.1.items)) (λ fault. fault) result)) }
    ensures sound { IfOk result (λ read. IsSound read.0) }
    ensures short { IfOk result (λ read. length read.1.items ≤ LONGEST) }
    ensures octets { F.octets files.new ≡ F.octets files.old }
    ensures open { F.open_now files.new ≡ F.open_now files.old }
{
    let names = Names {
        capture,
        script: Some(script),
    };
    let named = read_stage(alloc, files, Mode::Replay, names)?;
    let trace = read_trace(alloc, files, trace)?;
    Ok((named.stage, trace))
}

/// Reads the trace of this name. No other name is asked for.
fn read_trace<F: Files>(alloc: Global, files: &mut F, name: &str) -> Result<Vec<u8>, StageFault>
    requires room { F.open_now files.old < 4294967295 }
    ensures trace { ReadsTraceFile (F.octets files.old) name.now
        (result_map_both (λ trace. trace.items) (λ fault. fault) result) }
    ensures short { IfOk result (λ trace. length trace.items ≤ LONGEST) }
    ensures asked { AsksPrefix (F.open_now files.old)
        (did F.asked F.faults files.old files.new) (name.now ∷ []) }
    ensures all { IsErrAnd result IsOutside
        ⊎ AsksAll (F.open_now files.old)
        (did F.asked F.faults files.old files.new) (name.now ∷ []) }
    ensures octets { F.octets files.new ≡ F.octets files.old }
    ensures later { F.faults files.old ≤ F.faults files.new }
    ensures cause { IfErr result (λ fault.
        fault_status fault ≡ Status.ReadFault → Rose (F.faults files.old) (F.faults files.new)) }
    ensures kept { IsErrAnd result (λ fault. fault_status fault ≡ Status.ReadFault)
        ⊎ (F.faults files.new ≡ F.faults files.old) }
    ensures open { F.open_now files.new ≡ F.open_now files.old }
{
    let trace = read_front(alloc, files, name, LONGEST + 1)?;
    if trace.len() > LONGEST {
        return Err(StageFault::LongTrace);
    }
    Ok(trace)
}

/// Checks the trace, and writes the line of the answer.
fn show_check<K: Sink>(alloc: Global, stage: Stage, trace: &[u8], out: &mut K) -> Status
    requires sound { IsSound stage }
    requires short { length trace.now ≤ LONGEST }
    ensures { Tells beamer_lines (Judged (IsCheckOf stage trace.now))
        (did K.written K.faults out.old out.new) result }
{
    let Ok(answer) = answer_of(alloc, stage, trace) else {
        return Status::Memory;
    };
    match line_of(alloc, answer) {
        Ok(line) => say(out, line.as_bytes(), status_of(answer)),
        Err(_) => Status::Memory,
    }
}

/// What a check of the trace answers, by the route and the impairment rule of the stage's setting.
fn answer_of(alloc: Global, stage: Stage, trace: &[u8]) -> Result<Answer, Memory>
    requires sound { IsSound stage }
    requires short { length trace.now ≤ LONGEST }
    ensures { IfOk result (IsCheckOf stage trace.now) }
{
    let setting = &stage.script.setting;
    let (kind, muxes) = (setting.route, setting.muxes);
    let rows = FaultRows::new(alloc, setting.faults.items())?;
    let route = Route::new(
        |packet: u32, flow: &Flow| -> u16
            requires { 0 < muxes }
            ensures mux { result ≡ mux_of_kind kind muxes packet flow.now }
            ensures below { result < muxes }
        { setting_mux(kind, muxes, packet, flow) },
        muxes,
    );
    let faults = Faults::new(
        |packet: u32, hop: Hop| -> Fate
            ensures { result ≡ fate_in rows packet hop }
        { rows.fate(packet, hop) },
    );
    check(alloc, stage, &route, &faults, trace)
}

/// The status with which the program ends after this answer.
fn status_of(answer: Answer) -> Status
    ensures status { result ≡ checked_status answer }
    ensures write { result ≢ Status.WriteFault }
    ensures memory { result ≢ Status.Memory }
{
    match answer {
        Answer::Yes(_) => Status::Done,
        _ => Status::Denied,
    }
}

fn line_of(alloc: Global, answer: Answer) -> Result<String, AllocError>
    ensures { IfOk result (λ line. string_bytes line ≡ checked_line answer) }
{
    match answer {
        Answer::Yes(events) => format!(in alloc; "beamer: check: yes {events} events\n"),
        Answer::NotLine(line) => format!(in alloc; "beamer: check: not a line {line}\n"),
        Answer::NotRun(event) => format!(in alloc; "beamer: check: not a run at event {event}\n"),
        Answer::NotAccount => String::from_str(alloc, "beamer: check: not accounted\n"),
        Answer::NotSame(line) => format!(in alloc; "beamer: check: differs at line {line}\n"),
    }
}
