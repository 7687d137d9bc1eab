//! The top call.
ghost use Rattle.std.specs.Prelude.{◌≡◌, ◌<◌, ◌≤◌, Some, IsSome};
ghost use Rattle.bm_words.specs.Form.{HasCount, asked, form_in, named};
ghost use Rattle.bm_cli.specs.Beamer.{beamer};
ghost use Rattle.bm_cli.specs.Dues.{Misused, due, due_of_stage};
ghost use Rattle.bm_cli.specs.Ends.{Ends};
ghost use Rattle.bm_cli.specs.Headline.{IsReportOf};
ghost use Rattle.bm_cli.specs.Lines.{beamer_lines, usage_line};
ghost use Rattle.bm_cli.specs.Program.{IsProgram};
ghost use Rattle.bm_cli.specs.Reading.{Holds};
ghost use Rattle.bm_cli.specs.Statuses.{did};
ghost use Rattle.bm_cli.specs.Telling.{Tells};
ghost use Rattle.bm_cli.specs.Top.{AsksNone, ShowsAnswer};

use crate::check::check_files;
use crate::lines::refuse;
use crate::load::run_load;
use crate::mode::Mode;
use crate::show::show;
use crate::stage::read_stage;
use crate::status::{Status, say};
use crate::streams::play_streams;
use bm_io::{Files, Gate, Sink};
use bm_words::{Form, Names, read_words};
use std::alloc::{AllocError, Global};
use std::sync::Wait;
use std::thread::Threads;

const USAGE: &str =
    "usage: beamer replay CAPTURE [SCRIPT] | run CAPTURE SCRIPT | load N | check TRACE CAPTURE SCRIPT | streams CAPTURE [SCRIPT]\n";

/// Does all that the program does, and returns the status. The gate may make the workers of a run
/// wait; it doesn't change what is due.
///
/// 0: the report, the lines of streams or the line of a load was written, or a check answers yes.
/// 1: the words fit no form. 2: the files failed. 3: the capture has a fault. 4: the script has a
/// fault. 5: the sink failed. 6: memory was refused. 7: a limit is exceeded. 8: a check doesn't
/// answer yes.
pub fn beamer<R: Threads + Wait + Sync, F: Files, K: Sink, G: Gate>(
    rt: &R,
    alloc: Global,
    words: &[String],
    files: &mut F,
    out: &mut K,
    gate: &G,
) -> u8
    requires room { F.open_now files.old ≤ 1000 }
    // On status 0 one of these was written, or a check of the named trace answers yes: the report
    // of a replay, or of a run in threads, of the named capture through the servers of the named
    // script; the lines of the streams of that replay; the line of a run in threads of the load of
    // this many connections.
    ensures shown { result ≡ 0 → Holds (F.octets files.old) (λ reads.
        ShowsAnswer (due (form_in words.now) reads).answer
        (K.written out.old) (K.written out.new)) }
    // What each status means: which text was written, and which files were asked for.
    ensures program { IsProgram beamer (form_in words.now) (F.octets files.old)
        (did F.asked F.faults files.old files.new)
        (did K.written K.faults out.old out.new) result }
    // If no file is asked for, the files are left as they are.
    ensures unasked { AsksNone (due (form_in words.now)) → files.new ≡ files.old }
    // The files' octets are the same as before. No source stays open, and none is closed that was
    // open before.
    ensures octets { F.octets files.new ≡ F.octets files.old }
    ensures open { F.open_now files.new ≡ F.open_now files.old }
{
    answer(rt, alloc, words, files, out, gate).code()
}

/// Does what the words ask for.
fn answer<R: Threads + Wait + Sync, F: Files, K: Sink, G: Gate>(
    rt: &R,
    alloc: Global,
    words: &[String],
    files: &mut F,
    out: &mut K,
    gate: &G,
) -> Status
    requires room { F.open_now files.old < 4294967295 }
    ensures ends { Holds (F.octets files.old) (λ reads.
        Ends beamer_lines (due (form_in words.now) reads) (did F.asked F.faults files.old files.new)
        (did K.written K.faults out.old out.new) result) }
    ensures unasked { AsksNone (due (form_in words.now)) → files.new ≡ files.old }
    ensures octets { F.octets files.new ≡ F.octets files.old }
    ensures open { F.open_now files.new ≡ F.open_now files.old }
{
    match read_words(alloc, words) {
        Ok(Some(form)) => answer_form(rt, alloc, form, files, out, gate),
        Ok(None) => misuse(out),
        Err(AllocError) => Status::Memory,
    }
}

/// Does what the form asks for.
fn answer_form<R: Threads + Wait + Sync, F: Files, K: Sink, G: Gate>(
    rt: &R,
    alloc: Global,
    form: Form<'_>,
    files: &mut F,
    out: &mut K,
    gate: &G,
) -> Status
    requires range { HasCount (asked form) }
    requires room { F.open_now files.old < 4294967295 }
    ensures ends { Holds (F.octets files.old) (λ reads.
        Ends beamer_lines (due (Some (asked form.entry)) reads) (did F.asked F.faults files.old files.new)
        (did K.written K.faults out.old out.new) result) }
    ensures unasked { AsksNone (due (Some (asked form.entry))) → files.new ≡ files.old }
    ensures octets { F.octets files.new ≡ F.octets files.old }
    ensures open { F.open_now files.new ≡ F.open_now files.old }
{
    match form {
        Form::Replay(names) => play_files(rt, alloc, Mode::Replay, names, files, out, gate),
        Form::Run { capture, script } => {
            let names = Names {
                capture,
                script: Some(script),
            };
            play_files(rt, alloc, Mode::Run, names, files, out, gate)
        }
        Form::Check {
            trace,
            capture,
            script,
        } => check_files(alloc, trace, capture, script, files, out),
        Form::Streams(names) => play_streams(rt, alloc, names, files, out),
        Form::Load { connections } => run_load(rt, alloc, connections, out, gate),
    }
}

/// Plays the capture that the words name, through the servers of the script that they name.
fn play_files<R: Threads + Wait + Sync, F: Files, K: Sink, G: Gate>(
    rt: &R,
    alloc: Global,
    mode: Mode,
    names: Names<'_>,
    files: &mut F,
    out: &mut K,
    gate: &G,
) -> Status
    requires script { mode ≡ Mode.Run → IsSome (named names).script }
    requires room { F.open_now files.old < 4294967295 }
    ensures ends { Holds (F.octets files.old) (λ reads.
        Ends beamer_lines (due_of_stage mode (IsReportOf mode) (named names.entry) reads)
        (did F.asked F.faults files.old files.new)
        (did K.written K.faults out.old out.new) result) }
    ensures octets { F.octets files.new ≡ F.octets files.old }
    ensures open { F.open_now files.new ≡ F.open_now files.old }
{
    match read_stage(alloc, files, mode, names) {
        Ok(named) => show(rt, alloc, mode, named.stage, named.packets, out, gate),
        Err(fault) => refuse(alloc, &fault, out),
    }
}

/// Writes the usage line.
fn misuse<K: Sink>(out: &mut K) -> Status
    ensures { Tells beamer_lines (Misused usage_line)
        (did K.written K.faults out.old out.new) result }
{
    say(out, USAGE.as_bytes(), Status::Usage)
}
