//! The top call.
ghost use Rattle.std.specs.Prelude.{◌≡◌, ◌<◌, ◌≤◌, if◌then◌else◌, IfOk, None, Some};
ghost use Rattle.bm_core.specs.Runs.{IsRun};
ghost use Rattle.bm_core.specs.Stages.{IsSound};
ghost use Rattle.bm_link.specs.Fits.{ArePackets};
ghost use Rattle.bm_words.specs.Form.{named};
ghost use Rattle.bm_cli.specs.Dues.{Shown};
ghost use Rattle.bm_cli.specs.Program.{IsProgram};
ghost use Rattle.bm_cli.specs.Reading.{Holds};
ghost use Rattle.bm_cli.specs.Statuses.{Writes, did};
ghost use Rattle.bm_cli.specs.Telling.{Tells};
ghost use Rattle.bm_cli.specs.Top.{AsksNone, ShowsAnswer};
ghost use Rattle.bm_connections.specs.Base.{compared_with};
ghost use Rattle.bm_connections.specs.Connections.{connections};
ghost use Rattle.bm_connections_cli.specs.Dues.{IsShownBy, due};
ghost use Rattle.bm_connections_cli.specs.Failing.{FailsBy, plain_status};
ghost use Rattle.bm_connections_cli.specs.Headline.{IsDrawingOf};
ghost use Rattle.bm_connections_cli.specs.Program.{beamer_connections};
ghost use Rattle.bm_connections_cli.specs.Sinks.{HoldsOfOne};
ghost use Rattle.bm_connections_words.specs.Words.{Connections, Lifetime, form_in};
ghost use Rattle.bm_connections_cli.specs.Inside.Ends.{EndsForm, no_lines};
ghost use Rattle.bm_connections_cli.specs.Inside.Outcomes.{Decides, DecidesBy, FailsIf, told_by};
ghost use Rattle.bm_connections_cli.specs.Inside.Replays.{AreReplays};
ghost use Rattle.bm_connections_words.specs.Options.{format_in, said};
ghost use Rattle.bm_connections_words.specs.Words.{asked};

use crate::failing::{Outcome, failing};
use crate::faults::{file_with, refuse};
use crate::help::{help, misuse, version};
use crate::lifetime::tell_lifetime;
use crate::reason::Reasons;
use crate::replays::{Replayed, replay_compared};
use crate::stories::tell_stories;
use crate::tell::{tell, tell_drawing};
use bm_base::{Memory, Octets};
use bm_cli::{Mode, NamedStage, Status, read_named_script, read_stage, replay_stage};
use bm_connections::Clock;
use bm_connections_words::{Form, Format, Options, read_words};
use bm_core::{History, Stage};
use bm_io::{Files, Sink};
use bm_script::ChangeVerb;
use bm_words::Names;
use std::alloc::Global;
use std::sync::Wait;
use std::thread::Threads;

/// Does all that the program does, and returns the status. What is asked for goes to `out`, a usage
/// line or the line of a fault to `faults`. The line of a read that failed has what `reasons`
/// answers.
///
/// 0: the connections or the lines of a lifetime were written. 1: the words fit no form. 2: the files
/// failed. 3: the capture has a fault. 4: the script has a fault. 5: the sink failed. 6: memory was
/// refused. 7: a limit is exceeded. 9: the lines of a lifetime were written, which is shorter than
/// the words ask for. 10: as 0, where the words ask whether the changes break or refuse a connection,
/// and they do.
pub fn beamer_connections<R: Threads + Wait + Sync, F: Files, K: Sink, E: Sink, Q: Reasons>(
    rt: &R,
    alloc: Global,
    words: &[String],
    files: &mut F,
    out: &mut K,
    faults: &mut E,
    reasons: &Q,
) -> u8
    requires room { F.open_now files.old ≤ 1000 }
    // On status 0 or 10 what was written reports the connections of the replay of the named capture
    // through the servers of the named script, or the lifetime of the named script; or it is the
    // help or the version.
    ensures shown { plain_status result ≡ 0 → Holds (F.octets files.old) (λ reads.
        ShowsAnswer (due (form_in words.now) reads).answer
        (K.written out.old) (K.written out.new)) }
    // What each status means: to which sink which text was written, and which files were asked for.
    // Status 10 means the same as 0.
    ensures program { HoldsOfOne (λ sink.
        IsProgram beamer_connections (form_in words.now) (F.octets files.old)
        (did F.asked F.faults files.old files.new) sink (plain_status result))
        (did K.written K.faults out.old out.new)
        (did E.written E.faults faults.old faults.new) (plain_status result) }
    // With `--fail` the status is 10 in place of 0 where the changes fail a connection.
    ensures fails { Holds (F.octets files.old) (λ reads. FailsBy (form_in words.now) reads result) }
    // If no file is asked for, the files are left as they are.
    ensures unasked { AsksNone (due (form_in words.now)) → files.new ≡ files.old }
    // The files' octets are the same as before. No source stays open, and none is closed that was
    // open before.
    ensures octets { F.octets files.new ≡ F.octets files.old }
    ensures open { F.open_now files.new ≡ F.open_now files.old }
{
    answer(rt, alloc, words, files, out, faults, reasons).code()
}

/// Does what the words ask for.
fn answer<R: Threads + Wait + Sync, F: Files, K: Sink, E: Sink, Q: Reasons>(
    rt: &R,
    alloc: Global,
    words: &[String],
    files: &mut F,
    out: &mut K,
    faults: &mut E,
    reasons: &Q,
) -> Outcome
    requires room { F.open_now files.old < 4294967295 }
    ensures ends { EndsForm (form_in words.now) (F.octets files.old)
        (did F.asked F.faults files.old files.new)
        (did K.written K.faults out.old out.new)
        (did E.written E.faults faults.old faults.new) result.status }
    ensures fails { Holds (F.octets files.old) (λ reads. DecidesBy (form_in words.now) reads result) }
    ensures unasked { AsksNone (due (form_in words.now)) → files.new ≡ files.old }
    ensures octets { F.octets files.new ≡ F.octets files.old }
    ensures open { F.open_now files.new ≡ F.open_now files.old }
{
    match read_words(words) {
        Some(form) => answer_form(rt, alloc, form, files, out, faults, reasons),
        None => Outcome::of(misuse(faults)),
    }
}

/// Does what the words ask for, if they fit a form.
fn answer_form<R: Threads + Wait + Sync, F: Files, K: Sink, E: Sink, Q: Reasons>(
    rt: &R,
    alloc: Global,
    form: Form<'_>,
    files: &mut F,
    out: &mut K,
    faults: &mut E,
    reasons: &Q,
) -> Outcome
    requires room { F.open_now files.old < 4294967295 }
    ensures ends { EndsForm (Some (asked form.entry)) (F.octets files.old)
        (did F.asked F.faults files.old files.new)
        (did K.written K.faults out.old out.new)
        (did E.written E.faults faults.old faults.new) result.status }
    ensures fails { Holds (F.octets files.old)
        (λ reads. DecidesBy (Some (asked form.entry)) reads result) }
    ensures unasked { AsksNone (due (Some (asked form.entry))) → files.new ≡ files.old }
    ensures octets { F.octets files.new ≡ F.octets files.old }
    ensures open { F.open_now files.new ≡ F.open_now files.old }
{
    match form {
        Form::Connections { names, options } => {
            report(rt, alloc, names, options, files, out, faults, reasons)
        }
        Form::Lifetime { script, seconds } => {
            Outcome::of(explain(alloc, script, seconds, files, out, faults, reasons))
        }
        Form::Help => Outcome::of(help(alloc, out)),
        Form::Version => Outcome::of(version(out)),
    }
}

/// Replays the named capture and script, and writes what the options say of its connections.
fn report<R: Threads + Wait + Sync, F: Files, K: Sink, E: Sink, Q: Reasons>(
    rt: &R,
    alloc: Global,
    names: Names<'_>,
    options: Options<'_>,
    files: &mut F,
    out: &mut K,
    faults: &mut E,
    reasons: &Q,
) -> Outcome
    requires room { F.open_now files.old < 4294967295 }
    ensures ends { EndsForm (Some (Connections (named names.entry) (said options.entry)))
        (F.octets files.old) (did F.asked F.faults files.old files.new)
        (did K.written K.faults out.old out.new)
        (did E.written E.faults faults.old faults.new) result.status }
    ensures fails { Holds (F.octets files.old) (λ reads.
        DecidesBy (Some (Connections (named names.entry) (said options.entry))) reads result) }
    ensures octets { F.octets files.new ≡ F.octets files.old }
    ensures open { F.open_now files.new ≡ F.open_now files.old }
{
    let (capture, script) = (names.capture, names.script);
    match read_stage(alloc, files, Mode::Replay, names) {
        Ok(named) => {
            let clock = clock_of(options.clock, named.began);
            show(rt, alloc, options, clock, named, out)
        }
        Err(fault) => {
            let name = file_with(capture, script, &fault);
            Outcome::of(refuse(alloc, name, &fault, faults, reasons))
        }
    }
}

/// Replays the stage and its base, and writes what the options say of the connections. A drawing
/// shows nothing of the base.
fn show<R: Threads + Wait + Sync, K: Sink>(
    rt: &R,
    alloc: Global,
    options: Options<'_>,
    clock: Clock,
    named: NamedStage,
    out: &mut K,
) -> Outcome
    requires sound { IsSound named.stage }
    requires packets { ArePackets named.stage.capture.records named.packets }
    ensures tells { Tells no_lines
        (Shown (IsShownBy (said options.entry) clock.0 named.verbs named.stage))
        (did K.written K.faults out.old out.new) result.status }
    ensures fails { Decides (said options.entry).fail named.stage result }
{
    match (options.chosen, options.format(), options.fail) {
        (None, Format::Svg, false) => {
            Outcome::of(show_drawing(rt, alloc, clock, named.stage, named.packets, out))
        }
        _ => show_compared(rt, alloc, options, clock, named, out),
    }
}

/// Replays the stage, and draws its connections. `packets` has the packet of each record.
fn show_drawing<R: Threads + Wait + Sync, K: Sink>(
    rt: &R,
    alloc: Global,
    clock: Clock,
    stage: Stage,
    packets: Octets,
    out: &mut K,
) -> Status
    requires sound { IsSound stage }
    requires packets { ArePackets stage.capture.records packets }
    ensures { Tells no_lines (Shown (IsDrawingOf clock.0 stage))
        (did K.written K.faults out.old out.new) result }
{
    match replay_stage(rt, alloc, stage, packets) {
        Ok(history) => tell_drawing(alloc, clock, &history, out),
        Err(Memory) => Status::Memory,
    }
}

/// Replays the stage and its base, and writes what the options say of the connections.
fn show_compared<R: Threads + Wait + Sync, K: Sink>(
    rt: &R,
    alloc: Global,
    options: Options<'_>,
    clock: Clock,
    named: NamedStage,
    out: &mut K,
) -> Outcome
    requires sound { IsSound named.stage }
    requires packets { ArePackets named.stage.capture.records named.packets }
    ensures tells { Tells no_lines
        (Shown (IsShownBy (said options.entry) clock.0 named.verbs named.stage))
        (did K.written K.faults out.old out.new) result.status }
    ensures fails { Decides (said options.entry).fail named.stage result }
{
    let verbs = named.verbs;
    match replay_failing(rt, alloc, options.fail, named.stage, named.packets) {
        Ok((both, fails)) => {
            let status = tell_by(
                alloc,
                options,
                clock,
                verbs.items(),
                &both.history,
                both.wholes.as_slice(),
                out,
            );
            Outcome { status, fails }
        }
        Err(Memory) => Outcome::of(Status::Memory),
    }
}

/// Replays the stage and its base, and finds out whether the changes fail a connection, if that is
/// asked.
fn replay_failing<R: Threads + Wait + Sync>(
    rt: &R,
    alloc: Global,
    asked: bool,
    stage: Stage,
    packets: Octets,
) -> Result<(Replayed, bool), Memory>
    requires sound { IsSound stage }
    requires packets { ArePackets stage.capture.records packets }
    ensures replays { IfOk result (λ both. AreReplays stage both.0.history both.0.wholes.items) }
    ensures fails { IfOk result (λ both. FailsIf asked stage both.1) }
{
    let both = replay_compared(rt, alloc, stage, packets)?;
    let fails = failing(alloc, asked, &both.history, both.wholes.as_slice())?;
    Ok((both, fails))
}

/// Writes what the options say of the connections, by which of them are whole in the base.
fn tell_by<K: Sink>(
    alloc: Global,
    options: Options<'_>,
    clock: Clock,
    verbs: &[ChangeVerb],
    history: &History,
    wholes: &[bool],
    out: &mut K,
) -> Status
    requires { IsRun history.now }
    ensures { Writes Status.Done
        (told_by (format_in (said options.entry).format) (said options.entry).chosen clock.0
        verbs.now history.now (compared_with (connections history.now) wholes.now))
        (did K.written K.faults out.old out.new) result }
{
    match options.chosen {
        Some(picked) => tell_stories(alloc, picked, clock, history, wholes, out),
        None => tell(alloc, options.format(), clock, verbs, history, wholes, out),
    }
}

/// Reads the named script, and writes its lifetime.
fn explain<F: Files, K: Sink, E: Sink, Q: Reasons>(
    alloc: Global,
    name: &str,
    seconds: Option<u32>,
    files: &mut F,
    out: &mut K,
    faults: &mut E,
    reasons: &Q,
) -> Status
    requires room { F.open_now files.old < 4294967295 }
    ensures ends { EndsForm (Some (Lifetime name.now seconds)) (F.octets files.old)
        (did F.asked F.faults files.old files.new)
        (did K.written K.faults out.old out.new)
        (did E.written E.faults faults.old faults.new) result }
    ensures octets { F.octets files.new ≡ F.octets files.old }
    ensures open { F.open_now files.new ≡ F.open_now files.old }
{
    match read_named_script(alloc, files, name) {
        Ok(script) => tell_lifetime(alloc, &script, seconds, out),
        Err(fault) => refuse(alloc, name, &fault, faults, reasons),
    }
}

/// What moments are counted from, if the wall clock is asked for and the capture began this many
/// nanoseconds after 1970.
fn clock_of(asked: bool, began: u64) -> Clock
    ensures { result.0 ≡ (if asked then Some began else None) }
{
    if asked {
        Clock(Some(began))
    } else {
        Clock(None)
    }
}
