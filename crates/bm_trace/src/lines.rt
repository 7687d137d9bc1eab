//! The lines of a report.
ghost use Rattle.std.specs.Prelude.{◌≡◌, ◌∷◌, ◌++◌, [], List, OnOk};
ghost use Rattle.std.specs.Prelude.{codes, decimal, string_bytes, if◌then◌else◌};
ghost use Rattle.bm_core.specs.Causes as causes;
ghost use Rattle.bm_core.specs.Past as past;
ghost use Rattle.bm_core.specs.declared.events.Event.{Event};
ghost use Rattle.bm_trace.specs.Ranges.{HasRanges};
ghost use Rattle.bm_trace.specs.Words as words;
ghost use Rattle.bm_trace.specs.Report as report;
ghost use Rattle.bm_state.specs.Versions.{KeepsVersions};

use crate::append::{end_line, push_digits, push_hop, push_named, push_number, push_verdict};
use crate::sums::Totals;
use crate::words::{Counted, Endpoint, RetirementWords, hop_word};
use bm_base::{Flow, Hop, MuxId, ServerId};
use bm_core::{Cause, Event, Stage, Verdict, What};
use bm_hash::bucket_of;
use bm_state::Versions;
use bm_table::Retirement;
use std::alloc::AllocError;

fn write_arrival(
    line: &mut String,
    clock: u64,
    packet: u32,
    hop: Hop,
    server: ServerId,
    verdict: Verdict,
    cause: Option<Cause>,
) -> Result<(), AllocError>
    ensures { OnOk result
        (string_bytes line.new ≡ string_bytes line.old ++ words.line (decimal clock)
        ((codes "arrive" ∷ decimal packet ∷ words.hop_word hop ∷ decimal server.0 ∷ [])
        ++ words.verdict_words verdict ++ words.because_words cause)) }
{
    push_digits(line, clock)?;
    push_named(line, " arrive ", u64::from(packet))?;
    push_hop(line, hop, u64::from(server.0))?;
    push_verdict(line, verdict)?;
    end_line(line, cause)
}

fn write_close(
    line: &mut String,
    clock: u64,
    server: ServerId,
    flow: &Flow,
    closed: bool,
) -> Result<(), AllocError>
    ensures { OnOk result
        (string_bytes line.new ≡ string_bytes line.old ++ words.line (decimal clock)
        (codes "close" ∷ decimal server.0 ∷ words.endpoint flow.now.src flow.now.sport
        ∷ words.endpoint flow.now.dst flow.now.dport
        ∷ (if closed then codes "closed" else codes "none") ∷ [])) }
{
    let server = server.0;
    let from = Endpoint {
        addr: flow.src,
        port: flow.sport,
    };
    let to = Endpoint {
        addr: flow.dst,
        port: flow.dport,
    };
    let answer = if closed { "closed" } else { "none" };
    writeln!(line, "{clock} close {server} {from} {to} {answer}")
}

fn write_retirement(
    line: &mut String,
    clock: u64,
    server: ServerId,
    shard: u16,
    at: u64,
    answer: Retirement,
) -> Result<(), AllocError>
    ensures { OnOk result
        (string_bytes line.new ≡ string_bytes line.old ++ words.line (decimal clock)
        ((codes "retire" ∷ decimal server.0 ∷ decimal shard ∷ codes "at" ∷ decimal at ∷ [])
        ++ words.retirement_words answer)) }
{
    let server = server.0;
    let answer = RetirementWords(answer);
    writeln!(line, "{clock} retire {server} {shard} at {at}{answer}")
}

/// The bucket of the packet's flow, or 0.
fn bucket_of_packet(stage: &Stage, packet: u32) -> u32
    requires { HasRanges stage.now }
    ensures { result ≡ report.bucket_of_packet stage.now (past.segment_of stage.now packet) }
{
    match stage.segment(packet) {
        None => 0,
        Some(segment) => bucket_of(&segment.flow, stage.script.setting.buckets),
    }
}

fn write_steer(
    line: &mut String,
    clock: u64,
    packet: u32,
    mux: MuxId,
    version: u32,
    bucket: u32,
) -> Result<(), AllocError>
    ensures { OnOk result
        (string_bytes line.new ≡ string_bytes line.old ++ words.line (decimal clock)
        (codes "steer" ∷ decimal packet ∷ decimal mux.0 ∷ decimal version ∷ decimal bucket ∷ [])) }
{
    push_digits(line, clock)?;
    push_named(line, " steer ", u64::from(packet))?;
    push_number(line, u64::from(mux.0))?;
    push_number(line, u64::from(version))?;
    push_number(line, u64::from(bucket))?;
    line.push('\n')?;
    Ok(())
}

/// What the line of an event says of the events before it: a Steer's line the version of its mux
/// and the bucket of its packet, an arrival's its cause. Every other line says nothing of them.
#[derive(Clone, Copy)]
pub struct Aside {
    pub version: u32,
    pub bucket: u32,
    pub cause: Option<Cause>,
}

/// What the line of an event with this cause says of the events before it.
fn aside_of(versions: &Versions, stage: &Stage, event: &Event, cause: Option<Cause>) -> Aside
    requires { HasRanges stage.now }
    ensures { (past : List Event) → KeepsVersions past versions.now
        → cause ≡ causes.cause stage.now past event.now.clock.0 event.now.what
        → result ≡ report.aside stage.now past event.now.clock.0 event.now.what }
{
    match event.what {
        What::Steer { packet, mux } => Aside {
            version: versions.of(mux).0,
            bucket: bucket_of_packet(stage, packet),
            cause: None,
        },
        What::Arrive { .. } => Aside {
            version: 0,
            bucket: 0,
            cause,
        },
        What::Publish(_)
        | What::Switch { .. }
        | What::Lose { .. }
        | What::Close { .. }
        | What::Retire { .. }
        | What::Sync => Aside {
            version: 0,
            bucket: 0,
            cause: None,
        },
    }
}

/// Appends the line of an event that says this of the events before it.
pub fn write_line(line: &mut String, event: &Event, aside: &Aside) -> Result<(), AllocError>
    ensures { OnOk result
        (string_bytes line.new ≡ string_bytes line.old
        ++ words.line (decimal event.now.clock.0) (report.words_of event.now.what aside.now)) }
{
    let clock = event.clock.0;
    match event.what {
        What::Publish(version) => writeln!(line, "{clock} publish {}", version.0),
        What::Switch { mux, version } => writeln!(line, "{clock} switch {} {}", mux.0, version.0),
        What::Steer { packet, mux } => {
            write_steer(line, clock, packet, mux, aside.version, aside.bucket)
        }
        What::Lose { packet, hop } => writeln!(line, "{clock} lost {packet} {}", hop_word(hop)),
        What::Arrive {
            packet,
            hop,
            server,
            verdict,
        } => write_arrival(line, clock, packet, hop, server, verdict, aside.cause),
        What::Close {
            server,
            flow,
            closed,
        } => write_close(line, clock, server, &flow, closed),
        What::Retire {
            server,
            shard,
            at,
            result,
        } => write_retirement(line, clock, server, shard, at.0, result),
        What::Sync => writeln!(line, "{clock} sync"),
    }
}

/// Appends the line of an event with this cause. `versions` are the versions before it.
#[inline(always)]
pub fn write_event(
    line: &mut String,
    versions: &Versions,
    stage: &Stage,
    event: &Event,
    cause: Option<Cause>,
) -> Result<(), AllocError>
    requires { HasRanges stage.now }
    ensures { (past : List Event) → KeepsVersions past versions.now
        → cause ≡ causes.cause stage.now past event.now.clock.0 event.now.what
        → OnOk result (string_bytes line.new ≡ string_bytes line.old
        ++ report.event_line stage.now past event.now) }
{
    let aside = aside_of(versions, stage, event, cause);
    write_line(line, event, &aside)?;
    Ok(())
}

/// The note on the record of this number, which is cut short.
fn write_note(line: &mut String, number: u32) -> Result<(), AllocError>
    ensures { OnOk result
        (string_bytes line.new ≡ string_bytes line.old
        ++ words.line (codes "note")
        (codes "record" ∷ decimal number ∷ codes "cut" ∷ codes "short" ∷ [])) }
{
    writeln!(line, "note record {number} cut short")
}

/// The note on the record that is cut short, if there is one.
pub(crate) fn write_cut(line: &mut String, cut: Option<u32>) -> Result<(), AllocError>
    ensures { OnOk result
        (string_bytes line.new ≡ string_bytes line.old ++ report.note_line cut) }
{
    match cut {
        None => Ok(()),
        Some(number) => write_note(line, number),
    }
}

pub(crate) fn write_totals(line: &mut String, t: &Totals) -> Result<(), AllocError>
    ensures { OnOk result
        (string_bytes line.new ≡ string_bytes line.old ++ report.totals_line t.now) }
{
    let packets = Counted("packets", t.packets);
    let steered = Counted("steered", t.steered);
    let unsteered = Counted("unsteered", t.unsteered);
    let accepted = Counted("accepted", t.accepted);
    let processed = Counted("processed", t.processed);
    let forwarded = Counted("forwarded", t.forwarded);
    let reset = Counted("reset", t.reset);
    let dropped = Counted("dropped", t.dropped);
    let lost = Counted("lost", t.lost);
    let stray = Counted("stray", t.stray);
    writeln!(
        line,
        "total{packets}{steered}{unsteered}{accepted}{processed}{forwarded}{reset}{dropped}{lost}{stray}"
    )
}
