//! The story of one flow: what happened to it, event by event.
ghost use Rattle.std.specs.Prelude.{◌≡◌, ◌++◌, ◌∷◌, [], List, Some, OnOk, IfOk, if◌then◌else◌};
ghost use Rattle.std.specs.Prelude.{reverse, string_bytes};
ghost use Rattle.bm_core.specs.Causes as causes;
ghost use Rattle.bm_core.specs.Runs.{IsRun};
ghost use Rattle.bm_core.specs.declared.events.Event.{Event};
ghost use Rattle.bm_state.specs.Moves.{AreMoves};
ghost use Rattle.bm_state.specs.Versions.{KeepsVersions};
ghost use Rattle.bm_trace.specs.Ranges.{HasRanges};
ghost use Rattle.bm_trace.specs.Swept.{AreCauses};
ghost use Rattle.bm_connections.specs.Story as spec;

use crate::times::{Clock, TimeText};
use bm_base::flags::{ACK, FIN, RST, SYN};
use bm_base::{Flow, Memory, Segment, Text, Version};
use bm_core::{Cause, Event, History, Stage, What};
use bm_hash::bucket_of;
use bm_state::{Moves, Versions};
use bm_trace::{CauseList, write_event};
use std::alloc::{AllocError, Global};
use std::fmt;

/// The segment of the event's packet, if it is an event of a packet.
fn packet_in(stage: &Stage, what: What) -> Option<Segment>
    ensures { result ≡ spec.packet_in stage.now what }
{
    match what {
        What::Steer { packet, .. } | What::Lose { packet, .. } | What::Arrive { packet, .. } => {
            stage.segment(packet)
        }
        What::Publish(_)
        | What::Switch { .. }
        | What::Close { .. }
        | What::Retire { .. }
        | What::Sync => None,
    }
}

/// Whether the event is one of a packet of the flow, or a close of the flow.
fn is_of_flow(stage: &Stage, flow: &Flow, what: What) -> bool
    ensures { result ≡ spec.is_of_flow stage.now flow.now what }
{
    if let What::Close { flow: closed, .. } = what {
        return closed == *flow;
    }
    match packet_in(stage, what) {
        None => false,
        Some(segment) => segment.flow == *flow,
    }
}

/// Whether the change that makes this version moves the flow's bucket.
fn moves_flow(stage: &Stage, moves: &Moves, flow: &Flow, version: Version) -> bool
    requires ranges { HasRanges stage.now }
    requires moves { AreMoves stage.now.script.plan moves.now }
    ensures { result ≡ spec.moves_flow stage.now flow.now version.0 }
{
    let bucket = bucket_of(flow, stage.script.setting.buckets);
    let before = Version(version.0.saturating_sub(1));
    moves.count(&stage.script.plan, bucket, before, version) > 0
}

/// Whether the event is of a change that moves the flow's bucket.
fn is_of_bucket(stage: &Stage, moves: &Moves, flow: &Flow, what: What) -> bool
    requires ranges { HasRanges stage.now }
    requires moves { AreMoves stage.now.script.plan moves.now }
    ensures { result ≡ spec.is_of_bucket stage.now flow.now what }
{
    match what {
        What::Publish(version) | What::Switch { version, .. } => {
            moves_flow(stage, moves, flow, version)
        }
        What::Steer { .. }
        | What::Lose { .. }
        | What::Arrive { .. }
        | What::Close { .. }
        | What::Retire { .. }
        | What::Sync => false,
    }
}

/// The flag's word after a space, if the segment has the flag.
fn write_flag(text: &mut String, flag: u8, word: &str, segment: &Segment) -> Result<(), AllocError>
    ensures { OnOk result
        (string_bytes text.new ≡ string_bytes text.old ++ spec.flag_text flag word.now segment.now) }
{
    if segment.has(flag) {
        write!(text, " {word}")?;
    }
    Ok(())
}

fn write_flags(text: &mut String, segment: &Segment) -> Result<(), AllocError>
    ensures { OnOk result
        (string_bytes text.new ≡ string_bytes text.old ++ spec.flags_text segment.now) }
{
    write_flag(text, SYN, "SYN", segment)?;
    write_flag(text, FIN, "FIN", segment)?;
    write_flag(text, RST, "RST", segment)?;
    write_flag(text, ACK, "ACK", segment)?;
    Ok(())
}

/// What a packet is: its flags and its length.
fn write_packet(text: &mut String, packet: Option<Segment>) -> Result<(), AllocError>
    ensures { OnOk result
        (string_bytes text.new ≡ string_bytes text.old ++ spec.packet_text packet) }
{
    let Some(segment) = packet else {
        return Ok(());
    };
    write!(text, " flags")?;
    write_flags(text, &segment)?;
    write!(text, " length {}", segment.len)
}

/// Appends the line of an event with this cause. `versions` are the versions before it.
fn write_story_line(
    text: &mut String,
    clock: Clock,
    versions: &Versions,
    stage: &Stage,
    event: &Event,
    cause: Option<Cause>,
) -> Result<(), AllocError>
    requires { HasRanges stage.now }
    ensures { (past : List Event) → KeepsVersions past versions.now
        → cause ≡ causes.cause stage.now past event.now.clock.0 event.now.what
        → OnOk result (string_bytes text.new ≡ string_bytes text.old
        ++ spec.story_line clock.0 stage.now past event.now) }
{
    let at = TimeText(clock, event.clock);
    write!(text, "story {at}")?;
    write_packet(text, packet_in(stage, event.what))?;
    write!(text, " ")?;
    write_event(text, versions, stage, event, cause)?;
    Ok(())
}

/// Whether the event belongs to the flow's story.
fn is_told(stage: &Stage, moves: &Moves, flow: &Flow, what: What) -> bool
    requires ranges { HasRanges stage.now }
    requires moves { AreMoves stage.now.script.plan moves.now }
    ensures { result ≡ spec.is_told stage.now flow.now what }
{
    is_of_flow(stage, flow, what) || is_of_bucket(stage, moves, flow, what)
}

/// The story so far.
#[derive(Drop)]
struct Story {
    text: String,
    versions: Versions,
}

impl Story {
    ghost use Rattle.bm_connections.specs.Inside.Stories.{Tells};

    fn new(alloc: Global) -> Story
        ensures { (clock : Clock) (stage : Stage) (f : Flow) → Tells clock.0 stage f [] result }
    {
        Story {
            text: String::new(alloc),
            versions: Versions::new(alloc),
        }
    }

    /// Takes in the event that comes next, which has this cause: it is told, if it belongs to the
    /// flow's story.
    fn observe(
        &mut self,
        clock: Clock,
        stage: &Stage,
        moves: &Moves,
        flow: &Flow,
        event: &Event,
        cause: Option<Cause>,
    ) -> Result<(), Memory>
        requires ranges { HasRanges stage.now }
        requires moves { AreMoves stage.now.script.plan moves.now }
        ensures { (past : List Event)
            → cause ≡ causes.cause stage.now past event.now.clock.0 event.now.what
            → Tells clock.0 stage.now flow.now past self.old
            → OnOk result (Tells clock.0 stage.now flow.now (event.now ∷ past) self.new) }
    {
        if is_told(stage, moves, flow, event.what) {
            write_story_line(&mut self.text, clock, &self.versions, stage, event, cause)?;
        }
        self.versions.observe(event.what)?;
        Ok(())
    }
}

/// The story of a flow in a history with these causes: a line for each event of the flow and of the
/// changes that move its bucket. Moments are written by the clock.
#[tactic(auto, using(bm_trace::proofs::Ranged::ranges_of))]
pub fn story_text(
    alloc: Global,
    clock: Clock,
    h: &History,
    causes: &CauseList,
    flow: &Flow,
) -> Result<Text, Memory>
    requires run { IsRun h.now }
    requires causes { AreCauses h.now causes.now }
    ensures { IfOk result (λ text. text ≡ spec.story clock.0 h.now flow.now) }
{
    let moves = Moves::new(alloc, &h.stage.script.plan)?;
    let events = h.events.items();
    let mut story = Story::new(alloc);
    for (place, event) in events.iter().enumerate() {
        story.observe(clock, &h.stage, &moves, flow, event, causes.at(place))?;
    }
    Ok(Text::of(story.text))
}
