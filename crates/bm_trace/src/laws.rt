//! What a report says about its history.
ghost use Rattle.std.specs.Prelude.{◌≡◌, ◌<◌, ◌^◌, ℕ, Bool, true, false, List, None, is_some};
ghost use Rattle.std.specs.Prelude.{reverse};
ghost use Rattle.std.specs.List.{flat_map};
ghost use Rattle.bm_base.specs.declared.fate.Fate.{Fate};
ghost use Rattle.bm_base.specs.declared.flow.Flow.{Flow};
ghost use Rattle.bm_base.specs.declared.label.Hop.{Hop};
ghost use Rattle.bm_core.specs.declared.events.Event.{Event};
ghost use Rattle.bm_core.specs.declared.events.Verdict.{Verdict};
ghost use Rattle.bm_core.specs.declared.events.What.TheVariants.{Lose};
ghost use Rattle.bm_core.specs.Accounts.{IsAccountOf};
ghost use Rattle.bm_core.specs.Causes.{cause};
ghost use Rattle.bm_core.specs.Ends.{packet_ends};
ghost use Rattle.bm_core.specs.Laws.{IsUnbrokenPacket};
ghost use Rattle.bm_core.specs.Past.{segment_of};
ghost use Rattle.bm_core.specs.Rules.{RouteBy, RuleBy};
ghost use Rattle.bm_core.specs.Runs.{IsRun};
ghost use Rattle.bm_trace.specs.Kept.{IsEndedLine, IsKeptLine, end_told};
ghost use Rattle.bm_trace.specs.Report.{ends_of, text};
ghost use Rattle.bm_trace.specs.Totals.{arrives, is_lost, is_stray};
ghost use Rattle.bm_trace.specs.Types.{AreEvents, IsAnswer, IsEvent, IsFlow, IsVerdict};
ghost use Rattle.bm_trace.specs.Types.{IsWhat};

use bm_base::Flow;
use bm_core::{Event, History, Stage, Verdict, What};
use bm_table::Retirement;

fn read_flow(flow: &Flow)
    ensures { IsFlow flow.now }
{
    let _src = flow.src;
    let _dst = flow.dst;
    let _sport = flow.sport;
    let _dport = flow.dport;
}

fn read_verdict(verdict: Verdict)
    ensures { IsVerdict verdict }
{
    if let Verdict::Forward(server) = verdict {
        let _number = server.0;
    }
}

fn read_answer(answer: Retirement)
    ensures { IsAnswer answer }
{
    if let Retirement::TooEarly(bucket) = answer {
        let _number = bucket;
    }
}

fn read_16(number: u16)
    ensures { number < 2 ^ 16 }
{
    let _number = number;
}

fn read_32(number: u32)
    ensures { number < 2 ^ 32 }
{
    let _number = number;
}

fn read_64(number: u64)
    ensures { number < 2 ^ 64 }
{
    let _number = number;
}

fn read_what(what: &What)
    ensures { IsWhat what.now }
{
    match *what {
        What::Publish(version) => read_32(version.0),
        What::Switch { mux, version } => {
            read_16(mux.0);
            read_32(version.0);
        }
        What::Steer { packet, mux } => {
            read_32(packet);
            read_16(mux.0);
        }
        What::Lose { packet, .. } => read_32(packet),
        What::Arrive {
            packet,
            server,
            verdict,
            ..
        } => {
            read_32(packet);
            read_16(server.0);
            read_verdict(verdict);
        }
        What::Close { server, flow, .. } => {
            read_16(server.0);
            read_flow(&flow);
        }
        What::Retire {
            server,
            shard,
            at,
            result,
        } => {
            read_16(server.0);
            read_16(shard);
            read_64(at.0);
            read_answer(result);
        }
        What::Sync => {}
    }
}

/// Each number of an event fits its type.
pub fn numbers_fit(event: &Event)
    ensures { IsEvent event.now }
{
    read_64(event.clock.0);
    read_what(&event.what);
}

fn read_events(events: &[Event])
    ensures { AreEvents events.now }
{
    let mut rest = events;
    while let Some((event, later)) = rest.split_first() {
        numbers_fit(event);
        rest = later;
    }
}

/// Each number of a history's events fits its type.
pub fn events_fit(h: &History)
    ensures { AreEvents h.now.events }
{
    read_events(h.events.items());
}

/// Two histories of one stage with the same report have the same events: a report determines its
/// history.
#[tactic(auto, using(crate::proofs::OneHistory::same_events))]
pub fn one_history(a: &History, b: &History)
    requires stage { a.now.stage ≡ b.now.stage }
    requires text { text a.now ≡ text b.now }
    ensures { a.now.events ≡ b.now.events }
{
    events_fit(a);
    events_fit(b);
}

/// The line of a packet has the words of its copies' ends, in the order in which they happened, and
/// no others.
pub fn ends_told()
    ensures { (past : List Event) (k : ℕ)
        → ends_of past k ≡ flat_map end_told (packet_ends past k) }
{}

/// Each steered packet has an end, and its line has the words of its ends.
pub fn ended_line(h: &History, packet: u32)
    requires run { IsRun h.now }
    requires steered { is_some (segment_of h.now.stage packet) ≡ true }
    ensures { (mux : ℕ → Flow → ℕ) (fate : ℕ → Hop → Fate) (fates : List Fate)
        → IsAccountOf (RouteBy mux) (RuleBy fate) h.now.stage fates (reverse h.now.events)
        → IsEndedLine (RuleBy fate) (reverse h.now.events) packet }
{}

/// If a steered packet's premises hold at all its arrivals, its line says that the server that
/// accepted its connection processed it, and nothing else but losses.
pub fn kept_line(h: &History, packet: u32)
    requires run { IsRun h.now }
    requires steered { is_some (segment_of h.now.stage packet) ≡ true }
    requires unbroken { IsUnbrokenPacket h.now.stage (reverse h.now.events) packet }
    ensures { (mux : ℕ → Flow → ℕ) (fate : ℕ → Hop → Fate) (fates : List Fate)
        → IsAccountOf (RouteBy mux) (RuleBy fate) h.now.stage fates (reverse h.now.events)
        → IsKeptLine (RuleBy fate) h.now.stage (reverse h.now.events) packet }
{}

/// A loss is counted as lost, and as nothing else: it is no drop. Nor has it a cause.
pub fn losses(stage: &Stage)
    ensures lost { (k : ℕ) (hop : Hop) → is_lost (Lose k hop) ≡ true }
    ensures alone { (k : ℕ) (hop : Hop) (kind : Verdict → Bool)
        → arrives kind (Lose k hop) ≡ false }
    ensures stray { (past : List Event) (k : ℕ) (hop : Hop)
        → is_stray stage.now past (Lose k hop) ≡ false }
    ensures no_cause { (past : List Event) (clock k : ℕ) (hop : Hop)
        → cause stage.now past clock (Lose k hop) ≡ None }
{}
