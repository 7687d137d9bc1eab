//! The ten numbers of a history's last line.
#![tactic(auto, using(bm_state::proofs::Newest::reverse_last))]

ghost use Rattle.std.specs.Prelude.{◌≡◌, reverse, count_by};
ghost use Rattle.bm_trace.specs.Inside.Counts.{HasRoom, counts_of, with_event, without_strays};
ghost use Rattle.bm_trace.specs.Totals as totals;

use crate::causes::Arrival;
use crate::past::{owner_of, steering_of};
use crate::sums::Totals;
use bm_base::{Body, Record};
use bm_core::{Event, History, Stage, Verdict, What};

fn is_steered(seen: &Record) -> bool
    ensures { result ≡ totals.is_steered seen.now }
{
    matches!(seen.body, Body::Steerable(_))
}

/// Whether the event after these is a stray.
fn is_stray_after(stage: &Stage, events: &[Event], what: &What) -> bool
    ensures { result ≡ totals.is_stray stage.now (reverse events.now) what.now }
{
    match what {
        What::Arrive {
            packet,
            hop,
            server,
            verdict,
        } => {
            let steering = steering_of(events, *packet);
            let owner = owner_of(stage, events, *packet);
            Arrival::new(stage, *packet, *hop, *server, *verdict, steering, owner).is_stray()
        }
        _ => false,
    }
}

fn strays(stage: &Stage, events: &[Event]) -> u64
    ensures { result ≡ totals.strays stage.now (reverse events.now) }
{
    let mut count = 0;
    let mut rest = events;
    while let Some((event, before)) = rest.split_last() {
        if is_stray_after(stage, before, &event.what) {
            count += 1;
        }
        rest = before;
    }
    count
}

/// How many events are arrivals with a verdict of each kind, or lose a copy.
#[derive(Clone, Copy, Default)]
struct Counts {
    accepted: u64,
    processed: u64,
    forwarded: u64,
    reset: u64,
    dropped: u64,
    lost: u64,
}

impl Counts {
    /// Counts one more event.
    fn add(&mut self, what: &What)
        requires { HasRoom self.old }
        ensures { self.new ≡ with_event what.now self.old }
    {
        match what {
            What::Arrive { verdict, .. } => match verdict {
                Verdict::Accept => self.accepted += 1,
                Verdict::Process(_) => self.processed += 1,
                Verdict::Forward(_) => self.forwarded += 1,
                Verdict::Reset(_) => self.reset += 1,
                Verdict::Drop(_) => self.dropped += 1,
            },
            What::Lose { .. } => self.lost += 1,
            _ => {}
        }
    }
}

#[tactic(auto, using(crate::proofs::Counting::counts_more, crate::proofs::Counting::room))]
fn counts_of(events: &[Event]) -> Counts
    ensures { result ≡ counts_of events.now }
{
    let mut counts = Counts::default();
    for event in events {
        counts.add(&event.what);
    }
    counts
}

fn steered(records: &[Record]) -> u64
    ensures { result ≡ count_by (λ r. totals.is_steered r) records.now }
{
    records.iter().filter(|r| is_steered(r)).count() as u64
}

/// The ten numbers of a history's last line, as if no event were a stray.
#[tactic(auto, using(crate::proofs::Counting::steered_or_not))]
pub(crate) fn totals_but_strays(h: &History) -> Totals
    ensures { result ≡ without_strays (totals.totals_of h.now) }
{
    let records = h.stage.capture.records.items();
    let events = h.events.items();
    let packets = records.len() as u64;
    let steered = steered(records);
    let counts = counts_of(events);
    Totals {
        packets,
        steered,
        unsteered: packets - steered,
        accepted: counts.accepted,
        processed: counts.processed,
        forwarded: counts.forwarded,
        reset: counts.reset,
        dropped: counts.dropped,
        lost: counts.lost,
        stray: 0,
    }
}

/// The ten numbers of the history's last line. Takes no memory.
pub fn totals(h: &History) -> Totals
    ensures { result ≡ totals.totals_of h.now }
{
    Totals {
        stray: strays(&h.stage, h.events.items()),
        ..totals_but_strays(h)
    }
}
