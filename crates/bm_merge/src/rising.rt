//! Logs whose clocks never decrease, merged event by event.
ghost use Rattle.std.specs.Prelude.{◌≡◌, ◌<◌, ◌^◌, ◌-◌, ◌++◌, ◌∷◌, List, length, map, min};
ghost use Rattle.std.specs.Prelude.{slice_get};
ghost use Rattle.std.specs.Prelude.{Some};
ghost use Rattle.std.specs.Prelude.{IfOk, OnOk};
ghost use Rattle.std.specs.List.{AllByRecursion};
ghost use Rattle.bm_core.specs.declared.events.Event.{Event};
ghost use Rattle.bm_merge.specs.Merges.{joined};
ghost use Rattle.bm_merge.specs.Rising.{IsRising, in_order as by_order};
ghost use Rattle.bm_merge.specs.Inside.Rising.{AreStanding, IsEarliest, IsNextOf, lefts};

use crate::logs::in_order;
use bm_base::Memory;
use bm_core::Event;
use std::alloc::{AllocError, Global};

/// With more logs than these the events are sorted instead, as looking at the next event of each
/// log would take longer.
const MOST_HEADS: usize = 64;

/// A log that is read event by event.
pub trait EventLog {
    /// The events, the oldest first.
    ghost events: { Self → List Event };

    /// How many events there are.
    fn count(&self) -> usize
        ensures { result ≡ length (events self.now) };

    /// The event at this place.
    fn event(&self, place: usize) -> Event
        requires { place < length (events self.now) }
        ensures { slice_get (events self.now) place ≡ Some result };
}

/// The next event of a log: which log it is, the event, and the place after it.
#[derive(Clone, Copy, PartialEq, Eq)]
struct Head {
    log: usize,
    event: Event,
    behind: usize,
}

/// The event of the log at this place, if there is one.
fn head_at<L: EventLog>(logs: &[L], log: usize, place: usize) -> Option<Head>
    requires { log < length logs.now }
    ensures { IsNextOf (map L.events logs.now) log place result }
{
    if place < logs[log].count() {
        let event = logs[log].event(place);
        Some(Head {
            log,
            event,
            behind: place + 1,
        })
    } else {
        None
    }
}

/// The first event of each log that has one.
fn first_heads<L: EventLog>(alloc: Global, logs: &[L]) -> Result<Vec<Head>, AllocError>
    requires { AllByRecursion IsRising (map L.events logs.now) }
    ensures standing { IfOk result
        (λ heads. AreStanding (map L.events logs.now) heads.items) }
    ensures all { IfOk result
        (λ heads. joined (lefts (map L.events logs.now) heads.items)
        ≡ joined (map L.events logs.now)) }
{
    let mut heads = Vec::with_capacity(alloc, logs.len())?;
    for log in 0..logs.len() {
        if let Some(head) = head_at(logs, log, 0) {
            heads.push(head)?;
        }
    }
    Ok(heads)
}

/// The place of the head with the least clock, the first of several.
fn earliest(heads: &[Head]) -> usize
    requires { 0 < length heads.now }
    ensures { IsEarliest heads.now result }
{
    let mut least = 0;
    let mut clock = heads[0].event.clock;
    for place in 1..heads.len() {
        let next = heads[place].event.clock;
        if next < clock {
            least = place;
            clock = next;
        }
    }
    least
}

/// How many events the logs have, or the greatest number there is.
pub(crate) fn room_of<L: EventLog>(logs: &[L]) -> usize
    ensures { result ≡ min (length (joined (map L.events logs.now))) (2 ^ 64 - 1) }
{
    let mut room: usize = 0;
    for log in logs {
        room = room.saturating_add(log.count());
    }
    room
}

/// Adds the events of the log.
fn add_log<L: EventLog>(log: &L, events: &mut Vec<Event>) -> Result<(), AllocError>
    ensures { OnOk result (events.new.items ≡ events.old.items ++ L.events log.now) }
{
    for place in 0..log.count() {
        events.push(log.event(place))?;
    }
    Ok(())
}

/// All events of the logs, log by log.
fn join_all<L: EventLog>(alloc: Global, logs: &[L]) -> Result<Vec<Event>, AllocError>
    ensures { IfOk result (λ events. events.items ≡ joined (map L.events logs.now)) }
{
    let mut events = Vec::with_capacity(alloc, room_of(logs))?;
    for log in logs {
        add_log(log, &mut events)?;
    }
    Ok(events)
}

/// Takes the event with the least clock; the log's next event takes its place.
fn take_next<L: EventLog>(logs: &[L], heads: &mut Vec<Head>) -> Event
    requires standing { AreStanding (map L.events logs.now) heads.old.items }
    requires some { 0 < length heads.old.items }
    ensures standing { AreStanding (map L.events logs.now) heads.new.items }
    ensures next { by_order (joined (lefts (map L.events logs.now) heads.old.items))
        ≡ result ∷ by_order (joined (lefts (map L.events logs.now) heads.new.items)) }
{
    let at = earliest(heads);
    let Head { log, event, behind } = heads[at];
    match head_at(logs, log, behind) {
        Some(head) => heads[at] = head,
        None => {
            heads.remove(at);
        }
    }
    event
}

/// Takes all events by clock.
fn take_all<L: EventLog>(
    alloc: Global,
    logs: &[L],
    heads: Vec<Head>,
) -> Result<Vec<Event>, AllocError>
    requires { AreStanding (map L.events logs.now) heads.items }
    ensures { IfOk result
        (λ events. events.items ≡ by_order (joined (lefts (map L.events logs.now) heads.items))) }
{
    let mut heads = heads;
    let mut events = Vec::with_capacity(alloc, room_of(logs))?;
    while !heads.is_empty() {
        events.push(take_next(logs, &mut heads))?;
    }
    Ok(events)
}

/// Puts all events of the logs, whose clocks never decrease, by clock in the places of `out`, which
/// are as many. Those of one clock are in the order of the logs.
pub(crate) fn fill<L: EventLog>(
    alloc: Global,
    logs: &[L],
    out: &mut [Event],
) -> Result<(), AllocError>
    requires rising { AllByRecursion IsRising (map L.events logs.now) }
    requires count { length out.old ≡ length (joined (map L.events logs.now)) }
    ensures { OnOk result (out.new ≡ by_order (joined (map L.events logs.now))) }
{
    let mut heads = first_heads(alloc, logs)?;
    for place in 0..out.len() {
        out[place] = take_next(logs, &mut heads);
    }
    Ok(())
}

/// All events of the logs, whose clocks never decrease, by clock. Those of one clock are in the
/// order of the logs.
pub fn merge_rising<L: EventLog>(alloc: Global, logs: &[L]) -> Result<Vec<Event>, Memory>
    requires { AllByRecursion IsRising (map L.events logs.now) }
    ensures { IfOk result
        (λ events. events.items ≡ by_order (joined (map L.events logs.now))) }
{
    let heads = first_heads(alloc, logs)?;
    if heads.len() > MOST_HEADS {
        return in_order(join_all(alloc, logs)?);
    }
    Ok(take_all(alloc, logs, heads)?)
}
