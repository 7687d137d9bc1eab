//! Logs whose clocks never decrease, merged by several threads.
ghost use Rattle.std.specs.Prelude.{◌≡◌, ◌<◌, ◌≤◌, length, map, take, drop, IfOk, OnOk};
ghost use Rattle.std.specs.Prelude.{vec_len};
ghost use Rattle.std.specs.List.{AllByRecursion};
ghost use Rattle.std.specs.Thread.{IsSync};
ghost use Rattle.bm_merge.specs.Inside.Halves.{AreHalves, IsCutAt};
ghost use Rattle.bm_merge.specs.Merges.{joined};
ghost use Rattle.bm_merge.specs.Rising.{IsRising, in_order as by_order};

use crate::rising::{EventLog, fill, room_of};
use bm_base::{Memory, Moment};
use bm_core::{Event, What};
use std::alloc::{AllocError, Global};
use std::thread::{Threads, join_mut};

/// Fewer events than these aren't worth a thread.
const LEAST: usize = 4096;

/// Fills a place until its event is put there.
const BLANK: Event = Event {
    clock: Moment(0),
    what: What::Sync,
};

impl<'a> EventLog for &'a [Event] {
    ghost events = { λ log. log.now };

    fn count(&self) -> usize {
        self.len()
    }

    fn event(&self, place: usize) -> Event {
        self[place]
    }
}

/// Logs that were cut in two at a clock.
#[derive(Drop)]
struct Halves<'a> {
    /// Of each log, the events below the clock.
    low: Vec<&'a [Event]>,
    /// Of each log, the other events.
    high: Vec<&'a [Event]>,
}

/// How many events of a log are below the clock.
fn count_below(log: &[Event], clock: u64) -> usize
    requires { IsRising log.now }
    ensures within { result ≤ length log.now }
    ensures cut { IsCutAt clock (take result log.now) (drop result log.now) }
{
    log.partition_point(|event| event.clock.0 < clock)
}

/// Cuts the logs in two at this clock.
fn cut<'a>(alloc: Global, logs: &[&'a [Event]], clock: u64) -> Result<Halves<'a>, AllocError>
    requires { AllByRecursion IsRising (map (λ log. log.now) logs.now) }
    ensures { IfOk result (λ halves. AreHalves clock (map (λ log. log.now) logs.now)
        (map (λ log. log.now) halves.low.items) (map (λ log. log.now) halves.high.items)) }
{
    let mut low = Vec::with_capacity(alloc, logs.len())?;
    let mut high = Vec::with_capacity(alloc, logs.len())?;
    for log in logs {
        let (first, rest) = log.split_at(count_below(log, clock));
        low.push(first)?;
        high.push(rest)?;
    }
    Ok(Halves { low, high })
}

/// A clock near the middle of the logs: that of the middle event of the longest log.
fn middle_clock(logs: &[&[Event]]) -> u64 {
    let mut most = 0;
    let mut clock = 0;
    for log in logs {
        if log.len() > most {
            most = log.len();
            clock = log[most / 2].clock.0;
        }
    }
    clock
}

/// Puts all events of the logs, by clock, in the places of `out`, which are as many. The logs are
/// cut in halves this many times, and each part is put in its places by a thread of its own.
#[cycle(halves)]
fn fill_beside<R: Threads + Sync>(
    rt: &R,
    alloc: Global,
    halvings: u32,
    logs: &[&[Event]],
    out: &mut [Event],
) -> Result<(), AllocError>
    requires rising { AllByRecursion IsRising (map (λ log. log.now) logs.now) }
    requires count { length out.old ≡ length (joined (map (λ log. log.now) logs.now)) }
    ensures { OnOk result (out.new ≡ by_order (joined (map (λ log. log.now) logs.now))) }
{
    if halvings == 0 || out.len() < LEAST {
        return fill(alloc, logs, out);
    }
    let halves = cut(alloc, logs, middle_clock(logs))?;
    let low = halves.low.as_slice();
    let high = halves.high.as_slice();
    let (front, back) = out.split_at_mut(room_of(low));
    fill_halves(rt, alloc, halvings, low, high, front, back)
}

/// Puts the events of both halves in their places, in parallel.
#[cycle(halves)]
fn fill_halves<R: Threads + Sync>(
    rt: &R,
    alloc: Global,
    halvings: u32,
    low: &[&[Event]],
    high: &[&[Event]],
    front: &mut [Event],
    back: &mut [Event],
) -> Result<(), AllocError>
    requires halvings { 0 < halvings }
    requires low_rises { AllByRecursion IsRising (map (λ log. log.now) low.now) }
    requires low_count { length front.old ≡ length (joined (map (λ log. log.now) low.now)) }
    requires high_rises { AllByRecursion IsRising (map (λ log. log.now) high.now) }
    requires high_count { length back.old ≡ length (joined (map (λ log. log.now) high.now)) }
    ensures front { OnOk result
        (front.new ≡ by_order (joined (map (λ log. log.now) low.now))) }
    ensures back { OnOk result (back.new ≡ by_order (joined (map (λ log. log.now) high.now))) }
{
    let (first, second) = join_mut(
        rt,
        &mut || -> Result<(), AllocError>
            requires { IsSync R.row × (0 < halvings)
                × AllByRecursion IsRising (map (λ log. log.now) low.now)
                × (length front.now ≡ length (joined (map (λ log. log.now) low.now))) }
            ensures { OnOk result
                (front.exit.now ≡ by_order (joined (map (λ log. log.now) low.entry.now))) }
        { fill_beside(rt, alloc, halvings - 1, low, front) },
        &mut || -> Result<(), AllocError>
            requires { IsSync R.row × (0 < halvings)
                × AllByRecursion IsRising (map (λ log. log.now) high.now)
                × (length back.now ≡ length (joined (map (λ log. log.now) high.now))) }
            ensures { OnOk result
                (back.exit.now ≡ by_order (joined (map (λ log. log.now) high.entry.now))) }
        { fill_beside(rt, alloc, halvings - 1, high, back) },
    );
    first?;
    second
}

/// Room for this many events to be merged into, with its memory.
pub fn room_for(alloc: Global, count: usize) -> Result<Vec<Event>, Memory>
    ensures { IfOk result (λ room. vec_len room ≡ count) }
{
    Ok(vec![in alloc; BLANK; count]?)
}

/// All events of the logs, whose clocks never decrease, by clock, as `merge_rising` gives them, but
/// with several threads, at most `threads`. Meant for few logs. The room is best made for as many
/// events as there are.
pub fn merge_rising_beside<R: Threads + Sync>(
    rt: &R,
    alloc: Global,
    threads: usize,
    logs: &[&[Event]],
    room: Vec<Event>,
) -> Result<Vec<Event>, Memory>
    requires { AllByRecursion IsRising (map (λ log. log.now) logs.now) }
    ensures { IfOk result
        (λ events. events.items ≡ by_order (joined (map (λ log. log.now) logs.now))) }
{
    let mut events = room;
    events.resize(room_of(logs), BLANK)?;
    fill_beside(
        rt,
        alloc,
        threads.max(1).ilog2(),
        logs,
        events.as_mut_slice(),
    )?;
    Ok(events)
}
