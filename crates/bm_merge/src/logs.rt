//! The logs of a threaded run, merged.
ghost use Rattle.std.specs.Prelude.{◌≡◌, ◌^◌, ◌-◌, IfOk, List, length, min, reverse};
ghost use Rattle.bm_core.specs.Runs.{IsRun};
ghost use Rattle.bm_merge.specs.Rising.{IsRising, in_order as by_order};
ghost use Rattle.bm_merge.specs.Merges.{Agree, AreLogs, Log as ActorLog, by_clock, joined};

use bm_base::{List, Memory};
use bm_core::{Event, History, Log, Stage};
use std::alloc::Global;

/// How many events the logs have, or the greatest number there is.
fn room_for(logs: &[Log]) -> usize
    ensures { result ≡ min (length (joined logs.now)) (2 ^ 64 - 1) }
{
    let mut room: usize = 0;
    for log in logs {
        room = room.saturating_add(log.items().len());
    }
    room
}

/// All events of the logs, log by log.
fn join(alloc: Global, logs: &[Log]) -> Result<Vec<Event>, Memory>
    ensures { IfOk result (λ v. v.items ≡ joined logs.now) }
{
    let mut events = Vec::with_capacity(alloc, room_for(logs))?;
    for log in logs {
        events.extend_from_slice(log.items())?;
    }
    Ok(events)
}

/// The events by clock; those of one clock keep their order.
pub(crate) fn in_order(events: Vec<Event>) -> Result<Vec<Event>, Memory>
    ensures { IfOk result (λ v. v.items ≡ reverse (by_clock (reverse events.items))) }
{
    let mut events = events;
    events.sort_by_key(|e| e.clock.0)?;
    Ok(events)
}

/// All events of the logs, by clock. Those of one clock are in the order of the logs.
pub fn join_in_order(alloc: Global, logs: &[Log]) -> Result<Vec<Event>, Memory>
    ensures order { IfOk result (λ events. events.items ≡ by_order (joined logs.now)) }
    ensures rising { IfOk result (λ events. IsRising events.items) }
{
    in_order(join(alloc, logs)?)
}

/// All events of the logs, by clock. Those of one clock are in the order of the logs, which is the
/// controller, the muxes, and the shards by server and shard. If the logs agree, this is a run of
/// the stage.
pub fn merge(alloc: Global, stage: Stage, logs: Vec<Log>) -> Result<History, Memory>
    ensures order { IfOk result (λ h. h.events ≡ reverse (by_clock (reverse (joined logs.items)))) }
    ensures stage { IfOk result (λ h. h.stage ≡ stage) }
    ensures run { IfOk result (λ h. (named : List ActorLog)
        → AreLogs named logs.items → Agree stage named → IsRun h) }
{
    let events = join_in_order(alloc, logs.as_slice())?;
    Ok(History {
        stage,
        events: List::of(events),
    })
}
