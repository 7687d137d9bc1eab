//! A test of `bm_running`: which event may not come.
ghost use Rattle.std.specs.Prelude.{◌<◌, ◌^◌, IfOk, length};
ghost use Rattle.bm_core.specs.Stages.{IsSound};

use crate::stages::{OPENING, OTHER, bare_stage, capture};
use bm_base::{Hop, Memory, Moment, MuxId, ServerId};
use bm_core::{Event, Stage, Verdict, What, Why};
use bm_running::{Followed, follow};
use std::alloc::Global;

/// There is a microsecond between two packets.
const GAP: u64 = 1_000;

fn event(clock: u64, what: What) -> Event {
    Event {
        clock: Moment(clock),
        what,
    }
}

fn steer(clock: u64, packet: u32) -> Event {
    let mux = MuxId(0);
    event(clock, What::Steer { packet, mux })
}

fn arrive(clock: u64, packet: u32, hop: Hop, server: u16, verdict: Verdict) -> Event {
    let server = ServerId(server);
    event(
        clock,
        What::Arrive {
            packet,
            hop,
            server,
            verdict,
        },
    )
}

/// Which of these events is the first that may not come, counted from 1.
fn stop(alloc: Global, stage: &Stage, events: &[Event]) -> Result<Option<usize>, Memory>
    requires sound { IsSound stage.now }
    requires few { length events.now < 2 ^ 63 }
{
    match follow(alloc, stage, events)? {
        Followed::Stops(number) => Ok(Some(number)),
        Followed::Runs(..) => Ok(None),
    }
}

/// A stage at which two connections open, and whose shards have room for one.
fn full_stage(alloc: Global) -> Result<Stage, Memory>
    ensures { IfOk result IsSound }
{
    let (capture, _packets) = capture(alloc, GAP, &[OPENING, OTHER])?;
    bare_stage(alloc, 1, false, capture)
}

/// What is found there, where this is the verdict on the second.
fn stop_at(alloc: Global, verdict: Verdict) -> Result<Option<usize>, Memory> {
    let direct = Hop::Direct;
    let events = [
        steer(1, 1),
        arrive(2, 1, direct, 1, Verdict::Accept),
        steer(1_001, 2),
        arrive(1_002, 2, direct, 1, verdict),
    ];
    let stage = full_stage(alloc)?;
    stop(alloc, &stage, &events)
}

#[test]
fn a_full_shard_accepts_no_other(rt: HostRuntime) {
    assert!(rt; stop_at(rt.alloc(), Verdict::Drop(Why::Full)) == Ok(None));
    assert!(rt; stop_at(rt.alloc(), Verdict::Accept) == Ok(Some(4)));
}
