//! Tests of `bm_replay`: the events of replays, and their reports written by one thread and by
//! several.
ghost use Rattle.std.specs.Prelude.{◌≡◌, ◌≤◌, IfOk, length};
ghost use Rattle.bm_core.specs.Runs.{IsRun};

use crate::stages::{
    DATA, OPENING, OTHER, Row, bare_history, flow, moved_history, twice_moved_history,
};
use bm_base::{Hop, Memory, Moment, MuxId, ServerId, Taken, Version};
use bm_core::{Cause, Event, History, Verdict, What, Why};
use bm_io::MemSink;
use bm_trace::{cause, report, report_beside};
use std::alloc::Global;
use std::process::Abort;
use std::thread::Threads;

/// There is a microsecond between two packets.
const GAP: u64 = 1_000;

fn event(clock: u64, what: What) -> Event {
    Event {
        clock: Moment(clock),
        what,
    }
}

fn steer(clock: u64, packet: u32) -> Event {
    let mux = MuxId(0);
    event(clock, What::Steer { packet, mux })
}

fn arrive(clock: u64, packet: u32, hop: Hop, server: u16, verdict: Verdict) -> Event {
    let server = ServerId(server);
    event(
        clock,
        What::Arrive {
            packet,
            hop,
            server,
            verdict,
        },
    )
}

fn close(clock: u64, closed: bool) -> Event {
    event(
        clock,
        What::Close {
            server: ServerId(1),
            flow: flow(1000),
            closed,
        },
    )
}

fn lose(clock: u64, packet: u32, hop: Hop) -> Event {
    event(clock, What::Lose { packet, hop })
}

/// Whether these are the events of the history.
fn are_events(history: Result<History, Memory>, events: &[Event]) -> Result<bool, Memory> {
    let history = history?;
    Ok(history.events.items() == events)
}

#[test]
fn a_connection_is_closed_once(rt: HostRuntime) {
    let direct = Hop::Direct;
    let want = [
        steer(1, 1),
        arrive(2, 1, direct, 1, Verdict::Accept),
        close(501, true),
        close(601, false),
        steer(1_001, 2),
        arrive(1_002, 2, direct, 1, Verdict::Reset(Why::NoPrevious)),
    ];
    let h = bare_history(rt.alloc(), GAP, &[OPENING, DATA], 4_096, true, None);
    assert!(rt; are_events(h, &want) == Ok(true));
}

/// The causes of the second event and of the sixth.
fn causes(h: &History) -> Option<[Option<Cause>; 2]>
    requires { IsRun h.now }
{
    if h.events.items().len() < 6 {
        return None;
    }
    Some([cause(h, 1), cause(h, 5)])
}

/// The causes of a connection's opening, and of what comes after its close.
fn causes_of_close(alloc: Global) -> Result<Option<[Option<Cause>; 2]>, Memory> {
    let h = bare_history(alloc, GAP, &[OPENING, DATA], 4_096, true, None)?;
    Ok(causes(&h))
}

#[test]
fn a_reset_has_a_cause(rt: HostRuntime) {
    assert!(rt; causes_of_close(rt.alloc()) == Ok(Some([None, Some(Cause::NotHeld)])));
}

#[test]
fn a_full_shard_drops(rt: HostRuntime) {
    let direct = Hop::Direct;
    let want = [
        steer(1, 1),
        arrive(2, 1, direct, 1, Verdict::Accept),
        steer(1_001, 2),
        arrive(1_002, 2, direct, 1, Verdict::Drop(Why::Full)),
    ];
    let h = bare_history(rt.alloc(), GAP, &[OPENING, OTHER], 1, false, None);
    assert!(rt; are_events(h, &want) == Ok(true));
}

#[test]
fn copies_are_lost_or_come_again(rt: HostRuntime) {
    let direct = Hop::Direct;
    let again = Verdict::Process(Taken::Duplicate);
    let want = [
        steer(1, 1),
        arrive(2, 1, direct, 1, Verdict::Accept),
        steer(1_001, 2),
        lose(1_002, 2, direct),
        steer(2_001, 3),
        arrive(2_002, 3, direct, 1, Verdict::Process(Taken::Advance)),
        arrive(2_003, 3, direct, 1, again),
        arrive(2_004, 3, direct, 1, again),
    ];
    let rows = [OPENING, DATA, DATA];
    let h = bare_history(rt.alloc(), GAP, &rows, 4_096, false, Some(direct));
    assert!(rt; are_events(h, &want) == Ok(true));
}

/// This many segments: the first opens a connection, and the others are alike.
fn many_rows(alloc: Global, count: u16) -> Result<Vec<Row>, Memory>
    ensures { IfOk result (λ rows. length rows.items ≡ count) }
{
    let mut rows = Vec::from_slice(alloc, &[OPENING])?;
    rows.resize(usize::from(count), DATA)?;
    Ok(rows)
}

/// What happens at these segments.
fn many_events(alloc: Global, count: u16) -> Result<Vec<Event>, Memory> {
    let mut events = Vec::new(alloc);
    for i in 0..count {
        let clock = u64::from(i) * 1_000;
        let packet = u32::from(i) + 1;
        let verdict = match i {
            0 => Verdict::Accept,
            1 => Verdict::Process(Taken::Advance),
            _ => Verdict::Process(Taken::Duplicate),
        };
        events.push(steer(clock + 1, packet))?;
        events.push(arrive(clock + 2, packet, Hop::Direct, 1, verdict))?;
    }
    Ok(events)
}

/// Whether these are the events at these segments.
fn many_come(alloc: Global, count: u16) -> Result<bool, Memory>
    requires { count ≤ 20000 }
{
    let rows = many_rows(alloc, count)?;
    let want = many_events(alloc, count)?;
    let h = bare_history(alloc, GAP, &rows, 4_096, false, None);
    are_events(h, &want)
}

#[test]
fn packets_after_freed_ones_come(rt: HostRuntime) {
    assert!(rt; many_come(rt.alloc(), 16_400) == Ok(true));
}

/// Whether three threads write the report that one thread appends.
fn is_same_beside<R: Threads + Sync>(rt: &R, alloc: Global, h: &History) -> Result<bool, Memory>
    requires { IsRun h.now }
{
    let mut one = Vec::new(alloc);
    report(h, &mut one)?;
    let mut many = MemSink::new(alloc, Vec::new(alloc));
    let sent = report_beside(rt, alloc, 3, h, &mut many);
    Ok(sent == Ok(()) && many.written() == one.as_slice())
}

/// The history of this many segments, whose bucket moves between the first two.
fn many_moved(alloc: Global, count: u16) -> Result<History, Memory>
    requires { count ≤ 20000 }
    ensures { IfOk result IsRun }
{
    let rows = many_rows(alloc, count)?;
    moved_history(alloc, GAP, &rows)
}

/// Whether three threads write the report of this many segments that one thread appends.
fn are_many_beside<R: Threads + Sync>(rt: &R, alloc: Global, count: u16) -> Result<bool, Memory>
    requires { count ≤ 20000 }
{
    let h = many_moved(alloc, count)?;
    is_same_beside(rt, alloc, &h)
}

#[test]
fn threads_write_the_same_report(rt: HostRuntime) {
    // four pieces of lines; the last is shorter, and in the first the mux gets a version
    assert!(rt; are_many_beside(&rt, rt.alloc(), 16_400) == Ok(true));
}

fn publish(clock: u64, version: u32) -> Event {
    event(clock, What::Publish(Version(version)))
}

fn switch(clock: u64, version: u32) -> Event {
    let mux = MuxId(0);
    let version = Version(version);
    event(clock, What::Switch { mux, version })
}

#[test]
fn a_packet_is_forwarded_after_a_move(rt: HostRuntime) {
    let forward = Verdict::Forward(ServerId(1));
    let want = [
        steer(1, 1),
        arrive(2, 1, Hop::Direct, 1, Verdict::Accept),
        publish(501, 1),
        switch(502, 1),
        steer(1_001, 2),
        arrive(1_002, 2, Hop::Direct, 2, forward),
        arrive(1_003, 2, Hop::Chained, 1, Verdict::Process(Taken::Advance)),
    ];
    let h = moved_history(rt.alloc(), GAP, &[OPENING, DATA]);
    assert!(rt; are_events(h, &want) == Ok(true));
}

/// Whether this becomes of a packet whose bucket moved twice after its connection's opening.
fn ends_in(alloc: Global, lost: Option<Hop>, last: Event) -> Result<bool, Memory> {
    let want = [
        steer(1, 1),
        arrive(2, 1, Hop::Direct, 2, Verdict::Accept),
        publish(501, 1),
        switch(502, 1),
        publish(601, 2),
        switch(602, 2),
        steer(1_001, 2),
        arrive(1_002, 2, Hop::Direct, 1, Verdict::Forward(ServerId(3))),
        arrive(1_003, 2, Hop::Chained, 3, Verdict::Forward(ServerId(2))),
        last,
    ];
    let h = twice_moved_history(alloc, GAP, &[OPENING, DATA], Moment(600), lost);
    are_events(h, &want)
}

#[test]
fn a_packet_is_forwarded_twice_after_two_moves(rt: HostRuntime) {
    let process = Verdict::Process(Taken::Advance);
    let last = arrive(1_004, 2, Hop::Twice, 2, process);
    assert!(rt; ends_in(rt.alloc(), None, last) == Ok(true));
}

#[test]
fn a_twice_chained_copy_is_lost(rt: HostRuntime) {
    let last = lose(1_004, 2, Hop::Twice);
    assert!(rt; ends_in(rt.alloc(), Some(Hop::Twice), last) == Ok(true));
}
