//! Tests of `bm_merge`: merging logs.
ghost use Rattle.std.specs.Prelude.{map, IfOk};
ghost use Rattle.std.specs.List.{AllByRecursion};
ghost use Rattle.bm_merge.specs.Rising.{IsRising};
ghost use Rattle.bm_core_tests.specs.declared.merge.Row.{Row as RowOf};

use bm_base::{Capture, Hop, List, Memory, Moment, MuxId, ServerId, Taken, Version};
use bm_core::{Event, Log, Stage, Verdict, What};
use bm_merge::{EventLog, join_in_order, merge, merge_rising, merge_rising_beside, room_for};
use bm_table::{Plan, Retirement, Script, Setting};
use std::alloc::Global;

fn event(clock: u64, what: What) -> Event {
    Event {
        clock: Moment(clock),
        what,
    }
}

fn publish(clock: u64, version: u32) -> Event {
    event(clock, What::Publish(Version(version)))
}

fn switch(clock: u64, version: u32) -> Event {
    let mux = MuxId(0);
    let version = Version(version);
    event(clock, What::Switch { mux, version })
}

fn steer(clock: u64, packet: u32) -> Event {
    let mux = MuxId(0);
    event(clock, What::Steer { packet, mux })
}

fn arrive(clock: u64, packet: u32, hop: Hop, server: u16, verdict: Verdict) -> Event {
    let server = ServerId(server);
    event(
        clock,
        What::Arrive {
            packet,
            hop,
            server,
            verdict,
        },
    )
}

fn logs(alloc: Global, parts: &[&[Event]]) -> Result<Vec<Log>, Memory> {
    let mut logs = Vec::new(alloc);
    for part in parts {
        logs.push(List::of(Vec::from_slice(alloc, part)?))?;
    }
    Ok(logs)
}

/// A stage without changes, commands and records.
fn stage(alloc: Global) -> Result<Stage, Memory> {
    let records = List::of(Vec::new(alloc));
    let script = Script {
        setting: Setting::plain(alloc)?,
        plan: Plan::new(alloc, 8, &[ServerId(1), ServerId(2)])?,
        commands: List::of(Vec::new(alloc)),
    };
    let capture = Capture { records, cut: None };
    Ok(Stage { script, capture })
}

/// Whether the logs with these events merge into the others.
fn merge_to(alloc: Global, parts: &[&[Event]], want: &[Event]) -> Result<bool, Memory> {
    let logs = logs(alloc, parts)?;
    let history = merge(alloc, stage(alloc)?, logs)?;
    Ok(history.events.items() == want)
}

#[test]
fn a_moved_connection_is_put_together(rt: HostRuntime) {
    let direct = arrive(1_002, 2, Hop::Direct, 2, Verdict::Forward(ServerId(1)));
    let chained = arrive(1_003, 2, Hop::Chained, 1, Verdict::Process(Taken::Advance));
    let accepted = arrive(2, 1, Hop::Direct, 1, Verdict::Accept);
    let mux = [steer(1, 1), switch(502, 1), steer(1_001, 2)];
    let parts: [&[Event]; 4] = [&[publish(501, 1)], &mux, &[accepted, chained], &[direct]];
    let want = [
        mux[0],
        accepted,
        publish(501, 1),
        mux[1],
        mux[2],
        direct,
        chained,
    ];
    assert!(rt; merge_to(rt.alloc(), &parts, &want) == Ok(true));
}

#[test]
fn a_loss_may_have_a_later_clock_than_what_comes_after_it(rt: HostRuntime) {
    let packet = 1;
    let hop = Hop::Chained;
    let lost = event(901, What::Lose { packet, hop });
    let retired = event(
        501,
        What::Retire {
            server: ServerId(1),
            shard: 2,
            at: Moment(500),
            result: Retirement::NotDrained,
        },
    );
    let direct = arrive(900, 1, Hop::Direct, 2, Verdict::Forward(ServerId(1)));
    let mux = [switch(1, 0), steer(2, 1), lost, switch(502, 1)];
    let parts: [&[Event]; 4] = [&[publish(501, 1)], &mux, &[retired], &[direct]];
    let want = [
        mux[0],
        mux[1],
        publish(501, 1),
        retired,
        mux[3],
        direct,
        lost,
    ];
    assert!(rt; merge_to(rt.alloc(), &parts, &want) == Ok(true));
}

/// Events whose clocks never decrease, as a log.
#[derive(Drop)]
struct Row {
    events: Vec<Event>,
}

impl EventLog for Row {
    ghost events = { λ (row : RowOf). row.events.items };

    fn count(&self) -> usize {
        self.events.len()
    }

    fn event(&self, place: usize) -> Event {
        self.events[place]
    }
}

/// These events by clock, as a log.
fn make_row(alloc: Global, events: &[Event]) -> Result<Row, Memory>
    ensures { IfOk result (λ row. IsRising row.events.items) }
{
    let mut one = Vec::new(alloc);
    one.push(List::of(Vec::from_slice(alloc, events)?))?;
    let events = join_in_order(alloc, one.as_slice())?;
    Ok(Row { events })
}

/// This many logs, each with an event at one clock and another at the next.
fn make_rows(alloc: Global, count: u32) -> Result<Vec<Row>, Memory>
    ensures { IfOk result (λ rows. AllByRecursion IsRising
        (map (λ (row : RowOf). row.events.items) rows.items)) }
{
    let mut rows = Vec::new(alloc);
    for log in 0..count {
        rows.push(make_row(alloc, &[publish(7, log), switch(8, log)])?)?;
    }
    Ok(rows)
}

#[test]
fn events_of_one_clock_keep_the_order_of_their_logs(rt: HostRuntime) {
    let alloc = rt.alloc();
    let first = make_row(alloc, &[switch(1, 0), switch(5, 1)]).expect(&rt, "memory");
    let second = make_row(alloc, &[publish(5, 1), publish(6, 2)]).expect(&rt, "memory");
    let third = make_row(alloc, &[steer(1, 1), steer(5, 2)]).expect(&rt, "memory");
    let merged = merge_rising(alloc, &[first, second, third]).expect(&rt, "memory");
    let want = [
        switch(1, 0),
        steer(1, 1),
        switch(5, 1),
        publish(5, 1),
        steer(5, 2),
        publish(6, 2),
    ];
    assert!(rt; merged.as_slice() == want.as_slice());
}

/// These are too many to look at the next event of each.
#[test]
fn the_events_of_65_logs_keep_their_order(rt: HostRuntime) {
    let alloc = rt.alloc();
    let rows = make_rows(alloc, 65).expect(&rt, "memory");
    let merged = merge_rising(alloc, rows.as_slice()).expect(&rt, "memory");
    let events = merged.as_slice();
    assert!(rt; events.len() == 130);
    assert!(rt; events.first() == Some(&publish(7, 0)));
    assert!(rt; events.get(64) == Some(&publish(7, 64)));
    assert!(rt; events.get(65) == Some(&switch(8, 0)));
    assert!(rt; events.last() == Some(&switch(8, 64)));
}

/// This many events as a log, with every second clock from this one on.
fn make_long_row(alloc: Global, first: u32, count: u32) -> Result<Row, Memory>
    ensures { IfOk result (λ row. IsRising row.events.items) }
{
    let mut events = Vec::new(alloc);
    for packet in 0..count {
        let clock = u64::from(first) + 2 * u64::from(packet);
        events.push(steer(clock, packet))?;
    }
    make_row(alloc, events.as_slice())
}

#[test]
fn four_threads_merge_as_one_does(rt: HostRuntime) {
    let alloc = rt.alloc();
    let odd = make_long_row(alloc, 1, 5_000).expect(&rt, "memory");
    let even = make_long_row(alloc, 2, 5_000).expect(&rt, "memory");
    let logs = [odd.events.as_slice(), even.events.as_slice()];
    let room = room_for(alloc, 10_000).expect(&rt, "memory");
    let beside = merge_rising_beside(&rt, alloc, 4, &logs, room).expect(&rt, "memory");
    let clocks = beside.as_slice().iter().map(|event| event.clock.0);
    assert!(rt; clocks.eq(1..10_001u64));
    let merged = merge_rising(alloc, &[odd, even]).expect(&rt, "memory");
    assert!(rt; beside.as_slice() == merged.as_slice());
}
