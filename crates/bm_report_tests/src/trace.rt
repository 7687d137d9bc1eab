//! Tests of `bm_trace`: the lines of a report.
ghost use Rattle.bm_trace.specs.Ranges.{HasRanges};

use Happening::*;
use Seen::*;
use bm_base::{
    Body, Capture, Flow, Hop, List, Moment, MuxId, Reason, Record, Segment, ServerId, Taken,
    Version,
};
use bm_core::{Event, History, Stage, Verdict, What, Why};
use bm_io::MemSink;
use bm_table::{Change, Kind, Move, Plan, Retirement, Script, Setting};
use bm_trace::{report_to, sweep, totals};
use std::alloc::Global;
use std::process::Abort;

/// A record: a packet by its source port, flags, sequence number and length, or why it isn't one.
#[derive(Clone, Copy)]
enum Seen {
    Packet(u16, u8, u32, u32),
    Unsteered(Reason),
}

/// What happens, by the numbers of packets, muxes, versions and servers, in the order of the
/// report.
#[derive(Clone, Copy)]
enum Happening {
    Publish(u32),
    Switch(u16, u32),
    Steer(u32, u16),
    Lose(u32),
    Direct(u32, u16, Verdict),
    Chained(u32, u16, Verdict),
    Twice(u32, u16, Verdict),
    Close(u16, u16, bool),
    Retire(u16, u64, Retirement),
    Sync,
}

const SYN: u8 = 0x02;

const PSH_ACK: u8 = 0x18;

fn flow(sport: u16) -> Flow {
    Flow {
        src: 0x0a00_0001,
        dst: 0xc000_0201,
        sport,
        dport: 80,
    }
}

fn body(seen: Seen) -> Body {
    match seen {
        Packet(sport, flags, seq, len) => Body::Steerable(Segment {
            flow: flow(sport),
            seq,
            ack: 501,
            len,
            flags,
        }),
        Unsteered(reason) => Body::Unsteered(reason),
    }
}

fn put_records(rt: &impl Abort, list: &mut Vec<Record>, rows: &[Seen]) {
    for seen in rows {
        let record = Record {
            moment: Moment(0),
            body: body(*seen),
        };
        list.push(record).expect(rt, "memory");
    }
}

fn records(rt: &impl Abort, alloc: Global) -> List<Record> {
    let mut list = Vec::new(alloc);
    put_records(rt, &mut list, &PACKETS);
    put_records(rt, &mut list, &OTHERS);
    List::of(list)
}

fn arrival(packet: u32, hop: Hop, server: u16, verdict: Verdict) -> What {
    What::Arrive {
        packet,
        hop,
        server: ServerId(server),
        verdict,
    }
}

fn what(happening: Happening) -> What {
    match happening {
        Publish(version) => What::Publish(Version(version)),
        Switch(mux, version) => What::Switch {
            mux: MuxId(mux),
            version: Version(version),
        },
        Steer(packet, mux) => What::Steer {
            packet,
            mux: MuxId(mux),
        },
        Lose(packet) => What::Lose {
            packet,
            hop: Hop::Direct,
        },
        Direct(packet, server, verdict) => arrival(packet, Hop::Direct, server, verdict),
        Chained(packet, server, verdict) => arrival(packet, Hop::Chained, server, verdict),
        Twice(packet, server, verdict) => arrival(packet, Hop::Twice, server, verdict),
        Close(server, sport, closed) => What::Close {
            server: ServerId(server),
            flow: flow(sport),
            closed,
        },
        Retire(server, at, result) => What::Retire {
            server: ServerId(server),
            shard: 0,
            at: Moment(at),
            result,
        },
        Sync => What::Sync,
    }
}

/// A clock, and what happened.
type EventRow = (u64, Happening);

fn put_events(rt: &impl Abort, list: &mut Vec<Event>, rows: &[EventRow]) {
    for (clock, happening) in rows {
        let event = Event {
            clock: Moment(*clock),
            what: what(*happening),
        };
        list.push(event).expect(rt, "memory");
    }
}

/// Events of each kind. No run has these.
fn events(rt: &impl Abort, alloc: Global) -> List<Event> {
    let mut list = Vec::new(alloc);
    put_events(rt, &mut list, &PROCESSED);
    put_events(rt, &mut list, &TAKEN);
    put_events(rt, &mut list, &REFUSED);
    put_events(rt, &mut list, &COMMANDED);
    List::of(list)
}

/// Eight buckets on servers 1 and 2; bucket 4 moves to server 2.
fn plan(rt: &impl Abort, alloc: Global) -> Plan {
    let moved = Move {
        bucket: 4,
        to: ServerId(2),
    };
    let change = Change {
        moment: Moment(0),
        kind: Kind::Shift,
        moves: List::of(vec![in alloc; moved].expect(rt, "memory")),
    };
    let servers = [ServerId(1), ServerId(2)];
    let mut plan = Plan::new(alloc, 8, &servers).expect(rt, "memory");
    plan.push(change).expect(rt, "a change");
    plan
}

fn script(rt: &impl Abort, alloc: Global) -> Script {
    let mut setting = Setting::plain(alloc).expect(rt, "memory");
    setting.muxes = 2;
    Script {
        setting,
        plan: plan(rt, alloc),
        commands: List::of(Vec::new(alloc)),
    }
}

/// The history is boxed: a test drops one value, not each field.
fn history(rt: &impl Abort, alloc: Global) -> Box<History> {
    let capture = Capture {
        records: records(rt, alloc),
        cut: Some(17),
    };
    let script = script(rt, alloc);
    let history = History {
        stage: Stage { script, capture },
        events: events(rt, alloc),
    };
    Box::new(alloc, history).expect(rt, "memory")
}

fn assert_ranges(rt: &impl Abort, stage: &Stage)
    ensures { HasRanges stage.now }
{
    assert!(rt; stage.script.setting.buckets == 8);
    assert!(rt; stage.script.plan.buckets() == 8);
    assert!(rt; 1 <= stage.script.setting.shards && stage.script.setting.shards <= 64);
    assert!(rt; stage.capture.records.items().len() <= 100);
}

/// The report of a history whose numbers are in their ranges.
fn report(rt: &impl Abort, alloc: Global, h: &History) -> MemSink
    requires { HasRanges h.now.stage }
{
    let mut out = MemSink::new(alloc, Vec::new(alloc));
    let causes = sweep(alloc, h).expect(rt, "memory");
    report_to(h, &causes, &totals(h), &mut out).expect(rt, "a sink without faults");
    out
}

#[test]
fn each_event_and_each_record_has_its_line(rt: HostRuntime) {
    let alloc = rt.alloc();
    let h = history(&rt, alloc);
    assert_ranges(&rt, &h.stage);
    let out = report(&rt, alloc, &h);
    let text = std::str::from_utf8(out.written()).unwrap_or("other octets than UTF-8");
    assert_eq!(rt; text, LINES);
    let sums = totals(&h);
    assert!(rt; sums.processed == 6 && sums.stray == 1);
}

/// A packet is sent, and is processed where it arrives.
static PROCESSED: [EventRow; 7] = [
    (1, Publish(1)),
    (2, Switch(0, 1)),
    (3, Steer(1, 1)),
    (4, Direct(1, 1, Verdict::Accept)),
    (5, Steer(2, 0)),
    (6, Direct(2, 2, Verdict::Forward(ServerId(1)))),
    (7, Chained(2, 1, Verdict::Process(Taken::Advance))),
];

/// What else a server processes, and what it resets.
static TAKEN: [EventRow; 7] = [
    (8, Direct(2, 2, Verdict::Process(Taken::Duplicate))),
    (9, Direct(2, 1, Verdict::Process(Taken::Ahead))),
    (10, Direct(2, 1, Verdict::Process(Taken::Outside))),
    (11, Direct(2, 1, Verdict::Process(Taken::Challenge))),
    (12, Direct(2, 2, Verdict::Reset(Why::ChainExpired))),
    (13, Chained(2, 1, Verdict::Reset(Why::ChainedUnknown))),
    (13, Twice(2, 1, Verdict::Reset(Why::ChainedUnknown))),
];

/// What is dropped or lost, what comes after a connection's end, and causes.
static REFUSED: [EventRow; 8] = [
    (14, Direct(2, 1, Verdict::Drop(Why::Silent))),
    (15, Direct(2, 1, Verdict::Drop(Why::Full))),
    (16, Direct(2, 1, Verdict::Drop(Why::Retired))),
    (17, Steer(3, 0)),
    (18, Direct(3, 2, Verdict::Reset(Why::NoPrevious))),
    (19, Lose(3)),
    (20, Direct(2, 1, Verdict::Process(Taken::Ended))),
    (21, Direct(2, 1, Verdict::Drop(Why::Silent))),
];

/// What commands do.
static COMMANDED: [EventRow; 6] = [
    (22, Close(1, 1000, true)),
    (23, Close(1, 1000, false)),
    (24, Retire(2, 3000, Retirement::TooEarly(1))),
    (25, Retire(1, 4000, Retirement::NotDrained)),
    (26, Retire(2, 5000, Retirement::Done)),
    (27, Sync),
];

/// Packets, and records that aren't sent.
static PACKETS: [Seen; 8] = [
    Packet(1000, SYN, 100, 1),
    Packet(1000, PSH_ACK, 101, 10),
    Packet(1001, PSH_ACK, 101, 10),
    Unsteered(Reason::ShortLink),
    Unsteered(Reason::NotIpv4),
    Unsteered(Reason::ShortIp),
    Unsteered(Reason::NotVersion4),
    Unsteered(Reason::BadHeaderLength),
];

/// More records that aren't sent.
static OTHERS: [Seen; 8] = [
    Unsteered(Reason::BadTotalLength),
    Unsteered(Reason::Fragment),
    Unsteered(Reason::NotTcp),
    Unsteered(Reason::ShortTcp),
    Unsteered(Reason::BadOffset),
    Unsteered(Reason::OtherDestination),
    Unsteered(Reason::TooLong),
    Unsteered(Reason::Later),
];

/// The lines of all rows, with the note and the totals.
const LINES: &str = "\
1 publish 1
2 switch 0 1
3 steer 1 1 0 4
4 arrive 1 direct 1 accept
5 steer 2 0 1 4
6 arrive 2 direct 2 forward 1
7 arrive 2 chained 1 process advance
8 arrive 2 direct 2 process duplicate
9 arrive 2 direct 1 process ahead
10 arrive 2 direct 1 process outside
11 arrive 2 direct 1 process challenge
12 arrive 2 direct 2 reset chain-expired
13 arrive 2 chained 1 reset chained-unknown
13 arrive 2 twice 1 reset chained-unknown
14 arrive 2 direct 1 drop silent
15 arrive 2 direct 1 drop full
16 arrive 2 direct 1 drop retired
17 steer 3 0 1 1
18 arrive 3 direct 2 reset no-previous because never-accepted
19 lost 3 direct
20 arrive 2 direct 1 process ended
21 arrive 2 direct 1 drop silent because not-held
22 close 1 10.0.0.1:1000 192.0.2.1:80 closed
23 close 1 10.0.0.1:1000 192.0.2.1:80 none
24 retire 2 0 at 3000 too-early 1
25 retire 1 0 at 4000 not-drained
26 retire 2 0 at 5000 done
27 sync
packet 1 accepted 1
packet 2 processed 1 processed 2 processed 1 processed 1 processed 1 reset 2 reset 1 reset 1 \
dropped 1 dropped 1 dropped 1 processed 1 dropped 1
packet 3 reset 2 lost
packet 4 unsteered short-link
packet 5 unsteered not-ipv4
packet 6 unsteered short-ip
packet 7 unsteered not-version-4
packet 8 unsteered bad-header-length
packet 9 unsteered bad-total-length
packet 10 unsteered fragment
packet 11 unsteered not-tcp
packet 12 unsteered short-tcp
packet 13 unsteered bad-offset
packet 14 unsteered other-destination
packet 15 unsteered too-long
packet 16 unsteered later
note record 17 cut short
total packets 16 steered 3 unsteered 13 accepted 1 processed 6 \
forwarded 1 reset 4 dropped 4 lost 1 stray 1
";
