//! Tests of `bm_load`: the stage of a load, and its line.
ghost use Rattle.std.specs.Prelude.{◌≤◌};

use bm_base::{Body, Flow, Moment, Octets, Record, Segment, ServerId, Version};
use bm_core::Stage;
use bm_load::{load_stage, summary};
use bm_table::{Kind, Move, Plan};
use bm_trace::Totals;
use std::alloc::Global;
use std::process::Abort;

/// A record: its moment, source port, sequence number, acknowledgment number, length and flags.
type Row = (u64, u16, u32, u32, u32, u8);

static ONE: [Row; 4] = [
    (0, 10_000, 1_000, 0, 1, 0x02),
    (1_000, 10_000, 1_001, 501, 100, 0x18),
    (2_000, 10_000, 1_101, 501, 100, 0x18),
    (3_000, 10_000, 1_201, 501, 1, 0x11),
];

// The first five of the twelve records of three connections.
static THREE: [Row; 5] = [
    (0, 10_000, 1_000, 0, 1, 0x02),
    (1_000, 10_001, 1_000, 0, 1, 0x02),
    (2_000, 10_002, 1_000, 0, 1, 0x02),
    (3_000, 10_000, 1_001, 501, 100, 0x18),
    (4_000, 10_001, 1_001, 501, 100, 0x18),
];

// The headers of the second packet of one connection.
static DATA: [u8; 40] = [
    0x45, 0, 0, 0x8c, 0, 0, 0x40, 0, 0x40, 6, 0, 0, 0x0a, 0, 0, 1, 0xc0, 0, 2, 1, 0x27, 0x10, 0,
    0x50, 0, 0, 3, 0xe9, 0, 0, 1, 0xf5, 0x50, 0x18, 0xff, 0xff, 0, 0, 0, 0,
];

fn record(row: &Row) -> Record {
    let (moment, sport, seq, ack, len, flags) = *row;
    let flow = Flow {
        src: 0x0a00_0001,
        dst: 0xc000_0201,
        sport,
        dport: 80,
    };
    Record {
        moment: Moment(moment),
        body: Body::Steerable(Segment {
            flow,
            seq,
            ack,
            len,
            flags,
        }),
    }
}

fn check_records(rt: &impl Abort, records: &[Record], rows: &[Row]) {
    assert!(rt; records.len() >= rows.len());
    for (seen, row) in records.iter().zip(rows) {
        assert!(rt; *seen == record(row));
    }
}

// What the second packet of one connection has after its headers.
static PAYLOAD: [u8; 100] = [0x61; 100];

fn check_data(rt: &impl Abort, packet: &[u8]) {
    assert!(rt; packet.len() == 140);
    assert!(rt; packet.starts_with(&DATA));
    assert!(rt; packet.ends_with(&PAYLOAD));
}

// The first bucket from 52 on that isn't given to server 5 in its turn.
fn end_of_moves(moves: &[Move]) -> u32 {
    let mut bucket = 52u32;
    for m in moves {
        if m.bucket != bucket || m.to != ServerId(5) {
            return bucket;
        }
        bucket = bucket.saturating_add(1);
    }
    bucket
}

// Server 5 gets the highest three buckets of each other server.
fn check_moves(rt: &impl Abort, moves: &[Move]) {
    assert!(rt; moves.len() == 12);
    assert_eq!(rt; end_of_moves(moves), 64);
}

fn check_plan(rt: &impl Abort, plan: &Plan, moment: u64) {
    assert!(rt; plan.versions() == 1);
    let change = plan.next_change(Version(0)).expect(rt, "a change");
    assert!(rt; change.moment == Moment(moment));
    assert!(rt; change.kind == Kind::Add(ServerId(5)));
    check_moves(rt, change.moves.items());
}

static TOTALS: Totals = Totals {
    packets: 8,
    steered: 8,
    unsteered: 0,
    accepted: 2,
    processed: 5,
    forwarded: 3,
    reset: 1,
    dropped: 4,
    lost: 7,
    stray: 0,
};

#[test]
fn a_load_has_a_line(rt: HostRuntime) {
    let line = summary(rt.alloc(), 2, &TOTALS).expect(&rt, "memory");
    assert_eq!(rt;
        line.as_str(),
        "load 2 packets 8 accepted 2 processed 5 reset 1 dropped 4 lost 7\n"
    );
}

/// The stage and the packets of a load. The stage is boxed: a test drops one value, not each field.
fn load(rt: &impl Abort, alloc: Global, connections: u32) -> (Box<Stage>, Octets)
    requires { (1 ≤ connections) × (connections ≤ 20000) }
{
    let (stage, octets) = load_stage(alloc, connections).expect(rt, "memory");
    (Box::new(alloc, stage).expect(rt, "memory"), octets)
}

#[test]
fn one_connection_has_four_packets(rt: HostRuntime) {
    let (stage, octets) = load(&rt, rt.alloc(), 1);
    assert!(rt; octets.len() == 4);
    check_records(&rt, stage.capture.records.items(), &ONE);
    check_data(&rt, octets.get(1));
    check_plan(&rt, &stage.script.plan, 2_000);
}

#[test]
fn three_connections_send_in_turn(rt: HostRuntime) {
    let (stage, octets) = load(&rt, rt.alloc(), 3);
    assert!(rt; octets.len() == 12);
    check_records(&rt, stage.capture.records.items(), &THREE);
    check_plan(&rt, &stage.script.plan, 6_000);
}
