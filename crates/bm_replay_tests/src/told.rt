//! What isn't steered, what looks like a copy, and how many buckets each server has.
use bm_base::{Body, Capture, Flow, List, Moment, Reason, Record, Segment, ServerId};
use bm_connections::{
    CopyCount, OwnedCount, Owners, copies_in, copies_text, unsteered_in, unsteered_text,
};
use bm_table::{Change, Kind, Move, Plan};
use std::alloc::Global;
use std::process::Abort;

fn capture(rt: &impl Abort, alloc: Global, records: &[Record]) -> Capture {
    let records = Vec::from_slice(alloc, records).expect(rt, "memory");
    Capture {
        records: List::of(records),
        cut: None,
    }
}

fn unsteered(reason: Reason) -> Record {
    Record {
        moment: Moment(0),
        body: Body::Unsteered(reason),
    }
}

fn packet(at: u64, len: u32) -> Record {
    let flow = Flow {
        src: 0x0a00_0001,
        dst: 0xc000_0201,
        sport: 5,
        dport: 80,
    };
    let segment = Segment {
        flow,
        seq: 100,
        ack: 200,
        len,
        flags: 0x10,
    };
    Record {
        moment: Moment(at),
        body: Body::Steerable(segment),
    }
}

#[test]
fn what_is_not_steered_is_told_by_its_reasons(rt: HostRuntime) {
    let records = [
        unsteered(Reason::OtherDestination),
        unsteered(Reason::NotIpv4),
        packet(1, 10),
        unsteered(Reason::NotIpv4),
    ];
    let capture = capture(&rt, rt.alloc(), &records);
    let found = unsteered_in(rt.alloc(), &capture).expect(&rt, "memory");
    let text = unsteered_text(rt.alloc(), &found).expect(&rt, "memory");
    assert_eq!(rt;
        text.as_str(),
        "unsteered 3 not-ipv4 2 other-destination 1\n"
    );
}

#[test]
fn a_record_within_a_millisecond_looks_like_a_copy(rt: HostRuntime) {
    let records = [
        packet(0, 10),
        packet(1_000_000, 10),
        packet(2_000_001, 10),
        packet(2_000_002, 0),
        packet(2_000_003, 0),
    ];
    let capture = capture(&rt, rt.alloc(), &records);
    let count = copies_in(rt.alloc(), &capture).expect(&rt, "memory");
    let want = CopyCount {
        copies: 1,
        numbered: 3,
    };
    assert!(rt; count == want);
    let text = copies_text(rt.alloc(), count).expect(&rt, "memory");
    assert_eq!(rt;
        text.as_str(),
        "advice copies: 1 of 3 records with data, SYN or FIN look like copies of the one before; \
        capture on one interface, or remove them by editcap -d\n"
    );
}

fn owned(server: u16, buckets: u64) -> OwnedCount {
    OwnedCount {
        server: ServerId(server),
        buckets,
    }
}

#[test]
fn servers_own_what_moves_leave_them(rt: HostRuntime) {
    let plan = Plan::new(rt.alloc(), 8, &[ServerId(1), ServerId(2)]).expect(&rt, "memory");
    let mut owners = Owners::opening(rt.alloc(), &plan, 1_025).expect(&rt, "memory");
    let away = Move {
        bucket: 1,
        to: ServerId(3),
    };
    let moves = Vec::from_slice(rt.alloc(), &[away]).expect(&rt, "memory");
    assert!(rt; owners.homeward(2, moves.as_slice()) == 0);
    owners.apply(&Change {
        moment: Moment(1),
        kind: Kind::Shift,
        moves: List::of(moves),
    });
    let found = owners.counts(rt.alloc()).expect(&rt, "memory");
    assert!(rt; found.as_slice() == [owned(1, 4), owned(2, 3), owned(3, 1)].as_slice());
    let home = Move {
        bucket: 1,
        to: ServerId(2),
    };
    assert!(rt; owners.homeward(2, &[home]) == 1);
}
