//! Tests of `bm_table`: plans, tables and settings.
use crate::printing::assert_prints;
use bm_base::{Entry, List, Memory, Moment, Past, ServerId, Version, Vip};
use bm_table::{Change, Kind, Limit, Move, Plan, PlanFault, Retirement, Setting, Table};
use std::alloc::Global;
use std::process::Abort;

fn change(alloc: Global, moment: u64, kind: Kind, moves: &[(u32, u16)]) -> Result<Change, Memory> {
    let mut list = Vec::new(alloc);
    for (bucket, to) in moves {
        list.push(Move {
            bucket: *bucket,
            to: ServerId(*to),
        })?;
    }
    Ok(Change {
        moment: Moment(moment),
        kind,
        moves: List::of(list),
    })
}

type Row = (u64, &'static [(u32, u16)], Result<(), PlanFault>);

// Changes, and what a plan of servers 1 and 2 answers to each, after those before it.
const ROWS: [Row; 7] = [
    (500, &[(4, 2)], Ok(())),
    (499, &[(4, 1)], Err(PlanFault::StampFell)),
    (500, &[(8, 1)], Err(PlanFault::BadBucket(8))),
    (500, &[(4, 1), (4, 2)], Err(PlanFault::BadBucket(4))),
    (500, &[(4, 2)], Err(PlanFault::SameServer(4))),
    (500, &[], Ok(())),
    (700, &[(4, 1)], Ok(())),
];

fn assert_push(rt: &impl Abort, alloc: Global, plan: &mut Plan, row: &Row) {
    let (moment, moves, want) = *row;
    let next = change(alloc, moment, Kind::Shift, moves).expect(rt, "memory");
    assert!(rt; plan.push(next) == want, "at {moment}");
}

// The first change moves bucket 4 from server 1 to server 2 at 500, the second moves nothing, and
// the third moves it back at 700.
fn assert_last_moves(rt: &impl Abort, alloc: Global, plan: &Plan) {
    assert!(rt; plan.buckets() == 8 && plan.versions() == 3);
    assert!(rt; plan.owners().expect(rt, "memory").len() == 8);
    let mut table = Table::opening(alloc, plan).expect(rt, "memory");
    table.apply(&plan.copy_change(Version(1)).expect(rt, "memory"));
    table.apply(&plan.copy_change(Version(2)).expect(rt, "memory"));
    let first = Past {
        server: ServerId(1),
        stamp: Moment(500),
    };
    assert!(rt; table.entry(4) == entry(2, Some(first), None));
    table.apply(&plan.copy_change(Version(3)).expect(rt, "memory"));
    let second = Past {
        server: ServerId(2),
        stamp: Moment(700),
    };
    assert!(rt; table.entry(4) == entry(1, Some(second), Some(first)));
}

fn entry(cur: u16, prev: Option<Past>, older: Option<Past>) -> Entry {
    Entry {
        cur: ServerId(cur),
        prev,
        older,
    }
}

#[test]
fn a_plan_refuses_changes_in_order_and_its_table_has_the_last_moves(rt: HostRuntime) {
    let alloc = rt.alloc();
    let mut plan = Plan::new(alloc, 8, [ServerId(1), ServerId(2)].as_slice()).expect(&rt, "memory");
    assert!(rt; plan.opening(4) == ServerId(1));
    assert!(rt; plan.opening(5) == ServerId(2));
    for row in &ROWS {
        assert_push(&rt, alloc, &mut plan, row);
    }
    assert_last_moves(&rt, alloc, &plan);
}

// Servers 1 and 2; bucket 4 moves to 2 at 500, and 2 is drained at 2,000, with a timeout of 1 s.
#[test]
fn a_server_retires_once_the_last_move_from_it_is_past_the_timeout(rt: HostRuntime) {
    let alloc = rt.alloc();
    let mut plan = Plan::new(alloc, 8, [ServerId(1), ServerId(2)].as_slice()).expect(&rt, "memory");
    let shift = change(alloc, 500, Kind::Shift, &[(4, 2)]).expect(&rt, "memory");
    assert!(rt; plan.push(shift) == Ok(()));
    let drained = [(1, 1), (3, 1), (4, 1), (5, 1), (7, 1)];
    let drain = change(alloc, 2_000, Kind::Drain(ServerId(2)), &drained).expect(&rt, "memory");
    assert!(rt; plan.push(drain) == Ok(()));
    let rows = [
        (2, 3_000, Retirement::TooEarly(1)),
        (1, 4_000, Retirement::NotDrained),
        (2, 1_000_002_000, Retirement::TooEarly(1)),
        (2, 1_000_002_001, Retirement::Done),
        (2, 2_000_000_000, Retirement::Done),
    ];
    for (server, at, want) in rows {
        let answer = plan.retirement(
            Version(plan.versions()),
            ServerId(server),
            Moment(at),
            1_000_000_000,
        );
        assert!(rt; answer == want, "{server} at {at}");
    }
}

#[test]
fn the_plain_setting_is_made(rt: HostRuntime) {
    let setting = Setting::plain(rt.alloc()).expect(&rt, "memory");
    assert!(rt; setting.timeout == 240_000_000_000);
    let service = Vip {
        addr: 0xc000_0201,
        port: 80,
    };
    assert!(rt; setting.vips.items() == [service].as_slice());
}

#[test]
fn faults_print_their_bucket_or_limit(rt: HostRuntime) {
    let rows = [
        (
            PlanFault::StampFell,
            "the moment is below that of the last change",
        ),
        (PlanFault::SameServer(4), "bucket 4 is at that server"),
        (
            PlanFault::BadBucket(8),
            "bucket 8 is out of range or out of order",
        ),
        (PlanFault::TooMany(Limit::Moves), "too many moves"),
        (PlanFault::TooMany(Limit::Changes), "too many changes"),
        (PlanFault::Memory, "out of memory"),
    ];
    for (fault, want) in rows {
        assert_prints(&rt, rt.alloc(), &fault, want);
    }
}
