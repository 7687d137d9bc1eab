//! Tests of `bm_controller`: the plan that commands make.
use bm_base::{Moment, ServerId, Version};
use bm_controller::Controller;
use bm_quota::Refusal;
use bm_table::{Kind, Plan};
use std::process::Abort;

/// The change after a version is of this kind and makes these moves, of bucket and server.
pub(crate) fn assert_change(
    rt: &impl Abort,
    plan: &Plan,
    version: u32,
    kind: Kind,
    moves: &[(u32, u16)],
) {
    let change = plan.next_change(Version(version)).expect(rt, "a change");
    assert!(rt; change.kind == kind);
    assert!(rt; change.moves.items().len() == moves.len());
    for (m, (bucket, to)) in change.moves.items().iter().zip(moves) {
        assert!(rt; (m.bucket, m.to.0) == (*bucket, *to));
    }
}

// 8 buckets on servers 1 and 2; server 3 is added at 500, and server 1 is drained at 600.
#[test]
fn an_add_and_a_drain_move_few_buckets(rt: HostRuntime) {
    let alloc = rt.alloc();
    let mut controller = Controller::new(
        alloc,
        8,
        [ServerId(1), ServerId(2)].as_slice(),
        [1, 1].as_slice(),
    )
    .expect(&rt, "memory");
    assert!(rt; controller.add(Moment(500), ServerId(3), 1) == Ok(()));
    assert!(rt; controller.drain(Moment(600), ServerId(1)) == Ok(()));
    assert!(rt; controller.knows(ServerId(1)) && !controller.knows(ServerId(4)));
    let plan = controller.into_plan();
    assert!(rt; plan.versions() == 2);
    assert_change(&rt, &plan, 0, Kind::Add(ServerId(3)), &[(6, 3), (7, 3)]);
    assert_change(
        &rt,
        &plan,
        1,
        Kind::Drain(ServerId(1)),
        &[(0, 2), (2, 3), (4, 3)],
    );
}

#[test]
fn commands_are_refused_by_those_before(rt: HostRuntime) {
    let alloc = rt.alloc();
    let mut controller = Controller::new(
        alloc,
        8,
        [ServerId(1), ServerId(2)].as_slice(),
        [1, 1].as_slice(),
    )
    .expect(&rt, "memory");
    assert!(rt; controller.shift(Moment(0), 8, ServerId(9)) == Err(Refusal::BadBucket));
    assert!(rt; controller.shift(Moment(0), 4, ServerId(9)) == Err(Refusal::UnknownServer));
    assert!(rt; controller.shift(Moment(0), 4, ServerId(1)) == Err(Refusal::SameServer));
    assert!(rt; controller.shift(Moment(7), 4, ServerId(2)) == Ok(()));
    assert!(rt; controller.add(Moment(0), ServerId(2), 1) == Err(Refusal::KnownServer));
    assert!(rt; controller.add(Moment(6), ServerId(3), 1) == Err(Refusal::StampFell));
    assert!(rt; controller.drain(Moment(7), ServerId(9)) == Err(Refusal::UnknownServer));
    assert!(rt; controller.drain(Moment(7), ServerId(1)) == Ok(()));
    assert!(rt; controller.drain(Moment(7), ServerId(1)) == Err(Refusal::NotActive));
    assert!(rt; controller.drain(Moment(7), ServerId(2)) == Err(Refusal::LastServer));
    assert!(rt; controller.shift(Moment(7), 4, ServerId(1)) == Err(Refusal::NotActive));
    assert!(rt; controller.into_plan().versions() == 2);
}

// Servers 1 and 2 weigh 1 and 2; server 3 is added with 2, weighs 1 later, and then 1 again.
#[test]
fn weights_move_buckets(rt: HostRuntime) {
    let alloc = rt.alloc();
    let servers = [ServerId(1), ServerId(2)];
    let mut controller = Controller::new(alloc, 8, servers.as_slice(), [1, 2].as_slice()).expect(
        &rt, "memory",
    );
    assert!(rt; controller.weigh(Moment(0), ServerId(3), 1) == Err(Refusal::UnknownServer));
    assert!(rt; controller.add(Moment(500), ServerId(3), 2) == Ok(()));
    assert!(rt; controller.weigh(Moment(499), ServerId(3), 1) == Err(Refusal::StampFell));
    assert!(rt; controller.weigh(Moment(600), ServerId(3), 1) == Ok(()));
    assert!(rt; controller.weigh(Moment(600), ServerId(3), 1) == Ok(()));
    let plan = controller.into_plan();
    assert!(rt; plan.versions() == 3);
    assert_change(
        &rt,
        &plan,
        0,
        Kind::Add(ServerId(3)),
        &[(4, 3), (6, 3), (7, 3)],
    );
    assert_change(&rt, &plan, 1, Kind::Shift, &[(7, 2)]);
    assert_change(&rt, &plan, 2, Kind::Shift, &[]);
}
