//! Tests of `RackController`: placement within racks.
ghost use Rattle.std.specs.Prelude.{◌≡◌, ◌-◌, ◌%◌};

use crate::controller::assert_change;
use crate::printing::assert_prints;
use bm_base::{Memory, Moment, ServerId};
use bm_controller::{RackController, RackRefusal};
use bm_policy::Policy;
use bm_quota::Refusal;
use bm_table::{Kind, Plan};
use std::alloc::Global;

const SERVERS: [ServerId; 2] = [ServerId(1), ServerId(2)];

const WEIGHTS: [u32; 2] = [1, 1];

/// 8 buckets on servers 1 and 2 in two racks: servers 1 and 3 stand in rack 0, server 2 in rack 1. What
/// an addition of server 3, a drain of server 2 and a move of bucket 4 to it are answered; the plan.
fn carried_out(alloc: Global) -> Result<([Result<(), RackRefusal>; 3], Plan), Memory> {
    let policy = Policy::new(
        |s: ServerId| -> u16
            ensures { result ≡ 1 - s.0 % 2 }
        { 1 - s.0 % 2 },
        2,
    );
    let mut controller = RackController::new(alloc, 8, &SERVERS, &WEIGHTS, policy)?;
    let added = controller.add(Moment(500), ServerId(3), 1);
    let drained = controller.drain(Moment(500), ServerId(2));
    let shifted = controller.shift(Moment(500), 4, ServerId(2));
    Ok(([added, drained, shifted], controller.into_plan()))
}

#[test]
fn rebalancing_stays_within_racks(rt: HostRuntime) {
    let (answers, plan) = carried_out(rt.alloc()).expect(&rt, "memory");
    let [added, drained, shifted] = answers;
    assert!(rt; added == Ok(()));
    assert!(rt; drained == Err(RackRefusal::LastInRack));
    assert!(rt; shifted == Err(RackRefusal::WrongRack));
    assert_change(&rt, &plan, 0, Kind::Add(ServerId(3)), &[(4, 3), (6, 3)]);
}

#[test]
fn refusals_of_racks_print_their_names(rt: HostRuntime) {
    for (refusal, want) in [
        (RackRefusal::Base(Refusal::LastServer), "last server"),
        (RackRefusal::LastInRack, "last in rack"),
        (RackRefusal::WrongRack, "wrong rack"),
    ] {
        assert_prints(&rt, rt.alloc(), &refusal, want);
    }
}
