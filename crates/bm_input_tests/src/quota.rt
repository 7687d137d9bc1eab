//! Tests of `bm_quota`: quotas, and the moves that meet them.
use crate::printing::assert_prints;
use bm_base::ServerId;
use bm_quota::{Refusal, moves, quotas};
use bm_table::{Limit, Move};

const fn to(bucket: u32, server: u16) -> Move {
    Move {
        bucket,
        to: ServerId(server),
    }
}

const ONE: ServerId = ServerId(1);

const TWO: ServerId = ServerId(2);

const THREE: ServerId = ServerId(3);

#[test]
fn quotas_are_by_weights(rt: HostRuntime) {
    let alloc = rt.alloc();
    let active = [ONE, TWO, THREE];
    let even = quotas(alloc, 8, &active, &[1, 1, 1]).expect(&rt, "memory");
    assert!(rt; even.as_slice() == [3, 3, 2].as_slice());
    let last = quotas(alloc, 8, &active, &[1, 1, 2]).expect(&rt, "memory");
    assert!(rt; last.as_slice() == [2, 2, 4].as_slice());
    let later = quotas(alloc, 8, &active, &[1, 2, 2]).expect(&rt, "memory");
    assert!(rt; later.as_slice() == [2, 3, 3].as_slice());
    let two = quotas(alloc, 8, &[TWO, THREE], &[1, 1]).expect(&rt, "memory");
    assert!(rt; two.as_slice() == [4, 4].as_slice());
}

// 8 buckets on servers 1 and 2; server 3 is added, and then server 1 is drained.
#[test]
fn servers_get_their_quotas_by_few_moves(rt: HostRuntime) {
    let alloc = rt.alloc();
    let owner = [ONE, TWO, ONE, TWO, ONE, TWO, ONE, TWO];
    let active = [ONE, TWO, THREE];
    let added = moves(alloc, &owner, &active, &[3, 3, 2]).expect(&rt, "memory");
    assert!(rt; added.as_slice() == [to(6, 3), to(7, 3)].as_slice());
    let owner = [ONE, TWO, ONE, TWO, ONE, TWO, THREE, THREE];
    let drained = moves(alloc, &owner, &[TWO, THREE], &[4, 4]).expect(&rt, "memory");
    assert!(rt; drained.as_slice() == [to(0, 2), to(2, 3), to(4, 3)].as_slice());
}

#[test]
fn refusals_print_their_names(rt: HostRuntime) {
    for (refusal, want) in [
        (Refusal::KnownServer, "known server"),
        (Refusal::UnknownServer, "unknown server"),
        (Refusal::NotActive, "not active"),
        (Refusal::LastServer, "last server"),
        (Refusal::BadBucket, "bad bucket"),
        (Refusal::SameServer, "same server"),
        (
            Refusal::StampFell,
            "the moment is below that of the last command",
        ),
        (Refusal::TooMany(Limit::Changes), "too many changes"),
        (Refusal::TooMany(Limit::Moves), "too many moves"),
        (Refusal::Memory, "out of memory"),
    ] {
        assert_prints(&rt, rt.alloc(), &refusal, want);
    }
}
