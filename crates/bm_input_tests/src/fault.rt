//! Tests of `bm_fault`: copies under way, and impairments.
ghost use Rattle.std.specs.Prelude.{◌*◌};

use bm_base::{Fate, Hop, Moment, MuxId, ServerId, Tag, Version};
use bm_fault::{FaultRows, Faults, Flight, Wire};
use bm_table::FaultRow;

fn flight(packet: u32) -> Flight {
    Flight {
        packet,
        tag: Tag {
            hop: Hop::Direct,
            dest: ServerId(1),
            prev: None,
            older: None,
            version: Version(0),
            mux: MuxId(0),
        },
    }
}

fn row(packet: u32, hop: Hop, copies: u8, delay: u64) -> FaultRow {
    FaultRow {
        packet,
        hop,
        fate: Fate { copies, delay },
    }
}

#[test]
fn copies_come_by_due_moment_and_then_as_they_were_put(rt: HostRuntime) {
    let mut wire = Wire::new(rt.alloc());
    assert!(rt; wire.least().is_none() && wire.pop().is_none());
    for (due, packet) in [(30, 1), (10, 2), (20, 3), (10, 4), (0, 5), (10, 6)] {
        assert!(rt; wire.put(Moment(due), flight(packet)) == Ok(()));
    }
    for (due, packet) in [(0, 5), (10, 2), (10, 4), (10, 6), (20, 3), (30, 1)] {
        assert!(rt; wire.least() == Some(Moment(due)));
        assert!(rt; wire.pop() == Some(flight(packet)), "at {due}");
    }
    assert!(rt; wire.pop().is_none());
}

#[test]
fn the_first_row_of_a_packet_and_hop_counts(rt: HostRuntime) {
    let given = [
        row(3, Hop::Direct, 0, 0),
        row(3, Hop::Direct, 2, 5),
        row(3, Hop::Chained, 3, 60_000_000_000),
        row(1, Hop::Chained, 1, 7),
    ];
    let rows = FaultRows::new(rt.alloc(), given.as_slice()).expect(&rt, "memory");
    for (packet, hop, copies, delay) in [
        (3, Hop::Direct, 0, 0),
        (3, Hop::Chained, 3, 60_000_000_000),
        (1, Hop::Direct, 1, 0),
        (1, Hop::Chained, 1, 7),
        (2, Hop::Direct, 1, 0),
    ] {
        assert!(rt;
            rows.fate(packet, hop) == Fate { copies, delay },
            "at {packet}"
        );
    }
}

#[test]
fn a_rule_answers(rt: HostRuntime) {
    let faults = Faults::new(|packet: u32, _hop: Hop| -> Fate {
        Fate {
            copies: 2,
            delay: if packet == 1 { 0 } else { 60_000_000_000 },
        }
    });
    let late = Fate {
        copies: 2,
        delay: 60_000_000_000,
    };
    assert!(rt; faults.fate(2, Hop::Direct) == late);
}
