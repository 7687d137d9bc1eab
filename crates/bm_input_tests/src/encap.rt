//! Tests of `bm_encap`: carrier headers, intact and damaged.
ghost use Rattle.std.specs.Prelude.{◌<◌};

use crate::printing::assert_prints;
use bm_base::{Hop, Moment, MuxId, Past, ServerId, Tag, Version};
use bm_encap::EncapFault::{BadLength, BadOption, BadOuter, BadSum, Short};
use bm_encap::{EncapFault, chain, set_chained, unwrap, wrap};
use bm_ipv4::header_sum;
use std::process::Abort;

// The carrier header of a packet of 50 octets from mux 0 at version 1, direct to server 2, where
// server 1 had the bucket until the moment 500.
const DIRECT: [u8; 56] = [
    0x4e, 0x00, 0x00, 0x6a, 0x00, 0x00, 0x40, 0x00, 0x40, 0x04, 0x8d, 0x32, 0xac, 0x1f, 0x00, 0x00,
    0xac, 0x10, 0x00, 0x02, 0x9e, 0x24, 0x00, 0x01, 0xac, 0x10, 0x00, 0x01, 0x00, 0x00, 0x00, 0x00,
    0x00, 0x00, 0x01, 0xf4, 0x00, 0x00, 0x00, 0x00, 0x00, 0x00, 0x00, 0x00, 0x00, 0x00, 0x00, 0x00,
    0x00, 0x00, 0x00, 0x01, 0x00, 0x00, 0x00, 0x00,
];

// The same, if the bucket hasn't moved yet.
const UNMOVED: [u8; 56] = [
    0x4e, 0x00, 0x00, 0x6a, 0x00, 0x00, 0x40, 0x00, 0x40, 0x04, 0x3b, 0x3a, 0xac, 0x1f, 0x00, 0x00,
    0xac, 0x10, 0x00, 0x02, 0x9e, 0x24, 0x00, 0x00, 0x00, 0x00, 0x00, 0x00, 0x00, 0x00, 0x00, 0x00,
    0x00, 0x00, 0x00, 0x00, 0x00, 0x00, 0x00, 0x00, 0x00, 0x00, 0x00, 0x00, 0x00, 0x00, 0x00, 0x00,
    0x00, 0x00, 0x00, 0x00, 0x00, 0x00, 0x00, 0x00,
];

// The header of the first one's next hop, to server 1.
const CHAINED: [u8; 56] = [
    0x4e, 0x00, 0x00, 0x6a, 0x00, 0x00, 0x40, 0x00, 0x40, 0x04, 0x8c, 0x33, 0xac, 0x1f, 0x00, 0x00,
    0xac, 0x10, 0x00, 0x01, 0x9e, 0x24, 0x01, 0x01, 0xac, 0x10, 0x00, 0x01, 0x00, 0x00, 0x00, 0x00,
    0x00, 0x00, 0x01, 0xf4, 0x00, 0x00, 0x00, 0x00, 0x00, 0x00, 0x00, 0x00, 0x00, 0x00, 0x00, 0x00,
    0x00, 0x00, 0x00, 0x01, 0x00, 0x00, 0x00, 0x00,
];

// The header of such a packet at version 2, direct to server 1, where server 3 had the bucket until
// the moment 600, and server 2 before it until 500.
const MOVED_TWICE: [u8; 56] = [
    0x4e, 0x00, 0x00, 0x6a, 0x00, 0x00, 0x40, 0x00, 0x40, 0x04, 0xde, 0xc4, 0xac, 0x1f, 0x00, 0x00,
    0xac, 0x10, 0x00, 0x01, 0x9e, 0x24, 0x00, 0x02, 0xac, 0x10, 0x00, 0x03, 0x00, 0x00, 0x00, 0x00,
    0x00, 0x00, 0x02, 0x58, 0xac, 0x10, 0x00, 0x02, 0x00, 0x00, 0x00, 0x00, 0x00, 0x00, 0x01, 0xf4,
    0x00, 0x00, 0x00, 0x02, 0x00, 0x00, 0x00, 0x00,
];

// The header of its first hop, to server 3.
const MOVED_ONCE: [u8; 56] = [
    0x4e, 0x00, 0x00, 0x6a, 0x00, 0x00, 0x40, 0x00, 0x40, 0x04, 0xdd, 0xc2, 0xac, 0x1f, 0x00, 0x00,
    0xac, 0x10, 0x00, 0x03, 0x9e, 0x24, 0x01, 0x02, 0xac, 0x10, 0x00, 0x03, 0x00, 0x00, 0x00, 0x00,
    0x00, 0x00, 0x02, 0x58, 0xac, 0x10, 0x00, 0x02, 0x00, 0x00, 0x00, 0x00, 0x00, 0x00, 0x01, 0xf4,
    0x00, 0x00, 0x00, 0x02, 0x00, 0x00, 0x00, 0x00,
];

// The header of its last hop, to server 2.
const TWICE: [u8; 56] = [
    0x4e, 0x00, 0x00, 0x6a, 0x00, 0x00, 0x40, 0x00, 0x40, 0x04, 0xdc, 0xc3, 0xac, 0x1f, 0x00, 0x00,
    0xac, 0x10, 0x00, 0x02, 0x9e, 0x24, 0x02, 0x02, 0xac, 0x10, 0x00, 0x03, 0x00, 0x00, 0x00, 0x00,
    0x00, 0x00, 0x02, 0x58, 0xac, 0x10, 0x00, 0x02, 0x00, 0x00, 0x00, 0x00, 0x00, 0x00, 0x01, 0xf4,
    0x00, 0x00, 0x00, 0x02, 0x00, 0x00, 0x00, 0x00,
];

fn past(server: u16, stamp: u64) -> Past {
    Past {
        server: ServerId(server),
        stamp: Moment(stamp),
    }
}

fn tag() -> Tag {
    Tag {
        hop: Hop::Direct,
        dest: ServerId(2),
        prev: Some(past(1, 500)),
        older: None,
        version: Version(1),
        mux: MuxId(0),
    }
}

fn moved_twice() -> Tag {
    Tag {
        hop: Hop::Direct,
        dest: ServerId(1),
        prev: Some(past(3, 600)),
        older: Some(past(2, 500)),
        version: Version(2),
        mux: MuxId(0),
    }
}

// The header and 50 octets after it.
fn packet(header: &[u8; 56]) -> [u8; 106] {
    let mut octets = [7; 106];
    for (octet, given) in octets.iter_mut().zip(header) {
        *octet = *given;
    }
    octets
}

// Corrects the checksum.
fn mend(octets: &mut [u8; 106]) {
    octets[10] = 0;
    octets[11] = 0;
    let [high, low] = header_sum(&octets[..56]).to_be_bytes();
    octets[10] = high;
    octets[11] = low;
}

/// What is wrong if an octet of these places, both ends included, is changed.
type Row = (usize, usize, Option<EncapFault>);

// At each place of a range, the header with that octet changed has this fault.
fn assert_damaged(rt: &impl Abort, header: &[u8; 56], mended: bool, change: u8, rows: &[Row]) {
    for (first, last, want) in rows {
        for place in *first..last.saturating_add(1) {
            let mut octets = packet(header);
            if let Some(octet) = octets.get_mut(place) {
                *octet ^= change;
            }
            if mended {
                mend(&mut octets);
            }
            assert!(rt; unwrap(&octets).err() == *want, "at {place}");
        }
    }
}

// Octets that are always the same, whether or not the checksum is corrected.
const FIXED: [Row; 8] = [
    (0, 0, Some(BadOuter(0))),
    (1, 1, Some(BadOuter(1))),
    (4, 4, Some(BadOuter(4))),
    (5, 5, Some(BadOuter(5))),
    (6, 6, Some(BadOuter(6))),
    (7, 7, Some(BadOuter(7))),
    (8, 8, Some(BadOuter(8))),
    (9, 9, Some(BadOuter(9))),
];

const DAMAGED_01: [Row; 6] = [
    (2, 3, Some(BadSum)),
    (10, 11, Some(BadSum)),
    (12, 14, Some(BadOuter(12))),
    (15, 15, Some(BadSum)),
    (16, 17, Some(BadOuter(16))),
    (18, 55, Some(BadSum)),
];

const DAMAGED_80_FF: [Row; 5] = [
    (2, 3, Some(BadSum)),
    (10, 11, Some(BadSum)),
    (12, 15, Some(BadOuter(12))),
    (16, 18, Some(BadOuter(16))),
    (19, 55, Some(BadSum)),
];

#[test]
fn an_octet_is_changed(rt: HostRuntime) {
    for change in [0x01, 0x80, 0xff] {
        assert_damaged(&rt, &DIRECT, false, change, &FIXED);
    }
    assert_damaged(&rt, &DIRECT, false, 0x01, &DAMAGED_01);
    assert_damaged(&rt, &DIRECT, false, 0x80, &DAMAGED_80_FF);
    assert_damaged(&rt, &DIRECT, false, 0xff, &DAMAGED_80_FF);
}

// The same for all headers, if the checksum is corrected.
const MENDED: [Row; 5] = [
    (2, 3, Some(BadLength)),
    (20, 20, Some(BadOption(20))),
    (21, 21, Some(BadOption(21))),
    (52, 53, Some(BadOption(52))),
    (54, 55, Some(BadOption(54))),
];

const DIRECT_01: [Row; 11] = [
    (12, 14, Some(BadOuter(12))),
    (15, 15, Some(BadOption(52))),
    (16, 17, Some(BadOuter(16))),
    (18, 19, None),
    (22, 25, Some(BadOption(24))),
    (26, 26, None),
    (27, 27, Some(BadOption(24))),
    (28, 35, None),
    (36, 39, Some(BadOption(36))),
    (40, 47, Some(BadOption(40))),
    (48, 51, None),
];

const DIRECT_80_FF: [Row; 10] = [
    (12, 15, Some(BadOuter(12))),
    (16, 18, Some(BadOuter(16))),
    (19, 19, None),
    (22, 22, Some(BadOption(22))),
    (23, 23, Some(BadOption(23))),
    (24, 26, Some(BadOption(24))),
    (27, 35, None),
    (36, 39, Some(BadOption(36))),
    (40, 47, Some(BadOption(40))),
    (48, 51, None),
];

const UNMOVED_01: [Row; 11] = [
    (12, 14, Some(BadOuter(12))),
    (15, 15, Some(BadOption(52))),
    (16, 17, Some(BadOuter(16))),
    (18, 19, None),
    (22, 22, Some(BadOption(23))),
    (23, 27, Some(BadOption(24))),
    (28, 35, Some(BadOption(28))),
    (36, 39, Some(BadOption(36))),
    (40, 47, Some(BadOption(40))),
    (48, 51, None),
    (56, 105, None),
];

const CHAINED_01: [Row; 12] = [
    (12, 14, Some(BadOuter(12))),
    (15, 15, Some(BadOption(52))),
    (16, 17, Some(BadOuter(16))),
    (18, 18, Some(BadOption(24))),
    (19, 19, Some(BadOuter(16))),
    (22, 22, Some(BadOption(24))),
    (23, 23, Some(BadOption(23))),
    (24, 27, Some(BadOption(24))),
    (28, 35, None),
    (36, 39, Some(BadOption(36))),
    (40, 47, Some(BadOption(40))),
    (48, 51, None),
];

const CHAINED_80_FF: [Row; 10] = [
    (12, 15, Some(BadOuter(12))),
    (16, 18, Some(BadOuter(16))),
    (19, 19, Some(BadOption(24))),
    (22, 22, Some(BadOption(22))),
    (23, 23, Some(BadOption(23))),
    (24, 27, Some(BadOption(24))),
    (28, 35, None),
    (36, 39, Some(BadOption(36))),
    (40, 47, Some(BadOption(40))),
    (48, 51, None),
];

const TWICE_01: [Row; 12] = [
    (12, 14, Some(BadOuter(12))),
    (15, 15, Some(BadOption(52))),
    (16, 17, Some(BadOuter(16))),
    (18, 19, Some(BadOption(36))),
    (22, 22, Some(BadOption(22))),
    (23, 23, Some(BadOption(23))),
    (24, 25, Some(BadOption(24))),
    (26, 26, None),
    (27, 27, Some(BadOption(36))),
    (28, 35, None),
    (36, 39, Some(BadOption(36))),
    (40, 51, None),
];

const TWICE_80_FF: [Row; 9] = [
    (12, 15, Some(BadOuter(12))),
    (16, 18, Some(BadOuter(16))),
    (19, 19, Some(BadOption(36))),
    (22, 22, Some(BadOption(22))),
    (23, 23, Some(BadOption(23))),
    (24, 26, Some(BadOption(24))),
    (27, 35, None),
    (36, 39, Some(BadOption(36))),
    (40, 51, None),
];

#[test]
fn an_octet_is_changed_and_the_checksum_too(rt: HostRuntime) {
    for header in [&DIRECT, &UNMOVED, &CHAINED, &TWICE] {
        for change in [0x01, 0x80, 0xff] {
            assert_damaged(&rt, header, true, change, &FIXED);
            assert_damaged(&rt, header, true, change, &MENDED);
        }
    }
    // The first octet as in a header without options, 45.
    assert_damaged(&rt, &DIRECT, true, 0x0b, &[(0, 0, Some(BadOuter(0)))]);
    assert_damaged(&rt, &DIRECT, true, 0x01, &DIRECT_01);
    assert_damaged(&rt, &DIRECT, true, 0x80, &DIRECT_80_FF);
    assert_damaged(&rt, &DIRECT, true, 0xff, &DIRECT_80_FF);
    assert_damaged(&rt, &UNMOVED, true, 0x01, &UNMOVED_01);
    assert_damaged(&rt, &CHAINED, true, 0x01, &CHAINED_01);
    assert_damaged(&rt, &CHAINED, true, 0x80, &CHAINED_80_FF);
    assert_damaged(&rt, &CHAINED, true, 0xff, &CHAINED_80_FF);
    assert_damaged(&rt, &TWICE, true, 0x01, &TWICE_01);
    assert_damaged(&rt, &TWICE, true, 0x80, &TWICE_80_FF);
    assert_damaged(&rt, &TWICE, true, 0xff, &TWICE_80_FF);
}

#[test]
fn a_header_is_read(rt: HostRuntime) {
    let rows = [
        (&DIRECT, tag()),
        (&MOVED_TWICE, moved_twice()),
        (
            &UNMOVED,
            Tag {
                prev: None,
                version: Version(0),
                ..tag()
            },
        ),
    ];
    for (header, want) in rows {
        assert!(rt; unwrap(&packet(header)) == Ok((want, [7; 50].as_slice())));
    }
}

#[test]
fn a_header_is_spelled(rt: HostRuntime) {
    let octets = packet(&DIRECT);
    let (tag, inner) = unwrap(&octets).expect(&rt, "a header");
    let mut out = vec![in rt.alloc(); 9].expect(&rt, "memory");
    assert!(rt; wrap(&tag, inner, &mut out) == Ok(()));
    assert!(rt; out.first() == Some(&9) && out.get(1..) == Some(octets.as_slice()));
}

#[test]
fn the_next_hop_is_written_in_place_and_its_tag_given(rt: HostRuntime) {
    let mut octets = packet(&DIRECT);
    let next = Tag {
        hop: Hop::Chained,
        dest: ServerId(1),
        ..tag()
    };
    assert!(rt; chain(&mut octets) == Ok(next));
    assert!(rt; octets == packet(&CHAINED));
}

// A packet without a previous server, and one after its last hop, stay as they are.
#[test]
fn the_next_hop_is_written_in_place(rt: HostRuntime) {
    for (before, want, after) in [
        (&DIRECT, Ok(()), &CHAINED),
        (&CHAINED, Err(BadOption(23)), &CHAINED),
        (&UNMOVED, Err(BadOption(23)), &UNMOVED),
        (&MOVED_TWICE, Ok(()), &MOVED_ONCE),
        (&MOVED_ONCE, Ok(()), &TWICE),
        (&TWICE, Err(BadOption(22)), &TWICE),
    ] {
        let mut octets = packet(before);
        assert!(rt; set_chained(&mut octets) == want);
        assert!(rt; octets == packet(after));
    }
}

/// Places, both ends included, of a packet that moved twice, and the octet that is written there.
type Written = (usize, usize, u8);

const WRITTEN: [(&'static [Written], EncapFault); 5] = [
    // An older server has no previous one.
    (&[(24, 35, 0)], BadOption(24)),
    (&[(24, 35, 0), (23, 23, 1)], BadOption(24)),
    (&[(24, 35, 0), (23, 23, 0)], BadOption(36)),
    // The older server is the previous one.
    (&[(39, 39, 3)], BadOption(36)),
    // A chained copy goes to the older server.
    (&[(22, 22, 1), (19, 19, 2)], BadOption(24)),
];

fn written(changes: &[Written]) -> [u8; 106] {
    let mut octets = packet(&MOVED_TWICE);
    for (first, last, new) in changes {
        for place in *first..last.saturating_add(1) {
            if let Some(octet) = octets.get_mut(place) {
                *octet = *new;
            }
        }
    }
    mend(&mut octets);
    octets
}

#[test]
fn servers_before_are_in_order_differ_and_are_where_the_copy_goes(rt: HostRuntime) {
    for (changes, want) in &WRITTEN {
        assert!(rt; unwrap(&written(changes)).err() == Some(*want));
    }
}

#[test]
fn octets_are_cut_or_added(rt: HostRuntime) {
    let octets = packet(&DIRECT);
    for len in 0..106 {
        let want = if len < 56 { Short } else { BadLength };
        assert!(rt; unwrap(&octets[..len]).err() == Some(want), "at {len}");
    }
    let mut longer = [7; 107];
    for (octet, given) in longer.iter_mut().zip(&octets) {
        *octet = *given;
    }
    assert!(rt; unwrap(&longer).err() == Some(BadLength));
}

#[test]
fn faults_print_their_place(rt: HostRuntime) {
    for (fault, want) in [
        (BadOuter(12), "octet 12 of the outer header isn't right"),
        (BadOption(42), "octet 42 of the option isn't right"),
    ] {
        assert_prints(&rt, rt.alloc(), &fault, want);
    }
}
