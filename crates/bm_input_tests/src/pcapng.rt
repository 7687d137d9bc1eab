//! Captures of the pcapng form.
ghost use Rattle.std.specs.Prelude.{◌≤◌};

use crate::records::{DATA, SYN, VIPS, check, check_cut, opened, record};
use bm_base::{Body, Capture, Octets, Reason};
use bm_io::{MemSource, Source, SureSource};
use bm_pcap::CaptureFault;
use bm_pcapng::{Front, NgItem, NgReader, read_ng};
use std::alloc::Global;
use std::process::Abort;

// Raw IP: a first segment, and one microsecond later ten octets of data. In both byte orders.
const LITTLE: [u8; 204] = [
    0x0a, 0x0d, 0x0d, 0x0a, 0x1c, 0, 0, 0, 0x4d, 0x3c, 0x2b, 0x1a, 1, 0, 0, 0, 0xff, 0xff, 0xff,
    0xff, 0xff, 0xff, 0xff, 0xff, 0x1c, 0, 0, 0, 1, 0, 0, 0, 0x14, 0, 0, 0, 0x65, 0, 0, 0, 0, 0, 4,
    0, 0x14, 0, 0, 0, 6, 0, 0, 0, 0x48, 0, 0, 0, 0, 0, 0, 0, 0, 0, 0, 0, 0, 0, 0, 0, 0x28, 0, 0, 0,
    0x28, 0, 0, 0, 0x45, 0, 0, 0x28, 0, 0, 0x40, 0, 0x40, 6, 0, 0, 0x0a, 0, 0, 1, 0xc0, 0, 2, 1, 3,
    0xe8, 0, 0x50, 0, 0, 0, 0x64, 0, 0, 0, 0, 0x50, 2, 0xff, 0xff, 0, 0, 0, 0, 0x48, 0, 0, 0, 6, 0,
    0, 0, 0x54, 0, 0, 0, 0, 0, 0, 0, 0, 0, 0, 0, 1, 0, 0, 0, 0x32, 0, 0, 0, 0x32, 0, 0, 0, 0x45, 0,
    0, 0x32, 0, 0, 0x40, 0, 0x40, 6, 0, 0, 0x0a, 0, 0, 1, 0xc0, 0, 2, 1, 3, 0xe8, 0, 0x50, 0, 0, 0,
    0x65, 0, 0, 1, 0xf5, 0x50, 0x18, 0xff, 0xff, 0, 0, 0, 0, 0x61, 0x62, 0x63, 0x64, 0x65, 0x66,
    0x67, 0x68, 0x69, 0x6a, 0, 0, 0x54, 0, 0, 0,
];

const BIG: [u8; 204] = [
    0x0a, 0x0d, 0x0d, 0x0a, 0, 0, 0, 0x1c, 0x1a, 0x2b, 0x3c, 0x4d, 0, 1, 0, 0, 0xff, 0xff, 0xff,
    0xff, 0xff, 0xff, 0xff, 0xff, 0, 0, 0, 0x1c, 0, 0, 0, 1, 0, 0, 0, 0x14, 0, 0x65, 0, 0, 0, 4, 0,
    0, 0, 0, 0, 0x14, 0, 0, 0, 6, 0, 0, 0, 0x48, 0, 0, 0, 0, 0, 0, 0, 0, 0, 0, 0, 0, 0, 0, 0, 0x28,
    0, 0, 0, 0x28, 0x45, 0, 0, 0x28, 0, 0, 0x40, 0, 0x40, 6, 0, 0, 0x0a, 0, 0, 1, 0xc0, 0, 2, 1, 3,
    0xe8, 0, 0x50, 0, 0, 0, 0x64, 0, 0, 0, 0, 0x50, 2, 0xff, 0xff, 0, 0, 0, 0, 0, 0, 0, 0x48, 0, 0,
    0, 6, 0, 0, 0, 0x54, 0, 0, 0, 0, 0, 0, 0, 0, 0, 0, 0, 1, 0, 0, 0, 0x32, 0, 0, 0, 0x32, 0x45, 0,
    0, 0x32, 0, 0, 0x40, 0, 0x40, 6, 0, 0, 0x0a, 0, 0, 1, 0xc0, 0, 2, 1, 3, 0xe8, 0, 0x50, 0, 0, 0,
    0x65, 0, 0, 1, 0xf5, 0x50, 0x18, 0xff, 0xff, 0, 0, 0, 0, 0x61, 0x62, 0x63, 0x64, 0x65, 0x66,
    0x67, 0x68, 0x69, 0x6a, 0, 0, 0, 0, 0, 0x54,
];

// The same with times in nanoseconds.
const NANO: [u8; 216] = [
    0x0a, 0x0d, 0x0d, 0x0a, 0x1c, 0, 0, 0, 0x4d, 0x3c, 0x2b, 0x1a, 1, 0, 0, 0, 0xff, 0xff, 0xff,
    0xff, 0xff, 0xff, 0xff, 0xff, 0x1c, 0, 0, 0, 1, 0, 0, 0, 0x20, 0, 0, 0, 0x65, 0, 0, 0, 0, 0, 4,
    0, 9, 0, 1, 0, 9, 0, 0, 0, 0, 0, 0, 0, 0x20, 0, 0, 0, 6, 0, 0, 0, 0x48, 0, 0, 0, 0, 0, 0, 0, 0,
    0, 0, 0, 0, 0, 0, 0, 0x28, 0, 0, 0, 0x28, 0, 0, 0, 0x45, 0, 0, 0x28, 0, 0, 0x40, 0, 0x40, 6, 0,
    0, 0x0a, 0, 0, 1, 0xc0, 0, 2, 1, 3, 0xe8, 0, 0x50, 0, 0, 0, 0x64, 0, 0, 0, 0, 0x50, 2, 0xff,
    0xff, 0, 0, 0, 0, 0x48, 0, 0, 0, 6, 0, 0, 0, 0x54, 0, 0, 0, 0, 0, 0, 0, 0, 0, 0, 0, 0xe8, 3, 0,
    0, 0x32, 0, 0, 0, 0x32, 0, 0, 0, 0x45, 0, 0, 0x32, 0, 0, 0x40, 0, 0x40, 6, 0, 0, 0x0a, 0, 0, 1,
    0xc0, 0, 2, 1, 3, 0xe8, 0, 0x50, 0, 0, 0, 0x65, 0, 0, 1, 0xf5, 0x50, 0x18, 0xff, 0xff, 0, 0, 0,
    0, 0x61, 0x62, 0x63, 0x64, 0x65, 0x66, 0x67, 0x68, 0x69, 0x6a, 0, 0, 0x54, 0, 0, 0,
];

// A little-endian section with interfaces of Ethernet in units of 2^-10 s, raw IP in nanoseconds,
// and an unsupported link type; between them a comment, names, an obsolete packet and statistics.
// Then a big-endian section, with a simple packet that is cut at the snapshot length.
const MIXED: [u8; 684] = [
    0x0a, 0x0d, 0x0d, 0x0a, 0x30, 0, 0, 0, 0x4d, 0x3c, 0x2b, 0x1a, 1, 0, 0, 0, 0xff, 0xff, 0xff,
    0xff, 0xff, 0xff, 0xff, 0xff, 1, 0, 0x0c, 0, 0x74, 0x77, 0x6f, 0x20, 0x73, 0x65, 0x63, 0x74,
    0x69, 0x6f, 0x6e, 0x73, 0, 0, 0, 0, 0x30, 0, 0, 0, 1, 0, 0, 0, 0x30, 0, 0, 0, 1, 0, 0, 0, 0, 0,
    0, 0, 2, 0, 3, 0, 0x65, 0x74, 0x68, 0, 9, 0, 1, 0, 0x8a, 0, 0, 0, 9, 0, 1, 0, 9, 0, 0, 0, 0, 0,
    0, 0, 0x30, 0, 0, 0, 4, 0, 0, 0, 0x10, 0, 0, 0, 0, 0, 0, 0, 0x10, 0, 0, 0, 1, 0, 0, 0, 0x30, 0,
    0, 0, 0x65, 0, 0, 0, 0x60, 0, 0, 0, 9, 0, 2, 0, 0, 9, 0, 0, 0x0e, 0, 8, 0, 0, 0, 0, 0, 0, 0, 0,
    0, 9, 0, 1, 0, 9, 0, 0, 0, 0x30, 0, 0, 0, 1, 0, 0, 0, 0x14, 0, 0, 0, 0x93, 0, 0, 0, 0, 0, 4, 0,
    0x14, 0, 0, 0, 6, 0, 0, 0, 0x68, 0, 0, 0, 0, 0, 0, 0, 0, 0, 0, 0, 0, 8, 0, 0, 0x36, 0, 0, 0,
    0x36, 0, 0, 0, 0, 0, 0, 0, 0, 0, 0, 0, 0, 0, 0, 0, 8, 0, 0x45, 0, 0, 0x28, 0, 0, 0x40, 0, 0x40,
    6, 0, 0, 0x0a, 0, 0, 1, 0xc0, 0, 2, 1, 3, 0xe8, 0, 0x50, 0, 0, 0, 0x64, 0, 0, 0, 0, 0x50, 2,
    0xff, 0xff, 0, 0, 0, 0, 0, 0, 1, 0, 5, 0, 0x66, 0x69, 0x72, 0x73, 0x74, 0, 0, 0, 0, 0, 0, 0,
    0x68, 0, 0, 0, 2, 0, 0, 0, 0x20, 0, 0, 0, 0, 0, 0, 0, 0, 0, 0, 0, 0, 0, 0, 0, 0, 0, 0, 0, 0, 0,
    0, 0, 0x20, 0, 0, 0, 6, 0, 0, 0, 0x54, 0, 0, 0, 1, 0, 0, 0, 0, 0, 0, 0, 5, 0x94, 0x35, 0x77,
    0x32, 0, 0, 0, 0x32, 0, 0, 0, 0x45, 0, 0, 0x32, 0, 0, 0x40, 0, 0x40, 6, 0, 0, 0x0a, 0, 0, 1,
    0xc0, 0, 2, 1, 3, 0xe8, 0, 0x50, 0, 0, 0, 0x65, 0, 0, 1, 0xf5, 0x50, 0x18, 0xff, 0xff, 0, 0, 0,
    0, 0x61, 0x62, 0x63, 0x64, 0x65, 0x66, 0x67, 0x68, 0x69, 0x6a, 0, 0, 0x54, 0, 0, 0, 6, 0, 0, 0,
    0x48, 0, 0, 0, 2, 0, 0, 0, 0, 0, 0, 0, 0x80, 0x84, 0x1e, 0, 0x28, 0, 0, 0, 0x28, 0, 0, 0, 0x45,
    0, 0, 0x28, 0, 0, 0x40, 0, 0x40, 6, 0, 0, 0x0a, 0, 0, 1, 0xc0, 0, 2, 1, 3, 0xe8, 0, 0x50, 0, 0,
    0, 0x64, 0, 0, 0, 0, 0x50, 2, 0xff, 0xff, 0, 0, 0, 0, 0x48, 0, 0, 0, 5, 0, 0, 0, 0x18, 0, 0, 0,
    0, 0, 0, 0, 0, 0, 0, 0, 0, 0, 0, 0, 0x18, 0, 0, 0, 0x0a, 0x0d, 0x0d, 0x0a, 0, 0, 0, 0x1c, 0x1a,
    0x2b, 0x3c, 0x4d, 0, 1, 0, 0, 0xff, 0xff, 0xff, 0xff, 0xff, 0xff, 0xff, 0xff, 0, 0, 0, 0x1c, 0,
    0, 0, 1, 0, 0, 0, 0x14, 0, 0x65, 0, 0, 0, 0, 0, 0x28, 0, 0, 0, 0x14, 0, 0, 0, 3, 0, 0, 0, 0x38,
    0, 0, 0, 0x5a, 0x45, 0, 0, 0x32, 0, 0, 0x40, 0, 0x40, 6, 0, 0, 0x0a, 0, 0, 1, 0xc0, 0, 2, 1, 3,
    0xe8, 0, 0x50, 0, 0, 0, 0x65, 0, 0, 1, 0xf5, 0x50, 0x18, 0xff, 0xff, 0, 0, 0, 0, 0, 0, 0, 0x38,
    0, 0, 0, 6, 0, 0, 0, 0x54, 0, 0, 0, 0, 0, 0, 0, 0, 0, 0x1e, 0x84, 0x87, 0, 0, 0, 0x32, 0, 0, 0,
    0x32, 0x45, 0, 0, 0x32, 0, 0, 0x40, 0, 0x40, 6, 0, 0, 0x0a, 0, 0, 1, 0xc0, 0, 2, 1, 3, 0xe8, 0,
    0x50, 0, 0, 0, 0x65, 0, 0, 1, 0xf5, 0x50, 0x18, 0xff, 0xff, 0, 0, 0, 0, 0x61, 0x62, 0x63, 0x64,
    0x65, 0x66, 0x67, 0x68, 0x69, 0x6a, 0, 0, 0, 0, 0, 0x54,
];

// What reading these octets gives, if the source gives at most `step` at a time.
fn read(
    rt: &impl Abort,
    alloc: Global,
    octets: &[u8],
    step: usize,
) -> Result<(Capture, Octets), CaptureFault>
    requires { 1 ≤ step }
{
    let src = SureSource::new(octets.to_vec(alloc).expect(rt, "memory"), step);
    match NgReader::start(alloc, src) {
        Ok(mut reader) => read_ng(alloc, &mut reader, &VIPS),
        Err((_, e)) => Err(e),
    }
}

#[test]
fn orders_and_units_give_the_same_records_however_the_source_cuts(rt: HostRuntime) {
    let want = opened();
    for octets in [LITTLE.as_slice(), &BIG, &NANO] {
        for step in [1, 30] {
            let capture = read(&rt, rt.alloc(), octets, step).expect(&rt, "a capture");
            check(&rt, capture, &want, None);
        }
    }
}

#[test]
fn sections_and_interfaces_are_kept_apart(rt: HostRuntime) {
    let want = [
        record(0, Body::Steerable(SYN)),
        record(5, Body::Steerable(DATA)),
        record(5, Body::Unsteered(Reason::NotIpv4)),
        record(5, Body::Steerable(DATA)),
        record(7000, Body::Steerable(DATA)),
    ];
    let capture = read(&rt, rt.alloc(), &MIXED, 13).expect(&rt, "a capture");
    check(&rt, capture, &want, None);
}

#[test]
fn captures_are_refused_by_their_first_fault(rt: HostRuntime) {
    // An octet of the capture that is overwritten, and the fault.
    let rows = [
        (0, 0x0b, CaptureFault::NotACapture),
        (4, 0x1d, CaptureFault::BadBlock(1)),
        (8, 0x4e, CaptureFault::NotACapture),
        (12, 2, CaptureFault::BadVersion),
        (24, 0x20, CaptureFault::BadBlock(1)),
        (32, 0x10, CaptureFault::BadBlock(2)),
        (44, 0x18, CaptureFault::BadBlock(2)),
        (56, 1, CaptureFault::BadBlock(3)),
        (68, 0x29, CaptureFault::BadBlock(3)),
        (70, 4, CaptureFault::BadLength(1, 262_184)),
        (200, 80, CaptureFault::BadBlock(4)),
    ];
    for (place, octet, want) in rows {
        let mut octets = LITTLE;
        if let Some(old) = octets.get_mut(place) {
            *old = octet;
        }
        let answer = read(&rt, rt.alloc(), &octets, 100);
        assert!(rt; matches!(answer, Err(e) if e == want), "at {place}");
    }
}

#[test]
fn a_cut_capture_keeps_the_records_before_the_cut(rt: HostRuntime) {
    // Where the capture ends, how many records it has, and which one is cut short.
    let rows = [
        (12, 0, Some(1)),
        (28, 0, None),
        (29, 0, Some(1)),
        (48, 0, None),
        (119, 0, Some(1)),
        (120, 1, None),
        (203, 1, Some(2)),
    ];
    for row in rows {
        let octets = LITTLE.get(..row.0).unwrap_or(&[]);
        let capture = read(&rt, rt.alloc(), octets, 100).expect(&rt, "a capture");
        check_cut(&rt, capture, row);
    }
    let answer = read(&rt, rt.alloc(), &LITTLE[..11], 100);
    assert!(rt; matches!(answer, Err(CaptureFault::NotACapture)));
}

#[test]
fn a_failed_read_is_answered_again(rt: HostRuntime) {
    let alloc = rt.alloc();
    // The first call reads the whole capture, the second finds its end.
    let src = MemSource::new(
        MIXED.to_vec(alloc).expect(&rt, "memory"),
        1000,
        vec![in alloc; 2].expect(&rt, "memory"),
    );
    let Ok(mut reader) = NgReader::start(alloc, src) else {
        panic!(rt; "the first block is whole");
    };
    for count in 1..6 {
        assert!(rt; matches!(reader.next(), Ok(NgItem::Record { number, .. }) if number == count));
    }
    assert!(rt; matches!(reader.next(), Err(CaptureFault::ReadFault)));
    assert!(rt; matches!(reader.next(), Err(CaptureFault::ReadFault)));
    let again = NgReader::start(alloc, reader.into_source());
    assert!(rt; matches!(again, Err((_, CaptureFault::NotACapture))));
}

#[test]
fn records_have_their_link_types_and_octets(rt: HostRuntime) {
    let alloc = rt.alloc();
    let src = SureSource::new(MIXED.to_vec(alloc).expect(&rt, "memory"), 50);
    let Ok(mut reader) = NgReader::start(alloc, src) else {
        panic!(rt; "the first block is whole");
    };
    for (want, size) in [(1, 54), (101, 50), (147, 40), (101, 40), (101, 50)] {
        let item = reader.next();
        assert!(rt;
            matches!(
                item,
                Ok(NgItem::Record { link, octets, .. }) if link == want && octets.len() == size
            )
        );
    }
    assert!(rt; matches!(reader.next(), Ok(NgItem::End)));
    assert!(rt; matches!(reader.next(), Ok(NgItem::End)));
}

#[test]
fn the_first_time_is_told(rt: HostRuntime) {
    let alloc = rt.alloc();
    let src = SureSource::new(MIXED.to_vec(alloc).expect(&rt, "memory"), 50);
    let Ok(mut reader) = NgReader::start(alloc, src) else {
        panic!(rt; "the first block is whole");
    };
    assert!(rt; reader.began() == 0);
    assert!(rt; read_ng(alloc, &mut reader, &VIPS).is_ok());
    // 2,048 units of 2^-10 s
    assert!(rt; reader.began() == 2_000_000_000);
}

#[test]
fn a_front_gives_its_octets_first(rt: HostRuntime) {
    let alloc = rt.alloc();
    let src = SureSource::new([1, 2, 3, 4, 5, 6].to_vec(alloc).expect(&rt, "memory"), 2);
    let Ok(mut front) = Front::new(src) else {
        panic!(rt; "the source doesn't fail");
    };
    assert!(rt; front.magic() == [1, 2, 3, 4].as_slice());
    let mut octets = [0; 3];
    assert!(rt; front.take(&mut octets) == Ok(3));
    assert!(rt; octets == [1, 2, 3]);
    assert!(rt; front.take(&mut octets) == Ok(1));
    assert!(rt; front.take(&mut octets) == Ok(2));
    assert!(rt; octets == [5, 6, 3]);
    assert!(rt; front.take(&mut octets) == Ok(0));
    assert!(rt; front.magic() == [1, 2, 3, 4].as_slice());
}
