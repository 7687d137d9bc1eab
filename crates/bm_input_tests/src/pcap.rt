//! Captures of the classic form.
ghost use Rattle.std.specs.Prelude.{◌≤◌};

use crate::printing::assert_prints;
use crate::records::{DATA, SYN, VIPS, check, check_cut, opened, record};
use bm_base::{Body, Capture, Octets, Reason};
use bm_io::{MemSource, SureSource};
use bm_pcap::{CaptureFault, Item, PcapReader, read_capture};
use std::alloc::Global;
use std::process::Abort;

// Raw IP: a first segment, and one microsecond later ten octets of data. In both byte orders.
const LITTLE: [u8; 146] = [
    0xd4, 0xc3, 0xb2, 0xa1, 2, 0, 4, 0, 0, 0, 0, 0, 0, 0, 0, 0, 0xff, 0xff, 0, 0, 0x65, 0, 0, 0, 0,
    0, 0, 0, 0, 0, 0, 0, 0x28, 0, 0, 0, 0x28, 0, 0, 0, 0x45, 0, 0, 0x28, 0, 0, 0x40, 0, 0x40, 6, 0,
    0, 0x0a, 0, 0, 1, 0xc0, 0, 2, 1, 3, 0xe8, 0, 0x50, 0, 0, 0, 0x64, 0, 0, 0, 0, 0x50, 2, 0xff,
    0xff, 0, 0, 0, 0, 0, 0, 0, 0, 1, 0, 0, 0, 0x32, 0, 0, 0, 0x32, 0, 0, 0, 0x45, 0, 0, 0x32, 0, 0,
    0x40, 0, 0x40, 6, 0, 0, 0x0a, 0, 0, 1, 0xc0, 0, 2, 1, 3, 0xe8, 0, 0x50, 0, 0, 0, 0x65, 0, 0, 1,
    0xf5, 0x50, 0x18, 0xff, 0xff, 0, 0, 0, 0, 0x61, 0x62, 0x63, 0x64, 0x65, 0x66, 0x67, 0x68, 0x69,
    0x6a,
];

const BIG: [u8; 146] = [
    0xa1, 0xb2, 0xc3, 0xd4, 0, 2, 0, 4, 0, 0, 0, 0, 0, 0, 0, 0, 0, 0, 0xff, 0xff, 0, 0, 0, 0x65, 0,
    0, 0, 0, 0, 0, 0, 0, 0, 0, 0, 0x28, 0, 0, 0, 0x28, 0x45, 0, 0, 0x28, 0, 0, 0x40, 0, 0x40, 6, 0,
    0, 0x0a, 0, 0, 1, 0xc0, 0, 2, 1, 3, 0xe8, 0, 0x50, 0, 0, 0, 0x64, 0, 0, 0, 0, 0x50, 2, 0xff,
    0xff, 0, 0, 0, 0, 0, 0, 0, 0, 0, 0, 0, 1, 0, 0, 0, 0x32, 0, 0, 0, 0x32, 0x45, 0, 0, 0x32, 0, 0,
    0x40, 0, 0x40, 6, 0, 0, 0x0a, 0, 0, 1, 0xc0, 0, 2, 1, 3, 0xe8, 0, 0x50, 0, 0, 0, 0x65, 0, 0, 1,
    0xf5, 0x50, 0x18, 0xff, 0xff, 0, 0, 0, 0, 0x61, 0x62, 0x63, 0x64, 0x65, 0x66, 0x67, 0x68, 0x69,
    0x6a,
];

// Ethernet: ARP; IPv6; a first fragment; a first segment to another address; one after a tag; data
// in a packet whose total length is 0; nine octets of a header.
const ETHERNET: [u8; 443] = [
    0xd4, 0xc3, 0xb2, 0xa1, 2, 0, 4, 0, 0, 0, 0, 0, 0, 0, 0, 0, 0xff, 0xff, 0, 0, 1, 0, 0, 0, 0, 0,
    0, 0, 0, 0, 0, 0, 0x2a, 0, 0, 0, 0x2a, 0, 0, 0, 2, 0, 0, 0, 0, 1, 2, 0, 0, 0, 0, 2, 8, 6, 0, 1,
    8, 0, 6, 4, 0, 1, 0, 0, 0, 0, 0, 0, 0, 0, 0, 0, 0, 0, 0, 0, 0, 0, 0, 0, 0, 0, 0, 0, 0, 0, 1, 0,
    0, 0, 0x36, 0, 0, 0, 0x36, 0, 0, 0, 2, 0, 0, 0, 0, 1, 2, 0, 0, 0, 0, 2, 0x86, 0xdd, 0x60, 0, 0,
    0, 0, 0, 0, 0, 0, 0, 0, 0, 0, 0, 0, 0, 0, 0, 0, 0, 0, 0, 0, 0, 0, 0, 0, 0, 0, 0, 0, 0, 0, 0, 0,
    0, 0, 0, 0, 0, 0, 0, 0, 0, 2, 0, 0, 0, 0x2a, 0, 0, 0, 0x2a, 0, 0, 0, 2, 0, 0, 0, 0, 1, 2, 0, 0,
    0, 0, 2, 8, 0, 0x45, 0, 0, 0x1c, 0, 0, 0x20, 0, 0x40, 6, 0, 0, 0x0a, 0, 0, 1, 0xc0, 0, 2, 1, 0,
    0, 0, 0, 0, 0, 0, 0, 0, 0, 0, 0, 3, 0, 0, 0, 0x36, 0, 0, 0, 0x36, 0, 0, 0, 2, 0, 0, 0, 0, 1, 2,
    0, 0, 0, 0, 2, 8, 0, 0x45, 0, 0, 0x28, 0, 0, 0x40, 0, 0x40, 6, 0, 0, 0x0a, 0, 0, 1, 0xc0, 0, 2,
    9, 3, 0xe8, 0, 0x50, 0, 0, 0, 0x64, 0, 0, 0, 0, 0x50, 2, 0xff, 0xff, 0, 0, 0, 0, 0, 0, 0, 0, 4,
    0, 0, 0, 0x3a, 0, 0, 0, 0x3a, 0, 0, 0, 2, 0, 0, 0, 0, 1, 2, 0, 0, 0, 0, 2, 0x81, 0, 0, 7, 8, 0,
    0x45, 0, 0, 0x28, 0, 0, 0x40, 0, 0x40, 6, 0, 0, 0x0a, 0, 0, 1, 0xc0, 0, 2, 1, 3, 0xe8, 0, 0x50,
    0, 0, 0, 0x64, 0, 0, 0, 0, 0x50, 2, 0xff, 0xff, 0, 0, 0, 0, 0, 0, 0, 0, 5, 0, 0, 0, 0x40, 0, 0,
    0, 0x40, 0, 0, 0, 2, 0, 0, 0, 0, 1, 2, 0, 0, 0, 0, 2, 8, 0, 0x45, 0, 0, 0, 0, 0, 0x40, 0, 0x40,
    6, 0, 0, 0x0a, 0, 0, 1, 0xc0, 0, 2, 1, 3, 0xe8, 0, 0x50, 0, 0, 0, 0x65, 0, 0, 1, 0xf5, 0x50,
    0x18, 0xff, 0xff, 0, 0, 0, 0, 0x61, 0x62, 0x63, 0x64, 0x65, 0x66, 0x67, 0x68, 0x69, 0x6a, 0, 0,
    0, 0, 0, 0, 0, 0, 0,
];

// What reading these octets gives, if the source gives at most `step` at a time.
fn read(
    rt: &impl Abort,
    alloc: Global,
    octets: &[u8],
    step: usize,
) -> Result<(Capture, Octets), CaptureFault>
    requires { 1 ≤ step }
{
    let src = SureSource::new(octets.to_vec(alloc).expect(rt, "memory"), step);
    match PcapReader::start(alloc, src) {
        Ok(mut reader) => read_capture(alloc, &mut reader, &VIPS),
        Err((_, e)) => Err(e),
    }
}

#[test]
fn both_orders_give_the_same_records_however_the_source_cuts(rt: HostRuntime) {
    let want = opened();
    for octets in [&LITTLE, &BIG] {
        for step in 1..50 {
            let capture = read(&rt, rt.alloc(), octets, step).expect(&rt, "a capture");
            check(&rt, capture, &want, None);
        }
    }
}

#[test]
fn records_have_their_reasons_and_the_last_is_cut_short(rt: HostRuntime) {
    let want = [
        record(0, Body::Unsteered(Reason::NotIpv4)),
        record(1000, Body::Unsteered(Reason::NotIpv4)),
        record(2000, Body::Unsteered(Reason::Fragment)),
        record(3000, Body::Unsteered(Reason::OtherDestination)),
        record(4000, Body::Steerable(SYN)),
        record(5000, Body::Steerable(DATA)),
    ];
    let capture = read(&rt, rt.alloc(), &ETHERNET, 1).expect(&rt, "a capture");
    check(&rt, capture, &want, Some(7));
    let capture = read(&rt, rt.alloc(), &ETHERNET, 7).expect(&rt, "a capture");
    check(&rt, capture, &want, Some(7));
    let capture = read(&rt, rt.alloc(), &ETHERNET, 262_160).expect(&rt, "a capture");
    check(&rt, capture, &want, Some(7));
}

#[test]
fn captures_are_refused_by_their_first_fault(rt: HostRuntime) {
    // An octet of the capture that is overwritten, and the fault.
    let rows = [
        (0, 0xd5, CaptureFault::NotACapture),
        (4, 3, CaptureFault::BadVersion),
        (6, 3, CaptureFault::BadVersion),
        (20, 105, CaptureFault::BadLink(105)),
        (34, 4, CaptureFault::BadLength(1, 262_184)),
        (90, 4, CaptureFault::BadLength(2, 262_194)),
    ];
    for (place, octet, want) in rows {
        let mut octets = LITTLE;
        if let Some(old) = octets.get_mut(place) {
            *old = octet;
        }
        let answer = read(&rt, rt.alloc(), &octets, 100);
        assert!(rt; matches!(answer, Err(e) if e == want), "at {place}");
    }
    let answer = read(&rt, rt.alloc(), &LITTLE[..23], 100);
    assert!(rt; matches!(answer, Err(CaptureFault::NotACapture)));
}

#[test]
fn a_cut_capture_keeps_the_records_before_the_cut(rt: HostRuntime) {
    // Where the capture ends, how many records it has, and which one is cut short.
    let rows = [
        (24, 0, None),
        (25, 0, Some(1)),
        (79, 0, Some(1)),
        (80, 1, None),
        (145, 1, Some(2)),
        (146, 2, None),
    ];
    for row in rows {
        let octets = LITTLE.get(..row.0).unwrap_or(&[]);
        let capture = read(&rt, rt.alloc(), octets, 100).expect(&rt, "a capture");
        check_cut(&rt, capture, row);
    }
}

#[test]
fn a_failed_read_is_answered_again(rt: HostRuntime) {
    let alloc = rt.alloc();
    // The calls read the magic number, the rest of the header, both records, and then nothing.
    let src = MemSource::new(
        LITTLE.to_vec(alloc).expect(&rt, "memory"),
        1000,
        vec![in alloc; 4].expect(&rt, "memory"),
    );
    let Ok(mut reader) = PcapReader::start(alloc, src) else {
        panic!(rt; "the header is whole");
    };
    assert!(rt; reader.link() == 101);
    assert!(rt; matches!(reader.next(), Ok(Item::Record { number: 1, .. })));
    assert!(rt; matches!(reader.next(), Ok(Item::Record { number: 2, .. })));
    assert!(rt; matches!(reader.next(), Err(CaptureFault::ReadFault)));
    assert!(rt; matches!(reader.next(), Err(CaptureFault::ReadFault)));
    let again = PcapReader::start(alloc, reader.into_source());
    assert!(rt; matches!(again, Err((_, CaptureFault::NotACapture))));
}

#[test]
fn the_end_is_answered_again(rt: HostRuntime) {
    let alloc = rt.alloc();
    let src = SureSource::new(LITTLE.to_vec(alloc).expect(&rt, "memory"), 10);
    let Ok(mut reader) = PcapReader::start(alloc, src) else {
        panic!(rt; "the header is whole");
    };
    assert!(rt; matches!(reader.next(), Ok(Item::Record { number: 1, .. })));
    assert!(rt; matches!(reader.next(), Ok(Item::Record { number: 2, .. })));
    assert!(rt; matches!(reader.next(), Ok(Item::End)));
    assert!(rt; matches!(reader.next(), Ok(Item::End)));
}

#[test]
fn faults_print_their_numbers(rt: HostRuntime) {
    for (fault, want) in [
        (CaptureFault::BadLink(105), "bad link type 105"),
        (CaptureFault::BadBlock(4), "block 4 is bad"),
        (
            CaptureFault::BadLength(3, 262_145),
            "record 3 states 262145 octets",
        ),
    ] {
        assert_prints(&rt, rt.alloc(), &fault, want);
    }
}
