//! Captures of the pcapng form.
use crate::capture::{Kind, OPENED, Packet, blocks};
use crate::program::check_capture;
use crate::rows::OPENED_REPORT;

/// A SYN and, a thousand parts of a second later, data.
const LATER: &'static [Packet] = &[
    Packet(0, 0, 1000, 100, Kind::Syn),
    Packet(0, 1000, 1000, 101, Kind::Data),
];

#[test]
fn blocks_are_replayed(rt: HostRuntime) {
    let alloc = rt.alloc();
    let capture = blocks(alloc, b"", OPENED).expect(&rt, "memory");
    check_capture(&rt, alloc, &capture, "microseconds", (0, OPENED_REPORT));
}

#[test]
fn times_are_in_the_unit_of_their_interface(rt: HostRuntime) {
    let alloc = rt.alloc();
    let unit = b"\x09\x00\x01\x00\x09\x00\x00\x00\x00\x00\x00\x00";
    let capture = blocks(alloc, unit, LATER).expect(&rt, "memory");
    check_capture(&rt, alloc, &capture, "nanoseconds", (0, OPENED_REPORT));
}

#[test]
fn a_block_whose_lengths_differ_is_refused(rt: HostRuntime) {
    let alloc = rt.alloc();
    let text = "beamer: capture block 4: bad block\n";
    let mut capture = blocks(alloc, b"", OPENED).expect(&rt, "memory");
    if let Some(length) = capture.get_mut(200) {
        *length = 80;
    }
    check_capture(&rt, alloc, &capture, "80", (3, text));
}
