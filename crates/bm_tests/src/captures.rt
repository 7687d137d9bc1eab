//! Captures of other links, and captures that are refused.
ghost use Rattle.std.specs.Prelude.{◌≤◌};

use crate::capture::{Form, OPENED, ethernet, raw};
use crate::program::{check, check_capture, file};
use bm_io::SureFile;
use std::alloc::{AllocError, Global};
use std::process::Abort;
use std::sync::Wait;
use std::thread::Threads;

/// Checks the report of Ethernet frames, read by at most this many octets at a time.
fn check_frames(rt: &(impl Abort + Threads + Wait + Sync), alloc: Global, step: usize)
    requires { 1 ≤ step }
{
    let files = frames_file(alloc, step);
    check(rt, alloc, &["replay", "c"], files, "frames", (0, FRAMES));
}

/// The file of Ethernet frames, which gives at most this many octets at a time.
fn frames_file(alloc: Global, step: usize) -> Result<Vec<SureFile>, AllocError>
    requires { 1 ≤ step }
{
    let capture = ethernet(alloc)?;
    Ok(vec![in alloc; file(alloc, step, "c", &capture)?]?)
}

/// The report of Ethernet frames.
const FRAMES: &str = "4001 steer 5 0 0 4\n\
             4002 arrive 5 direct 1 accept\n\
             5001 steer 6 0 0 4\n\
             5002 arrive 6 direct 1 process advance\n\
             packet 1 unsteered not-ipv4\n\
             packet 2 unsteered not-ipv4\n\
             packet 3 unsteered fragment\n\
             packet 4 unsteered other-destination\n\
             packet 5 accepted 1\n\
             packet 6 processed 1\n\
             note record 7 cut short\n\
             total packets 6 steered 2 unsteered 4 accepted 1 processed 1 \
             forwarded 0 reset 0 dropped 0 lost 0 stray 0\n";

#[test]
fn ethernet_frames_are_read_or_not_steered(rt: HostRuntime) {
    check_frames(&rt, rt.alloc(), 1);
    check_frames(&rt, rt.alloc(), 100);
    check_frames(&rt, rt.alloc(), 262_160);
}

#[test]
fn headers_are_refused(rt: HostRuntime) {
    let alloc = rt.alloc();
    // an octet of a header that is changed: the magic number, the version, the link type
    refuse(&rt, alloc, 0, b'G', "beamer: capture: not a capture\n");
    refuse(&rt, alloc, 4, 3, "beamer: capture: bad version\n");
    refuse(&rt, alloc, 20, 105, "beamer: capture: bad link type 105\n");
}

fn refuse(
    rt: &(impl Abort + Threads + Wait + Sync),
    alloc: Global,
    place: usize,
    octet: u8,
    text: &str,
) {
    let mut capture = raw(alloc, Form::Micro, &[]).expect(rt, "memory");
    if let Some(at) = capture.get_mut(place) {
        *at = octet;
    }
    check_capture(rt, alloc, &capture, text, (3, text));
}

#[test]
fn captures_that_end_early_are_refused(rt: HostRuntime) {
    let alloc = rt.alloc();
    let text = "beamer: capture: not a capture\n";
    let mut capture = raw(alloc, Form::Micro, &[]).expect(&rt, "memory");
    capture.truncate(23);
    check_capture(&rt, alloc, &capture, "23 octets", (3, text));
}

#[test]
fn a_record_that_states_too_much_is_refused(rt: HostRuntime) {
    let alloc = rt.alloc();
    let text = "beamer: capture record 3: bad length 262145\n";
    let capture = stating_too_much(alloc).expect(&rt, "memory");
    check_capture(&rt, alloc, &capture, "too long", (3, text));
}

/// A capture whose third record states 262,145 octets, twice.
fn stating_too_much(alloc: Global) -> Result<Vec<u8>, AllocError> {
    let mut capture = raw(alloc, Form::Micro, OPENED)?;
    capture.extend_from_slice(b"\x00\x00\x00\x00\x02\x00\x00\x00")?;
    capture.extend_from_slice(b"\x01\x00\x04\x00\x01\x00\x04\x00")?;
    Ok(capture)
}
