//! A capture that is cut after each of its octets.
use crate::capture::{Form, OPENED, raw};
use crate::program::{Written, answers, files};
use std::alloc::Global;
use std::process::Abort;
use std::sync::Wait;
use std::thread::Threads;

const ZEROS: &str = "total packets 0 steered 0 unsteered 0 accepted 0 processed 0 \
     forwarded 0 reset 0 dropped 0 lost 0 stray 0\n";

const CUT: &str = "note record 1 cut short\n\
     total packets 0 steered 0 unsteered 0 accepted 0 processed 0 \
     forwarded 0 reset 0 dropped 0 lost 0 stray 0\n";

const ONE: &str = "packet 1 accepted 1\n\
     total packets 1 steered 1 unsteered 0 accepted 1 processed 0 \
     forwarded 0 reset 0 dropped 0 lost 0 stray 0\n";

const CUT_BEHIND_ONE: &str = "packet 1 accepted 1\n\
     note record 2 cut short\n\
     total packets 1 steered 1 unsteered 0 accepted 1 processed 0 \
     forwarded 0 reset 0 dropped 0 lost 0 stray 0\n";

/// The status and the last lines for this many first octets of two records: a header of 24 octets,
/// a record of 56 and one of 66.
fn due(octets: usize) -> (u8, Written<'static>) {
    let (status, lines) = match octets {
        0..=23 => (3, "beamer: capture: not a capture\n"),
        24 => (0, ZEROS),
        25..=79 => (0, CUT),
        80 => (0, ONE),
        _ => (0, CUT_BEHIND_ONE),
    };
    (status, Written::End(lines))
}

fn check_cut(rt: &(impl Abort + Threads + Wait + Sync), alloc: Global, capture: &[u8]) {
    let octets = capture.len();
    let files = files(alloc, &[("c", capture)]);
    let answered = answers(rt, alloc, &["replay", "c"], files, due(octets));
    assert!(rt; answered == Ok(true), "{octets} octets");
}

#[test]
fn each_first_part_of_a_capture_has_its_end(rt: HostRuntime) {
    let capture = raw(rt.alloc(), Form::Micro, OPENED).expect(&rt, "memory");
    assert!(rt; capture.len() == 146);
    for octets in 0..capture.len() {
        check_cut(&rt, rt.alloc(), &capture[..octets]);
    }
}
