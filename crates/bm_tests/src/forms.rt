//! Words that fit no form, and files and sinks that fail.
use crate::capture::{Form, OPENED, raw};
use crate::fakes::{Call, Fake, fakes_answer};
use crate::program::USAGE;
use std::alloc::Global;
use std::process::Abort;
use std::sync::Wait;
use std::thread::Threads;

const CONNECTIONS_USAGE: &str =
    "usage: beamer-connections CAPTURE SCRIPT [--csv | --json | --svg] [--clock] [--fail] | CAPTURE SCRIPT --of CLIENT [SERVICE] [--clock] [--fail] | --lifetime SCRIPT [--for SECONDS] | --help | --version\n";

static NO_FORMS: [&[&str]; 11] = [
    &[],
    &["replay"],
    &["replay", "-c"],
    &["replay", ""],
    &["load", "0"],
    &["load", "007"],
    &["run", "c"],
    &["check", "c", "s"],
    &["check", "t", "c", "-s"],
    &["streams", "-c"],
    &["replay", "c", "s", "t"],
];

#[test]
fn words_of_no_form_get_the_usage_line(rt: HostRuntime) {
    for row in &NO_FORMS {
        check_words(&rt, rt.alloc(), Call::Beamer(row));
    }
}

fn check_words(rt: &(impl Abort + Threads + Wait + Sync), alloc: Global, call: Call) {
    let answered = fakes_answer(rt, alloc, call, 24, &[], &[], (1, USAGE));
    assert!(rt; answered == Ok(true), "{call:?}");
}

/// Calls of `beamer-connections`, the script that is there, the status, and the line.
static FAULTS: [(&[&str], &str, u8, &str); 8] = [
    (
        &["c", "s"],
        "muxes = 0\n",
        4,
        "beamer-connections: s: bad value of muxes\n",
    ),
    (
        &["--lifetime", "s"],
        "muxes: 0\n",
        4,
        "beamer-connections: s: not toml\n",
    ),
    (
        &["c", "s"],
        "[[command]]\nat_ns = 0\ndo = \"drain\"\nserver = 9\n",
        4,
        "beamer-connections: s: command 1: unknown server\n",
    ),
    (
        &["c", "s", "--csv"],
        "",
        3,
        "beamer-connections: c: not a capture\n",
    ),
    (
        &["d", "s", "--json", "--fail"],
        "",
        2,
        "beamer-connections: d: read fault: no such file\n",
    ),
    (&["c"], "", 1, CONNECTIONS_USAGE),
    (&["c", "s", "--of", "1.2.3.4"], "", 1, CONNECTIONS_USAGE),
    (&["c", "s", "--fail", "--fail"], "", 1, CONNECTIONS_USAGE),
];

#[test]
fn a_fault_goes_to_the_second_sink_and_names_the_file(rt: HostRuntime) {
    for (words, script, status, line) in &FAULTS {
        let fakes = [named("s", script.as_bytes()), named("c", b"no capture")];
        let call = Call::Connections(words);
        let answered = fakes_answer(&rt, rt.alloc(), call, 24, &fakes, &[], (*status, line));
        assert!(&rt; answered == Ok(true), "{line}");
        let answered = fakes_answer(&rt, rt.alloc(), call, 24, &fakes, &[1], (5, ""));
        assert!(&rt; answered == Ok(true), "{line}");
    }
}

/// A file that doesn't fail.
fn named<'a>(name: &'a str, octets: &'a [u8]) -> Fake<'a> {
    Fake {
        name,
        octets,
        fails: &[],
    }
}

/// A file that is there, the calls of its source and of the sink that fail, the status, and what is
/// written.
type Row = (
    &'static str,
    &'static [u32],
    &'static [u32],
    u8,
    &'static str,
);

#[test]
fn a_source_or_a_sink_that_fails_is_told_apart(rt: HostRuntime) {
    let alloc = rt.alloc();
    let capture = raw(alloc, Form::Micro, OPENED).expect(&rt, "memory");
    // the source fails at its second call; there is no such file; the sink fails
    check_row(
        &rt,
        alloc,
        &capture,
        ("c", &[2], &[], 2, "beamer: read fault\n"),
    );
    check_row(
        &rt,
        alloc,
        &capture,
        ("d", &[], &[], 2, "beamer: read fault\n"),
    );
    check_row(&rt, alloc, &capture, ("c", &[], &[1], 5, ""));
}

fn check_row(
    rt: &(impl Abort + Threads + Wait + Sync),
    alloc: Global,
    octets: &[u8],
    (name, fails, writes, status, text): Row,
) {
    let fake = Fake {
        name,
        octets,
        fails,
    };
    let call = Call::Beamer(&["replay", "c"]);
    let answered = fakes_answer(rt, alloc, call, 24, &[fake], writes, (status, text));
    assert!(rt; answered == Ok(true), "{name} {status}");
}
