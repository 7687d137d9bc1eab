//! Files and an output that fail at each of their calls in turn, for each form that reads files.
use crate::capture::{Form, OPENED, raw, session};
use crate::fakes::{Call, Fake, fakes_answer, run_fakes};
use crate::gates::count;
use crate::rows::{MOVED_REPORT, MOVED_SCRIPT};
use bm_io::{IoFault, MemSink, Sink};
use std::alloc::{AllocError, Global};
use std::process::Abort;
use std::sync::Wait;
use std::thread::Threads;

const READ_FAULT: &str = "beamer: read fault\n";

/// A server is added between two syncs, in the middle of a session.
const SESSION_SCRIPT: &str = "muxes = 2\n[[command]]\nat_ns = 5000000\ndo = \"sync\"\n\
     [[command]]\nat_ns = 5000000\ndo = \"add\"\nserver = 3\n\
     [[command]]\nat_ns = 5000000\ndo = \"sync\"\n";

/// What is written.
#[derive(Clone, Copy)]
enum Text {
    /// This, in pieces of which only the last may be short.
    Whole(&'static str),
    /// A report that has this, whatever the order of a run's threads.
    Has(&'static str),
}

/// What is called, what is written where nothing fails, and how often the devices are called: the
/// script, the capture, the trace, and the output, for a report of a run at least.
#[derive(Clone, Copy)]
struct Called {
    call: Call<'static>,
    text: Text,
    calls: (u32, u32, u32, u32),
}

/// Over the two packets of `OPENED`, with `MOVED_SCRIPT` and `MOVED_REPORT`. The 64 octets of the
/// script are read in two reads, and a third finds the end. Of the capture, 4 octets are read,
/// which decide the form, then the other 20 of the header, and then 122 in four reads; a seventh
/// finds the end. The 311 octets of a report take eight writes, and eight reads and a ninth for the
/// end; a run may write more. The lines of streams have 70 octets, the object 390.
static OVER_TWO: [Called; 5] = [
    Called {
        call: Call::Beamer(&["replay", "c", "s"]),
        text: Text::Whole(MOVED_REPORT),
        calls: (3, 7, 0, 8),
    },
    Called {
        call: Call::Beamer(&["run", "c", "s"]),
        text: Text::Has("total packets 2 steered 2 unsteered 0 accepted 1 processed 1 "),
        calls: (3, 7, 0, 8),
    },
    Called {
        call: Call::Beamer(&["streams", "c", "s"]),
        text: Text::Whole(
            "stream 2 1 10.0.0.1:1000 192.0.2.1:80 octets 10 b9bbc7aa22d79212 open\n",
        ),
        calls: (3, 7, 0, 2),
    },
    Called {
        call: Call::Beamer(&["check", "t", "c", "s"]),
        text: Text::Whole("beamer: check: yes 7 events\n"),
        calls: (3, 7, 9, 1),
    },
    Called {
        call: Call::Connections(&["c", "s", "--json"]),
        text: Text::Whole(
            "{\"arrivals\":{\"accepted\":1,\"after_its_end\":0,\"dropped\":0,\"forwarded\":1,\
             \"processed\":1,\"reset\":0,\"stray\":0},\"broken\":null,\
             \"client\":\"10.0.0.1:1000\",\
             \"forward\":{\"at_ns\":1002,\"packet\":2,\"server\":2,\"wait_ns\":502},\
             \"last\":{\"at_ns\":1000,\"packet\":2},\"opened\":{\"at_ns\":0,\"packet\":1},\
             \"outcome\":{\"end\":\"open\",\"losing_data\":false,\"why\":null},\
             \"rack\":null,\"refused\":null,\"server\":1,\"service\":\"192.0.2.1:80\"}\n",
        ),
        calls: (3, 7, 0, 10),
    },
];

/// Over the twelve packets of a session. The 140 octets of the script are read in four reads, and a
/// fifth finds the end. Of the capture, 1,270 octets come after the header, in 32 reads. A report
/// has at least 12 lines of packets and 25 of events.
static OVER_TWELVE: Called = Called {
    call: Call::Beamer(&["run", "c", "s"]),
    text: Text::Has("total packets 12 steered 7 unsteered 5 accepted 1 processed 6 forwarded 3 "),
    calls: (5, 35, 0, 20),
};

/// What is called over a script and a capture.
#[derive(Clone, Copy)]
struct Case<'a> {
    called: &'static Called,
    script: &'a str,
    capture: &'a [u8],
}

/// The device that fails.
#[derive(Clone, Copy, PartialEq, Eq)]
enum Device {
    Script,
    Capture,
    Trace,
    Output,
}

/// How many octets a file gives, and an output takes, at a time.
const STEP: usize = 40;

/// An output that takes 40 octets at a time.
#[derive(Drop)]
struct ShortSink {
    sink: MemSink,
}

impl Sink for ShortSink {
    ghost written = { λ s. ⟦<MemSink as Sink>⟧.written s.sink };

    ghost faults = { λ s. ⟦<MemSink as Sink>⟧.faults s.sink };

    fn put(&mut self, piece: &[u8]) -> Result<usize, IoFault> {
        self.sink.put(&piece[..piece.len().min(STEP)])
    }
}

/// The numbers of the calls that fail: one, for the device that is to fail.
fn fails(is_it: bool, call: &[u32; 1]) -> &[u32] {
    if is_it { call } else { &[] }
}

/// The script, the capture and a trace; one of these may fail at a call.
fn fakes<'a>(case: &Case<'a>, device: Device, call: &'a [u32; 1]) -> [Fake<'a>; 3] {
    [
        Fake {
            name: "s",
            octets: case.script.as_bytes(),
            fails: fails(device == Device::Script, call),
        },
        Fake {
            name: "c",
            octets: case.capture,
            fails: fails(device == Device::Capture, call),
        },
        Fake {
            name: "t",
            octets: MOVED_REPORT.as_bytes(),
            fails: fails(device == Device::Trace, call),
        },
    ]
}

/// What the program ends with where this call fails, how many sources stay open, and whether what
/// is written is what is due then.
fn outcome(
    rt: &(impl Threads + Wait + Sync),
    alloc: Global,
    case: &Case,
    device: Device,
    call: u32,
) -> Result<(u8, u32, bool), AllocError> {
    let calls = [call];
    let writes = fails(device == Device::Output, &calls);
    let mut out = ShortSink {
        sink: MemSink::new(alloc, Vec::from_slice(alloc, writes)?),
    };
    let fakes = fakes(case, device, &calls);
    let mut faults = MemSink::new(alloc, Vec::new(alloc));
    let asked = case.called.call;
    let (status, open) = run_fakes(rt, alloc, asked, STEP, &fakes, &mut out, &mut faults, None)?;
    let (told, refused) = (out.sink.written(), faults.written());
    Ok((
        status,
        open,
        is_due(case, device, call, status, told, refused),
    ))
}

/// Whether this is what is written to both sinks where the program ends with this status.
fn is_due(case: &Case, device: Device, call: u32, status: u8, out: &[u8], faults: &[u8]) -> bool {
    match status {
        0 => is_all(case.called.text, out) && faults.is_empty(),
        2 => {
            let (told, refused) = read_fault(case.called.call, device);
            out == told && faults == refused
        }
        5 => device == Device::Output && is_part(case.called.text, call, out) && faults.is_empty(),
        _ => false,
    }
}

/// What is written to both sinks where this device fails.
fn read_fault(call: Call<'_>, device: Device) -> (&'static [u8], &'static [u8]) {
    match (call, device) {
        (Call::Beamer(_), Device::Script | Device::Capture | Device::Trace) => {
            (READ_FAULT.as_bytes(), b"")
        }
        (Call::Connections(_), Device::Script) => (b"", b"beamer-connections: s: read fault\n"),
        (Call::Connections(_), Device::Capture) => (b"", b"beamer-connections: c: read fault\n"),
        _ => (b"none", b"none"),
    }
}

/// Whether this is what is written where nothing fails.
fn is_all(text: Text, written: &[u8]) -> bool {
    match text {
        Text::Whole(text) => written == text.as_bytes(),
        Text::Has(part) => count(written, part) > 0,
    }
}

/// Whether this is what was written before a write that failed: all pieces before that one. The
/// lines of a run's events are written out apart from the others, so one piece may be short.
fn is_part(text: Text, call: u32, written: &[u8]) -> bool {
    let made = (written.len() + STEP) as u64;
    let whole = STEP as u64 * u64::from(call);
    match text {
        Text::Whole(text) => made == whole && text.as_bytes().starts_with(written),
        Text::Has(_) => made <= whole && whole < made.saturating_add(STEP as u64),
    }
}

/// Whether the call with this number was made, and so failed. What is written then is what is due,
/// and no source stays open.
fn fail(
    rt: &(impl Abort + Threads + Wait + Sync),
    alloc: Global,
    case: &Case,
    device: Device,
    call: u32,
) -> bool {
    let (status, open, is_due) = outcome(rt, alloc, case, device, call).expect(rt, "memory");
    assert!(rt; is_due && open == 0, "call {call}: {status}");
    status != 0
}

/// How many calls the device gets; each of them fails in turn.
fn calls(
    rt: &(impl Abort + Threads + Wait + Sync),
    alloc: Global,
    case: &Case,
    device: Device,
) -> u32 {
    for call in 1..100 {
        if !fail(rt, alloc, case, device, call) {
            return call - 1;
        }
    }
    100
}

fn check(rt: &(impl Abort + Threads + Wait + Sync), alloc: Global, case: &Case) {
    let (scripts, captures, traces, least) = case.called.calls;
    assert!(rt; calls(rt, alloc, case, Device::Script) == scripts);
    assert!(rt; calls(rt, alloc, case, Device::Capture) == captures);
    assert!(rt; calls(rt, alloc, case, Device::Trace) == traces);
    let output = calls(rt, alloc, case, Device::Output);
    let may_be_more = matches!(case.called.text, Text::Has(_));
    assert!(rt; output == least || may_be_more && least < output && output < 100);
}

/// This, called over the two packets of `OPENED`.
fn over_two<'a>(called: &'static Called, capture: &'a [u8]) -> Case<'a> {
    Case {
        called,
        script: MOVED_SCRIPT,
        capture,
    }
}

#[test]
fn each_call_of_a_device_may_fail(rt: HostRuntime) {
    let capture = raw(rt.alloc(), Form::Micro, OPENED).expect(&rt, "memory");
    for called in &OVER_TWO {
        check(&rt, rt.alloc(), &over_two(called, &capture));
    }
}

#[test]
fn each_call_of_a_device_may_fail_in_a_session(rt: HostRuntime) {
    let capture = session(rt.alloc()).expect(&rt, "memory");
    let case = Case {
        called: &OVER_TWELVE,
        script: SESSION_SCRIPT,
        capture: &capture,
    };
    check(&rt, rt.alloc(), &case);
}

/// Words with a name of no file.
static MISSING: [Call; 7] = [
    Call::Beamer(&["replay", "c", "x"]),
    Call::Beamer(&["replay", "x", "s"]),
    Call::Beamer(&["run", "c", "x"]),
    Call::Beamer(&["run", "x", "s"]),
    Call::Beamer(&["streams", "x", "s"]),
    Call::Beamer(&["check", "t", "x", "s"]),
    Call::Beamer(&["check", "x", "c", "s"]),
];

/// The same of `beamer-connections`, whose line names that file.
static MISSED: [Call; 4] = [
    Call::Connections(&["c", "x"]),
    Call::Connections(&["x", "s"]),
    Call::Connections(&["x", "s", "--of", "10.0.0.1:1000"]),
    Call::Connections(&["--lifetime", "x"]),
];

/// Opening fails if there is no such file.
fn miss(
    rt: &(impl Abort + Threads + Wait + Sync),
    alloc: Global,
    fakes: &[Fake],
    call: Call,
    line: &str,
) {
    let answered = fakes_answer(rt, alloc, call, STEP, fakes, &[], (2, line));
    assert!(rt; answered == Ok(true), "{call:?}");
}

#[test]
fn each_open_may_fail(rt: HostRuntime) {
    let capture = raw(rt.alloc(), Form::Micro, OPENED).expect(&rt, "memory");
    let fakes = fakes(&over_two(&OVER_TWO[0], &capture), Device::Output, &[1]);
    for call in &MISSING {
        miss(&rt, rt.alloc(), &fakes, *call, READ_FAULT);
    }
    for call in &MISSED {
        let line = "beamer-connections: x: read fault: no such file\n";
        miss(&rt, rt.alloc(), &fakes, *call, line);
    }
}
