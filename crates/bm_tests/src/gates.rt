//! Runs in threads whose workers wait at a gate.
use crate::capture::Form::Micro;
use crate::capture::Kind::Syn;
use crate::capture::Packet;
use crate::program::{packet_files, run};
use bm_io::{Gate, SureFile, SureFiles, SureSink};
use std::alloc::{AllocError, Global};
use std::process::Abort;
use std::sync::Wait;
use std::sync::atomic::{AtomicU32, Ordering};
use std::thread::Threads;

/// How often a waiting worker looks whether it may go on.
const LOOKS: u32 = 100_000_000;

/// A worker that waits at a step until another one has come to a step.
#[derive(Clone, Copy)]
struct Hold {
    worker: u16,
    step: u32,
    other: u16,
    until: u32,
}

/// Makes workers 0, 1 and 2 wait, and counts those that were released in time.
#[derive(Drop)]
struct Holds {
    holds: &'static [Hold],
    steps: [AtomicU32; 3],
    released: AtomicU32,
}

impl Holds {
    fn new(holds: &'static [Hold]) -> Holds {
        Holds {
            holds,
            steps: [AtomicU32::new(0), AtomicU32::new(0), AtomicU32::new(0)],
            released: AtomicU32::new(0),
        }
    }

    /// Waits until the other worker has come that far, but not forever.
    fn wait(&self, hold: &Hold) {
        let Some(other) = self.steps.get(hold.other as usize) else {
            return;
        };
        for _ in 0..LOOKS {
            if other.load(Ordering::SeqCst) >= hold.until {
                self.released.fetch_add(1, Ordering::SeqCst);
                return;
            }
        }
    }
}

impl Gate for Holds {
    fn at(&self, worker: u16, step: u32) {
        if let Some(own) = self.steps.get(worker as usize) {
            own.store(step, Ordering::SeqCst);
        }
        for hold in self.holds {
            if hold.worker == worker && hold.step == step {
                self.wait(hold);
            }
        }
    }
}

/// A run, the workers that wait in it, what it ends with, and what its report says of its packets.
struct Case {
    name: &'static str,
    packets: &'static [Packet],
    script: &'static str,
    holds: &'static [Hold],
    status: u8,
    says: Says,
}

/// What a report is: one that has each of these this often, or exactly this text.
enum Says {
    Each(&'static [(usize, &'static str)]),
    All(&'static str),
}

const FOUR: &'static [Packet] = &[
    Packet(0, 0, 1000, 100, Syn),
    Packet(0, 1, 1001, 100, Syn),
    Packet(0, 2, 1000, 100, Syn),
    Packet(0, 3, 1001, 100, Syn),
];

const SMALL: &str = "servers = [1]\nmuxes = 2\nshards = 1\ncapacity = 1\n";

static CASES: [Case; 3] = [
    Case {
        name: "two muxes hold each other",
        packets: FOUR,
        script: "muxes = 2\n",
        holds: &[
            Hold {
                worker: 1,
                step: 1,
                other: 2,
                until: 1,
            },
            Hold {
                worker: 2,
                step: 1,
                other: 1,
                until: 1,
            },
        ],
        status: 0,
        says: Says::Each(&[
            (1, "\npacket 1 accepted 1\n"),
            (1, "\npacket 3 processed 1\n"),
            (1, "\ntotal packets 4 steered 4 "),
        ]),
    },
    Case {
        name: "the second mux comes first to the one place",
        packets: FOUR,
        script: SMALL,
        holds: &[Hold {
            worker: 1,
            step: 1,
            other: 2,
            until: 2,
        }],
        status: 0,
        says: Says::Each(&[
            (
                1,
                "\npacket 1 dropped 1\npacket 2 accepted 1\npacket 3 dropped 1\npacket 4 processed 1\n",
            ),
            (
                1,
                "\ntotal packets 4 steered 4 unsteered 0 accepted 1 processed 1 \
             forwarded 0 reset 0 dropped 2 lost 0 stray 0\n",
            ),
        ]),
    },
    Case {
        name: "the first mux comes first to the one place",
        packets: FOUR,
        script: SMALL,
        holds: &[Hold {
            worker: 2,
            step: 1,
            other: 1,
            until: 2,
        }],
        status: 0,
        says: Says::Each(&[
            (
                1,
                "\npacket 1 accepted 1\npacket 2 dropped 1\npacket 3 processed 1\npacket 4 dropped 1\n",
            ),
            (
                1,
                "\ntotal packets 4 steered 4 unsteered 0 accepted 1 processed 1 \
             forwarded 0 reset 0 dropped 2 lost 0 stray 0\n",
            ),
        ]),
    },
];

/// What the run ends with over these files, how many workers were released in time, and the first
/// text that its report doesn't have as often as it should.
fn outcome(
    rt: &(impl Threads + Wait + Sync),
    alloc: Global,
    files: Result<Vec<SureFile>, AllocError>,
    case: &Case,
) -> Result<(u8, usize, &'static str), AllocError> {
    let gate = Holds::new(case.holds);
    let mut files = SureFiles::new(alloc, files?);
    let mut out = SureSink::new(alloc);
    let form = &["run", "c", "s"];
    let status = run(rt, alloc, form, &mut files, &mut out, &gate)?;
    let released = gate.released.load(Ordering::SeqCst) as usize;
    Ok((status, released, missing(out.written(), &case.says)))
}

/// The first text that the report doesn't have as often as it should, or no text.
fn missing(report: &[u8], says: &Says) -> &'static str {
    match *says {
        Says::Each(rows) => first_missing(report, rows),
        Says::All(text) if report == text.as_bytes() => "",
        Says::All(text) => text,
    }
}

fn first_missing(report: &[u8], rows: &[(usize, &'static str)]) -> &'static str {
    for (times, text) in rows {
        if count(report, text) != *times {
            return *text;
        }
    }
    ""
}

/// How often the text is in the report.
pub(crate) fn count(report: &[u8], text: &str) -> usize {
    report
        .windows(text.len().max(1))
        .filter(|part| *part == text.as_bytes())
        .count()
}

fn check(
    rt: &(impl Abort + Threads + Wait + Sync),
    alloc: Global,
    files: Result<Vec<SureFile>, AllocError>,
    case: &Case,
) {
    let (status, released, missing) = outcome(rt, alloc, files, case).expect(rt, "memory");
    let is_due = status == case.status && released == case.holds.len() && missing.is_empty();
    assert!(rt;
        is_due,
        "{}: status {status}, {released} released, not {missing}",
        case.name
    );
}

fn check_cases(rt: &(impl Abort + Threads + Wait + Sync), alloc: Global, cases: &[Case]) {
    for case in cases {
        let files = packet_files(alloc, Micro, case.packets, Some(case.script));
        check(rt, alloc, files, case);
    }
}

#[test]
fn workers_run_beside_one_another(rt: HostRuntime) {
    check_cases(&rt, rt.alloc(), &CASES);
}

/// A bucket moves, and then the controller has one more step.
const MOVED: &str = "[[command]]\nat_ns = 0\ndo = \"move\"\nbucket = 4\nserver = 2\n\
     [[command]]\nat_ns = 0\ndo = \"close\"\nserver = 1\n\
     from = \"10.0.0.9:9\"\nto = \"192.0.2.1:80\"\n";

/// The first batch has version 0, the packet after it version 1.
static BATCHES: Case = Case {
    name: "batches",
    packets: &[],
    script: MOVED,
    holds: &[
        Hold {
            worker: 0,
            step: 1,
            other: 1,
            until: 1,
        },
        Hold {
            worker: 1,
            step: 2,
            other: 0,
            until: 2,
        },
    ],
    status: 0,
    says: Says::Each(&[
        (256, " 0 0 4\n"),
        (1, " steer 257 0 1 4\n"),
        (1, "\npacket 1 accepted 1\npacket 2 processed 1\n"),
        (1, "\npacket 256 processed 1\npacket 257 accepted 2\n"),
        (
            1,
            "\ntotal packets 257 steered 257 unsteered 0 accepted 2 processed 255 \
             forwarded 0 reset 0 dropped 0 lost 0 stray 0\n",
        ),
    ]),
};

/// The files of this many packets, a microsecond apart, and of this script.
fn many_files(alloc: Global, count: u32, script: &str) -> Result<Vec<SureFile>, AllocError> {
    let mut packets = Vec::new(alloc);
    for micros in 0..count {
        packets.push(Packet(0, micros, 1000, 100, Syn))?;
    }
    packet_files(alloc, Micro, &packets, Some(script))
}

#[test]
fn a_mux_looks_at_the_board_before_each_batch(rt: HostRuntime) {
    let files = many_files(rt.alloc(), 257, MOVED);
    check(&rt, rt.alloc(), files, &BATCHES);
}

static SEATS: [Case; 2] = [
    Case {
        name: "a mux too many",
        packets: &[],
        script: "servers = [1, 2, 3, 4, 5, 6, 7, 8, 9, 10, 11, 12, 13, 14, 15, 16]\nshards = 64\n\
             muxes = 64\n",
        holds: &[],
        status: 7,
        says: Says::All("beamer: limit seats\n"),
    },
    Case {
        name: "as many muxes as there may be",
        packets: &[],
        script: "servers = [1, 2, 3, 4, 5, 6, 7, 8, 9, 10, 11, 12, 13, 14, 15, 16]\nshards = 64\n\
             muxes = 63\n",
        holds: &[],
        status: 0,
        says: Says::Each(&[]),
    },
];

#[test]
fn a_run_has_a_limit_on_seats(rt: HostRuntime) {
    check_cases(&rt, rt.alloc(), &SEATS);
}
