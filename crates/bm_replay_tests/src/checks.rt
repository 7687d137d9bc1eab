//! Tests of `bm_check`: what is answered of the report of a replay, and of changed ones.
ghost use Rattle.std.specs.Prelude.{◌≤◌, length};

use crate::stages::{DATA, OPENING, capture, moved_stage};
use bm_base::{Fate, Flow, Hop, Memory};
use bm_check::{Answer, check};
use bm_fault::Faults;
use bm_route::Route;
use std::alloc::Global;
use std::process::Abort;

/// A report, and what is answered of it: its bucket is moved to server 2 between the connection's
/// first packet and its second.
#[derive(Clone, Copy)]
struct Case {
    report: &'static str,
    answer: Answer,
}

static CHANGED: [Case; 5] = [
    Case {
        report: "1 steer 1 0 0 4\n2 arrive 1 direct 1 accept\n501 publish 1\n502 switch 0 1\n\
                 1001 steer 2 0 1 4\n1002 arrive 2 direct 2 forward 1\n\
                 1003 arrive 2 chained 1 process advance\n\
                 packet 1 accepted 1\npacket 2 processed 1\n\
                 total packets 2 steered 2 unsteered 0 accepted 1 processed 1 forwarded 1 \
                 reset 0 dropped 0 lost 0 stray 0\n",
        answer: Answer::Yes(7),
    },
    Case {
        report: "1 steer 1 0 0 4\n2 arrive 1 direct 1 accept\n501 publish 1\n502 switch 0 1\n\
                 1001 steer 2 0 1 4\n\
                 1002 arrive 2 direct 2 reset no-previous because never-accepted\n\
                 1003 arrive 2 chained 1 process advance\n\
                 packet 1 accepted 1\npacket 2 processed 1\n\
                 total packets 2 steered 2 unsteered 0 accepted 1 processed 1 forwarded 1 \
                 reset 0 dropped 0 lost 0 stray 0\n",
        answer: Answer::NotRun(6),
    },
    Case {
        report: "1 steer 1 0 0 4\n2 arrive 1 direct 1 accept\n501 publish 1\n502 switch 0 1\n\
                 1001 steer 2 0 1 4\n1002 arrive 2 direct 2 forward 1\n\
                 packet 1 accepted 1\npacket 2 processed 1\n\
                 total packets 2 steered 2 unsteered 0 accepted 1 processed 1 forwarded 1 \
                 reset 0 dropped 0 lost 0 stray 0\n",
        answer: Answer::NotAccount,
    },
    Case {
        report: "1 steer 1 0 0 4\n2 arrive 1 direct 1 accept\n501 publish 1\n502 switch 0 1\n\
                 1001 steer 2 0 1 4\n1002 arrive 2 direct 2 forward 1\n\
                 1003 arrive 2 chained 1 process advance because chain-late\n\
                 packet 1 accepted 1\npacket 2 processed 1\n\
                 total packets 2 steered 2 unsteered 0 accepted 1 processed 1 forwarded 1 \
                 reset 0 dropped 0 lost 0 stray 0\n",
        answer: Answer::NotSame(7),
    },
    Case {
        report: "1 steer 1 0 0 4\n2 arrive 1 direct 1 accept\n501 publish 1\n502 switch 0 1\n\
                 1001 steer 2 0 1 4\n1002 arrive 2 direct 2 forward 1\n\
                 1003 arrive 2 chained 1 process advance\n\
                 packet 1 accepted 1\npacket 2 processed 1\n\
                 total packets 2 steered 2 unsteered 0 accepted 1 processed 1 forwarded 2 \
                 reset 0 dropped 0 lost 0 stray 0\n",
        answer: Answer::NotSame(10),
    },
];

static CUT: [Case; 8] = [
    Case {
        report: "",
        answer: Answer::NotAccount,
    },
    Case {
        report: "1 steer 1 0 0 4\n2 arrive 1 direct 1 accept\n501 publ",
        answer: Answer::NotLine(3),
    },
    Case {
        report: "1 steer 1 0 0 4\n2 arrive 1 direct 1 accept\n",
        answer: Answer::NotAccount,
    },
    Case {
        report: "1 steer 1 0 0 4\r\n",
        answer: Answer::NotLine(1),
    },
    Case {
        report: "1 steer 1 0 0 4\n1111111111111111111111111111111111111111 sync\n",
        answer: Answer::NotLine(2),
    },
    Case {
        report: "1 steer 1 0 0 4\n02 arrive 1 direct 1 accept\n",
        answer: Answer::NotLine(2),
    },
    Case {
        report: "1 steer 1 0 0 4\n2 arrive 1 direct 1 accept because moved-twice\n",
        answer: Answer::NotLine(2),
    },
    Case {
        report: "1 steer 1 0 0 4\ntotal packets 2\n2 arrive 1 direct 1 accept\n",
        answer: Answer::NotLine(3),
    },
];

/// What is answered of a report of the connection's two packets, where the second comes after the
/// move.
fn answer_of(alloc: Global, report: &[u8]) -> Result<Answer, Memory>
    requires { length report.now ≤ 1000 }
{
    let (capture, _packets) = capture(alloc, 1_000, &[OPENING, DATA])?;
    let stage = moved_stage(alloc, capture)?;
    let route = Route::new(|_packet: u32, _flow: &Flow| -> u16 { 0 }, 1);
    let faults = Faults::new(|_packet: u32, _hop: Hop| -> Fate {
        Fate {
            copies: 1,
            delay: 0,
        }
    });
    check(alloc, stage, &route, &faults, report)
}

fn check_case(rt: &impl Abort, alloc: Global, case: &Case) {
    assert!(rt; case.report.len() <= 1_000);
    let answer = answer_of(alloc, case.report.as_bytes());
    assert!(rt; answer == Ok(case.answer), "of {}", case.report);
}

fn check_cases(rt: &impl Abort, alloc: Global, cases: &[Case]) {
    for case in cases {
        check_case(rt, alloc, case);
    }
}

#[test]
fn changed_reports_are_told(rt: HostRuntime) {
    check_cases(&rt, rt.alloc(), &CHANGED);
}

#[test]
fn cut_reports_are_told(rt: HostRuntime) {
    check_cases(&rt, rt.alloc(), &CUT);
}
