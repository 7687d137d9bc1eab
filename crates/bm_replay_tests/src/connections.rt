//! Tests of `bm_connections`: what is reported of the connections of replays.
ghost use Rattle.std.specs.Prelude.{IfOk};
ghost use Rattle.bm_core.specs.Runs.{IsRun};

use crate::stages::{
    DATA, OPENING, OTHER, PSH_ACK, Row, SYN, bare_history, moved_history, twice_moved_history,
};
use bm_base::{Memory, Moment, ServerId, Text};
use bm_connections::{
    Clock, Summary, TimeText, after_end_text, causes_text, connections, late_text, needs_of,
    servers_text, summary_of, table_text,
};
use bm_core::History;
use bm_trace::sweep;
use std::alloc::Global;
use std::process::Abort;

const RST: u8 = 0x04;

const ACK: u8 = 0x10;

const FIN_ACK: u8 = 0x11;

/// An RST after `DATA`.
const ENDING: Row = (1000, RST, 111, 0);

/// There are 100 seconds between two packets.
const GAP: u64 = 100_000_000_000;

/// The text of the history's connections, as if none were whole without its changes.
#[tactic(auto, using(bm_trace::proofs::Ranged::ranges_of))]
fn lines_of(alloc: Global, h: &History) -> Result<Text, Memory>
    requires { IsRun h.now }
{
    let causes = sweep(alloc, h)?;
    let table = connections(alloc, h, &causes)?;
    table_text(alloc, Clock(None), 1, table.items(), &[])
}

/// Checks the text of the history's connections.
fn check(rt: &impl Abort, alloc: Global, h: &History, want: &str)
    requires { IsRun h.now }
{
    let lines = lines_of(alloc, h).expect(rt, "memory");
    assert_eq!(rt; lines.as_str(), want);
}

/// Segments that come to one shard of this capacity, whether server 1 is asked to close the first
/// connection after the first of them, and the expected text.
#[derive(Clone, Copy)]
struct Case {
    rows: &'static [Row],
    capacity: u16,
    closing: bool,
    text: &'static str,
}

static CASES: [Case; 8] = [
    Case {
        rows: &[OPENING, DATA, DATA],
        capacity: 4_096,
        closing: true,
        text: "connection 10.0.0.1:1000 192.0.2.1:80 opened 1 at 0.000000000 \
               last 3 at 200.000000000 \
               accepted 1 times 1 processed 0 forwarded 0 dropped 0 reset 2 stray 0 \
               after-its-end 0 end close \
               broken 2 reset no-previous because not-held at 100.000000002 anyway losing-data\n",
    },
    Case {
        rows: &[OPENING, OTHER, (1002, PSH_ACK, 101, 10), DATA, DATA],
        capacity: 4_096,
        closing: false,
        text: "connection 10.0.0.1:1000 192.0.2.1:80 opened 1 at 0.000000000 \
               last 5 at 400.000000000 \
               accepted 1 times 1 processed 2 forwarded 0 dropped 0 reset 0 stray 0 \
               after-its-end 0 end open whole\n\
               connection 10.0.0.1:1002 192.0.2.1:80 opened 2 at 100.000000000 \
               last 3 at 200.000000000 accepted 1 times 1 \
               processed 1 forwarded 0 dropped 0 reset 0 stray 0 \
               after-its-end 0 end open whole\n",
    },
    Case {
        rows: &[OPENING, OTHER],
        capacity: 1,
        closing: false,
        text: "connection 10.0.0.1:1000 192.0.2.1:80 opened 1 at 0.000000000 \
               last 1 at 0.000000000 accepted 1 times 1 \
               processed 0 forwarded 0 dropped 0 reset 0 stray 0 \
               after-its-end 0 end open whole\n\
               connection 10.0.0.1:1002 192.0.2.1:80 opened 2 at 100.000000000 \
               last 2 at 100.000000000 accepted none times 0 \
               processed 0 forwarded 0 dropped 1 reset 0 stray 0 \
               after-its-end 0 end open \
               refused 2 drop full because full at 100.000000002\n",
    },
    Case {
        rows: &[DATA, OPENING, DATA],
        capacity: 4_096,
        closing: false,
        text: "connection 10.0.0.1:1000 192.0.2.1:80 opened 1 at 0.000000000 \
               last 3 at 200.000000000 \
               accepted 1 times 1 processed 1 forwarded 0 dropped 0 reset 1 stray 0 \
               after-its-end 0 end open whole\n",
    },
    Case {
        rows: &[OPENING, DATA, ENDING, ENDING, (1000, PSH_ACK, 111, 10)],
        capacity: 4_096,
        closing: false,
        text: "connection 10.0.0.1:1000 192.0.2.1:80 opened 1 at 0.000000000 \
               last 5 at 400.000000000 \
               accepted 1 times 1 processed 2 forwarded 0 dropped 1 reset 1 stray 0 \
               after-its-end 2 end rst whole\n",
    },
    Case {
        rows: &[OPENING, (1000, RST, 101, 0), DATA],
        capacity: 4_096,
        closing: true,
        text: "connection 10.0.0.1:1000 192.0.2.1:80 opened 1 at 0.000000000 \
               last 3 at 200.000000000 \
               accepted 1 times 1 processed 0 forwarded 0 dropped 1 reset 1 stray 0 \
               after-its-end 0 end close \
               broken 2 drop silent because not-held at 100.000000002 anyway losing-data\n",
    },
    Case {
        rows: &[
            OPENING,
            (1000, RST, 101, 0),
            (1000, SYN, 500, 1),
            (1000, PSH_ACK, 501, 10),
        ],
        capacity: 4_096,
        closing: false,
        text: "connection 10.0.0.1:1000 192.0.2.1:80 opened 1 at 0.000000000 \
               last 4 at 300.000000000 \
               accepted 1 times 2 processed 2 forwarded 0 dropped 0 reset 0 stray 0 \
               after-its-end 0 end open whole\n",
    },
    Case {
        rows: &[OPENING, (1000, ACK, 101, 0), (1000, FIN_ACK, 101, 0)],
        capacity: 4_096,
        closing: true,
        text: "connection 10.0.0.1:1000 192.0.2.1:80 opened 1 at 0.000000000 \
               last 3 at 200.000000000 \
               accepted 1 times 1 processed 0 forwarded 0 dropped 0 reset 2 stray 0 \
               after-its-end 0 end close \
               broken 2 reset no-previous because not-held at 100.000000002 anyway losing-data\n",
    },
];

fn check_case(rt: &impl Abort, alloc: Global, case: &Case) {
    assert!(rt; case.rows.len() <= 100 && 0 < case.capacity);
    let capacity = u32::from(case.capacity);
    let h = bare_history(alloc, GAP, case.rows, capacity, case.closing, None).expect(rt, "memory");
    check(rt, alloc, &h, case.text);
}

fn check_cases(rt: &impl Abort, alloc: Global, cases: &[Case]) {
    for case in cases {
        check_case(rt, alloc, case);
    }
}

#[test]
fn what_became_of_connections_is_told(rt: HostRuntime) {
    check_cases(&rt, rt.alloc(), &CASES);
}

/// What is counted in the history, and at these servers.
#[tactic(auto, using(bm_trace::proofs::Ranged::ranges_of))]
fn summary(alloc: Global, h: &History, servers: &[ServerId]) -> Result<Summary, Memory>
    requires { IsRun h.now }
{
    let causes = sweep(alloc, h)?;
    let table = connections(alloc, h, &causes)?;
    summary_of(alloc, h, &causes, table.items(), servers)
}

/// Whether this is the text.
fn is(text: Result<Text, Memory>, want: &str) -> bool {
    match text {
        Ok(text) => text.as_str() == want,
        Err(Memory) => false,
    }
}

#[test]
fn servers_and_causes_are_counted(rt: HostRuntime) {
    let alloc = rt.alloc();
    let rows = [OPENING, DATA, DATA];
    let h = bare_history(alloc, GAP, &rows, 4_096, true, None).expect(&rt, "memory");
    check_counts(&rt, alloc, &h);
}

/// Checks the lines of servers 2 and 1, and of the one cause that occurs.
fn check_counts(rt: &impl Abort, alloc: Global, h: &History)
    requires { IsRun h.now }
{
    let counted = summary(alloc, h, &[ServerId(2), ServerId(1)]).expect(rt, "memory");
    let servers = servers_text(alloc, counted.servers.items());
    let lines = "server 2 accepted 0 processed 0 most-held 0 of 4096\n\
        server 1 accepted 1 processed 0 most-held 1 of 4096\n";
    assert!(rt; is(servers, lines));
    let causes = causes_text(alloc, counted.causes.items());
    assert!(rt; is(causes, "cause not-held packets 2 broken 1 refused 0\n"));
}

/// An RST ends the connection, and its copy is dropped.
#[test]
fn packets_after_the_end_are_counted(rt: HostRuntime) {
    let alloc = rt.alloc();
    let rows = [OPENING, DATA, ENDING, ENDING];
    let h = bare_history(alloc, GAP, &rows, 4_096, false, None).expect(&rt, "memory");
    check_after_end(&rt, alloc, &h);
}

fn check_after_end(rt: &impl Abort, alloc: Global, h: &History)
    requires { IsRun h.now }
{
    let counted = summary(alloc, h, &[]).expect(rt, "memory");
    let line = after_end_text(alloc, counted.after_end);
    assert!(rt; is(line, "after-its-end packets 1 connections 1\n"));
}

/// The line of the longest wait.
#[tactic(auto, using(bm_trace::proofs::Ranged::ranges_of))]
fn late_line(alloc: Global, h: &History) -> Result<Text, Memory>
    requires { IsRun h.now }
{
    let causes = sweep(alloc, h)?;
    let needs = needs_of(alloc, h, &causes, &[])?;
    late_text(alloc, needs.late)
}

/// Checks the line of the longest wait, and the text of the history's connections.
fn check_late(
    rt: &impl Abort,
    alloc: Global,
    history: Result<History, Memory>,
    late: &str,
    lines: &str,
)
    requires { IfOk history IsRun }
{
    let h = history.expect(rt, "memory");
    assert!(rt; is(late_line(alloc, &h), late));
    check(rt, alloc, &h, lines);
}

/// The bucket moves at 500 nanoseconds, and the timeout is 240 seconds.
#[test]
fn a_moved_connection_breaks_after_the_timeout(rt: HostRuntime) {
    let alloc = rt.alloc();
    let history = moved_history(alloc, GAP, &[OPENING, DATA, DATA, DATA]);
    let late = "chain-late longest 299.999999502 timeout_s 300\n";
    let lines = "connection 10.0.0.1:1000 192.0.2.1:80 opened 1 at 0.000000000 \
                last 4 at 300.000000000 accepted 1 times 1 \
                processed 2 forwarded 2 dropped 0 reset 1 stray 0 after-its-end 0 end open \
                last-forward 3 by 2 at 200.000000002 after 199.999999502 \
                broken 4 reset chain-expired because chain-late at 300.000000002 \
                anyway losing-data\n";
    check_late(&rt, alloc, history, late, lines);
}

/// The bucket moves at 500 nanoseconds and at 150 seconds: the fourth packet comes in time for the
/// previous server, and its chained copy too late for the older one.
#[test]
fn a_twice_moved_connection_breaks_at_the_older_stamp(rt: HostRuntime) {
    let alloc = rt.alloc();
    let rows = [OPENING, DATA, DATA, DATA];
    let history = twice_moved_history(alloc, GAP, &rows, Moment(150_000_000_000), None);
    let late = "chain-late longest 299.999999503 timeout_s 300\n";
    let lines = "connection 10.0.0.1:1000 192.0.2.1:80 opened 1 at 0.000000000 \
                last 4 at 300.000000000 accepted 2 times 1 \
                processed 2 forwarded 4 dropped 0 reset 1 stray 0 after-its-end 0 end open \
                last-forward 4 by 1 at 300.000000002 after 150.000000002 \
                broken 4 reset chain-expired because chain-late at 300.000000003 \
                anyway losing-data\n";
    check_late(&rt, alloc, history, late, lines);
}

/// A moment, when record 1 was captured, and the expected text.
type Instant = (u64, u64, &'static str);

static INSTANTS: [Instant; 6] = [
    (0, 0, "1970-01-01T00:00:00.000000000Z"),
    (951_782_399_999_999_999, 1, "2000-02-29T00:00:00.000000000Z"),
    (
        951_868_799_000_000_000,
        21_000,
        "2000-02-29T23:59:59.000021000Z",
    ),
    (
        1_795_834_305_000_000_000,
        21_000,
        "2026-11-28T02:51:45.000021000Z",
    ),
    (
        4_107_542_399_000_000_000,
        1_000_000_000,
        "2100-03-01T00:00:00.000000000Z",
    ),
    (u64::MAX, 1, "2554-07-21T23:34:33.709551615Z"),
];

fn check_instant(rt: &impl Abort, alloc: Global, row: &Instant) {
    let (began, moment, want) = *row;
    let time = TimeText(Clock(Some(began)), Moment(moment));
    let text = format!(in alloc; "{time}").expect(rt, "memory");
    assert_eq!(rt; text.as_str(), want);
}

fn check_instants(rt: &impl Abort, alloc: Global, rows: &[Instant]) {
    for row in rows {
        check_instant(rt, alloc, row);
    }
}

#[test]
fn moments_are_told_in_utc(rt: HostRuntime) {
    check_instants(&rt, rt.alloc(), &INSTANTS);
}
