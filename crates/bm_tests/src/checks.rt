//! Worked rows: printed reports, and what a check of them answers.
use crate::capture::{Form, OPENED, raw};
use crate::program::{check, files};
use crate::rows::{MOVED_REPORT, MOVED_SCRIPT};
use bm_io::SureFile;
use std::alloc::{AllocError, Global};
use std::process::Abort;
use std::sync::Wait;
use std::thread::Threads;

/// A name, a part of `MOVED_REPORT` and what stands in its place, and the status and the line that
/// come for this trace.
type Row = (&'static str, (&'static str, &'static str), u8, &'static str);

static CHECKS: [Row; 4] = [
    (
        "the report as it was printed",
        ("1 steer", "1 steer"),
        0,
        "beamer: check: yes 7 events\n",
    ),
    (
        "another verdict",
        ("2 forward 1", "2 reset no-previous because never-accepted"),
        8,
        "beamer: check: not a run at event 6\n",
    ),
    (
        "a line less",
        ("1003 arrive 2 chained 1 process advance\n", ""),
        8,
        "beamer: check: not accounted\n",
    ),
    (
        "a cause where there is none",
        ("advance", "advance because chain-late"),
        8,
        "beamer: check: differs at line 7\n",
    ),
];

#[test]
fn reports_are_checked(rt: HostRuntime) {
    for row in &CHECKS {
        check_trace(&rt, rt.alloc(), row);
    }
}

fn check_trace(rt: &(impl Abort + Threads + Wait + Sync), alloc: Global, row: &Row) {
    let (name, (part, other), status, line) = *row;
    let files = trace_files(alloc, part, other);
    let form = &["check", "t", "c", "s"];
    check(rt, alloc, form, files, name, (status, line));
}

/// The files of a trace with this part of `MOVED_REPORT` replaced, and of its capture and script.
fn trace_files(alloc: Global, part: &str, other: &str) -> Result<Vec<SureFile>, AllocError> {
    let trace = MOVED_REPORT.replace(alloc, part, other)?;
    let capture = raw(alloc, Form::Micro, OPENED)?;
    let script = MOVED_SCRIPT.as_bytes();
    files(
        alloc,
        &[("c", &capture), ("s", script), ("t", trace.as_bytes())],
    )
}
