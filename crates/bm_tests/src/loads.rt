//! Generated loads.
use crate::program::{USAGE, check};
use std::alloc::Global;
use std::process::Abort;
use std::sync::Wait;
use std::thread::Threads;

/// Words, and the line that the program writes for them.
type Row = (&'static [&'static str], &'static str);

static LINES: [Row; 3] = [
    (
        &["load", "1"],
        "load 1 packets 4 accepted 1 processed 3 reset 0 dropped 0 lost 0\n",
    ),
    (
        &["load", "2000"],
        "load 2000 packets 8000 accepted 2000 processed 6000 reset 0 dropped 0 lost 0\n",
    ),
    (
        &["load", "20000"],
        "load 20000 packets 80000 accepted 20000 processed 60000 reset 0 dropped 0 lost 0\n",
    ),
];

static NO_FORMS: [&[&str]; 7] = [
    &["load"],
    &["load", "0"],
    &["load", "007"],
    &["load", "+5"],
    &["load", "20001"],
    &["load", "x"],
    &["load", "5", "6"],
];

/// Checks what the program ends with and writes for these words.
fn check_words(
    rt: &(impl Abort + Threads + Wait + Sync),
    alloc: Global,
    row: &[&str],
    due: (u8, &str),
) {
    let name = row.last().copied().unwrap_or("");
    check(rt, alloc, row, Ok(Vec::new(alloc)), name, due);
}

#[test]
fn a_load_gets_its_line(rt: HostRuntime) {
    for (row, line) in &LINES {
        check_words(&rt, rt.alloc(), row, (0, line));
    }
}

#[test]
fn a_load_is_of_a_number_without_sign_or_leading_zero(rt: HostRuntime) {
    for row in &NO_FORMS {
        check_words(&rt, rt.alloc(), row, (1, USAGE));
    }
}
