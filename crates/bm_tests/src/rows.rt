//! Worked rows: captures with and without scripts, and what the program writes.
use crate::program::check_rows;

mod captures;
mod commands;
mod moves;
mod refused;

pub(crate) use captures::OPENED_REPORT;
pub(crate) use moves::{MOVED_REPORT, MOVED_SCRIPT};

#[test]
fn captures_are_replayed(rt: HostRuntime) {
    check_rows(&rt, rt.alloc(), &captures::CAPTURES);
}

#[test]
fn moves_are_replayed(rt: HostRuntime) {
    check_rows(&rt, rt.alloc(), &moves::MOVES);
}

#[test]
fn commands_and_faults_are_replayed(rt: HostRuntime) {
    check_rows(&rt, rt.alloc(), &commands::COMMANDS);
}

#[test]
fn scripts_are_refused(rt: HostRuntime) {
    check_rows(&rt, rt.alloc(), &refused::REFUSED);
}
