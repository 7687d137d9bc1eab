//! Whether the changes fail a connection.
ghost use Rattle.std.specs.Prelude.{◌≡◌, false, if◌then◌else◌, IfOk};
ghost use Rattle.bm_core.specs.Runs.{IsRun};
ghost use Rattle.bm_connections.specs.Connections as tables;
ghost use Rattle.bm_connections_cli.specs.Failing as spec;
ghost use Rattle.bm_connections_cli.specs.Inside.Outcomes as inside;

use crate::parts::table_of;
use bm_base::Memory;
use bm_cli::Status;
use bm_connections::{Connection, answer_of};
use bm_core::History;
use std::alloc::Global;

/// The exit status in place of 0 if the changes fail a connection.
const FAILED: u8 = 10;

/// How a call ends, and whether it was asked if the changes fail a connection, and they do.
#[derive(Clone, Copy)]
pub(crate) struct Outcome {
    pub(crate) status: Status,
    pub(crate) fails: bool,
}

impl Outcome {
    /// An outcome with this status, of a call that doesn't ask what the changes fail.
    pub(crate) fn of(status: Status) -> Outcome
        ensures status { result.status ≡ status }
        ensures fails { result.fails ≡ false }
    {
        Outcome {
            status,
            fails: false,
        }
    }

    /// The exit status.
    pub(crate) fn code(self) -> u8
        ensures { result ≡ inside.outcome_code self.fails self.status }
    {
        let code = self.status.code();
        if self.fails { failed(code) } else { code }
    }
}

/// The exit status in place of this one if the changes fail a connection.
fn failed(code: u8) -> u8
    ensures { result ≡ inside.failed code }
{
    if code == 0 { FAILED } else { code }
}

/// Whether the changes fail a connection of this history, if that is asked, by which of the
/// connections are whole in the base.
pub(crate) fn failing(
    alloc: Global,
    asked: bool,
    h: &History,
    wholes: &[bool],
) -> Result<bool, Memory>
    requires { IsRun h.now }
    ensures { IfOk result (λ fails. fails
        ≡ (if asked then spec.fails_one (tables.connections h.now) wholes.now else false)) }
{
    if asked {
        let table = table_of(alloc, h)?;
        Ok(fails_one(table.items(), wholes))
    } else {
        Ok(false)
    }
}

/// Whether the changes break or refuse one of these connections.
fn fails_one(table: &[Connection], wholes: &[bool]) -> bool
    ensures { result ≡ spec.fails_one table.now wholes.now }
{
    answer_of(table, wholes, 0, None).by_the_change > 0 || refuses_one(table, wholes)
}

/// Whether the changes refuse one of these connections.
fn refuses_one(table: &[Connection], wholes: &[bool]) -> bool
    ensures { result ≡ spec.refuses_one table.now wholes.now }
{
    table
        .iter()
        .zip(wholes)
        .any(|(c, whole)| is_refused(c, *whole))
}

fn is_refused(c: &Connection, whole: bool) -> bool
    ensures { result ≡ spec.is_refused (c.now, whole) }
{
    whole && c.refused.is_some()
}
