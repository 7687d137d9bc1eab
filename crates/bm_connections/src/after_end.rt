//! The packets that come after their connection's own end.
ghost use Rattle.std.specs.Prelude.{◌≡◌, ◌++◌, nat_lt, count_by, IfOk, OnOk, string_bytes};
ghost use Rattle.bm_connections.specs.AfterEnd as spec;

use crate::connection::Connection;
use bm_base::{Memory, Text};
use std::alloc::{AllocError, Global};

/// How many arrivals are dropped, reset or strays without breaking anything, since an RST had ended
/// their connection, and how many connections have such arrivals.
#[derive(Clone, Copy, PartialEq, Eq)]
pub struct AfterEnd {
    pub packets: u64,
    pub connections: u64,
}

fn is_some_number(count: u64) -> bool
    ensures { result ≡ nat_lt 0 count }
{
    count > 0
}

/// How many of these connections have such arrivals.
pub(crate) fn connections_after_end(table: &[Connection]) -> u64
    ensures { result ≡ count_by (λ c. nat_lt 0 c.tally.after_its_end) table.now }
{
    let mut count = 0;
    for c in table {
        if is_some_number(c.tally.after_its_end) {
            count += 1;
        }
    }
    count
}

fn write_line(text: &mut String, after_end: AfterEnd) -> Result<(), AllocError>
    ensures { OnOk result
        (string_bytes text.new ≡ string_bytes text.old ++ spec.after_end_line after_end) }
{
    let packets = after_end.packets;
    let connections = after_end.connections;
    writeln!(
        text,
        "after-its-end packets {packets} connections {connections}"
    )
}

fn write_after_end(text: &mut String, after_end: AfterEnd) -> Result<(), AllocError>
    ensures { OnOk result
        (string_bytes text.new ≡ string_bytes text.old ++ spec.after_end_text after_end) }
{
    if is_some_number(after_end.packets) {
        write_line(text, after_end)
    } else {
        Ok(())
    }
}

/// The line of the packets that come after their connection's own end, or nothing if there are none.
pub fn after_end_text(alloc: Global, after_end: AfterEnd) -> Result<Text, Memory>
    ensures { IfOk result (λ text. text ≡ spec.after_end_text after_end) }
{
    let mut text = String::new(alloc);
    write_after_end(&mut text, after_end)?;
    Ok(Text::of(text))
}
