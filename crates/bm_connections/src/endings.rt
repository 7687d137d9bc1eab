//! How the connections of a capture end, and for which packets a break loses data.
ghost use Rattle.std.specs.Prelude.{◌≡◌, map, reverse};
ghost use Rattle.bm_connections.specs.Endings as spec;
ghost use Rattle.bm_connections.specs.Inside.Resets as ends;
ghost use Rattle.bm_connections.specs.Inside.Rows as kept;

use crate::connection::{Connection, Ending};
use crate::flow_set::FlowSet;
use crate::resets::Resets;
use bm_base::flags::{FIN, RST, SYN};
use bm_base::{Body, Record, Segment, is_opening};

/// How a connection ends by its records after another segment of it.
pub(crate) fn ending_after(segment: &Segment, before: Ending) -> Ending
    ensures { result ≡ kept.ending_after segment.now before }
{
    if is_opening(segment) {
        Ending::Open
    } else if segment.has(FIN) {
        Ending::Fin
    } else {
        before
    }
}

/// How many sequence numbers the flag takes.
fn taken_by(flag: u8, segment: &Segment) -> u32
    ensures { result ≡ spec.taken_by flag segment.now }
{
    if segment.has(flag) { 1 } else { 0 }
}

/// Whether the segment has octets of data.
pub(crate) fn carries_data(segment: &Segment) -> bool
    ensures { result ≡ spec.carries_data segment.now }
{
    taken_by(SYN, segment) + taken_by(FIN, segment) < segment.len
}

/// Whether the record of this number among these, counted from 1, has octets of data.
pub(crate) fn has_data_at(records: &[Record], number: u32) -> bool
    ensures { result ≡ kept.has_data_at (reverse records.now) number }
{
    if number == 0 {
        return false;
    }
    match records.get(number as usize - 1) {
        None => false,
        Some(record) => match &record.body {
            Body::Unsteered(_) => false,
            Body::Steerable(segment) => carries_data(segment),
        },
    }
}

/// Whether the segment opens a connection or gives one up.
fn is_at_an_end(segment: &Segment) -> bool
    ensures { result ≡ spec.is_at_an_end segment.now }
{
    is_opening(segment) || segment.has(RST)
}

/// Whether the segment is in the middle of a connection that ended so before it: it neither opens
/// one nor carries RST, and no FIN has come, its own included.
fn is_in_the_middle(segment: &Segment, before: Ending) -> bool
    ensures { result ≡ kept.is_in_the_middle segment.now before }
{
    !is_at_an_end(segment) && !matches!(ending_after(segment, before), Ending::Fin)
}

/// Whether the segment concerns more than the farewell of its connection, if that ended so before
/// it, and if the packet before it had data or not.
pub(crate) fn is_risky(segment: &Segment, after_data: bool, before: Ending) -> bool
    ensures { result ≡ kept.is_risky segment.now after_data before }
{
    carries_data(segment) || after_data || is_in_the_middle(segment, before)
}

/// How a connection ended, if these flows are closed and these were reset.
fn ending_of(closed: &FlowSet, resets: &Resets, c: &Connection) -> Ending
    ensures { result ≡ ends.ending_of closed.now resets.now c.now }
{
    if closed.contains(&c.flow) {
        Ending::Close
    } else if resets.has(&c.flow) {
        Ending::Reset
    } else {
        c.ending
    }
}

fn with_end(closed: &FlowSet, resets: &Resets, c: Connection) -> Connection
    ensures { result ≡ ends.with_end closed.now resets.now c }
{
    Connection {
        ending: ending_of(closed, resets, &c),
        ..c
    }
}

/// Records of each connection whether a `close` or an RST ended it.
pub(crate) fn end_all(connections: &mut [Connection], closed: &FlowSet, resets: &Resets)
    ensures { connections.new ≡ map (ends.with_end closed.now resets.now) connections.old }
{
    for place in 0..connections.len() {
        connections[place] = with_end(closed, resets, connections[place]);
    }
}
