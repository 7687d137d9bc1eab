//! The connections that are left open at a capture's end while their bucket is at another server.
ghost use Rattle.std.specs.Prelude.{◌≡◌, ◌++◌, ◌<◌, ◌^◌, length, IfOk, OnOk, flat_map};
ghost use Rattle.std.specs.Prelude.{string_bytes};
ghost use Rattle.bm_state.specs.Moves.{AreMoves};
ghost use Rattle.bm_trace.specs.Ranges.{HasRanges};
ghost use Rattle.bm_connections.specs.Inside.OpenEnds as kept;
ghost use Rattle.bm_connections.specs.OpenEnds as spec;

use crate::connection::{Connection, Ending};
use crate::moved::away_since;
use crate::times::SecondsText;
use bm_base::{List, Memory, Moment, Record, Text};
use bm_core::Stage;
use bm_hash::bucket_of;
use bm_state::Moves;
use std::alloc::{AllocError, Global};

/// A connection that is left open, and whose bucket is at another server in the plan's last
/// version: the number of changes before the last one by which the bucket left its server, and how
/// many nanoseconds before the capture's last record its last packet came.
#[derive(Clone, Copy)]
pub(crate) struct Away {
    pub(crate) before: u32,
    pub(crate) idle: u64,
}

/// How many connections are away by a change, and how many nanoseconds at most one of these was
/// idle at the capture's end.
#[derive(Clone, Copy)]
pub(crate) struct AwayCount {
    pub(crate) connections: u64,
    pub(crate) longest_idle: u64,
}

/// A change of the plan by its number, counted from 1, by which the buckets of connections that are
/// left open left their servers and didn't come back: how many connections these are, and how many
/// nanoseconds at most one of them was idle at the capture's end.
#[derive(Clone, Copy, PartialEq, Eq)]
pub struct OpenEnd {
    pub change: u32,
    pub connections: u64,
    pub longest_idle: u64,
}

/// What connections left open tell of the changes: each change that some are away by, and how many
/// these are together.
#[derive(Drop)]
pub struct OpenEnds {
    pub changes: List<OpenEnd>,
    pub connections: u64,
}

/// Whether a server accepted the connection, nothing broke or refused it, and it hasn't ended.
pub fn is_left_open(c: &Connection) -> bool
    ensures { result ≡ spec.is_left_open c.now }
{
    c.server.is_some()
        && !c.broken.is_some()
        && !c.refused.is_some()
        && matches!(c.ending, Ending::Open)
}

/// The moment of the last record.
fn last_moment(records: &[Record]) -> Moment
    ensures { result.0 ≡ spec.last_moment records.now }
{
    let count = records.len();
    if count == 0 {
        return Moment(0);
    }
    records[count - 1].moment
}

/// The number of changes before the last one by which the connection's bucket left its server, if
/// the connection is left open and the plan's last version gives the bucket to another.
fn left_away(moves: &Moves, stage: &Stage, c: &Connection) -> Option<u32>
    requires ranges { HasRanges stage.now }
    requires moves { AreMoves stage.now.script.plan moves.now }
    ensures { result ≡ spec.left_away stage.now c.now }
{
    if !is_left_open(c) {
        return None;
    }
    let server = c.server?;
    let plan = &stage.script.plan;
    let bucket = bucket_of(&c.flow, stage.script.setting.buckets);
    away_since(moves, plan, bucket, server, plan.versions())
}

/// Appends the connection, if it is left open and away.
fn push_away(
    away: &mut Vec<Away>,
    moves: &Moves,
    stage: &Stage,
    end: Moment,
    c: &Connection,
) -> Result<(), AllocError>
    requires ranges { HasRanges stage.now }
    requires moves { AreMoves stage.now.script.plan moves.now }
    requires end { end.0 ≡ spec.last_moment stage.now.capture.records }
    ensures { OnOk result (away.new.items ≡ away.old.items
        ++ spec.as_away (spec.idle_of stage.now c.now) (spec.left_away stage.now c.now)) }
{
    if let Some(before) = left_away(moves, stage, c) {
        away.push(Away {
            before,
            idle: end.0.saturating_sub(c.last.moment.0),
        })?;
    }
    Ok(())
}

/// Those of the connections that are left open and away.
fn those_away(
    alloc: Global,
    moves: &Moves,
    stage: &Stage,
    table: &[Connection],
) -> Result<Vec<Away>, AllocError>
    requires ranges { HasRanges stage.now }
    requires moves { AreMoves stage.now.script.plan moves.now }
    ensures { IfOk result (λ away. away.items ≡ spec.those_away stage.now table.now) }
{
    let end = last_moment(stage.capture.records.items());
    let mut away = Vec::new(alloc);
    for c in table {
        push_away(&mut away, moves, stage, end, c)?;
    }
    Ok(away)
}

fn with_one(count: AwayCount, idle: u64) -> AwayCount
    requires { count.connections < 2 ^ 63 }
    ensures { result ≡ kept.with_one idle count }
{
    AwayCount {
        connections: count.connections + 1,
        longest_idle: idle.max(count.longest_idle),
    }
}

/// Counts the connection for its change.
fn count_one(counts: &mut Vec<AwayCount>, c: &Away)
    requires { (kept.count_at counts.old.items c.now.before).connections < 2 ^ 63 }
    ensures length { length counts.new.items ≡ length counts.old.items }
    ensures counts { kept.HaveOne c.now counts.old.items counts.new.items }
{
    let place = c.before as usize;
    if place < counts.len() {
        counts[place] = with_one(counts[place], c.idle);
    }
}

/// The counts of this many changes.
fn counts_of(alloc: Global, versions: u32, away: &[Away]) -> Result<Vec<AwayCount>, AllocError>
    ensures length { IfOk result (λ counts. length counts.items ≡ versions) }
    ensures counts { IfOk result (λ counts. kept.AreCounts counts.items away.now) }
{
    let none = AwayCount {
        connections: 0,
        longest_idle: 0,
    };
    let mut counts = vec![in alloc; none; versions as usize]?;
    let mut rest = away;
    while let Some((first, others)) = rest.split_first() {
        count_one(&mut counts, first);
        rest = others;
    }
    Ok(counts)
}

/// Appends what a count says of the change after this version, if there are connections.
fn push_if_any(ends: &mut Vec<OpenEnd>, version: u32, count: AwayCount) -> Result<(), AllocError>
    requires { version < 4294967295 }
    ensures { OnOk result (ends.new.items
        ≡ ends.old.items ++ spec.open_end_if_any (kept.end_of version count)) }
{
    if count.connections > 0 {
        ends.push(OpenEnd {
            change: version + 1,
            connections: count.connections,
            longest_idle: count.longest_idle,
        })?;
    }
    Ok(())
}

/// Each of this many changes that some of these connections are away by.
fn open_ends_by(alloc: Global, versions: u32, away: &[Away]) -> Result<Vec<OpenEnd>, AllocError>
    ensures { IfOk result (λ ends. ends.items ≡ spec.open_ends_by away.now versions) }
{
    let counts = counts_of(alloc, versions, away)?;
    let mut ends = Vec::new(alloc);
    for version in 0..versions {
        push_if_any(&mut ends, version, counts[version as usize])?;
    }
    Ok(ends)
}

/// The connections of this table that are left open and away, by the changes of the stage's plan.
/// For each it goes over the moves of its bucket since that left its server. `Memory` where memory
/// was refused.
pub fn open_ends(alloc: Global, stage: &Stage, table: &[Connection]) -> Result<OpenEnds, Memory>
    requires { HasRanges stage.now }
    ensures changes { IfOk result (λ ends. ends.changes ≡ spec.open_ends stage.now table.now) }
    ensures connections { IfOk result
        (λ ends. ends.connections ≡ spec.open_count stage.now table.now) }
{
    let plan = &stage.script.plan;
    let moves = Moves::new(alloc, plan)?;
    let away = those_away(alloc, &moves, stage, table)?;
    let changes = open_ends_by(alloc, plan.versions(), away.as_slice())?;
    Ok(OpenEnds {
        changes: List::of(changes),
        connections: away.len() as u64,
    })
}

fn write_end(text: &mut String, end: &OpenEnd) -> Result<(), AllocError>
    ensures { OnOk result
        (string_bytes text.new ≡ string_bytes text.old ++ spec.open_end_line end.now) }
{
    let change = end.change;
    let connections = end.connections;
    let idle = SecondsText(end.longest_idle);
    writeln!(
        text,
        "open-at-end change {change} connections {connections} longest-idle {idle}"
    )
}

fn write_ends(text: &mut String, ends: &[OpenEnd]) -> Result<(), AllocError>
    ensures { OnOk result (string_bytes text.new
        ≡ string_bytes text.old ++ flat_map spec.open_end_line ends.now) }
{
    for end in ends {
        write_end(text, end)?;
    }
    Ok(())
}

/// A line for each of these changes.
pub fn open_ends_text(alloc: Global, ends: &[OpenEnd]) -> Result<Text, Memory>
    ensures { IfOk result (λ text. text ≡ flat_map spec.open_end_line ends.now) }
{
    let mut text = String::new(alloc);
    write_ends(&mut text, ends)?;
    Ok(Text::of(text))
}
