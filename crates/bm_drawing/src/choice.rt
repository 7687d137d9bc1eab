//! Which connections are drawn, and in which order.
ghost use Rattle.std.specs.Prelude.{◌≡◌, ◌++◌, ◌∷◌, [], IfOk, OnOk, count_by, take};
ghost use Rattle.std.specs.List.{list_any};
ghost use Rattle.bm_drawing.specs.Drawing as spec;

use crate::changes::Published;
use bm_base::List;
use bm_connections::Connection;
use std::alloc::{AllocError, Global};

/// The most connections that are drawn.
const MOST_ROWS: usize = 180;

/// What became of a connection, as far as changes touched it: broken, else refused, else forwarded,
/// else open at a change, or else untouched.
#[derive(Clone, Copy, PartialEq, Eq)]
pub(crate) enum Part {
    Broken,
    Refused,
    Forwarded,
    Across,
    Untouched,
}

/// The connections that are drawn, from above, and how many of those that changes touched, and of
/// those that none touched, aren't.
#[derive(Drop)]
pub(crate) struct Choice {
    pub(crate) rows: List<Connection>,
    pub(crate) cut: u64,
    pub(crate) folded: u64,
}

/// Whether the change comes after the connection's first packet, and not after its last.
fn is_across(c: &Connection, change: &Published) -> bool
    ensures { result ≡ spec.is_across c.now change.now }
{
    c.first.moment.0 < change.clock.0 && change.clock.0 <= c.last.moment.0
}

fn is_across_any(changes: &[Published], c: &Connection) -> bool
    ensures { result ≡ list_any (spec.is_across c.now) changes.now }
{
    changes.iter().any(|change| is_across(c, change))
}

fn part_of(changes: &[Published], c: &Connection) -> Part
    ensures { result ≡ spec.part_of changes.now c.now }
{
    if c.broken.is_some() {
        Part::Broken
    } else if c.refused.is_some() {
        Part::Refused
    } else if c.forwarded.is_some() {
        Part::Forwarded
    } else if is_across_any(changes, c) {
        Part::Across
    } else {
        Part::Untouched
    }
}

fn is_in(changes: &[Published], part: Part, c: &Connection) -> bool
    ensures { result ≡ spec.is_in changes.now part c.now }
{
    part_of(changes, c) == part
}

/// Appends the connection, if it is in the part.
fn push_if_in(
    rows: &mut Vec<Connection>,
    changes: &[Published],
    part: Part,
    c: &Connection,
) -> Result<(), AllocError>
    ensures { OnOk result
        (rows.new.items ≡ rows.old.items ++ spec.those changes.now part (c.now ∷ [])) }
{
    if is_in(changes, part, c) {
        rows.push(*c)?;
    }
    Ok(())
}

/// Appends the connections of a part.
fn push_those(
    rows: &mut Vec<Connection>,
    changes: &[Published],
    part: Part,
    table: &[Connection],
) -> Result<(), AllocError>
    ensures { OnOk result
        (rows.new.items ≡ rows.old.items ++ spec.those changes.now part table.now) }
{
    for connection in table {
        push_if_in(rows, changes, part, connection)?;
    }
    Ok(())
}

/// The connections that are touched.
fn touched(
    alloc: Global,
    changes: &[Published],
    table: &[Connection],
) -> Result<Vec<Connection>, AllocError>
    ensures { IfOk result (λ rows. rows.items ≡ spec.touched changes.now table.now) }
{
    let mut rows = Vec::new(alloc);
    push_those(&mut rows, changes, Part::Broken, table)?;
    push_those(&mut rows, changes, Part::Refused, table)?;
    push_those(&mut rows, changes, Part::Forwarded, table)?;
    push_those(&mut rows, changes, Part::Across, table)?;
    Ok(rows)
}

/// How many connections no change touched.
fn untouched(changes: &[Published], table: &[Connection]) -> u64
    ensures { result ≡ count_by (spec.is_in changes.now Part.Untouched) table.now }
{
    table
        .iter()
        .filter(|c| is_in(changes, Part::Untouched, c))
        .count() as u64
}

/// All connections.
fn all_of(alloc: Global, changes: &[Published], table: &[Connection]) -> Result<Choice, AllocError>
    ensures { IfOk result (λ choice. choice ≡ spec.all_of changes.now table.now) }
{
    let mut rows = touched(alloc, changes, table)?;
    push_those(&mut rows, changes, Part::Untouched, table)?;
    Ok(Choice {
        rows: List::of(rows),
        cut: 0,
        folded: 0,
    })
}

/// Keeps the first connections.
fn keep_first(rows: &mut Vec<Connection>)
    ensures { rows.new.items ≡ take spec.most_rows rows.old.items }
{
    rows.truncate(MOST_ROWS);
}

/// The first connections that are touched, and how many more there are.
fn first_of(
    alloc: Global,
    changes: &[Published],
    table: &[Connection],
) -> Result<Choice, AllocError>
    ensures { IfOk result (λ choice. choice ≡ spec.first_of changes.now table.now) }
{
    let mut rows = touched(alloc, changes, table)?;
    let cut = rows.len().saturating_sub(MOST_ROWS) as u64;
    keep_first(&mut rows);
    let folded = untouched(changes, table);
    Ok(Choice {
        rows: List::of(rows),
        cut,
        folded,
    })
}

pub(crate) fn choice_of(
    alloc: Global,
    changes: &[Published],
    table: &[Connection],
) -> Result<Choice, AllocError>
    ensures { IfOk result (λ choice. choice ≡ spec.choice_of changes.now table.now) }
{
    if table.len() <= MOST_ROWS {
        all_of(alloc, changes, table)
    } else {
        first_of(alloc, changes, table)
    }
}
