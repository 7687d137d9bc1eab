//! How many packets have a cause, and how many connections it broke or refused.
ghost use Rattle.std.specs.Prelude.{◌≡◌, ◌<◌, ◌^◌, ◌++◌, ◌∷◌, [], suc, filter, IfOk, OnOk};
ghost use Rattle.std.specs.Prelude.{count_by};
ghost use Rattle.bm_core.specs.declared.events.Cause.{Cause};
ghost use Rattle.bm_connections.specs.Connections.{one_more};
ghost use Rattle.bm_connections.specs.Counts as spec;
ghost use Rattle.bm_connections.specs.Inside.Packets as kept;

use crate::connection::{Break, Connection};
use bm_core::Cause;
use std::alloc::{AllocError, Global};

/// How many packets have a cause (a packet counts at each arrival with the cause), how many
/// connections it broke first, and how many it refused.
#[derive(Clone, Copy, PartialEq, Eq)]
pub struct CauseCount {
    pub cause: Cause,
    pub packets: u64,
    pub broken: u64,
    pub refused: u64,
}

/// All causes, in the order in which they are told.
const CAUSES: [Cause; 8] = [
    Cause::NeverAccepted,
    Cause::NotHeld,
    Cause::StaleMux,
    Cause::MovedThrice,
    Cause::ChainLate,
    Cause::SynElsewhere,
    Cause::Full,
    Cause::OldTable,
];

/// The place of a cause among all causes.
fn place_of(cause: Cause) -> usize
    ensures place { result ≡ spec.number cause }
    ensures below { result < 8 }
{
    cause as usize
}

pub(crate) fn is_cause(cause: Cause, found: Option<Cause>) -> bool
    ensures { result ≡ spec.is_cause cause found }
{
    match found {
        None => false,
        Some(found) => found == cause,
    }
}

fn is_break_by(cause: Cause, first: Option<Break>) -> bool
    ensures { result ≡ spec.is_break_by cause first }
{
    match first {
        None => false,
        Some(first) => is_cause(cause, first.cause),
    }
}

/// How many packets have each cause, after some events.
#[derive(Clone, Copy)]
pub(crate) struct CausePackets {
    /// By the place of the cause.
    counts: [u64; 8],
}

impl CausePackets {
    pub(crate) fn new() -> CausePackets
        ensures { (c : Cause) → kept.packets_in result c ≡ 0 }
    {
        CausePackets { counts: [0; 8] }
    }

    /// How many packets have the cause.
    fn of(&self, cause: Cause) -> u64
        ensures { result ≡ kept.packets_in self.now cause }
    {
        self.counts[place_of(cause)]
    }

    /// Records an event with this cause.
    pub(crate) fn observe(&mut self, cause: Option<Cause>)
        requires { (c : Cause) → suc (kept.packets_in self.old c) < 2 ^ 64 }
        ensures { (c : Cause) → kept.packets_in self.new c
            ≡ one_more (spec.is_cause c cause) (kept.packets_in self.old c) }
    {
        if let Some(cause) = cause {
            self.counts[place_of(cause)] += 1;
        }
    }
}

fn broken_by(table: &[Connection], cause: Cause) -> u64
    ensures { result ≡ count_by (λ x. spec.is_break_by cause x.broken) table.now }
{
    table
        .iter()
        .filter(|c| is_break_by(cause, c.broken))
        .count() as u64
}

fn refused_by(table: &[Connection], cause: Cause) -> u64
    ensures { result ≡ count_by (λ x. spec.is_break_by cause x.refused) table.now }
{
    table
        .iter()
        .filter(|c| is_break_by(cause, c.refused))
        .count() as u64
}

/// Appends the count of a cause that this many packets have, if there are any.
fn push_occurring(
    counts: &mut Vec<CauseCount>,
    table: &[Connection],
    packets: u64,
    cause: Cause,
) -> Result<(), AllocError>
    ensures { OnOk result (counts.new.items
        ≡ counts.old.items ++ filter spec.occurs (kept.count packets table.now cause ∷ [])) }
{
    if packets > 0 {
        counts.push(CauseCount {
            cause,
            packets,
            broken: broken_by(table, cause),
            refused: refused_by(table, cause),
        })?;
    }
    Ok(())
}

/// The counts of the causes that occur, by the packets that have them and the connections.
pub(crate) fn causes_in(
    alloc: Global,
    packets: &CausePackets,
    table: &[Connection],
) -> Result<Vec<CauseCount>, AllocError>
    ensures { IfOk result (λ counts. counts.items ≡ kept.causes_in packets.now table.now) }
{
    let mut counts = Vec::with_capacity(alloc, CAUSES.len())?;
    for cause in CAUSES {
        push_occurring(&mut counts, table, packets.of(cause), cause)?;
    }
    Ok(counts)
}
