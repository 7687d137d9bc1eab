//! A plan with one move.
ghost use Rattle.std.specs.Prelude.{◌≡◌, Some, IfOk};
ghost use Rattle.bm_table.specs.Tables.{next_change};
ghost use Rattle.bm_mux.specs.Muxes.{HasServers};

use bm_base::{List, Memory, Moment, ServerId, Version};
use bm_table::{Change, Kind, Move, Plan};
use std::alloc::Global;

/// 8 buckets on servers 1 and 2; a change at 500 moves bucket 4 from server 1 to server 2.
pub(crate) fn one_move(alloc: Global) -> Result<Plan, Memory>
    ensures buckets { IfOk result (λ plan. plan.buckets ≡ 8) }
    ensures servers { IfOk result HasServers }
{
    let servers = [ServerId(1), ServerId(2)];
    let mut plan = Plan::new(alloc, 8, servers.as_slice())?;
    let moved = Move {
        bucket: 4,
        to: ServerId(2),
    };
    let change = Change {
        moment: Moment(500),
        kind: Kind::Shift,
        moves: List::of(vec![in alloc; moved]?),
    };
    match plan.push(change) {
        Ok(()) => Ok(plan),
        Err(_) => Err(Memory),
    }
}

/// The plan's first change.
pub(crate) fn first_change(plan: &Plan) -> Result<Change, Memory>
    ensures { IfOk result (λ change. next_change plan.now 0 ≡ Some change) }
{
    if plan.versions() < 1 {
        return Err(Memory);
    }
    plan.copy_change(Version(1))
}
