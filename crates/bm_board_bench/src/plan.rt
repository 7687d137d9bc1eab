//! The plans.
ghost use Rattle.std.specs.Prelude.{◌≡◌, ◌≤◌, [], ◌∷◌, IfOk};

use bm_base::{List, Memory, Moment, ServerId};
use bm_table::{Change, Kind, Move, Plan};
use std::alloc::Global;

/// A plan of this many buckets, on servers 1 and 2, without changes.
pub fn opening_plan(alloc: Global, buckets: u32) -> Result<Plan, Memory>
    requires buckets { (1 ≤ buckets) × (buckets ≤ 65536) }
    ensures { IfOk result (λ plan. plan ≡ record {
      buckets = buckets;
      servers = record { 0 = 1 } ∷ record { 0 = 2 } ∷ [];
      changes = [];
    }) }
{
    Plan::new(alloc, buckets, [ServerId(1), ServerId(2)].as_slice())
}

/// A plan of this many buckets, where 4,096 changes move bucket 0 to server 2 and back.
pub fn moving_plan(alloc: Global, buckets: u32) -> Result<Plan, Memory>
    requires buckets { (1 ≤ buckets) × (buckets ≤ 65536) }
{
    let mut plan = opening_plan(alloc, buckets)?;
    for number in 0..4_096u64 {
        let to = if number % 2 == 0 { 2 } else { 1 };
        let moved = Move {
            bucket: 0,
            to: ServerId(to),
        };
        let change = Change {
            moment: Moment(number),
            kind: Kind::Shift,
            moves: List::of(vec![in alloc; moved]?),
        };
        plan.push(change).map_err(|_| Memory)?;
    }
    Ok(plan)
}
