//! The third changes that came too soon.
ghost use Rattle.std.specs.Prelude.{◌≡◌, ◌++◌, List, ℕ, OnOk, IfOk};
ghost use Rattle.bm_core.specs.declared.events.Event.{Event};
ghost use Rattle.bm_state.specs.Moves.{AreMoves};
ghost use Rattle.bm_trace.specs.Ranges.{HasRanges};
ghost use Rattle.bm_connections.specs.Inside.Needs.{need_in};
ghost use Rattle.bm_connections.specs.Thrice as spec;

use crate::moved::moved_before;
use crate::needs::{LongestNeeds, Need};
use bm_core::Stage;
use bm_hash::bucket_of;
use bm_state::Moves;
use std::alloc::{AllocError, Global};

/// Three changes that moved one bucket: after the third its server before the first is in no label
/// any more. `need` is how much later the third must come to be later than a connection's last
/// packet, which is the longest for this third change, and has the connection's flow.
#[derive(Clone, Copy, PartialEq, Eq)]
pub struct MovedThrice {
    pub first: u32,
    pub second: u32,
    pub third: u32,
    pub need: Need,
}

fn as_third(moves: &Moves, stage: &Stage, third: u32, need: Need) -> MovedThrice
    requires ranges { HasRanges stage.now }
    requires moves { AreMoves stage.now.script.plan moves.now }
    ensures { result ≡ spec.third_of stage.now third need }
{
    let bucket = bucket_of(&need.flow, stage.script.setting.buckets);
    let plan = &stage.script.plan;
    MovedThrice {
        first: moved_before(moves, plan, bucket, third, 2),
        second: moved_before(moves, plan, bucket, third, 1),
        third,
        need,
    }
}

/// Appends the change of this number, if it has a need.
fn push_third(
    list: &mut Vec<MovedThrice>,
    moves: &Moves,
    stage: &Stage,
    third: u32,
    need: Option<Need>,
) -> Result<(), AllocError>
    requires ranges { HasRanges stage.now }
    requires moves { AreMoves stage.now.script.plan moves.now }
    ensures { OnOk result
        (list.new.items ≡ list.old.items ++ spec.as_third stage.now third need) }
{
    if let Some(need) = need {
        list.push(as_third(moves, stage, third, need))?;
    }
    Ok(())
}

/// Those of the plan's changes that have a need, which must have come later.
pub(crate) fn moved_thrice(
    alloc: Global,
    moves: &Moves,
    stage: &Stage,
    needs: &LongestNeeds,
) -> Result<Vec<MovedThrice>, AllocError>
    requires ranges { HasRanges stage.now }
    requires moves { AreMoves stage.now.script.plan moves.now }
    ensures { (past : List Event)
        → ((n : ℕ) → need_in needs.now n ≡ spec.longest_of_third stage.now past n)
        → IfOk result (λ list. list.items ≡ spec.all_thirds stage.now past) }
{
    let mut list = Vec::new(alloc);
    for before in 0..stage.script.plan.versions() {
        let third = before + 1;
        push_third(&mut list, moves, stage, third, needs.get(third))?;
    }
    Ok(list)
}
