//! Whether events are a run.
ghost use Rattle.std.specs.Prelude.{◌<◌, ◌^◌, IfOk, length};
ghost use Rattle.bm_core.specs.Stages.{IsSound};
ghost use Rattle.bm_running.specs.FirstStop.{IsFollowed};

use crate::known::Known;
use bm_base::Memory;
use bm_core::{Event, Stage};
use bm_state::{Losses, Tallies};
use std::alloc::Global;

/// What following a stage's events finds: the number of the first that may not come, counted from
/// 1, or, if they are a run, what is known of the copies in it.
#[derive(Drop)]
pub enum Followed {
    Stops(usize),
    Runs(Tallies, Losses),
}

/// Follows the events, which stand in their order. `Memory` where memory was refused.
pub fn follow(alloc: Global, stage: &Stage, events: &[Event]) -> Result<Followed, Memory>
    requires sound { IsSound stage.now }
    requires few { length events.now < 2 ^ 63 }
    ensures { IfOk result (IsFollowed stage.now events.now) }
{
    let mut known = Known::new(alloc, stage)?;
    for (place, event) in events.iter().enumerate() {
        if !known.step(alloc, stage, event)? {
            return Ok(Followed::Stops(place + 1));
        }
    }
    let (tallies, losses) = known.into_copies();
    Ok(Followed::Runs(tallies, losses))
}
