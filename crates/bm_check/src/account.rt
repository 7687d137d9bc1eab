//! Whether a run is accounted for.
ghost use Rattle.std.specs.Prelude.{◌≡◌, ◌<◌, ◌^◌, ℕ, List, All, IfOk, length, reverse};
ghost use Rattle.std.specs.Bool.{Decides};
ghost use Rattle.bm_base.specs.declared.fate.Fate.{Fate};
ghost use Rattle.bm_base.specs.declared.flow.Flow.{Flow};
ghost use Rattle.bm_core.specs.Accounts.{IsAccountOf, IsRouted};
ghost use Rattle.bm_core.specs.Runs.{Run};
ghost use Rattle.bm_core.specs.Stages.{IsSound};
ghost use Rattle.bm_fault.specs.Faults.{Gives, IsRule};
ghost use Rattle.bm_route.specs.Routes.{Answers, IsRoute};
ghost use Rattle.bm_state.specs.Losses.{KeepsLosses};
ghost use Rattle.bm_state.specs.Tallies.{KeepsTallies};
ghost use Rattle.bm_check.specs.Inside.Copies.{IsOne};

use crate::copies::{are_sent, are_settled, are_steered};
use crate::orders::is_carried_out;
use bm_base::{Fate, Flow, Hop, Memory};
use bm_core::{Event, Stage, What};
use bm_fault::Faults;
use bm_route::Route;
use bm_state::{Losses, Tallies};
use std::alloc::Global;

/// Whether the event, if it is a Steer, is at the mux that the route gives.
fn routes<R: Fn(u32, &Flow) -> u16>(stage: &Stage, route: &Route<R>, what: What) -> bool
    requires route { IsRoute R.Fn route.now.rule route.now.muxes }
    requires sure { (k : ℕ) (f : Flow) (m n : ℕ) → Answers R.Fn route.now.rule k f m
        → Answers R.Fn route.now.rule k f n → m ≡ n }
    ensures { Decides result (IsRouted (Answers R.Fn route.now.rule) stage.now what) }
{
    match what {
        What::Steer { packet, mux } => match stage.segment(packet) {
            Some(segment) => route.mux_of(packet, &segment.flow).0 == mux.0,
            None => true,
        },
        What::Publish(_)
        | What::Switch { .. }
        | What::Lose { .. }
        | What::Arrive { .. }
        | What::Close { .. }
        | What::Retire { .. }
        | What::Sync => true,
    }
}

/// Whether each packet is steered to the mux that the route gives.
fn are_routed<R: Fn(u32, &Flow) -> u16>(stage: &Stage, route: &Route<R>, events: &[Event]) -> bool
    requires route { IsRoute R.Fn route.now.rule route.now.muxes }
    requires sure { (k : ℕ) (f : Flow) (m n : ℕ) → Answers R.Fn route.now.rule k f m
        → Answers R.Fn route.now.rule k f n → m ≡ n }
    ensures { Decides result
        (All (λ e. IsRouted (Answers R.Fn route.now.rule) stage.now e.what) events.now) }
{
    for event in events {
        if !routes(stage, route, event.what) {
            return false;
        }
    }
    true
}

/// Whether each packet, copy and command is accounted for.
pub(crate) fn is_accounted<R: Fn(u32, &Flow) -> u16, F: Fn(u32, Hop) -> Fate>(
    alloc: Global,
    stage: &Stage,
    route: &Route<R>,
    faults: &Faults<F>,
    tallies: &Tallies,
    losses: &Losses,
    events: &[Event],
) -> Result<bool, Memory>
    requires sound { IsSound stage.now }
    requires route { IsRoute R.Fn route.now.rule route.now.muxes }
    requires faults { IsRule F.Fn faults.now.rule }
    requires mux { (k : ℕ) (f : Flow) (m n : ℕ) → Answers R.Fn route.now.rule k f m
        → Answers R.Fn route.now.rule k f n → m ≡ n }
    requires fate { IsOne (Gives F.Fn faults.now.rule) }
    requires few { length events.now < 2 ^ 62 }
    requires run { Run stage.now (reverse events.now) }
    requires tallies { KeepsTallies (reverse events.now) tallies.now }
    requires losses { KeepsLosses (reverse events.now) losses.now }
    ensures { IfOk result (λ is. Decides is ((fates : List Fate)
        × IsAccountOf (Answers R.Fn route.now.rule) (Gives F.Fn faults.now.rule) stage.now fates
        (reverse events.now))) }
{
    if !are_sent(alloc, faults, events)? {
        return Ok(false);
    }
    if !are_steered(stage, tallies) {
        return Ok(false);
    }
    if !are_routed(stage, route, events) {
        return Ok(false);
    }
    if !are_settled(faults, tallies, losses, events) {
        return Ok(false);
    }
    let carried = is_carried_out(alloc, stage, events)?;
    Ok(carried)
}
