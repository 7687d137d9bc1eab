//! The mux of each packet.
ghost use Rattle.std.specs.Prelude.{◌≤◌, length, IfOk};
ghost use Rattle.bm_route.specs.Routes.{Answers, IsRoute};
ghost use Rattle.bm_world.specs.Inside.Routed.{AreGiven, IsGivenTo};

use bm_base::{Flow, Memory, MuxId};
use bm_core::Stage;
use bm_route::Route;
use std::alloc::Global;

/// The mux of a packet, if it is steerable. The route is asked once.
fn mux_of_packet<R: Fn(u32, &Flow) -> u16>(
    stage: &Stage,
    route: &Route<R>,
    packet: u32,
) -> Option<MuxId>
    requires route { IsRoute R.Fn route.now.rule route.now.muxes }
    ensures { IsGivenTo (Answers R.Fn route.now.rule) stage.now route.now.muxes packet result }
{
    let segment = stage.segment(packet)?;
    Some(route.mux_of(packet, &segment.flow))
}

/// The mux of each packet: place i is for packet i + 1. The route is asked once for each.
pub(crate) fn route_all<R: Fn(u32, &Flow) -> u16>(
    alloc: Global,
    stage: &Stage,
    route: &Route<R>,
) -> Result<Vec<Option<MuxId>>, Memory>
    requires route { IsRoute R.Fn route.now.rule route.now.muxes }
    requires few { length stage.now.capture.records ≤ 200000 }
    ensures { IfOk result
        (λ routes. AreGiven (Answers R.Fn route.now.rule) stage.now route.now.muxes routes.items) }
{
    let count = stage.capture.records.items().len() as u32;
    let mut routes = Vec::with_capacity(alloc, count as usize)?;
    for place in 0..count {
        routes.push(mux_of_packet(stage, route, place + 1))?;
    }
    Ok(routes)
}
