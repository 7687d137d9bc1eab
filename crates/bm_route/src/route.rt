//! A rule for the mux of each packet, with the fact that its answers are muxes.
ghost use Rattle.std.specs.Prelude.{◌≡◌, ◌<◌};
ghost use Rattle.bm_route.specs.Routes as routes;
ghost use Rattle.bm_route.specs.Routes.{Answers, IsRoute};

use bm_base::{Flow, MuxId};
use bm_table::RouteKind;

/// A rule that assigns each packet, by its number and its flow, to one of `muxes` muxes.
#[derive(Drop)]
pub struct Route<F> {
    pub rule: F,
    pub muxes: u16,
}

impl<F: Fn(u32, &Flow) -> u16> Route<F> {
    /// The route by a rule whose answers are all below `muxes`.
    pub fn new(f: F, muxes: u16) -> Route<F>
        requires { IsRoute F.Fn f muxes }
        ensures value { (result.rule ≡ f) × (result.muxes ≡ muxes) }
        ensures route { IsRoute F.Fn result.rule result.muxes }
    {
        Route { rule: f, muxes }
    }

    /// The mux of this packet, by the rule.
    pub fn mux_of(&self, packet: u32, flow: &Flow) -> MuxId
        requires { IsRoute F.Fn self.now.rule self.now.muxes }
        ensures answer { Answers F.Fn self.now.rule packet flow.now result.0 }
        ensures below { result.0 < self.now.muxes }
    {
        MuxId((self.rule)(packet, flow))
    }
}

/// The mux to which a setting's route assigns a packet: by the source port of its flow, or by its
/// number.
pub fn setting_mux(kind: RouteKind, muxes: u16, packet: u32, flow: &Flow) -> u16
    requires { 0 < muxes }
    ensures mux { result ≡ routes.mux_of_kind kind muxes packet flow.now }
    ensures below { result < muxes }
{
    match kind {
        RouteKind::Port => flow.sport % muxes,
        RouteKind::Turn => (packet % u32::from(muxes)) as u16,
    }
}
