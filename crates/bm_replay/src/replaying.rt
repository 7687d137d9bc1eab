//! The replay of a stage.
ghost use Rattle.std.specs.Prelude.{◌≡◌, ◌≤◌, IfOk, OnOk, false, length, true};
ghost use Rattle.bm_core.specs.Histories.{IsReplay};
ghost use Rattle.bm_core.specs.Stages.{IsSound};
ghost use Rattle.bm_fault.specs.Faults.{Gives, IsRule};
ghost use Rattle.bm_link.specs.Fits.{ArePackets};
ghost use Rattle.bm_replay.specs.Inside.Playing.{HasStepped, IsPlaying};
ghost use Rattle.bm_route.specs.Routes.{Answers, IsRoute};

use crate::carrier::Carrier;
use crate::player::Player;
use bm_base::{Fate, Flow, Hop, Memory, Octets};
use bm_core::{History, Stage};
use bm_fault::Faults;
use bm_route::Route;
use std::alloc::Global;

/// The history of the stage's replay: a run that follows the script, with the muxes that the route
/// answers and the fates that the impairment rule gives, and in which every packet, copy and
/// command is accounted for. `octets` has the packet of each record, and frees them as they are
/// replayed. `Memory` where memory was refused.
pub fn replay<R: Fn(u32, &Flow) -> u16, F: Fn(u32, Hop) -> Fate>(
    alloc: Global,
    stage: Stage,
    octets: Octets,
    route: &Route<R>,
    faults: &Faults<F>,
) -> Result<History, Memory>
    requires sound { IsSound stage }
    requires packets { ArePackets stage.capture.records octets }
    requires route { IsRoute R.Fn route.now.rule route.now.muxes }
    requires muxes { route.now.muxes ≡ stage.script.setting.muxes }
    requires faults { IsRule F.Fn faults.now.rule }
    ensures stage { IfOk result (λ h. h.stage ≡ stage) }
    ensures replay { IfOk result
        (IsReplay (Answers R.Fn route.now.rule) (Gives F.Fn faults.now.rule)) }
{
    let (history, _) = played(alloc, stage, octets, false, route, faults)?;
    Ok(history)
}

/// The same history, and all of `octets`: no packet is freed. It has at most 12,259,840 events.
pub fn replay_keeping<R: Fn(u32, &Flow) -> u16, F: Fn(u32, Hop) -> Fate>(
    alloc: Global,
    stage: Stage,
    octets: Octets,
    route: &Route<R>,
    faults: &Faults<F>,
) -> Result<(History, Octets), Memory>
    requires sound { IsSound stage }
    requires packets { ArePackets stage.capture.records octets }
    requires route { IsRoute R.Fn route.now.rule route.now.muxes }
    requires muxes { route.now.muxes ≡ stage.script.setting.muxes }
    requires faults { IsRule F.Fn faults.now.rule }
    ensures stage { IfOk result (λ r. r.0.stage ≡ stage) }
    ensures octets { IfOk result (λ r. r.1 ≡ octets) }
    ensures few { IfOk result (λ r. length r.0.events ≤ 12259840) }
    ensures replay { IfOk result
        (λ r. IsReplay (Answers R.Fn route.now.rule) (Gives F.Fn faults.now.rule) r.0) }
{
    played(alloc, stage, octets, true, route, faults)
}

/// The history of the stage's replay. `octets` come with it, those that aren't freed; if all are
/// kept, none is.
fn played<R: Fn(u32, &Flow) -> u16, F: Fn(u32, Hop) -> Fate>(
    alloc: Global,
    stage: Stage,
    octets: Octets,
    keeps_all: bool,
    route: &Route<R>,
    faults: &Faults<F>,
) -> Result<(History, Octets), Memory>
    requires sound { IsSound stage }
    requires packets { ArePackets stage.capture.records octets }
    requires route { IsRoute R.Fn route.now.rule route.now.muxes }
    requires muxes { route.now.muxes ≡ stage.script.setting.muxes }
    requires faults { IsRule F.Fn faults.now.rule }
    ensures stage { IfOk result (λ r. r.0.stage ≡ stage) }
    ensures octets { IfOk result (λ r. keeps_all ≡ true → r.1 ≡ octets) }
    ensures few { IfOk result (λ r. length r.0.events ≤ 12259840) }
    ensures replay { IfOk result
        (λ r. IsReplay (Answers R.Fn route.now.rule) (Gives F.Fn faults.now.rule) r.0) }
{
    let mut player = Player::new(alloc, stage, octets)?;
    play(alloc, &mut player, keeps_all, route, faults)?;
    Ok(player.into_parts())
}

/// Plays to the end. Packets that are no longer needed are freed, unless all are kept.
fn play<R: Fn(u32, &Flow) -> u16, F: Fn(u32, Hop) -> Fate>(
    alloc: Global,
    player: &mut Player,
    keeps_all: bool,
    route: &Route<R>,
    faults: &Faults<F>,
) -> Result<(), Memory>
    requires playing { IsPlaying (Answers R.Fn route.now.rule) (Gives F.Fn faults.now.rule)
        player.old }
    requires route { IsRoute R.Fn route.now.rule route.now.muxes }
    requires muxes { route.now.muxes ≡ player.old.stage.script.setting.muxes }
    requires faults { IsRule F.Fn faults.now.rule }
    ensures stage { OnOk result (player.new.stage ≡ player.old.stage) }
    ensures packets { OnOk result (keeps_all ≡ true → player.new.packets ≡ player.old.packets) }
    ensures few { OnOk result (length player.new.events ≤ 12259840) }
    ensures replay { OnOk result (IsReplay (Answers R.Fn route.now.rule) (Gives F.Fn faults.now.rule)
        (record { stage = player.new.stage; events = player.new.events })) }
{
    let mut carrier = Carrier::empty(alloc);
    while player.step(&mut carrier, route, faults)? {
        if keeps_all {
            continue;
        }
        player.let_go();
    }
    Ok(())
}
