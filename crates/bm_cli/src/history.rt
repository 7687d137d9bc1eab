//! The history of a stage.
ghost use Rattle.std.specs.Prelude.{◌≡◌, ◌<◌, ◌≤◌, IfOk, length, true};
ghost use Rattle.bm_core.specs.Rules.{fate_in, mux_of_kind};
ghost use Rattle.bm_core.specs.Stages.{IsSound};
ghost use Rattle.bm_link.specs.Fits.{ArePackets};
ghost use Rattle.bm_cli.specs.Headline.{IsMadeBy};

use crate::mode::Mode;
use bm_base::{Fate, Flow, Hop, Memory, Octets};
use bm_core::{History, Stage};
use bm_fault::{FaultRows, Faults};
use bm_io::{Gate, OpenGate};
use bm_replay::{replay, replay_keeping};
use bm_route::{Route, setting_mux};
use bm_world::run_threads;
use std::alloc::Global;
use std::sync::Wait;
use std::thread::Threads;

/// The history of the stage, played by the route and the impairment rule of its setting. `packets`
/// has the packet of each record, and is dropped.
pub(crate) fn history_of<R: Threads + Wait + Sync, G: Gate>(
    rt: &R,
    alloc: Global,
    mode: Mode,
    stage: Stage,
    packets: Octets,
    gate: &G,
) -> Result<History, Memory>
    requires sound { IsSound stage }
    requires packets { ArePackets stage.capture.records packets }
    ensures about { IfOk result (λ h. h.stage ≡ stage) }
    ensures made { IfOk result (IsMadeBy mode stage) }
{
    let (history, _) = played(rt, alloc, mode, false, stage, packets, gate)?;
    Ok(history)
}

/// The replay of the stage, by the route and the impairment rule of its setting. `packets` has the
/// packet of each record, and is freed as they are replayed.
pub fn replay_stage<R: Threads + Wait + Sync>(
    rt: &R,
    alloc: Global,
    stage: Stage,
    packets: Octets,
) -> Result<History, Memory>
    requires sound { IsSound stage }
    requires packets { ArePackets stage.capture.records packets }
    ensures about { IfOk result (λ h. h.stage ≡ stage) }
    ensures made { IfOk result (IsMadeBy Mode.Replay stage) }
{
    history_of(rt, alloc, Mode::Replay, stage, packets, &OpenGate)
}

/// The replay of the stage, by the route and the impairment rule of its setting, with `packets`,
/// which has the packet of each record.
pub fn replay_with_packets<R: Threads + Wait + Sync>(
    rt: &R,
    alloc: Global,
    stage: Stage,
    packets: Octets,
) -> Result<(History, Octets), Memory>
    requires sound { IsSound stage }
    requires packets { ArePackets stage.capture.records packets }
    ensures about { IfOk result (λ r. r.0.stage ≡ stage) }
    ensures made { IfOk result (λ r. IsMadeBy Mode.Replay stage r.0) }
    ensures kept { IfOk result (λ r. (r.1 ≡ packets) × (length r.0.events ≤ 12259840)) }
{
    played(rt, alloc, Mode::Replay, true, stage, packets, &OpenGate)
}

/// The history of the stage. A replay that keeps the packets returns them with it.
fn played<R: Threads + Wait + Sync, G: Gate>(
    rt: &R,
    alloc: Global,
    mode: Mode,
    keeps: bool,
    stage: Stage,
    packets: Octets,
    gate: &G,
) -> Result<(History, Octets), Memory>
    requires sound { IsSound stage }
    requires packets { ArePackets stage.capture.records packets }
    ensures about { IfOk result (λ r. r.0.stage ≡ stage) }
    ensures made { IfOk result (λ r. IsMadeBy mode stage r.0) }
    ensures kept { IfOk result (λ r. mode ≡ Mode.Replay → keeps ≡ true →
        (r.1 ≡ packets) × (length r.0.events ≤ 12259840)) }
{
    let setting = &stage.script.setting;
    let (kind, muxes) = (setting.route, setting.muxes);
    let rows = FaultRows::new(alloc, setting.faults.items())?;
    let route = Route::new(
        |packet: u32, flow: &Flow| -> u16
            requires { 0 < muxes }
            ensures mux { result ≡ mux_of_kind kind muxes packet flow.now }
            ensures below { result < muxes }
        { setting_mux(kind, muxes, packet, flow) },
        muxes,
    );
    let faults = Faults::new(
        |packet: u32, hop: Hop| -> Fate
            ensures { result ≡ fate_in rows packet hop }
        { rows.fate(packet, hop) },
    );
    match mode {
        Mode::Replay => {
            if keeps {
                return replay_keeping(alloc, stage, packets, &route, &faults);
            }
            let history = replay(alloc, stage, packets, &route, &faults)?;
            Ok((history, Octets::new(alloc)))
        }
        Mode::Run => {
            let history = run_threads(rt, alloc, stage, packets, &route, &faults, gate)?;
            Ok((history, Octets::new(alloc)))
        }
    }
}
