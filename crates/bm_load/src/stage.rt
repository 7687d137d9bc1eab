//! The stage of the load.
ghost use Rattle.std.specs.Prelude.{◌≡◌, ◌≤◌, IfOk};
ghost use Rattle.bm_controller.specs.Membership.{KeepsMembership};
ghost use Rattle.bm_core.specs.Stages.{IsSound};
ghost use Rattle.bm_link.specs.Fits.{ArePackets};
ghost use Rattle.bm_load.specs.Load as load;
ghost use Rattle.bm_quota.specs.declared.refusal.Refusal.TheVariants.{Memory as memory};

use crate::packets::records;
use bm_base::{Capture, List, Memory, Moment, Octets, ServerId, Version, Vip};
use bm_controller::Controller;
use bm_core::Stage;
use bm_quota::Refusal;
use bm_table::{Command, Plan, RouteKind, Script, Setting};
use std::alloc::Global;

/// The servers before one is added.
const SERVERS: [ServerId; 4] = [ServerId(1), ServerId(2), ServerId(3), ServerId(4)];

/// Their weights.
const WEIGHTS: [u32; 4] = [1, 1, 1, 1];

fn load_setting(alloc: Global) -> Result<Setting, Memory>
    ensures { IfOk result (λ setting. setting ≡ load.load_setting) }
{
    Ok(Setting {
        buckets: 64,
        servers: List::of(Vec::from_slice(alloc, &SERVERS)?),
        racks: 1,
        muxes: 4,
        shards: 4,
        capacity: 65_536,
        timeout: 240_000_000_000,
        vips: List::of(vec![in alloc;
            Vip {
                addr: 0xc000_0201,
                port: 80
            },
        ]?),
        route: RouteKind::Port,
        lags: List::of(vec![in alloc; 0, 0, 0, 0]?),
        faults: List::of(Vec::new(alloc)),
    })
}

/// Server 5 is added at the moment of the third round's first packet.
#[tactic(auto, unfolding(crate::specs::Load::load_plan))]
fn load_plan(alloc: Global, n: u32) -> Result<Plan, Memory>
    requires { (1 ≤ n) × (n ≤ 20000) }
    ensures plan { IfOk result (λ plan. plan ≡ load.load_plan n) }
    ensures membership { IfOk result KeepsMembership }
{
    let mut controller = Controller::new(alloc, 64, &SERVERS, &WEIGHTS)?;
    match controller.add(Moment(u64::from(n) * 2_000), ServerId(5), 1) {
        Ok(()) => Ok(controller.into_plan()),
        Err(refusal) => Err(want(refusal)),
    }
}

/// Refused memory, the only refusal possible here.
fn want(_refusal: Refusal) -> Memory
    requires { _refusal ≡ memory }
{
    Memory
}

/// The load of n connections, and the packet of each of its records. Each connection opens, sends
/// 100 octets twice, and ends, through one mux; at the moment of the third round's first packet a
/// server is added. `Memory` where memory was refused.
pub fn load_stage(alloc: Global, n: u32) -> Result<(Stage, Octets), Memory>
    requires { (1 ≤ n) × (n ≤ 20000) }
    ensures stage { IfOk result (λ made. made.0 ≡ load.load_of n) }
    ensures octets { IfOk result (λ made. made.1 ≡ load.load_packets n) }
    ensures sound { IfOk result (λ made. IsSound made.0) }
    ensures packets { IfOk result (λ made. ArePackets made.0.capture.records made.1) }
{
    let (records, packets) = records(alloc, n)?;
    let script = Script {
        setting: load_setting(alloc)?,
        plan: load_plan(alloc, n)?,
        commands: List::of(vec![in alloc; Command::Change(Version(1))]?),
    };
    let capture = Capture { records, cut: None };
    Ok((Stage { script, capture }, packets))
}
