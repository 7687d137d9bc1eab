//! Batches through one mux.
ghost use Rattle.std.specs.Prelude.{◌≡◌, ◌≤◌, All, IfOk, length};
ghost use Rattle.bm_mux.specs.Muxes.{HasServers, IsItem};

use crate::plan::opening_plan;
use bm_base::{Flow, Memory, Moment, MuxId, Segment};
use bm_mux::{Mux, MuxItem};
use bm_publish::{Look, board};
use std::alloc::Global;
use std::sync::Wait;

/// 256 packets from as many ports.
fn make_items<'a>(alloc: Global, inner: &'a [u8]) -> Result<Vec<MuxItem<'a>>, Memory>
    requires { length inner.now ≤ 65479 }
    ensures count { IfOk result (λ items. length items.items ≤ 256) }
    ensures items { IfOk result (λ items. All IsItem items.items) }
{
    let mut items = Vec::with_capacity(alloc, 256)?;
    for packet in 0..256u16 {
        let flow = Flow {
            src: 0x0a00_0001,
            dst: 0xc000_0201,
            sport: packet,
            dport: 80,
        };
        let segment = Segment {
            flow,
            seq: 1,
            ack: 1,
            len: 1,
            flags: 0x18,
        };
        items.push(MuxItem {
            packet: u32::from(packet),
            moment: Moment(0),
            segment,
            inner,
        })?;
    }
    Ok(items)
}

/// Steers these batches, and counts what is sent.
fn steer(alloc: Global, look: Look, items: &[MuxItem<'_>], batches: u32) -> Result<u64, Memory>
    requires buckets { look.plan.buckets ≡ 65536 }
    requires servers { HasServers look.plan }
    requires few { length items.now ≤ 256 }
    requires items { All IsItem items.now }
{
    let mut mux = Mux::new(alloc, MuxId(0), look, 65_536);
    let mut out = Vec::with_capacity(alloc, 256)?;
    let mut sent = 0u64;
    for _ in 0..batches {
        mux.batch(items, &mut out)?;
        sent = sent.saturating_add(out.len() as u64);
        out.clear();
    }
    Ok(sent)
}

/// How many packets are sent in this many batches of 256 packets of this many octets.
pub fn steer_batches<R: Wait>(
    rt: &R,
    alloc: Global,
    batches: u32,
    octets: u16,
) -> Result<u64, Memory>
    requires { octets ≤ 1500 }
{
    let plan = opening_plan(alloc, 65_536)?;
    let inner = Vec::from_elem(alloc, 0u8, usize::from(octets))?;
    let items = make_items(alloc, &inner)?;
    let (poster, mut looks) = board(rt, alloc, &plan, 1)?;
    let sent = match looks.pop() {
        Some(look) => steer(alloc, look, &items, batches),
        None => Err(Memory),
    };
    poster.end(rt);
    sent
}
