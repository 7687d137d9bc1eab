//! A mux before and after a post.
ghost use Rattle.std.specs.Prelude.{◌≡◌, ◌<◌, ◌≤◌, Some, All, length};
ghost use Rattle.bm_table.specs.Tables.{next_change};
ghost use Rattle.bm_publish.specs.Posts.{last_post, last_version};
ghost use Rattle.bm_mux.specs.Muxes.{HasServers, IsItem};

use crate::packets::FLOW;
use crate::plans::{first_change, one_move};
use bm_base::{Hop, Memory, Moment, MuxId, Segment, Version};
use bm_core::{Event, Log, What};
use bm_mux::{Mux, MuxItem, Steered};
use bm_publish::{Look, Poster, board};
use bm_table::Change;
use std::alloc::Global;
use std::process::Abort;
use std::sync::Wait;

/// A segment of 10 octets from 10.0.0.1:1000 to 192.0.2.1:80, whose bucket of 8 is 4.
const DATA: [u8; 50] = [
    0x45, 0x00, 0x00, 0x32, 0x00, 0x00, 0x40, 0x00, 0x40, 0x06, 0x00, 0x00, 0x0a, 0x00, 0x00, 0x01,
    0xc0, 0x00, 0x02, 0x01, 0x03, 0xe8, 0x00, 0x50, 0x00, 0x00, 0x00, 0x65, 0x00, 0x00, 0x01, 0xf5,
    0x50, 0x18, 0xff, 0xff, 0x00, 0x00, 0x00, 0x00, 0x61, 0x62, 0x63, 0x64, 0x65, 0x66, 0x67, 0x68,
    0x69, 0x6a,
];

/// The header before it, direct to server 2 at version 1, where server 1 had the bucket until 500.
const DIRECT: [u8; 56] = [
    0x4e, 0x00, 0x00, 0x6a, 0x00, 0x00, 0x40, 0x00, 0x40, 0x04, 0x8d, 0x32, 0xac, 0x1f, 0x00, 0x00,
    0xac, 0x10, 0x00, 0x02, 0x9e, 0x24, 0x00, 0x01, 0xac, 0x10, 0x00, 0x01, 0x00, 0x00, 0x00, 0x00,
    0x00, 0x00, 0x01, 0xf4, 0x00, 0x00, 0x00, 0x00, 0x00, 0x00, 0x00, 0x00, 0x00, 0x00, 0x00, 0x00,
    0x00, 0x00, 0x00, 0x01, 0x00, 0x00, 0x00, 0x00,
];

const SEGMENT: Segment = Segment {
    flow: FLOW,
    seq: 101,
    ack: 501,
    len: 10,
    flags: 0x18,
};

fn item(packet: u32, moment: Moment) -> MuxItem<'static>
    requires { moment.0 ≤ 1000 }
    ensures { IsItem result }
{
    MuxItem {
        packet,
        moment,
        segment: SEGMENT,
        inner: &DATA,
    }
}

/// 256 items at 1,000.
fn full_batch(rt: &impl Abort, alloc: Global) -> Vec<MuxItem<'static>>
    ensures count { length result.items ≤ 256 }
    ensures items { All IsItem result.items }
{
    let mut items = Vec::with_capacity(alloc, 256).expect(rt, "memory");
    for packet in 0..256u32 {
        items.push(item(packet, Moment(1_000))).expect(rt, "memory");
    }
    items
}

/// A mux begins, steers packet 1, and after a post packet 2, whose copies are lost, and 256 more.
fn steer_beside_a_post<R: Abort + Wait>(
    rt: &R,
    alloc: Global,
    poster: &mut Poster,
    look: Look,
    change: Change,
) -> (Moment, Log, Vec<Steered>)
    requires board { look ≡ poster.old }
    requires buckets { look.plan.buckets ≡ 8 }
    requires servers { HasServers look.plan }
    requires next { next_change poster.old.plan (last_version poster.old) ≡ Some change }
    requires later { last_post poster.old < 501 }
{
    let mut out = Vec::new(alloc);
    let mut mux = Mux::new(alloc, MuxId(0), look, 8);
    mux.begin(poster.snapshot(), Moment(0)).expect(rt, "memory");
    mux.batch(&[item(1, Moment(0))], &mut out)
        .expect(rt, "memory");
    poster.post(rt, change, Moment(501)).expect(rt, "memory");
    mux.batch(&[item(2, Moment(1_000))], &mut out)
        .expect(rt, "memory");
    mux.batch(&[], &mut out).expect(rt, "memory");
    let clock = mux.clock();
    mux.lost(2, Hop::Direct, clock).expect(rt, "memory");
    let items = full_batch(rt, alloc);
    mux.batch(items.as_slice(), &mut out).expect(rt, "memory");
    let log = mux.into_log(poster);
    (clock, log, out)
}

fn day<R: Abort + Wait>(rt: &R, alloc: Global) -> Result<(Moment, Log, Vec<Steered>), Memory> {
    let plan = one_move(alloc)?;
    let change = first_change(&plan)?;
    let (mut poster, mut looks) = board(rt, alloc, &plan, 1)?;
    let seen = match looks.pop() {
        Some(look) => Ok(steer_beside_a_post(rt, alloc, &mut poster, look, change)),
        None => Err(Memory),
    };
    poster.end(rt);
    seen
}

fn at(clock: u64, what: What) -> Event {
    Event {
        clock: Moment(clock),
        what,
    }
}

fn switch(version: u32) -> What {
    What::Switch {
        mux: MuxId(0),
        version: Version(version),
    }
}

fn steer(packet: u32) -> What {
    What::Steer {
        packet,
        mux: MuxId(0),
    }
}

/// The mux switches at each version, and steers and loses what it was given.
fn assert_log(rt: &impl Abort, log: &[Event]) {
    let lost = What::Lose {
        packet: 2,
        hop: Hop::Direct,
    };
    let want = [
        at(1, switch(0)),
        at(2, steer(1)),
        at(502, switch(1)),
        at(1_001, steer(2)),
        at(1_002, lost),
    ];
    assert!(rt; log.starts_with(&want));
    assert!(rt; log.len() == 261);
}

/// The second copy has the header of the new servers.
fn assert_sent(rt: &impl Abort, out: &[Steered]) {
    assert!(rt; out.len() == 258);
    let octets = out[1].octets.items();
    assert!(rt; octets.starts_with(&DIRECT));
    assert!(rt; octets.ends_with(&DATA));
    assert!(rt; octets.len() == 106);
}

#[test]
fn a_batch_after_a_post_switches_and_writes_the_new_servers(rt: HostRuntime) {
    let (clock, log, out) = day(&rt, rt.alloc()).expect(&rt, "memory");
    assert!(rt; clock == Moment(1_001));
    assert_log(&rt, log.items());
    assert_sent(&rt, &out);
}
