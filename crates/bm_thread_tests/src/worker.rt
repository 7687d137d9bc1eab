//! Two muxes in parallel.
ghost use Rattle.std.specs.Prelude.{◌≡◌, ℕ, ◌+◌, ◌*◌, ◌^◌, ◌<◌, [], ◌∷◌, ◌++◌, List, All, IfOk};
ghost use Rattle.std.specs.Prelude.{OnOk};
ghost use Rattle.std.specs.Prelude.{Option, Some, true, is_some, length, slice_get};
ghost use Rattle.bm_base.specs.declared.ids.MuxId.{MuxId as MuxNumber};
ghost use Rattle.bm_base.specs.Captures.{IsFit, IsReplayable, steerable};
ghost use Rattle.bm_core.specs.Stages.{IsSound};
ghost use Rattle.bm_link.specs.Fits.{ArePackets, IsPacketOf};
ghost use Rattle.bm_server.specs.Seats.{IsNewSeat};
ghost use Rattle.bm_table.specs.Settings.{plain_setting};
ghost use Rattle.bm_worker.specs.WorkerNotes.{AreServersOf};
ghost use Rattle.bm_worker.specs.Phases.{CanWork};

use crate::packets::syn;
use crate::vectors::alone;
use bm_base::{
    Body, Capture, Fate, Hop, List, Memory, Moment, MuxId, Octets, Record, ServerId, Vip,
};
use bm_core::Stage;
use bm_fault::Faults;
use bm_io::OpenGate;
use bm_link::classify;
use bm_mux::Mux;
use bm_publish::{Look, Poster, board};
use bm_server::{Server, ServerSeat};
use bm_table::{Plan, Script, Setting};
use bm_worker::{Caller, MuxWorker, Shared, Span, work_all};
use std::alloc::Global;
use std::process::Abort;
use std::sync::Wait;
use std::thread::Threads;

/// The record of a SYN from this port, whose packet is added after the others.
fn add_syn(sport: u16, packets: &mut Octets) -> Result<Record, Memory>
    requires { length packets.old < 2 }
    ensures fit { IfOk result (λ r. IsFit plain_setting.vips r) }
    ensures steered { IfOk result (λ r. is_some (steerable (Some r)) ≡ true) }
    ensures moment { IfOk result (λ r. r.moment.0 ≡ 0) }
    ensures packet { IfOk result (λ r. (packet : List ℕ)
        × (packets.new ≡ packets.old ++ packet ∷ []) × IsPacketOf r.body packet) }
{
    let vip = Vip {
        addr: 0xc000_0201,
        port: 80,
    };
    let octets = syn(sport);
    let (body, packet) = classify(101, &octets, &[vip]);
    let Body::Steerable(segment) = body else {
        return Err(Memory);
    };
    packets.push(packet)?;
    Ok(Record {
        moment: Moment(0),
        body: Body::Steerable(segment),
    })
}

/// Two connections begin.
fn two_syns(rt: &impl Abort, alloc: Global) -> (Capture, Octets)
    ensures fit { IsReplayable plain_setting.vips result.0 }
    ensures packets { ArePackets result.0.records result.1 }
    ensures count { length result.0.records ≡ 2 }
    ensures first { is_some (steerable (slice_get result.0.records 0)) ≡ true }
    ensures second { is_some (steerable (slice_get result.0.records 1)) ≡ true }
{
    let mut packets = Octets::new(alloc);
    let first = add_syn(1000, &mut packets).expect(rt, "memory");
    let second = add_syn(1001, &mut packets).expect(rt, "memory");
    let records = List::of(vec![in alloc; first, second].expect(rt, "memory"));
    (Capture { records, cut: None }, packets)
}

/// The plain setting with two muxes and one server of one shard.
fn small_setting(rt: &impl Abort, alloc: Global) -> Setting
    ensures { result ≡ record plain_setting {
      muxes = 2;
      shards = 1;
      servers = record { 0 = 1 } ∷ [];
      lags = 0 ∷ 0 ∷ [];
    } }
{
    let mut setting = Setting::plain(alloc).expect(rt, "memory");
    setting.muxes = 2;
    setting.shards = 1;
    setting.servers = List::of(vec![in alloc; ServerId(1)].expect(rt, "memory"));
    setting.lags = List::of(vec![in alloc; 0, 0].expect(rt, "memory"));
    setting
}

/// The capture is played without commands.
fn small_stage(rt: &impl Abort, alloc: Global, capture: Capture) -> Stage
    requires { IsReplayable plain_setting.vips capture }
    ensures sound { IsSound result }
    ensures capture { result.capture ≡ capture }
    ensures setting { (result.script.setting.shards ≡ 1)
        × (result.script.setting.capacity ≡ 4096)
        × (result.script.setting.timeout ≡ 240 * 10 ^ 9) }
    ensures plan { result.script.plan
        ≡ record { buckets = 8; servers = record { 0 = 1 } ∷ []; changes = [] } }
{
    let script = Script {
        setting: small_setting(rt, alloc),
        plan: Plan::new(alloc, 8, &[ServerId(1)]).expect(rt, "memory"),
        commands: List::of(Vec::new(alloc)),
    };
    Stage { script, capture }
}

/// The last of the seats, which has this number.
fn last_seat(
    server: &Server,
    seats: &mut Vec<ServerSeat>,
    number: u16,
) -> Result<ServerSeat, Memory>
    requires count { length seats.old.items ≡ number + 1 }
    requires new { (i : ℕ) (seat : _) → slice_get seats.old.items i ≡ Some seat
        → IsNewSeat server.now i seat }
    ensures count { OnOk result (length seats.new.items ≡ number) }
    ensures new { OnOk result ((i : ℕ) (seat : _) → slice_get seats.new.items i ≡ Some seat
        → IsNewSeat server.now i seat) }
    ensures seat { IfOk result (λ seat. IsNewSeat server.now number seat) }
{
    match seats.pop() {
        Some(seat) => Ok(seat),
        None => Err(Memory),
    }
}

/// The worker of the mux with this number, which knows what is posted.
fn worker(
    alloc: Global,
    stage: &Stage,
    server: &Server,
    number: u16,
    look: Look,
    seat: ServerSeat,
    poster: &Poster,
) -> Result<MuxWorker, Memory>
    requires number { number < 2 }
    requires sound { IsSound stage.now }
    requires records { length stage.now.capture.records ≡ 2 }
    requires plan { poster.now.plan ≡ stage.now.script.plan }
    requires look { look ≡ poster.now }
    requires seat { IsNewSeat server.now (number + 1) seat }
    ensures { IfOk result (λ w. (routes : List (Option MuxNumber))
        → CanWork stage.now (server.now ∷ []) routes
        (record { from = 0; until = 2; after = record { 0 = 0 } }) w) }
{
    let seats = alone(alloc, seat)?;
    let mux = Mux::new(alloc, MuxId(number), look, stage.script.setting.buckets);
    Ok(MuxWorker {
        mux,
        caller: Caller::new(number + 1, seats),
        steps: 0,
        posted: Some(poster.snapshot()),
        stop: None,
    })
}

/// Two workers.
fn make_pair(
    alloc: Global,
    stage: &Stage,
    server: &Server,
    seats: Vec<ServerSeat>,
    looks: (Look, Look),
    poster: &Poster,
) -> Result<Vec<MuxWorker>, Memory>
    requires sound { IsSound stage.now }
    requires records { length stage.now.capture.records ≡ 2 }
    requires plan { poster.now.plan ≡ stage.now.script.plan }
    requires looks { (looks.0 ≡ poster.now) × (looks.1 ≡ poster.now) }
    requires count { length seats.items ≡ 3 }
    requires new { (i : ℕ) (seat : _) → slice_get seats.items i ≡ Some seat
        → IsNewSeat server.now i seat }
    ensures { IfOk result (λ workers. (routes : List (Option MuxNumber))
        → All (CanWork stage.now (server.now ∷ []) routes
        (record { from = 0; until = 2; after = record { 0 = 0 } })) workers.items) }
{
    let mut seats = seats;
    let third_seat = last_seat(server, &mut seats, 2)?;
    let second_seat = last_seat(server, &mut seats, 1)?;
    let first = worker(alloc, stage, server, 0, looks.0, second_seat, poster)?;
    let second = worker(alloc, stage, server, 1, looks.1, third_seat, poster)?;
    Ok(vec![in alloc; first, second]?)
}

/// Mux 0 has the first packet, mux 1 the second.
fn carry<W: Threads + Wait + Sync>(
    rt: &W,
    alloc: Global,
    stage: &Stage,
    octets: &Octets,
    servers: &[Server],
    workers: &mut [MuxWorker],
)
    requires sound { IsSound stage.now }
    requires packets { ArePackets stage.now.capture.records octets.now }
    requires servers_are { AreServersOf stage.now servers.now }
    requires count { length stage.now.capture.records ≡ 2 }
    requires first { is_some (steerable (slice_get stage.now.capture.records 0)) ≡ true }
    requires second { is_some (steerable (slice_get stage.now.capture.records 1)) ≡ true }
    requires can { (routes : List (Option MuxNumber)) → All (CanWork stage.now servers.now routes
        (record { from = 0; until = 2; after = record { 0 = 0 } })) workers.old }
{
    let routes = [Some(MuxId(0)), Some(MuxId(1))];
    let faults = Faults::new(|_packet: u32, _hop: Hop| -> Fate {
        Fate {
            copies: 1,
            delay: 0,
        }
    });
    let shared = Shared::new(alloc, stage, octets, &routes, servers, &faults, &OpenGate);
    let span = Span {
        from: 0,
        until: 2,
        after: Moment(0),
    };
    work_all(rt, &shared, span, workers);
}

/// The workers of a run of one server, after its only phase.
fn carry_beside_a_board<W: Threads + Wait + Sync>(
    rt: &W,
    alloc: Global,
    stage: &Stage,
    octets: &Octets,
    looks: (Look, Look),
    poster: &Poster,
) -> Result<Vec<MuxWorker>, Memory>
    requires sound { IsSound stage.now }
    requires packets { ArePackets stage.now.capture.records octets.now }
    requires setting { (stage.now.script.setting.shards ≡ 1)
        × (stage.now.script.setting.capacity ≡ 4096)
        × (stage.now.script.setting.timeout ≡ 240 * 10 ^ 9) }
    requires plan { stage.now.script.plan
        ≡ record { buckets = 8; servers = record { 0 = 1 } ∷ []; changes = [] } }
    requires count { length stage.now.capture.records ≡ 2 }
    requires first { is_some (steerable (slice_get stage.now.capture.records 0)) ≡ true }
    requires second { is_some (steerable (slice_get stage.now.capture.records 1)) ≡ true }
    requires posted { poster.now.plan ≡ stage.now.script.plan }
    requires looks { (looks.0 ≡ poster.now) × (looks.1 ≡ poster.now) }
{
    let (server, seats) = Server::new(alloc, ServerId(1), 1, 4_096, 240_000_000_000, 3)?;
    let mut workers = make_pair(alloc, stage, &server, seats, looks, poster)?;
    let servers = alone(alloc, server)?;
    carry(rt, alloc, stage, octets, &servers, &mut workers);
    Ok(workers)
}

fn two_workers<W: Abort + Threads + Wait + Sync>(rt: &W, alloc: Global) -> Vec<MuxWorker> {
    let (capture, octets) = two_syns(rt, alloc);
    let stage = small_stage(rt, alloc, capture);
    let (poster, mut looks) = board(rt, alloc, &stage.script.plan, 2).expect(rt, "memory");
    let second = looks.pop().expect(rt, "a look");
    let first = looks.pop().expect(rt, "a look");
    let workers = carry_beside_a_board(rt, alloc, &stage, &octets, (first, second), &poster);
    poster.end(rt);
    workers.expect(rt, "memory")
}

#[test]
fn each_mux_carries_its_packet(rt: HostRuntime) {
    let workers = two_workers(&rt, rt.alloc());
    assert!(rt; workers.len() == 2);
    // both packets come to one shard, at the clocks 3 and 4
    let mut first = u64::MAX;
    let mut last = 0;
    for worker in workers.iter() {
        assert!(rt; worker.stop.is_none() && worker.posted.is_none());
        assert!(rt; worker.steps == 1);
        let clock = worker.caller.latest().0;
        first = first.min(clock);
        last = last.max(clock);
    }
    assert!(rt; (first, last) == (3, 4));
}
