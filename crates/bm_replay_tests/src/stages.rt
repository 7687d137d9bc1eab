//! Small stages with the packets of their captures, and their replay by one mux.
ghost use Rattle.std.specs.Prelude.{◌≡◌, ◌<◌, ◌≤◌, ◌^◌, ◌∷◌, [], if◌then◌else◌, IfOk, length};
ghost use Rattle.bm_base.specs.Captures.{IsReplayable};
ghost use Rattle.bm_core.specs.Runs.{IsRun};
ghost use Rattle.bm_core.specs.Stages.{IsSound};
ghost use Rattle.bm_link.specs.Fits.{ArePackets};
ghost use Rattle.bm_table.specs.Settings.{IsWithin, plain_setting};
ghost use Rattle.bm_table.specs.declared.script.Command.TheVariants.{Close as closes};
ghost use Rattle.bm_table.specs.declared.plan.Kind.TheVariants.{Shift as shift};

use bm_base::{
    Capture, Fate, Flow, Hop, List, Memory, Moment, Octets, Record, ServerId, Version, Vip,
};
use bm_core::{History, Stage};
use bm_fault::Faults;
use bm_link::classify;
use bm_replay::replay;
use bm_route::Route;
use bm_table::{Change, Command, Kind, Move, Plan, Script, Setting};
use std::alloc::Global;

pub(crate) const SYN: u8 = 0x02;

pub(crate) const PSH_ACK: u8 = 0x18;

/// A segment: source port, flags, sequence number, length.
pub(crate) type Row = (u16, u8, u32, u16);

pub(crate) const OPENING: Row = (1000, SYN, 100, 1);

pub(crate) const DATA: Row = (1000, PSH_ACK, 101, 10);

/// The first segment of another connection.
pub(crate) const OTHER: Row = (1002, SYN, 100, 1);

pub(crate) fn flow(sport: u16) -> Flow
    ensures { result ≡ record { src = 0x0a00_0001; dst = 0xc000_0201; sport = sport; dport = 80 } }
{
    Flow {
        src: 0x0a00_0001,
        dst: 0xc000_0201,
        sport,
        dport: 80,
    }
}

/// The header of a packet from 10.0.0.1 to 192.0.2.1 with `total` octets.
fn ip_header(total: u16) -> [u8; 20] {
    let [high, low] = total.to_be_bytes();
    [
        0x45, 0, high, low, 0, 0, 0x40, 0, 64, 6, 0, 0, 10, 0, 0, 1, 192, 0, 2, 1,
    ]
}

/// The header of a segment to port 80, with 501 as its acknowledgment number.
fn tcp_header(sport: u16, flags: u8, seq: u32) -> [u8; 20] {
    let [s0, s1] = sport.to_be_bytes();
    let [n0, n1, n2, n3] = seq.to_be_bytes();
    [
        s0, s1, 0, 80, n0, n1, n2, n3, 0, 0, 1, 0xf5, 0x50, flags, 0, 0, 0, 0, 0, 0,
    ]
}

/// The packet of this segment, with zeros as its data.
fn packet(alloc: Global, row: Row) -> Result<Vec<u8>, Memory>
    ensures { IfOk result (λ octets. length octets.items < 2 ^ 32) }
{
    let (sport, flags, seq, len) = row;
    let data = len.saturating_sub(u16::from(flags == SYN));
    let total = data.saturating_add(40);
    let mut octets = Vec::from_slice(alloc, &ip_header(total))?;
    octets.extend_from_slice(&tcp_header(sport, flags, seq))?;
    octets.resize(usize::from(total), 0)?;
    Ok(octets)
}

/// These segments, `gap` nanoseconds apart, and their packets.
pub(crate) fn capture(alloc: Global, gap: u64, rows: &[Row]) -> Result<(Capture, Octets), Memory>
    requires gap { gap ≤ 100_000_000_000 }
    requires few { length rows.now ≤ 20000 }
    ensures fit { IfOk result (λ read. IsReplayable plain_setting.vips read.0) }
    ensures packets { IfOk result (λ read. ArePackets read.0.records read.1) }
{
    let vip = Vip {
        addr: 0xc000_0201,
        port: 80,
    };
    let mut records = Vec::new(alloc);
    let mut packets = Octets::new(alloc);
    let mut next = 0;
    for i in 0..rows.len() {
        let octets = packet(alloc, rows[i])?;
        let (body, packet) = classify(101, &octets, &[vip]);
        packets.push(packet)?;
        let moment = Moment(next);
        records.push(Record { moment, body })?;
        next += gap;
    }
    let records = List::of(records);
    Ok((Capture { records, cut: None }, packets))
}

/// The plain setting with one shard of this capacity.
fn setting(alloc: Global, capacity: u32) -> Result<Setting, Memory>
    ensures { IfOk result (λ s. s ≡ record plain_setting { shards = 1; capacity = capacity }) }
{
    let mut setting = Setting::plain(alloc)?;
    setting.shards = 1;
    setting.capacity = capacity;
    Ok(setting)
}

/// Two closes of a flow at server 1, or none.
fn two_closes(alloc: Global, wanted: bool) -> Result<Vec<Command>, Memory>
    ensures { IfOk result (λ commands. commands.items ≡ (if wanted
        then closes (record { 0 = 500 }) (record { 0 = 1 })
        (record { src = 0x0a00_0001; dst = 0xc000_0201; sport = 1000; dport = 80 })
        ∷ closes (record { 0 = 600 }) (record { 0 = 1 })
        (record { src = 0x0a00_0001; dst = 0xc000_0201; sport = 1000; dport = 80 }) ∷ []
        else [])) }
{
    let mut commands = Vec::new(alloc);
    if wanted {
        let flow = flow(1000);
        let server = ServerId(1);
        commands.push(Command::Close {
            at: Moment(500),
            server,
            flow,
        })?;
        commands.push(Command::Close {
            at: Moment(600),
            server,
            flow,
        })?;
    }
    Ok(commands)
}

/// A stage without changes, with two closes or no command.
pub(crate) fn bare_stage(
    alloc: Global,
    capacity: u32,
    closing: bool,
    capture: Capture,
) -> Result<Stage, Memory>
    requires capacity { IsWithin 1 65536 capacity }
    requires capture { IsReplayable plain_setting.vips capture }
    ensures sound { IfOk result IsSound }
    ensures capture { IfOk result (λ stage. stage.capture ≡ capture) }
    ensures muxes { IfOk result (λ stage. stage.script.setting.muxes ≡ 1) }
{
    let script = Script {
        commands: List::of(two_closes(alloc, closing)?),
        setting: setting(alloc, capacity)?,
        plan: Plan::new(alloc, 8, &[ServerId(1), ServerId(2)])?,
    };
    Ok(Stage { script, capture })
}

/// Bucket 4 goes to this server.
fn moved(alloc: Global, moment: Moment, to: ServerId) -> Result<Change, Memory>
    ensures { IfOk result (λ change. change ≡ record {
      moment = moment;
      kind = shift;
      moves = record { bucket = 4; to = to } ∷ [];
    }) }
{
    let moves = List::of(vec![in alloc; Move { bucket: 4, to }]?);
    let kind = Kind::Shift;
    Ok(Change {
        moment,
        kind,
        moves,
    })
}

/// Bucket 4 goes to server 2 at 500.
fn moved_plan(alloc: Global) -> Result<Plan, Memory>
    ensures { IfOk result (λ plan. plan ≡ record {
      buckets = 8;
      servers = record { 0 = 1 } ∷ record { 0 = 2 } ∷ [];
      changes =
          record {
            moment = record { 0 = 500 };
            kind = shift;
            moves =
                record { bucket = 4; to = record { 0 = 2 } } ∷ [];
          } ∷ [];
    }) }
{
    let mut plan = Plan::new(alloc, 8, &[ServerId(1), ServerId(2)])?;
    let Ok(()) = plan.push(moved(alloc, Moment(500), ServerId(2))?) else {
        return Err(Memory);
    };
    Ok(plan)
}

pub(crate) fn moved_stage(alloc: Global, capture: Capture) -> Result<Stage, Memory>
    requires { IsReplayable plain_setting.vips capture }
    ensures sound { IfOk result IsSound }
    ensures capture { IfOk result (λ stage. stage.capture ≡ capture) }
    ensures muxes { IfOk result (λ stage. stage.script.setting.muxes ≡ 1) }
{
    let script = Script {
        commands: List::of(vec![in alloc; Command::Change(Version(1))]?),
        setting: setting(alloc, 4_096)?,
        plan: moved_plan(alloc)?,
    };
    Ok(Stage { script, capture })
}

/// Bucket 4 goes from server 2 to server 3 at 500, and to server 1 at the second moment.
fn twice_moved_plan(alloc: Global, second: Moment) -> Result<Plan, Memory>
    requires later { 500 < second.0 }
    requires soon { second.0 ≤ 150_000_000_000 }
    ensures { IfOk result (λ plan. plan ≡ record {
      buckets = 8;
      servers = record { 0 = 1 } ∷ record { 0 = 2 } ∷ record { 0 = 3 } ∷ [];
      changes =
          record {
            moment = record { 0 = 500 };
            kind = shift;
            moves =
                record { bucket = 4; to = record { 0 = 3 } } ∷ [];
          } ∷ record {
            moment = second;
            kind = shift;
            moves =
                record { bucket = 4; to = record { 0 = 1 } } ∷ [];
          } ∷ [];
    }) }
{
    let mut plan = Plan::new(alloc, 8, &[ServerId(1), ServerId(2), ServerId(3)])?;
    let Ok(()) = plan.push(moved(alloc, Moment(500), ServerId(3))?) else {
        return Err(Memory);
    };
    let Ok(()) = plan.push(moved(alloc, second, ServerId(1))?) else {
        return Err(Memory);
    };
    Ok(plan)
}

/// The plain setting with servers 1, 2 and 3, and one shard.
fn setting_of_three(alloc: Global) -> Result<Setting, Memory>
    ensures { IfOk result (λ s. s ≡ record plain_setting {
      servers = record { 0 = 1 } ∷ record { 0 = 2 } ∷ record { 0 = 3 } ∷ [];
      shards = 1;
      capacity = 4096;
    }) }
{
    let servers = vec![in alloc; ServerId(1), ServerId(2), ServerId(3)]?;
    let mut setting = setting(alloc, 4_096)?;
    setting.servers = List::of(servers);
    Ok(setting)
}

fn twice_moved_stage(alloc: Global, second: Moment, capture: Capture) -> Result<Stage, Memory>
    requires later { 500 < second.0 }
    requires soon { second.0 ≤ 150_000_000_000 }
    requires capture { IsReplayable plain_setting.vips capture }
    ensures sound { IfOk result IsSound }
    ensures capture { IfOk result (λ stage. stage.capture ≡ capture) }
    ensures muxes { IfOk result (λ stage. stage.script.setting.muxes ≡ 1) }
{
    let changes = vec![in alloc; Command::Change(Version(1)), Command::Change(Version(2))]?;
    let script = Script {
        commands: List::of(changes),
        setting: setting_of_three(alloc)?,
        plan: twice_moved_plan(alloc, second)?,
    };
    Ok(Stage { script, capture })
}

/// The history of the stage's replay with one mux. If `lost` names a hop, packet 2's copies of that
/// hop are lost and each sending of packet 3 has three copies; every other sending has one.
fn history(
    alloc: Global,
    stage: Stage,
    packets: Octets,
    lost: Option<Hop>,
) -> Result<History, Memory>
    requires sound { IsSound stage }
    requires packets { ArePackets stage.capture.records packets }
    requires muxes { stage.script.setting.muxes ≡ 1 }
    ensures { IfOk result IsRun }
{
    let route = Route::new(|_packet: u32, _flow: &Flow| -> u16 { 0 }, 1);
    let faults = Faults::new(|packet: u32, hop: Hop| -> Fate {
        let copies = match packet {
            2 if lost == Some(hop) => 0,
            3 if lost.is_some() => 3,
            _ => 1,
        };
        Fate { copies, delay: 0 }
    });
    replay(alloc, stage, packets, &route, &faults)
}

/// The history of these segments, `gap` nanoseconds apart, and of a stage without changes, with two
/// closes or no command.
pub(crate) fn bare_history(
    alloc: Global,
    gap: u64,
    rows: &[Row],
    capacity: u32,
    closing: bool,
    lost: Option<Hop>,
) -> Result<History, Memory>
    requires gap { gap ≤ 100_000_000_000 }
    requires few { length rows.now ≤ 20000 }
    requires capacity { IsWithin 1 65536 capacity }
    ensures { IfOk result IsRun }
{
    let (capture, packets) = capture(alloc, gap, rows)?;
    let stage = bare_stage(alloc, capacity, closing, capture)?;
    history(alloc, stage, packets, lost)
}

/// The history of these segments, `gap` nanoseconds apart, where bucket 4 goes to server 2 at 500.
pub(crate) fn moved_history(alloc: Global, gap: u64, rows: &[Row]) -> Result<History, Memory>
    requires gap { gap ≤ 100_000_000_000 }
    requires few { length rows.now ≤ 20000 }
    ensures { IfOk result IsRun }
{
    let (capture, packets) = capture(alloc, gap, rows)?;
    let stage = moved_stage(alloc, capture)?;
    history(alloc, stage, packets, None)
}

/// The history of these segments, `gap` nanoseconds apart, where bucket 4 goes from server 2 to
/// server 3 at 500, and to server 1 at the second moment.
pub(crate) fn twice_moved_history(
    alloc: Global,
    gap: u64,
    rows: &[Row],
    second: Moment,
    lost: Option<Hop>,
) -> Result<History, Memory>
    requires gap { gap ≤ 100_000_000_000 }
    requires few { length rows.now ≤ 20000 }
    requires later { 500 < second.0 }
    requires soon { second.0 ≤ 150_000_000_000 }
    ensures { IfOk result IsRun }
{
    let (capture, packets) = capture(alloc, gap, rows)?;
    let stage = twice_moved_stage(alloc, second, capture)?;
    history(alloc, stage, packets, lost)
}
