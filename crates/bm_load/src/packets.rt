//! The packets of the load.
ghost use Rattle.std.specs.Prelude.{◌≡◌, ◌≤◌, IfOk};
ghost use Rattle.bm_tcp.specs.Header.{count_of};
ghost use Rattle.bm_load.specs.Load as load;

use bm_base::flags::{ACK, FIN, PSH, SYN};
use bm_base::{Body, Flow, List, Memory, Moment, Octets, Record, Segment};
use bm_ipv4::fields::{write_u16, write_u32};
use std::alloc::Global;

/// What each connection sends in a round, with `payload` octets of data.
#[derive(Clone, Copy, PartialEq, Eq)]
pub(crate) struct Round {
    seq: u32,
    ack: u32,
    flags: u8,
    payload: u16,
}

/// The rounds, from 0: SYN, 100 octets of data twice, FIN.
fn round_at(round: u32) -> Round
    ensures round { result ≡ load.round_at round }
    ensures short { result.payload ≤ 100 }
{
    match round {
        0 => Round {
            seq: 1_000,
            ack: 0,
            flags: SYN,
            payload: 0,
        },
        1 => Round {
            seq: 1_001,
            ack: 501,
            flags: PSH | ACK,
            payload: 100,
        },
        2 => Round {
            seq: 1_101,
            ack: 501,
            flags: PSH | ACK,
            payload: 100,
        },
        _ => Round {
            seq: 1_201,
            ack: 501,
            flags: FIN | ACK,
            payload: 0,
        },
    }
}

/// The segment of a round from this port of 10.0.0.1 to 192.0.2.1 port 80.
fn segment_from(round: &Round, port: u16) -> Segment
    requires { round.now.payload ≤ 100 }
    ensures { result ≡ load.segment_from round.now port }
{
    Segment {
        flow: Flow {
            src: 0x0a00_0001,
            dst: 0xc000_0201,
            sport: port,
            dport: 80,
        },
        seq: round.seq,
        ack: round.ack,
        len: u32::from(round.payload) + count(round.flags, SYN) + count(round.flags, FIN),
        flags: round.flags,
    }
}

/// 1 if the flag is set, else 0.
fn count(flags: u8, flag: u8) -> u32
    ensures count { result ≡ count_of flag flags }
    ensures bound { result ≤ 1 }
{
    if flags & flag > 0 { 1 } else { 0 }
}

/// The headers of IPv4 and TCP, with zero for what differs from packet to packet.
const HEADERS: [u8; 40] = [
    0x45, 0, 0, 0, 0, 0, 0x40, 0, 64, 6, 0, 0, 10, 0, 0, 1, 192, 0, 2, 1, 0, 0, 0, 80, 0, 0, 0, 0,
    0, 0, 0, 0, 0x50, 0, 0xff, 0xff, 0, 0, 0, 0,
];

#[tactic(auto, unfolding(crate::specs::Load::headers_from))]
fn headers_from(round: &Round, port: u16) -> [u8; 40]
    requires { round.now.payload ≤ 100 }
    ensures { result ≡ load.headers_from round.now port }
{
    let mut octets = HEADERS;
    write_u16(&mut octets, 2, 40 + round.payload);
    write_u16(&mut octets, 20, port);
    write_u32(&mut octets, 24, round.seq);
    write_u32(&mut octets, 28, round.ack);
    octets[33] = round.flags;
    octets
}

fn packet_from(alloc: Global, round: &Round, port: u16) -> Result<Vec<u8>, Memory>
    requires { round.now.payload ≤ 100 }
    ensures { IfOk result (λ octets. octets.items ≡ load.packet_from round.now port) }
{
    let data = usize::from(round.payload);
    let mut octets = Vec::from_slice(alloc, &headers_from(round, port))?;
    octets.resize(40 + data, b'a')?;
    Ok(octets)
}

/// The records of the load of n connections, and their packets.
pub(crate) fn records(alloc: Global, n: u32) -> Result<(List<Record>, Octets), Memory>
    requires { (1 ≤ n) × (n ≤ 20000) }
    ensures records { IfOk result (λ made. made.0 ≡ load.load_records n) }
    ensures packets { IfOk result (λ made. made.1 ≡ load.load_packets n) }
{
    let mut records = Vec::with_capacity(alloc, 4 * n as usize)?;
    let mut packets = Octets::new(alloc);
    for place in 0..4 * n {
        let round = round_at(place / n);
        let port = (10_000 + place % n) as u16;
        let moment = Moment(u64::from(place) * 1_000);
        let body = Body::Steerable(segment_from(&round, port));
        records.push(Record { moment, body })?;
        packets.push(packet_from(alloc, &round, port)?.as_slice())?;
    }
    Ok((List::of(records), packets))
}
