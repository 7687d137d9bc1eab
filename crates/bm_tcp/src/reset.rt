//! The reset that answers a segment.
ghost use Rattle.std.specs.Prelude.{◌≡◌, ◌+◌, ◌++◌, length};
ghost use Rattle.bm_tcp.specs.Resets as resets;

use bm_base::flags::{ACK, RST};
use bm_base::{Flow, Segment};
use bm_ipv4::fields::{write_u16, write_u32};
use bm_ipv4::header_sum;

/// The packet that answers a segment with a reset (RFC 9293, section 3.5.2): an IPv4 header and a
/// TCP header, both with their checksums. None for a reset, which isn't answered.
#[tactic(auto, unfolding(crate::specs::Resets::reset_packet))]
pub fn reset_for(s: &Segment) -> Option<[u8; 40]>
    ensures { result ≡ resets.reset_packet s.now }
{
    if s.has(RST) {
        return None;
    }
    Some(packet_of(&reset_of(s)))
}

#[tactic(auto, unfolding(crate::specs::Resets::reset_of))]
fn reset_of(s: &Segment) -> Segment
    ensures { result ≡ resets.reset_of s.now }
{
    let flow = reversed(&s.flow);
    if s.has(ACK) {
        Segment {
            flow,
            seq: s.ack,
            ack: 0,
            len: 0,
            flags: RST,
        }
    } else {
        Segment {
            flow,
            seq: 0,
            ack: s.seq.wrapping_add(s.len),
            len: 0,
            flags: RST | ACK,
        }
    }
}

/// The same connection, seen from its other end.
fn reversed(f: &Flow) -> Flow
    ensures { result ≡ resets.reversed f.now }
{
    Flow {
        src: f.dst,
        dst: f.src,
        sport: f.dport,
        dport: f.sport,
    }
}

/// A segment without data as a packet.
#[tactic(auto, unfolding(crate::specs::Resets::packet_of))]
fn packet_of(s: &Segment) -> [u8; 40]
    ensures { result ≡ resets.packet_of s.now }
{
    let ip = ip_header(header_sum(&ip_header(0, &s.flow)), &s.flow);
    let summed: [u8; 32] = joined(&pseudo_header(&s.flow), &tcp_header(0, s));
    joined(&ip, &tcp_header(header_sum(&summed), s))
}

/// The IPv4 header, with zero for the checksum and the addresses.
const IP: [u8; 20] = [
    0x45, 0, 0, 40, 0, 0, 0x40, 0, 64, 6, 0, 0, 0, 0, 0, 0, 0, 0, 0, 0,
];

#[tactic(auto, unfolding(crate::specs::Resets::ip_header))]
fn ip_header(sum: u16, f: &Flow) -> [u8; 20]
    ensures { result ≡ resets.ip_header sum f.now }
{
    let mut octets = IP;
    write_u16(&mut octets, 10, sum);
    write_u32(&mut octets, 12, f.src);
    write_u32(&mut octets, 16, f.dst);
    octets
}

#[tactic(auto, unfolding(crate::specs::Resets::tcp_header))]
fn tcp_header(sum: u16, s: &Segment) -> [u8; 20]
    ensures { result ≡ resets.tcp_header sum s.now }
{
    let mut octets = [0; 20];
    write_u16(&mut octets, 0, s.flow.sport);
    write_u16(&mut octets, 2, s.flow.dport);
    write_u32(&mut octets, 4, s.seq);
    write_u32(&mut octets, 8, s.ack);
    octets[12] = 0x50;
    octets[13] = s.flags;
    write_u16(&mut octets, 16, sum);
    octets
}

/// The addresses, a zero, the protocol, and how many octets follow.
#[tactic(auto, unfolding(crate::specs::Resets::pseudo_header))]
fn pseudo_header(f: &Flow) -> [u8; 12]
    ensures { result ≡ resets.pseudo_header f.now }
{
    let mut octets = [0, 0, 0, 0, 0, 0, 0, 0, 0, 6, 0, 20];
    write_u32(&mut octets, 0, f.src);
    write_u32(&mut octets, 4, f.dst);
    octets
}

/// The octets of both parts, one after the other.
fn joined<const N: usize>(front: &[u8], back: &[u8]) -> [u8; N]
    requires { length front.now + length back.now ≡ N }
    ensures { result ≡ front.now ++ back.now }
{
    let mut octets = [0; N];
    join(&mut octets, front, back);
    octets
}

fn join(octets: &mut [u8], front: &[u8], back: &[u8])
    requires { length front.now + length back.now ≡ length octets.old }
    ensures { octets.new ≡ front.now ++ back.now }
{
    octets[..front.len()].copy_from_slice(front);
    octets[front.len()..].copy_from_slice(back);
}
