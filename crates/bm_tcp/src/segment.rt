//! Reading a segment.
ghost use Rattle.std.specs.Prelude.{◌≡◌, ◌≤◌, max, length, IfOk, IsOk};
ghost use Rattle.bm_tcp.specs.Header.{count_of, data_of, tcp_of};

use crate::TcpFault;
use bm_base::flags::{FIN, SYN};
use bm_base::{Flow, Segment};
use bm_ipv4::Ipv4View;
use bm_ipv4::fields::{read_u16, read_u32};

/// Reads the segment of a packet (RFC 9293, section 3.1). Options are skipped, and the checksum
/// isn't checked. The data octets are counted as the packet states them: a capture may have fewer.
#[tactic(auto, unfolding(crate::specs::Header::tcp_of))]
pub fn read_tcp(v: &Ipv4View<'_>) -> Result<Segment, TcpFault>
    requires { v.now.protocol ≡ 6 }
    ensures segment { result ≡ tcp_of v.now }
    ensures bound { IfOk result (λ s. s.len ≤ max 65535 (length v.now.packet)) }
{
    let octets = v.payload();
    if octets.len() < 20 {
        return Err(TcpFault::Short);
    }
    let offset = 4 * u32::from(octets[12] / 16);
    let stated = v.stated_payload();
    if offset < 20 || stated < offset {
        return Err(TcpFault::BadOffset);
    }
    let flags = octets[13];
    Ok(Segment {
        flow: Flow {
            src: v.src(),
            dst: v.dst(),
            sport: read_u16(octets, 0),
            dport: read_u16(octets, 2),
        },
        seq: read_u32(octets, 4),
        ack: read_u32(octets, 8),
        len: stated - offset + count(flags, SYN) + count(flags, FIN),
        flags,
    })
}

/// The octets after the TCP header of a segment that `read_tcp` accepts, as far as they are there: a
/// capture may have fewer than the header states. Takes no memory.
#[tactic(auto, unfolding(crate::specs::Header::tcp_of))]
pub fn tcp_data<'a>(v: &Ipv4View<'a>) -> &'a [u8]
    requires { IsOk (tcp_of v.now) }
    ensures { result.now ≡ data_of v.now }
{
    let octets = v.payload();
    let offset = 4 * usize::from(octets[12] / 16);
    if offset < octets.len() {
        &octets[offset..]
    } else {
        &[]
    }
}

/// 1 where the flag is set.
fn count(flags: u8, flag: u8) -> u32
    ensures count { result ≡ count_of flag flags }
    ensures bound { result ≤ 1 }
{
    if flags & flag > 0 { 1 } else { 0 }
}
