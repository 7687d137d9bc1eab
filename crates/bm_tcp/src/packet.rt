//! Reading the segment of a packet.
ghost use Rattle.std.specs.Prelude.{◌≡◌, ◌≤◌, ◌<◌, ◌^◌, max, length, IfOk};
ghost use Rattle.std.specs.Result.{result_map_both};
ghost use Rattle.bm_tcp.specs.Packets.{data_in, segment_in, ReadsAs};
ghost use Rattle.bm_base.specs.declared.flow.Segment.{Segment};

use crate::{TcpFault, read_tcp, tcp_data};
use bm_base::Segment;
use bm_ipv4::{Ipv4Fault, read_ipv4};
use thiserror::Error;

const TCP: u8 = 6;

/// Why octets aren't a TCP packet: the first of these that holds.
#[derive(Clone, Copy, Debug, PartialEq, Eq, Error)]
pub enum InnerFault {
    #[error("{0}")]
    Ipv4(Ipv4Fault),
    #[error("the packet is a fragment")]
    Fragment,
    #[error("the packet carries something else than TCP")]
    NotTcp,
    #[error("{0}")]
    Tcp(TcpFault),
}

/// The TCP segment of the IPv4 packet at the front of these octets, and the packet without what
/// follows it, or the first fault.
#[inline(always)]
pub fn read_packet(octets: &[u8]) -> Result<(Segment, &[u8]), InnerFault>
    requires { length octets.now < 2 ^ 32 }
    ensures segment { result_map_both (λ read. (read.0, read.1.now)) (λ e. e) result
        ≡ segment_in octets.now }
    ensures bound { IfOk result (λ read. read.0.len ≤ max 65535 (length read.1.now)) }
    ensures within { IfOk result (λ read. length read.1.now ≤ length octets.now) }
    ensures reads { IfOk result (λ read. ReadsAs read.1.now read.0) }
{
    let view = match read_ipv4(octets) {
        Ok(view) => view,
        Err(fault) => return Err(InnerFault::Ipv4(fault)),
    };
    if view.is_fragment() {
        return Err(InnerFault::Fragment);
    }
    if view.protocol() != TCP {
        return Err(InnerFault::NotTcp);
    }
    match read_tcp(&view) {
        Ok(segment) => Ok((segment, view.packet())),
        Err(fault) => Err(InnerFault::Tcp(fault)),
    }
}

/// The data octets of the segment in a packet that `read_packet` accepts, as far as they are there:
/// a capture may have fewer than the header states. Takes no memory.
pub fn read_data(packet: &[u8]) -> &[u8]
    requires short { length packet.now < 2 ^ 32 }
    requires reads { (s : Segment) × ReadsAs packet.now s }
    ensures data { result.now ≡ data_in packet.now }
    ensures few { length result.now ≤ length packet.now }
{
    match read_ipv4(packet) {
        Ok(view) => tcp_data(&view),
        Err(_) => &[],
    }
}
