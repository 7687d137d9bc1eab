//! What a record contains.
ghost use Rattle.std.specs.Prelude.{◌≡◌, ◌<◌, ◌^◌, ℕ, length, IsTrue};
ghost use Rattle.bm_base.specs.Captures.{IsFit};
ghost use Rattle.bm_link.specs.Fits.{IsPacketOf};
ghost use Rattle.bm_link.specs.Links.{is_link};
ghost use Rattle.bm_link.specs.Classes.{classified, goes_to, unsteered, link_reason, packet_reason};
ghost use Rattle.bm_link.specs.Classes.{ipv4_reason, tcp_reason};

use crate::{LinkFault, network_part};
use bm_base::{Body, Flow, MAX_INNER, Reason, Vip};
use bm_ipv4::Ipv4Fault;
use bm_tcp::{InnerFault, TcpFault, read_packet};

/// What a record of this link type contains for the services, and its packet: a segment to one of
/// them, or the first reason against steering it. A record that isn't steered has an empty packet.
#[tactic(auto, unfolding(crate::specs::Classes::classified))]
pub fn classify<'a>(link: u16, octets: &'a [u8], vips: &[Vip]) -> (Body, &'a [u8])
    requires link { IsTrue (is_link link) }
    requires short { length octets.now < 2 ^ 32 }
    ensures class { (result.0, result.1.now) ≡ classified link vips.now octets.now }
    ensures fit { (moment : ℕ)
        → IsFit vips.now (record { moment = record { 0 = moment }; body = result.0 }) }
    ensures packet { IsPacketOf result.0 result.1.now }
{
    let part = match network_part(link, octets) {
        Ok(part) => part,
        Err(e) => return unsteered(link_reason(e)),
    };
    let (segment, packet) = match read_packet(part) {
        Ok(read) => read,
        Err(fault) => return unsteered(packet_reason(fault)),
    };
    if !goes_to(vips, &segment.flow) {
        return unsteered(Reason::OtherDestination);
    }
    if packet.len() > MAX_INNER as usize {
        return unsteered(Reason::TooLong);
    }
    (Body::Steerable(segment), packet)
}

/// A record that isn't steered has no packet.
fn unsteered<'a>(reason: Reason) -> (Body, &'a [u8])
    ensures { (result.0, result.1.now) ≡ unsteered reason }
{
    (Body::Unsteered(reason), &[])
}

/// Whether the flow goes to one of the services.
fn goes_to(vips: &[Vip], f: &Flow) -> bool
    ensures { result ≡ goes_to vips.now f.now }
{
    vips.iter().any(|v| v.addr == f.dst && v.port == f.dport)
}

fn link_reason(e: LinkFault) -> Reason
    ensures { result ≡ link_reason e }
{
    match e {
        LinkFault::Short => Reason::ShortLink,
        LinkFault::NotIpv4 => Reason::NotIpv4,
    }
}

fn packet_reason(e: InnerFault) -> Reason
    ensures { result ≡ packet_reason e }
{
    match e {
        InnerFault::Ipv4(fault) => ipv4_reason(fault),
        InnerFault::Fragment => Reason::Fragment,
        InnerFault::NotTcp => Reason::NotTcp,
        InnerFault::Tcp(fault) => tcp_reason(fault),
    }
}

fn ipv4_reason(e: Ipv4Fault) -> Reason
    ensures { result ≡ ipv4_reason e }
{
    match e {
        Ipv4Fault::Short => Reason::ShortIp,
        Ipv4Fault::NotVersion4 => Reason::NotVersion4,
        Ipv4Fault::BadHeaderLength => Reason::BadHeaderLength,
        Ipv4Fault::BadTotalLength => Reason::BadTotalLength,
    }
}

fn tcp_reason(e: TcpFault) -> Reason
    ensures { result ≡ tcp_reason e }
{
    match e {
        TcpFault::Short => Reason::ShortTcp,
        TcpFault::BadOffset => Reason::BadOffset,
    }
}
