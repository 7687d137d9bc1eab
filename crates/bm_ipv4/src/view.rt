//! A packet whose header was read.
ghost use Rattle.std.specs.Prelude.{◌≡◌, ◌≤◌, ◌<◌, ◌^◌, ◌/◌, ◌%◌, ◌||◌, ◌==◌, not};
ghost use Rattle.std.specs.Prelude.{if◌then◌else◌, max, length, take};
ghost use Rattle.bm_ipv4.specs.Header.{ipv4_of};

use crate::Ipv4Fault;
use crate::fields::{read_u16, read_u32};
use std::marker::Model;

/// A packet whose header was read, and which borrows its octets.
#[derive(Drop)]
pub struct Ipv4View<'a> {
    packet: &'a [u8],
    header: usize,
    stated_payload: u32,
    is_fragment: bool,
    protocol: u8,
    src: u32,
    dst: u32,
}

impl<'a> Model for Ipv4View<'a> {
    ghost use Rattle.std.specs.Prelude.{◌≤◌, max, length, drop};
    ghost use Rattle.bm_ipv4.specs.Header.{Packet};

    ghost Value = { Packet };

    ghost view = { λ a. record {
      packet = a.packet.now;
      payload = drop a.header a.packet.now;
      stated_payload = a.stated_payload;
      is_fragment = a.is_fragment;
      protocol = a.protocol;
      src = a.src;
      dst = a.dst;
    } };

    ghost invariant = { λ a. (a.header ≤ length a.packet.now)
        × (a.stated_payload ≤ max 65535 (length a.packet.now)) };
}

/// Reads the header of a packet (RFC 791, section 3.1). Options are skipped, and the checksum isn't
/// checked. Octets after the total length are cut off; where it is 0, all octets are the packet. A
/// packet may have fewer octets than its total length states, since captures cut packets short.
#[tactic(auto, unfolding(crate::specs::Header::ipv4_of))]
pub fn read_ipv4(octets: &[u8]) -> Result<Ipv4View<'_>, Ipv4Fault>
    requires { length octets.now < 2 ^ 32 }
    ensures { result ≡ ipv4_of octets.now }
{
    if octets.len() < 20 {
        return Err(Ipv4Fault::Short);
    }
    if octets[0] / 16 != 4 {
        return Err(Ipv4Fault::NotVersion4);
    }
    let header = 4 * usize::from(octets[0] % 16);
    if header < 20 {
        return Err(Ipv4Fault::BadHeaderLength);
    }
    if octets.len() < header {
        return Err(Ipv4Fault::Short);
    }
    let total = usize::from(read_u16(octets, 2));
    if total != 0 && total < header {
        return Err(Ipv4Fault::BadTotalLength);
    }
    Ok(Ipv4View {
        packet: cut_at(octets, total),
        header,
        stated_payload: (stated(octets.len(), total) - header) as u32,
        is_fragment: has_fragment_bits(read_u16(octets, 6)),
        protocol: octets[9],
        src: read_u32(octets, 12),
        dst: read_u32(octets, 16),
    })
}

fn cut_at(octets: &[u8], total: usize) -> &[u8]
    ensures { result.now ≡ (if total == 0 then octets.now else take total octets.now) }
{
    if total == 0 || octets.len() < total {
        octets
    } else {
        &octets[..total]
    }
}

fn stated(len: usize, total: usize) -> usize
    ensures { result ≡ (if total == 0 then len else total) }
{
    if total == 0 { len } else { total }
}

/// Whether MF is set or the fragment offset isn't 0.
fn has_fragment_bits(flags_and_offset: u16) -> bool
    ensures { result
        ≡ ((flags_and_offset / 2 ^ 13 % 2 == 1) || not (flags_and_offset % 2 ^ 13 == 0)) }
{
    flags_and_offset / 0x2000 % 2 == 1 || flags_and_offset % 0x2000 != 0
}

impl<'a> Ipv4View<'a> {
    /// The octets of the packet.
    pub fn packet(&self) -> &'a [u8]
        ensures { result.now ≡ self.now.packet }
    {
        self.packet
    }

    /// The octets of the packet after its header.
    pub fn payload(&self) -> &'a [u8]
        ensures { result.now ≡ self.now.payload }
    {
        &self.packet[self.header..]
    }

    /// How many octets of payload the header states. Only where the total length is 0 can this be
    /// above 65,535, and then all of them are there.
    pub fn stated_payload(&self) -> u32
        ensures stated { result ≡ self.now.stated_payload }
        ensures bound { result ≤ max 65535 (length self.now.packet) }
    {
        self.stated_payload
    }

    /// Whether more fragments follow, or the fragment offset isn't 0.
    pub fn is_fragment(&self) -> bool
        ensures { result ≡ self.now.is_fragment }
    {
        self.is_fragment
    }

    /// The number of the protocol, 6 for TCP.
    pub fn protocol(&self) -> u8
        ensures { result ≡ self.now.protocol }
    {
        self.protocol
    }

    /// The source address.
    pub fn src(&self) -> u32
        ensures { result ≡ self.now.src }
    {
        self.src
    }

    /// The destination address.
    pub fn dst(&self) -> u32
        ensures { result ≡ self.now.dst }
    {
        self.dst
    }
}
