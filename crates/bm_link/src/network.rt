//! Where the network layer's part begins.
ghost use Rattle.std.specs.Prelude.{◌≡◌, ◌≤◌, ◌<◌, ◌+◌, length, IfOk, IsTrue};
ghost use Rattle.std.specs.Result.{result_map_both};
ghost use Rattle.bm_link.specs.Links.{is_link, is_tag, network_of, ethernet_part, after_tags};
ghost use Rattle.bm_link.specs.Links.{raw_part, cooked_part};

use crate::LinkFault;
use bm_ipv4::fields::read_u16;

/// The EtherType of IPv4.
const IPV4: u16 = 0x0800;

// The link types, by their names in the list of pcap's link types (tcpdump.org/linktypes.html).
const ETHERNET: u16 = 1;

const RAW: u16 = 101;

const LINUX_SLL: u16 = 113;

const RAW_IPV4: u16 = 228;

const LINUX_SLL2: u16 = 276;

/// Whether frames of this link type are read.
pub fn is_link(link: u16) -> bool
    ensures { result ≡ is_link link }
{
    matches!(link, ETHERNET | RAW | LINUX_SLL | RAW_IPV4 | LINUX_SLL2)
}

/// The network layer's part of a frame of this link type: 1 Ethernet with at most two tags, 101 raw
/// IP, 113 Linux cooked, 228 raw IPv4, 276 Linux cooked version 2.
#[tactic(auto, unfolding(crate::specs::Links::network_of))]
pub fn network_part(link: u16, octets: &[u8]) -> Result<&[u8], LinkFault>
    requires { IsTrue (is_link link) }
    ensures part { result_map_both (λ part. part.now) (λ e. e) result ≡ network_of link octets.now }
    ensures within { IfOk result (λ part. length part.now ≤ length octets.now) }
{
    match link {
        ETHERNET => ethernet(octets),
        RAW => raw(octets),
        LINUX_SLL => cooked(16, 14, octets),
        RAW_IPV4 => Ok(octets),
        _ => cooked(20, 0, octets),
    }
}

#[tactic(auto, unfolding(crate::specs::Links::ethernet_part, crate::specs::Links::after_tags))]
fn ethernet(octets: &[u8]) -> Result<&[u8], LinkFault>
    ensures part { result_map_both (λ part. part.now) (λ e. e) result ≡ ethernet_part octets.now }
    ensures within { IfOk result (λ part. length part.now ≤ length octets.now) }
{
    if octets.len() < 12 {
        return Err(LinkFault::Short);
    }
    after_tags(2, &octets[12..])
}

/// What follows the EtherType at the front, after at most `tags` tags.
#[tactic(auto, using(crate::proofs::Tags::cut_in_a_tag), unfolding(crate::specs::Links::after_tags))]
fn after_tags(tags: u8, octets: &[u8]) -> Result<&[u8], LinkFault>
    ensures part { result_map_both (λ part. part.now) (λ e. e) result
        ≡ after_tags tags octets.now }
    ensures within { IfOk result (λ part. length part.now ≤ length octets.now) }
{
    if octets.len() < 2 {
        return Err(LinkFault::Short);
    }
    let kind = read_u16(octets, 0);
    if tags > 0 && is_tag(kind) {
        if octets.len() < 4 {
            return Err(LinkFault::Short);
        }
        return after_tags(tags - 1, &octets[4..]);
    }
    if kind != IPV4 {
        return Err(LinkFault::NotIpv4);
    }
    Ok(&octets[2..])
}

/// Whether an EtherType is that of a tag.
fn is_tag(kind: u16) -> bool
    ensures { result ≡ is_tag kind }
{
    kind == 0x8100 || kind == 0x88a8
}

#[tactic(auto, unfolding(crate::specs::Links::raw_part))]
fn raw(octets: &[u8]) -> Result<&[u8], LinkFault>
    ensures part { result_map_both (λ part. part.now) (λ e. e) result ≡ raw_part octets.now }
    ensures within { IfOk result (λ part. length part.now ≤ length octets.now) }
{
    if octets.is_empty() {
        return Err(LinkFault::Short);
    }
    if octets[0] / 16 != 4 {
        return Err(LinkFault::NotIpv4);
    }
    Ok(octets)
}

#[tactic(auto, unfolding(crate::specs::Links::cooked_part))]
fn cooked(header: usize, place: usize, octets: &[u8]) -> Result<&[u8], LinkFault>
    requires { place + 2 ≤ header }
    ensures part { result_map_both (λ part. part.now) (λ e. e) result
        ≡ cooked_part header place octets.now }
    ensures within { IfOk result (λ part. length part.now ≤ length octets.now) }
{
    if octets.len() < header {
        return Err(LinkFault::Short);
    }
    if read_u16(octets, place) != IPV4 {
        return Err(LinkFault::NotIpv4);
    }
    Ok(&octets[header..])
}
