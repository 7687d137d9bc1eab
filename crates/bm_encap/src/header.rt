//! The carrier header of a tag.
ghost use Rattle.std.specs.Prelude.{◌≡◌, ◌+◌, ◌++◌, ◌≤◌, length, take, drop, MatchResult, Ok as ok};
ghost use Rattle.std.specs.Prelude.{Err as err};
ghost use Rattle.byteorder.specs.Endian.{big_bytes};
ghost use Rattle.bm_ipv4.specs.Checksum.{checksum_of};
ghost use Rattle.bm_encap.specs.Faults as faults;
ghost use Rattle.bm_encap.specs.Faults.{chained};
ghost use Rattle.bm_encap.specs.Spellings as spellings;
ghost use Rattle.bm_base.specs.Labels.{hop_number};
ghost use Rattle.bm_base.specs.Tags.{IsTag};

use crate::fault::EncapFault;
use crate::read::unwrap;
use bm_base::{Hop, Memory, Past, Tag, mux_addr, server_addr};
use bm_ipv4::fields::{write_u16, write_u32};
use bm_ipv4::header_sum;
use byteorder::{BigEndian, ByteOrder};

/// How many octets the header has.
pub(crate) const HEADER: usize = 56;

/// Appends the header of the tag and the packet. Where memory is refused, `out` stays as it was.
pub fn wrap(tag: &Tag, inner: &[u8], out: &mut Vec<u8>) -> Result<(), Memory>
    requires tag { IsTag tag.now }
    requires inner { length inner.now ≤ 65479 }
    ensures { MatchResult result
        (λ _. out.new.items ≡ out.old.items ++ spellings.spelling tag.now inner.now)
        (λ _. out.new.items ≡ out.old.items) }
{
    out.reserve(HEADER + inner.len())?;
    out.extend_from_slice(&summed(tag, (HEADER + inner.len()) as u16))?;
    out.extend_from_slice(inner)?;
    Ok(())
}

/// Rewrites the header in place for the next hop, to the server before, and returns the tag of that
/// hop. The faults are those of `unwrap`; then `BadOption(22)` if the hop is the last one, and
/// `BadOption(23)` if there is no such server. On a fault the octets stay as they were.
pub fn chain(octets: &mut [u8]) -> Result<Tag, EncapFault>
    ensures next { result ≡ faults.next_in octets.old }
    ensures octets { MatchResult result
        (λ _. chained octets.old ≡ ok octets.new)
        (λ fault. (chained octets.old ≡ err fault) × (octets.new ≡ octets.old)) }
{
    let (tag, _) = unwrap(octets)?;
    let next = next_hop(&tag)?;
    let total = octets.len() as u16;
    replace_header(octets, &summed(&next, total));
    Ok(next)
}

/// Rewrites the header in place for the next hop, to the server before. The faults are those of
/// `unwrap`; then `BadOption(22)` if the hop is the last one, and `BadOption(23)` if there is no
/// such server. On a fault the octets stay as they were.
pub fn set_chained(octets: &mut [u8]) -> Result<(), EncapFault>
    ensures { MatchResult result
        (λ _. chained octets.old ≡ ok octets.new)
        (λ fault. (chained octets.old ≡ err fault) × (octets.new ≡ octets.old)) }
{
    chain(octets)?;
    Ok(())
}

/// Writes a header over the first octets.
fn replace_header(octets: &mut [u8], header: &[u8; 56])
    requires { 56 ≤ length octets.old }
    ensures { octets.new ≡ header.now ++ drop 56 octets.old }
{
    octets[..HEADER].copy_from_slice(header);
}

/// The tag of the hop to the server before.
fn next_hop(tag: &Tag) -> Result<Tag, EncapFault>
    ensures { result ≡ faults.next_hop tag.now }
{
    match (tag.hop.next(), tag.onward()) {
        (None, _) => Err(EncapFault::BadOption(22)),
        (Some(_), None) => Err(EncapFault::BadOption(23)),
        (Some(hop), Some(past)) => Ok(Tag {
            hop,
            dest: past.server,
            ..*tag
        }),
    }
}

/// The header of the tag for this total length, with its checksum.
#[tactic(auto, unfolding(crate::specs::Spellings::header))]
fn summed(tag: &Tag, total: u16) -> [u8; 56]
    ensures { result
        ≡ spellings.header tag.now total (checksum_of (spellings.header tag.now total 0)) }
{
    let mut octets = header(tag, total, 0);
    let sum = header_sum(&octets);
    write_u16(&mut octets, 10, sum);
    octets
}

/// The octets of a header that are the same for every tag, and zero elsewhere.
const PLAIN: [u8; 56] = [
    0x4e, 0, 0, 0, 0, 0, 0x40, 0, 0x40, 4, 0, 0, 0, 0, 0, 0, 0, 0, 0, 0, 0x9e, 0x24, 0, 0, 0, 0, 0,
    0, 0, 0, 0, 0, 0, 0, 0, 0, 0, 0, 0, 0, 0, 0, 0, 0, 0, 0, 0, 0, 0, 0, 0, 0, 0, 0, 0, 0,
];

/// The header of the tag for this total length, with this checksum.
#[tactic(auto, unfolding(crate::specs::Spellings::header))]
fn header(tag: &Tag, total: u16, sum: u16) -> [u8; 56]
    ensures { result ≡ spellings.header tag.now total sum }
{
    let mut octets = PLAIN;
    write_u16(&mut octets, 2, total);
    write_u16(&mut octets, 10, sum);
    write_u32(&mut octets, 12, mux_addr(tag.mux));
    write_u32(&mut octets, 16, server_addr(tag.dest));
    octets[22] = hop_octet(tag.hop);
    octets[23] = past_count(tag);
    write_u32(&mut octets, 24, past_address(tag.prev));
    write_u64(&mut octets, 28, past_stamp(tag.prev));
    write_u32(&mut octets, 36, past_address(tag.older));
    write_u64(&mut octets, 40, past_stamp(tag.older));
    write_u32(&mut octets, 48, tag.version.0);
    write_u16(&mut octets, 52, tag.mux.0);
    octets
}

fn hop_octet(hop: Hop) -> u8
    ensures { result ≡ hop_number hop }
{
    match hop {
        Hop::Direct => 0,
        Hop::Chained => 1,
        Hop::Twice => 2,
    }
}

/// How many previous servers there are.
fn past_count(tag: &Tag) -> u8
    ensures { result ≡ spellings.past_count tag.now.prev tag.now.older }
{
    match (tag.prev, tag.older) {
        (None, None) => 0,
        (Some(_), Some(_)) => 2,
        _ => 1,
    }
}

/// The address of a previous server, or zero.
fn past_address(past: Option<Past>) -> u32
    ensures { result ≡ spellings.past_address past }
{
    past.map_or(0, |p| server_addr(p.server))
}

/// The stamp of a previous server, or zero.
pub(crate) fn past_stamp(past: Option<Past>) -> u64
    ensures { result ≡ spellings.past_stamp past }
{
    past.map_or(0, |p| p.stamp.0)
}

/// Writes a number to the eight octets from this place on.
fn write_u64(octets: &mut [u8], at: usize, number: u64)
    requires { at + 8 ≤ length octets.old }
    ensures { octets.new ≡ take at octets.old ++ big_bytes 8 number ++ drop (at + 8) octets.old }
{
    BigEndian::write_u64(&mut octets[at..], number);
}
