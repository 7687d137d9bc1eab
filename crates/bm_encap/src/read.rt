//! Reads carrier headers.
ghost use Rattle.std.specs.Prelude.{◌≡◌, ◌≤◌, ◌<◌, ◌+◌, ℕ, nat_lt, ◌^◌, length, All, IfOk};
ghost use Rattle.std.specs.Prelude.{MatchResult, Ok as ok, Err as err, Some, None, true, false};
ghost use Rattle.std.specs.Option.{option_map};
ghost use Rattle.bm_ipv4.specs.Fields.{octet_at, u32_at};
ghost use Rattle.bm_encap.specs.Faults as faults;
ghost use Rattle.bm_encap.specs.Faults.{bad_count, fault_when, hop_of, option_fault, outer_fault};
ghost use Rattle.bm_encap.specs.Faults.{past_at, past_fault, server_of_address, tag_in, u64_at};
ghost use Rattle.bm_encap.specs.Faults.{unwrapped};
ghost use Rattle.bm_encap.specs.Faults.{without_sum};
ghost use Rattle.bm_base.specs.Tags.{IsTag};
ghost use Rattle.bm_encap.specs.declared.fault.EncapFault.{EncapFault as Fault};
ghost use Rattle.bm_encap.specs.declared.fault.EncapFault.TheVariants.{BadOption};
ghost use Rattle.bm_ipv4.specs.Checksum.{checksum_of};

use crate::fault::EncapFault;
use crate::header::HEADER;
use bm_base::{Hop, Moment, MuxId, Past, ServerId, Tag, Version, mux_addr, mux_at, server_of};
use bm_ipv4::fields::{read_u16, read_u32};
use bm_ipv4::header_sum;
use byteorder::{BigEndian, ByteOrder};

/// The tag of the header, and the packet after it, which borrows the octets. Takes no memory.
#[tactic(auto, unfolding(crate::specs::Faults::unwrapped))]
pub fn unwrap(octets: &[u8]) -> Result<(Tag, &[u8]), EncapFault>
    ensures read { MatchResult result (λ read. unwrapped octets.now ≡ ok (read.0, read.1.now))
        (λ fault. unwrapped octets.now ≡ err fault) }
    ensures total { IfOk result
        (λ read. (length octets.now ≡ 56 + length read.1.now) × (length octets.now < 2 ^ 16)) }
    ensures tag { IfOk result (λ read. IsTag read.0) }
{
    if octets.len() < HEADER {
        return Err(EncapFault::Short);
    }
    let dest = read_outer(octets)?;
    if sum_of(octets) != read_u16(octets, 10) {
        return Err(EncapFault::BadSum);
    }
    let tag = read_option(octets, dest)?;
    if usize::from(read_u16(octets, 2)) != octets.len() {
        return Err(EncapFault::BadLength);
    }
    Ok((tag, &octets[HEADER..]))
}

/// Octets of the outer header that are always the same, by their places.
const OUTER: [(u8, u8); 8] = [
    (0, 0x4e),
    (1, 0x00),
    (4, 0x00),
    (5, 0x00),
    (6, 0x40),
    (7, 0x00),
    (8, 0x40),
    (9, 0x04),
];

/// The type and the length of the option, by their places.
const OPTION: [(u8, u8); 2] = [(20, 0x9e), (21, 0x24)];

/// The first place with another octet.
fn differing(octets: &[u8], fixed: &[(u8, u8)]) -> Option<u8>
    requires long { 56 ≤ length octets.now }
    requires fixed { All (λ p. p.0 < 56) fixed.now }
    ensures { (fault : ℕ → Fault)
        → faults.differing octets.now fault fixed.now ≡ option_map fault result }
{
    for (place, octet) in fixed {
        if octets[usize::from(*place)] != *octet {
            return Some(*place);
        }
    }
    None
}

/// Checks the outer header, except its checksum and length, and reads the destination.
#[tactic(auto, unfolding(crate::specs::Faults::outer_fault))]
fn read_outer(octets: &[u8]) -> Result<ServerId, EncapFault>
    requires { 56 ≤ length octets.now }
    ensures { MatchResult result
        (λ dest. (outer_fault octets.now ≡ None)
        × (dest ≡ server_of_address (u32_at octets.now 16)))
        (λ fault. outer_fault octets.now ≡ Some fault) }
{
    if let Some(place) = differing(octets, &OUTER) {
        return Err(EncapFault::BadOuter(place));
    }
    if mux_at(read_u32(octets, 12)).is_none() {
        return Err(EncapFault::BadOuter(12));
    }
    server_of(read_u32(octets, 16)).ok_or(EncapFault::BadOuter(16))
}

/// The checksum of the header with zero in its place.
fn sum_of(octets: &[u8]) -> u16
    requires { 56 ≤ length octets.now }
    ensures { result ≡ checksum_of (without_sum octets.now) }
{
    let mut header = [0; HEADER];
    header.copy_from_slice(&octets[..HEADER]);
    header[10] = 0;
    header[11] = 0;
    header_sum(&header)
}

/// Checks the option, and reads the tag.
#[tactic(auto, unfolding(crate::specs::Faults::option_fault))]
fn read_option(octets: &[u8], dest: ServerId) -> Result<Tag, EncapFault>
    requires long { 56 ≤ length octets.now }
    requires dest { dest ≡ server_of_address (u32_at octets.now 16) }
    ensures { MatchResult result
        (λ tag. (option_fault octets.now ≡ None) × (tag ≡ tag_in octets.now))
        (λ fault. option_fault octets.now ≡ Some fault) }
{
    if let Some(place) = differing(octets, &OPTION) {
        return Err(EncapFault::BadOption(place));
    }
    let hop = read_hop(octets[22])?;
    let count = read_count(octets)?;
    let prev = read_past(octets, 24, count > 0, is_prev_wrong(octets, hop))?;
    let older = read_past(octets, 36, count > 1, is_older_wrong(octets, hop))?;
    let mux = MuxId(read_u16(octets, 52));
    if mux_addr(mux) != read_u32(octets, 12) {
        return Err(EncapFault::BadOption(52));
    }
    if read_u16(octets, 54) != 0 {
        return Err(EncapFault::BadOption(54));
    }
    Ok(Tag {
        hop,
        dest,
        prev,
        older,
        version: Version(read_u32(octets, 48)),
        mux,
    })
}

fn read_hop(octet: u8) -> Result<Hop, EncapFault>
    ensures { MatchResult result
        (λ hop. (fault_when (nat_lt 2 octet) (BadOption 22) ≡ None) × (hop ≡ hop_of octet))
        (λ fault. fault_when (nat_lt 2 octet) (BadOption 22) ≡ Some fault) }
{
    match octet {
        0 => Ok(Hop::Direct),
        1 => Ok(Hop::Chained),
        2 => Ok(Hop::Twice),
        _ => Err(EncapFault::BadOption(22)),
    }
}

/// How many previous servers there are.
fn read_count(octets: &[u8]) -> Result<u8, EncapFault>
    requires { 56 ≤ length octets.now }
    ensures { MatchResult result
        (λ count. (fault_when (bad_count octets.now) (BadOption 23) ≡ None)
        × (count ≡ octet_at octets.now 23))
        (λ fault. fault_when (bad_count octets.now) (BadOption 23) ≡ Some fault) }
{
    let count = octets[23];
    if count > 2 || count < octets[22] {
        return Err(EncapFault::BadOption(23));
    }
    Ok(count)
}

/// Whether the previous server's address is wrong for this hop and destination.
fn is_prev_wrong(octets: &[u8], hop: Hop) -> bool
    requires { 56 ≤ length octets.now }
    ensures { result ≡ faults.is_prev_wrong hop (u32_at octets.now 24) (u32_at octets.now 16) }
{
    let to_dest = read_u32(octets, 24) == read_u32(octets, 16);
    match hop {
        Hop::Direct => to_dest,
        Hop::Chained => !to_dest,
        Hop::Twice => false,
    }
}

/// Whether the older server's address is wrong for this hop, previous server and destination.
fn is_older_wrong(octets: &[u8], hop: Hop) -> bool
    requires { 56 ≤ length octets.now }
    ensures { result ≡ faults.is_older_wrong hop (u32_at octets.now 36) (u32_at octets.now 24)
        (u32_at octets.now 16) }
{
    let addr = read_u32(octets, 36);
    if addr == read_u32(octets, 24) {
        return true;
    }
    match hop {
        Hop::Twice => addr != read_u32(octets, 16),
        _ => false,
    }
}

/// Checks the octets of a previous server from this place on, and reads it, if there is one.
/// `wrong` says that its address doesn't fit the others.
#[tactic(auto, unfolding(crate::specs::Faults::past_fault))]
fn read_past(octets: &[u8], at: u8, there: bool, wrong: bool) -> Result<Option<Past>, EncapFault>
    requires long { 56 ≤ length octets.now }
    requires at { at ≤ 36 }
    ensures { MatchResult result
        (λ past. (past_fault octets.now at there wrong ≡ None) × (past ≡ past_at octets.now at there))
        (λ fault. past_fault octets.now at there wrong ≡ Some fault) }
{
    if there {
        Ok(Some(read_server(octets, at, wrong)?))
    } else {
        read_zeros(octets, at)?;
        Ok(None)
    }
}

/// The server and the stamp at this place.
#[tactic(auto, unfolding(crate::specs::Faults::past_fault))]
fn read_server(octets: &[u8], at: u8, wrong: bool) -> Result<Past, EncapFault>
    requires long { 56 ≤ length octets.now }
    requires at { at ≤ 36 }
    ensures { MatchResult result
        (λ past. (past_fault octets.now at true wrong ≡ None)
        × (Some past ≡ past_at octets.now at true))
        (λ fault. past_fault octets.now at true wrong ≡ Some fault) }
{
    match server_of(read_u32(octets, usize::from(at))) {
        Some(server) if !wrong => Ok(Past {
            server,
            stamp: Moment(read_u64(octets, usize::from(at) + 4)),
        }),
        _ => Err(EncapFault::BadOption(at)),
    }
}

/// Checks that the address and the stamp at this place are zero.
#[tactic(auto, unfolding(crate::specs::Faults::past_fault))]
fn read_zeros(octets: &[u8], at: u8) -> Result<(), EncapFault>
    requires long { 56 ≤ length octets.now }
    requires at { at ≤ 36 }
    ensures { MatchResult result
        (λ _. past_fault octets.now at false false ≡ None)
        (λ fault. past_fault octets.now at false false ≡ Some fault) }
{
    if read_u32(octets, usize::from(at)) != 0 {
        return Err(EncapFault::BadOption(at));
    }
    if read_u64(octets, usize::from(at) + 4) != 0 {
        return Err(EncapFault::BadOption(at + 4));
    }
    Ok(())
}

/// The number in the eight octets from this place on.
fn read_u64(octets: &[u8], at: usize) -> u64
    requires { at + 8 ≤ length octets.now }
    ensures { result ≡ u64_at octets.now at }
{
    BigEndian::read_u64(&octets[at..])
}
