//! The places of a segment in a stream.
ghost use Rattle.std.specs.Prelude.{◌≡◌, ◌+◌, ◌-◌, ◌^◌, ◌<◌, ◌≤◌, ℤ, pos, negsuc, ◌<ℤ◌, ◌≤ℤ◌, length};
ghost use Rattle.bm_stream.specs.Accepts as accepts;
ghost use Rattle.bm_seq.specs.Receivers.{distance};
ghost use Rattle.bm_tcp.specs.Header.{count_of};

use bm_base::Segment;
use bm_base::flags::{FIN, SYN};

/// How many sequence numbers there are.
const NUMBERS: u64 = 1 << 32;

/// How far sequence number `a` is after `b`, as a number from -2^31 to 2^31 - 1.
#[tactic(auto, unfolding(bm_seq::specs::Receivers::distance))]
fn signed_distance(a: u64, b: u64) -> i64
    requires a { a < 2 ^ 32 }
    requires b { b < 2 ^ 32 }
    ensures is { result ≡ accepts.signed (distance a b) }
    ensures low { negsuc (2 ^ 31) ≤ℤ result }
    ensures high { result <ℤ pos (2 ^ 31) }
{
    let distance = (a + NUMBERS - b) % NUMBERS;
    if distance < NUMBERS / 2 {
        distance as i64
    } else {
        distance as i64 - NUMBERS as i64
    }
}

/// 1 if the flag is set.
#[tactic(auto, unfolding(bm_base::specs::Segments::has_flag))]
fn count(s: &Segment, flag: u8) -> u32
    ensures count { result ≡ count_of flag s.now.flags }
    ensures bound { result ≤ 1 }
{
    if s.has(flag) { 1 } else { 0 }
}

/// The place of a segment's first data octet, in a stream of this length whose SYN has the sequence
/// number `start`.
pub(crate) fn place_of(start: u32, length: u64, s: &Segment) -> i64
    requires { length < 2 ^ 61 }
    ensures is { result ≡ accepts.place_of start length s.now }
    ensures low { negsuc (2 ^ 62 - 1) <ℤ result }
    ensures high { result <ℤ pos (2 ^ 62) }
{
    let first = (u64::from(s.seq) + u64::from(count(s, SYN))) % NUMBERS;
    let next = (u64::from(start) + 1 + length) % NUMBERS;
    length as i64 + signed_distance(first, next)
}

/// The place of the segment's FIN: after its data octets, which begin at `place`, as many as it
/// states.
pub(crate) fn fin_of(place: i64, s: &Segment) -> Option<i64>
    requires { place <ℤ pos (2 ^ 62) }
    ensures { result ≡ accepts.fin_of place s.now }
{
    if s.has(FIN) {
        let stated = s
            .len
            .saturating_sub(count(s, SYN))
            .saturating_sub(count(s, FIN));
        Some(place + i64::from(stated))
    } else {
        None
    }
}
