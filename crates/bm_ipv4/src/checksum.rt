//! The Internet checksum (RFC 1071).
ghost use Rattle.std.specs.Prelude.{◌≡◌, ◌+◌, ◌*◌, ◌≤◌, ◌%◌, length};
ghost use Rattle.bm_ipv4.specs.Checksum.{checksum_of};
ghost use Rattle.bm_ipv4.specs.Inside.Folding.{folded};

/// The one's complement of the one's complement sum of the big-endian 16-bit words. Over a header
/// that includes its correct checksum, this is 0. Two words are added at a time: 2^16 is 1 modulo
/// 65,535, so a number of two words leaves the same sum as the words.
#[tactic(auto, unfolding(crate::specs::Checksum::checksum_of))]
pub fn header_sum(octets: &[u8]) -> u16
    requires even { length octets.now % 2 ≡ 0 }
    requires short { length octets.now ≤ 65534 }
    ensures { result ≡ checksum_of octets.now }
{
    let mut sum = 0;
    let mut pairs = octets;
    while let [a, b, c, d, after @ ..] = pairs {
        sum += u64::from(word(*a, *b)) * 65536 + u64::from(word(*c, *d));
        pairs = after;
    }
    let mut rest = pairs;
    while let [high, low, after @ ..] = rest {
        sum += u64::from(word(*high, *low));
        rest = after;
    }
    u16::MAX - folded(sum)
}

/// The one's complement sum of words whose plain sum this is: carries out of the top are added at
/// the bottom.
fn folded(sum: u64) -> u16
    ensures { result ≡ folded sum }
{
    if sum == 0 {
        0
    } else {
        ((sum - 1) % 65535 + 1) as u16
    }
}

/// The big-endian word of two octets.
fn word(high: u8, low: u8) -> u16
    ensures { result ≡ high * 256 + low }
{
    u16::from(high) * 256 + u16::from(low)
}
