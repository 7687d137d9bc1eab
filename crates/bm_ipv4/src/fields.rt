//! Numbers in the octets of a header, big endian.
ghost use Rattle.std.specs.Prelude.{◌≡◌, ◌≤◌, ◌+◌, ◌++◌, length, take, drop};
ghost use Rattle.byteorder.specs.Endian.{big_bytes};
ghost use Rattle.bm_ipv4.specs.Fields.{u16_at, u32_at};

use byteorder::{BigEndian, ByteOrder};

/// The number in the two octets from this place on.
pub fn read_u16(octets: &[u8], at: usize) -> u16
    requires { at + 2 ≤ length octets.now }
    ensures { result ≡ u16_at octets.now at }
{
    BigEndian::read_u16(&octets[at..])
}

/// The number in the four octets from this place on.
pub fn read_u32(octets: &[u8], at: usize) -> u32
    requires { at + 4 ≤ length octets.now }
    ensures { result ≡ u32_at octets.now at }
{
    BigEndian::read_u32(&octets[at..])
}

/// Writes a number to the two octets from this place on.
pub fn write_u16(octets: &mut [u8], at: usize, number: u16)
    requires { at + 2 ≤ length octets.old }
    ensures { octets.new ≡ take at octets.old ++ big_bytes 2 number ++ drop (at + 2) octets.old }
{
    BigEndian::write_u16(&mut octets[at..], number);
}

/// Writes a number to the four octets from this place on.
pub fn write_u32(octets: &mut [u8], at: usize, number: u32)
    requires { at + 4 ≤ length octets.old }
    ensures { octets.new ≡ take at octets.old ++ big_bytes 4 number ++ drop (at + 4) octets.old }
{
    BigEndian::write_u32(&mut octets[at..], number);
}
