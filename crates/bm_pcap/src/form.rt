//! The header of a capture.
ghost use Rattle.std.specs.Prelude.{◌≡◌, ◌≤◌, ◌+◌, ◌++◌, length, Some, IfOk, IfErr, IsTrue};
ghost use Rattle.bm_link.specs.Links.{is_link};
ghost use Rattle.bm_pcap.specs.Causes.{HasStepCause, IsHeaderFault};
ghost use Rattle.bm_pcap.specs.Header.{form_by, magic_of, nanoseconds_in, number_at};
ghost use Rattle.bm_pcap.specs.Parts.{FormGives};
ghost use Rattle.bm_pcap.specs.Taken.{FormLeaves};

use crate::CaptureFault;
use bm_io::{Source, fill};
use bm_link::is_link;
use byteorder::{BigEndian, ByteOrder, LittleEndian};

/// The order of the octets in a capture's numbers.
#[derive(Clone, Copy, PartialEq, Eq)]
pub enum Order {
    Big,
    Little,
}

/// What a capture counts fractions of a second in.
#[derive(Clone, Copy, PartialEq, Eq)]
pub enum Unit {
    Microsecond,
    Nanosecond,
}

/// What a capture's header says: the order of its numbers, the unit of its times, and its link
/// type.
#[derive(Clone, Copy, PartialEq, Eq)]
pub struct Form {
    pub order: Order,
    pub unit: Unit,
    pub link: u16,
}

impl Unit {
    pub(crate) fn nanoseconds(self) -> u64
        ensures { result ≡ nanoseconds_in self }
    {
        match self {
            Unit::Microsecond => 1000,
            Unit::Nanosecond => 1,
        }
    }
}

impl Order {
    /// The number in the two octets at this place.
    pub fn read_u16(self, octets: &[u8], at: usize) -> u16
        requires { at + 2 ≤ length octets.now }
        ensures { result ≡ number_at self 2 at octets.now }
    {
        match self {
            Order::Big => BigEndian::read_u16(&octets[at..]),
            Order::Little => LittleEndian::read_u16(&octets[at..]),
        }
    }

    /// The number in the four octets at this place.
    pub fn read_u32(self, octets: &[u8], at: usize) -> u32
        requires { at + 4 ≤ length octets.now }
        ensures { result ≡ number_at self 4 at octets.now }
    {
        match self {
            Order::Big => BigEndian::read_u32(&octets[at..]),
            Order::Little => LittleEndian::read_u32(&octets[at..]),
        }
    }
}

/// The order and the unit by the magic number.
fn magic(octets: &[u8]) -> Option<(Order, Unit)>
    requires { length octets.now ≡ 4 }
    ensures { result ≡ magic_of octets.now }
{
    match Order::Big.read_u32(octets, 0) {
        0xa1b2_c3d4 => Some((Order::Big, Unit::Microsecond)),
        0xd4c3_b2a1 => Some((Order::Little, Unit::Microsecond)),
        0xa1b2_3c4d => Some((Order::Big, Unit::Nanosecond)),
        0x4d3c_b2a1 => Some((Order::Little, Unit::Nanosecond)),
        _ => None,
    }
}

/// The rest of the header, after the magic number.
fn form_after_magic(order: Order, unit: Unit, header: &[u8]) -> Result<Form, CaptureFault>
    requires { length header.now ≡ 24 }
    ensures form { result ≡ form_by (Some (order, unit)) header.now }
    ensures link { IfOk result (λ form. IsTrue (is_link form.link)) }
    ensures others { IfErr result IsHeaderFault }
{
    if order.read_u16(header, 4) != 2 || order.read_u16(header, 6) != 4 {
        return Err(CaptureFault::BadVersion);
    }
    let link = (order.read_u32(header, 20) % 65536) as u16;
    if !is_link(link) {
        return Err(CaptureFault::BadLink(link));
    }
    Ok(Form { order, unit, link })
}

/// Reads the header of a capture, and no more than the magic number if that is wrong.
pub(crate) fn read_form<S: Source>(src: &mut S) -> Result<Form, CaptureFault>
    ensures form { FormGives (S.left src.old) (S.left src.new) result }
    ensures leaves { FormLeaves (S.left src.old) (S.left src.new) result }
    ensures link { IfOk result (λ form. IsTrue (is_link form.link)) }
    ensures others { IfErr result IsHeaderFault }
    ensures cause { HasStepCause (S.faults src.old) (S.faults src.new) result }
{
    let mut first = [0u8; 4];
    if fill(src, &mut first)? < 4 {
        return Err(CaptureFault::NotACapture);
    }
    let Some((order, unit)) = magic(&first) else {
        return Err(CaptureFault::NotACapture);
    };
    let mut rest = [0u8; 20];
    if fill(src, &mut rest)? < 20 {
        return Err(CaptureFault::NotACapture);
    }
    let mut header = [0u8; 24];
    join(&mut header, &first, &rest);
    form_after_magic(order, unit, &header)
}

/// Writes both parts, one after the other.
fn join(whole: &mut [u8], front: &[u8], back: &[u8])
    requires { length front.now + length back.now ≡ length whole.old }
    ensures { whole.new ≡ front.now ++ back.now }
{
    whole[..front.len()].copy_from_slice(front);
    whole[front.len()..].copy_from_slice(back);
}
