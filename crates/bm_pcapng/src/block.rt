//! The heads of blocks.
ghost use Rattle.std.specs.Prelude.{◌≡◌, ◌≤◌, length};
ghost use Rattle.bm_pcapng.specs.Blocks.{head_size, is_length, is_packet, is_section};
ghost use Rattle.bm_pcapng.specs.Blocks.{kind_in, kind_of, least_length, magic_of, order_of};

use crate::place::LONGEST_BLOCK;
use bm_pcap::Order;

/// The kinds of block that are distinguished.
#[derive(Clone, Copy, PartialEq, Eq)]
pub enum Kind {
    SectionHeader,
    InterfaceDescription,
    EnhancedPacket,
    SimplePacket,
    Other,
}

/// Whether these four octets are the type of a section header.
pub(crate) fn is_section(code: &[u8]) -> bool
    requires { 4 ≤ length code.now }
    ensures { result ≡ is_section code.now }
{
    Order::Big.read_u32(code, 0) == 0x0a0d_0d0a
}

impl Kind {
    /// The kind of a block with this type, in a section of this order.
    pub(crate) fn at(order: Order, code: &[u8]) -> Kind
        requires { 4 ≤ length code.now }
        ensures { result ≡ kind_in order code.now }
    {
        if is_section(code) {
            Kind::SectionHeader
        } else {
            Kind::of(order.read_u32(code, 0))
        }
    }

    /// The kind of blocks of this type.
    fn of(code: u32) -> Kind
        ensures { result ≡ kind_of code }
    {
        match code {
            1 => Kind::InterfaceDescription,
            6 => Kind::EnhancedPacket,
            3 => Kind::SimplePacket,
            _ => Kind::Other,
        }
    }

    pub(crate) fn is_packet(self) -> bool
        ensures { result ≡ is_packet self }
    {
        matches!(self, Kind::EnhancedPacket | Kind::SimplePacket)
    }

    /// How many octets it takes to know a block's total length.
    pub(crate) fn head_size(self) -> usize
        ensures { result ≡ head_size self }
    {
        match self {
            Kind::SectionHeader => 12,
            _ => 8,
        }
    }

    /// How many fixed octets a block has.
    fn least_length(self) -> u32
        ensures { result ≡ least_length self }
    {
        match self {
            Kind::SectionHeader => 28,
            Kind::InterfaceDescription => 20,
            Kind::EnhancedPacket => 32,
            Kind::SimplePacket => 16,
            Kind::Other => 12,
        }
    }

    /// Whether a block may have this many octets.
    pub(crate) fn is_length(self, size: u32) -> bool
        ensures { result ≡ is_length self size }
    {
        size % 4 == 0 && size >= self.least_length() && size as usize <= LONGEST_BLOCK
    }
}

/// The order by the magic in a section header.
pub(crate) fn magic(head: &[u8]) -> Option<Order>
    requires { 12 ≤ length head.now }
    ensures { result ≡ magic_of head.now }
{
    match Order::Big.read_u32(head, 8) {
        0x1a2b_3c4d => Some(Order::Big),
        0x4d3c_2b1a => Some(Order::Little),
        _ => None,
    }
}

/// The order of a block's numbers, in a section of this order.
pub(crate) fn order_of(kind: Kind, order: Order, head: &[u8]) -> Option<Order>
    requires { head_size kind ≤ length head.now }
    ensures { result ≡ order_of kind order head.now }
{
    match kind {
        Kind::SectionHeader => magic(head),
        _ => Some(order),
    }
}
