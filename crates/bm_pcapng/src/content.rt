//! What a block says.
ghost use Rattle.std.specs.Prelude.{◌≡◌, ◌≤◌, [], length, option_map, IfErr, IfOk, Some};
ghost use Rattle.bm_pcap.specs.Limits.{longest};
ghost use Rattle.bm_pcapng.specs.declared.block.Kind.TheVariants.{SectionHeader};
ghost use Rattle.bm_pcapng.specs.declared.block.Kind.TheVariants.{InterfaceDescription};
ghost use Rattle.bm_pcapng.specs.Blocks.{least_length};
ghost use Rattle.bm_pcapng.specs.Inside.Places.{packet_in};
ghost use Rattle.bm_pcapng.specs.Causes.{IsStartFault};
ghost use Rattle.bm_pcapng.specs.Inside.Causes.{IsContentFault};
ghost use Rattle.bm_pcapng.specs.Inside.Parts.{IsContentOf, IsPacketIn};
ghost use Rattle.bm_pcapng.specs.Contents.{content, section_content, interface_content};
ghost use Rattle.bm_pcapng.specs.Contents.{enhanced_content, simple_content, packet_at};
ghost use Rattle.bm_pcapng.specs.Contents.{captured_of};

use crate::place::{LONGEST, MOST_INTERFACES};
use crate::{Interface, Kind, Place};
use bm_pcap::{CaptureFault, Order};

/// A packet in its block: its time, if it has one, the link type of its interface, and where its
/// octets begin and how many there are.
#[derive(Clone, Copy, PartialEq, Eq)]
pub struct Packet {
    pub time: Option<u128>,
    pub link: u16,
    pub at: u32,
    pub len: u32,
}

/// What a block says: it begins a section with this order, describes an interface, contains a
/// packet, or says nothing that is read.
#[derive(Clone, Copy, PartialEq, Eq)]
pub enum Content {
    Begins(Order),
    Describes(Interface),
    Holds(Packet),
    Nothing,
}

impl Content {
    /// The packet of a block that contains one.
    pub(crate) fn packet(&self) -> Option<Packet>
        ensures { result ≡ packet_in self.now }
    {
        match self {
            Content::Holds(packet) => Some(*packet),
            Content::Begins(_) | Content::Describes(_) | Content::Nothing => None,
        }
    }
}

/// What a whole block says, in a section with this order and these interfaces.
#[tactic(auto, unfolding(crate::specs::Contents::content))]
pub(crate) fn content_of(
    kind: Kind,
    order: Order,
    interfaces: &[Interface],
    place: &Place,
    block: &[u8],
) -> Result<Content, CaptureFault>
    requires { least_length kind ≤ length block.now }
    ensures start { kind ≡ SectionHeader → IfErr result IsStartFault }
    ensures content { result ≡ content kind order interfaces.now place.now block.now }
    ensures fits { IfOk result (IsContentOf kind interfaces.now (length block.now)) }
    ensures others { IfErr result IsContentFault }
{
    match kind {
        Kind::SectionHeader => section(order, block),
        Kind::InterfaceDescription => interface(order, interfaces, place, block),
        Kind::EnhancedPacket => enhanced(order, interfaces, place, block),
        Kind::SimplePacket => simple(order, interfaces, place, block),
        Kind::Other => Ok(Content::Nothing),
    }
}

fn section(order: Order, block: &[u8]) -> Result<Content, CaptureFault>
    requires { 28 ≤ length block.now }
    ensures content { result ≡ section_content order block.now }
    ensures start { IfErr result IsStartFault }
    ensures fits { IfOk result (IsContentOf SectionHeader [] (length block.now)) }
    ensures others { IfErr result IsContentFault }
{
    if order.read_u16(block, 12) != 1 {
        return Err(CaptureFault::BadVersion);
    }
    Ok(Content::Begins(order))
}

fn interface(
    order: Order,
    interfaces: &[Interface],
    place: &Place,
    block: &[u8],
) -> Result<Content, CaptureFault>
    requires { 20 ≤ length block.now }
    ensures content { result ≡ interface_content order interfaces.now place.now block.now }
    ensures fits { IfOk result
        (IsContentOf InterfaceDescription interfaces.now (length block.now)) }
    ensures others { IfErr result IsContentFault }
{
    if interfaces.len() >= MOST_INTERFACES {
        return Err(CaptureFault::BadBlock(place.block));
    }
    Ok(Content::Describes(Interface::of(order, block)))
}

fn enhanced(
    order: Order,
    interfaces: &[Interface],
    place: &Place,
    block: &[u8],
) -> Result<Content, CaptureFault>
    requires { 32 ≤ length block.now }
    ensures content { result ≡ enhanced_content order interfaces.now place.now block.now }
    ensures fits { IfOk result (IsPacketIn (length block.now)) }
    ensures others { IfErr result IsContentFault }
{
    let number = order.read_u32(block, 8);
    let high = u64::from(order.read_u32(block, 12));
    let low = u64::from(order.read_u32(block, 16));
    let len = order.read_u32(block, 20);
    if len > LONGEST {
        return Err(CaptureFault::BadLength(place.number, len));
    }
    let Some(interface) = interfaces.get(number as usize) else {
        return Err(CaptureFault::BadBlock(place.block));
    };
    let time = interface.resolution.nanoseconds(high * 4_294_967_296 + low);
    packet_in(place, 28, len, block, Some(time), interface)
}

fn simple(
    order: Order,
    interfaces: &[Interface],
    place: &Place,
    block: &[u8],
) -> Result<Content, CaptureFault>
    requires { 16 ≤ length block.now }
    ensures content { result ≡ simple_content order interfaces.now place.now block.now }
    ensures fits { IfOk result (IsPacketIn (length block.now)) }
    ensures others { IfErr result IsContentFault }
{
    let interface = interfaces.first();
    let len = captured(interface, order.read_u32(block, 8));
    if len > LONGEST {
        return Err(CaptureFault::BadLength(place.number, len));
    }
    let Some(interface) = interface else {
        return Err(CaptureFault::BadBlock(place.block));
    };
    packet_in(place, 12, len, block, None, interface)
}

/// How many octets of a simple packet were captured.
fn captured(interface: Option<&Interface>, original: u32) -> u32
    ensures { result ≡ captured_of (option_map (λ i. i.now) interface.entry) original }
{
    match interface {
        Some(interface) if interface.snapshot != 0 => original.min(interface.snapshot),
        _ => original,
    }
}

/// A packet whose octets begin here, if they fit its block.
fn packet_in(
    place: &Place,
    at: u32,
    len: u32,
    block: &[u8],
    time: Option<u128>,
    interface: &Interface,
) -> Result<Content, CaptureFault>
    requires { len ≤ longest }
    ensures content { result
        ≡ packet_at place.now at len block.now (Some interface.now) (λ _. time) }
    ensures fits { IfOk result (IsPacketIn (length block.now)) }
    ensures others { IfErr result IsContentFault }
{
    if at as usize + len as usize + 4 > block.len() {
        return Err(CaptureFault::BadBlock(place.block));
    }
    Ok(Content::Holds(Packet {
        time,
        link: interface.link,
        at,
        len,
    }))
}
