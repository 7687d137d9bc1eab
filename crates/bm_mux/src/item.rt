//! What a mux receives, and what it sends.
use bm_base::{List, Moment, Segment, Tag};

/// A packet that comes to a mux: its number, its moment, its segment, and its octets, at most
/// 65,479.
#[derive(Clone, Copy)]
pub struct MuxItem<'a> {
    pub packet: u32,
    pub moment: Moment,
    pub segment: Segment,
    pub inner: &'a [u8],
}

/// A packet that was steered: its number, the clock of its Steer, its tag, and the octets of the
/// tag's header and of the packet.
#[derive(Drop)]
pub struct Steered {
    pub packet: u32,
    pub clock: Moment,
    pub tag: Tag,
    pub octets: List<u8>,
}
