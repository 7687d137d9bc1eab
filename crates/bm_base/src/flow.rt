//! TCP connections and their segments.
ghost use Rattle.std.specs.Prelude.{◌≡◌};
ghost use Rattle.bm_base.specs.Segments as segments;

use crate::flags::{ACK, FIN, RST, SYN};

/// The addresses and ports of a TCP connection, as the client's packets have them.
#[derive(Clone, Copy, PartialEq, Eq, PartialOrd, Ord)]
pub struct Flow {
    pub src: u32,
    pub dst: u32,
    pub sport: u16,
    pub dport: u16,
}

/// A TCP segment (RFC 9293). `len` is SEG.LEN: the data octets, plus one for SYN and one for FIN.
#[derive(Clone, Copy, PartialEq, Eq)]
pub struct Segment {
    pub flow: Flow,
    pub seq: u32,
    pub ack: u32,
    pub len: u32,
    pub flags: u8,
}

impl Segment {
    /// Whether this flag of `flags` is set.
    #[tactic(auto, unfolding(crate::specs::Segments::has_flag))]
    pub fn has(&self, flag: u8) -> bool
        ensures { result ≡ segments.has_flag flag self.now }
    {
        self.flags & flag > 0
    }
}

/// Whether the segment opens a connection: SYN is set, and ACK, RST and FIN aren't.
#[tactic(auto, unfolding(crate::specs::Segments::is_opening))]
pub fn is_opening(s: &Segment) -> bool
    ensures { result ≡ segments.is_opening s.now }
{
    s.has(SYN) && !s.has(ACK) && !s.has(RST) && !s.has(FIN)
}
