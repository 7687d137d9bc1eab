//! Packets of the client 10.0.0.1 to port 80 of 192.0.2.1.
use bm_base::Flow;

/// The flow from port 1000.
pub(crate) const FLOW: Flow = Flow {
    src: 0x0a00_0001,
    dst: 0xc000_0201,
    sport: 1000,
    dport: 80,
};

/// An IPv4 packet with a SYN from this port of 10.0.0.1 to port 80 of 192.0.2.1.
pub(crate) fn syn(sport: u16) -> [u8; 40] {
    let [high, low] = sport.to_be_bytes();
    [
        0x45, 0, 0, 40, 0, 0, 0x40, 0, 64, 6, 0, 0, 10, 0, 0, 1, 192, 0, 2, 1, high, low, 0, 80, 0,
        0, 0, 100, 0, 0, 0, 0, 0x50, 2, 0, 0, 0, 0, 0, 0,
    ]
}
