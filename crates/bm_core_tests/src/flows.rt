//! Flows of one client and one service.
use bm_base::Flow;

/// The flow from this port of 10.0.0.1 to port 80 of 192.0.2.1.
pub(crate) fn flow(sport: u16) -> Flow {
    Flow {
        src: 0x0a00_0001,
        dst: 0xc000_0201,
        sport,
        dport: 80,
    }
}
