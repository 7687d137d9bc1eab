//! What the captures of both forms contain.
use bm_base::{Body, Capture, Flow, Moment, Octets, Record, Segment, Vip};
use std::process::Abort;

/// The service that the flow is to.
pub(crate) const VIPS: [Vip; 1] = [Vip {
    addr: 0xc000_0201,
    port: 80,
}];

const FLOW: Flow = Flow {
    src: 0x0a00_0001,
    dst: 0xc000_0201,
    sport: 1000,
    dport: 80,
};

/// A first segment.
pub(crate) const SYN: Segment = Segment {
    flow: FLOW,
    seq: 100,
    ack: 0,
    len: 1,
    flags: 0x02,
};

/// Ten octets of data after it.
pub(crate) const DATA: Segment = Segment {
    flow: FLOW,
    seq: 101,
    ack: 501,
    len: 10,
    flags: 0x18,
};

pub(crate) fn record(moment: u64, body: Body) -> Record {
    Record {
        moment: Moment(moment),
        body,
    }
}

/// A first segment, and one microsecond later ten octets of data.
pub(crate) fn opened() -> [Record; 2] {
    [
        record(0, Body::Steerable(SYN)),
        record(1000, Body::Steerable(DATA)),
    ]
}

/// Checks the records, each with its packet, and which one is cut short.
pub(crate) fn check(
    rt: &impl Abort,
    (capture, packets): (Capture, Octets),
    want: &[Record],
    cut: Option<u32>,
) {
    assert!(rt; capture.records.items() == want);
    assert!(rt; capture.cut == cut);
    assert!(rt; packets.len() as usize == want.len());
}

/// Checks where the capture ends, how many records it has, each with its packet, and which one is
/// cut short.
pub(crate) fn check_cut(
    rt: &impl Abort,
    (capture, packets): (Capture, Octets),
    (end, count, cut): (usize, usize, Option<u32>),
) {
    assert!(rt; capture.records.items().len() == count, "at {end}");
    assert!(rt; capture.cut == cut, "at {end}");
    assert!(rt; packets.len() as usize == count, "at {end}");
}
