//! Tests of `bm_route`: the mux of a packet.
ghost use Rattle.std.specs.Prelude.{◌%◌};

use bm_base::{Flow, MuxId};
use bm_route::{Route, setting_mux};
use bm_table::RouteKind;

const FLOW: Flow = Flow {
    src: 0x0a00_0001,
    dst: 0xc000_0201,
    sport: 1003,
    dport: 80,
};

#[test]
fn a_route_answers_by_its_rule(rt: HostRuntime) {
    let route = Route::new(|_packet: u32, flow: &Flow| -> u16 { flow.sport % 4 }, 4);
    assert!(rt; route.mux_of(1, &FLOW) == MuxId(3));
}

#[test]
fn a_setting_gives_packets_to_muxes_by_port_or_by_number(rt: HostRuntime) {
    // kind, muxes, packet, mux
    let rows: [(RouteKind, u16, u32, u16); 6] = [
        (RouteKind::Port, 1, 9, 0),
        (RouteKind::Port, 4, 9, 3),
        (RouteKind::Port, 64, 9, 43),
        (RouteKind::Turn, 1, 9, 0),
        (RouteKind::Turn, 4, 9, 1),
        (RouteKind::Turn, 64, 200_000, 0),
    ];
    for (kind, muxes, packet, mux) in rows {
        let got = setting_mux(kind, muxes.max(1), packet, &FLOW);
        assert!(rt; got == mux, "at {muxes} {packet}");
    }
}
