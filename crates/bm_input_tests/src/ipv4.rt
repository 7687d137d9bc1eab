//! Tests of `bm_ipv4`: captured headers, and checksums.
use bm_ipv4::{Ipv4View, header_sum, read_ipv4};

// The first packet of a visit to a web server, as a capture has it. tshark reads: source
// 198.51.100.1, destination 192.0.2.1, length 60, header 20, protocol 6, no fragment.
const SYN: [u8; 60] = [
    0x45, 0x00, 0x00, 0x3c, 0x91, 0x75, 0x40, 0x00, 0x40, 0x06, 0xbd, 0x10, 0xc6, 0x33, 0x64, 0x01,
    0xc0, 0x00, 0x02, 0x01, 0x82, 0xba, 0x00, 0x50, 0x96, 0xe5, 0x97, 0xed, 0x00, 0x00, 0x00, 0x00,
    0xa0, 0x02, 0xfa, 0xf0, 0xec, 0x64, 0x00, 0x00, 0x02, 0x04, 0x05, 0xb4, 0x04, 0x02, 0x08, 0x0a,
    0x6d, 0x31, 0xb0, 0xcb, 0x00, 0x00, 0x00, 0x00, 0x01, 0x03, 0x03, 0x0a,
];

// The header of a first fragment of UDP. tshark reads: length 1500, protocol 17, more fragments.
const FIRST: [u8; 20] = [
    0x45, 0x00, 0x05, 0xdc, 0x6e, 0x5e, 0x20, 0x00, 0x40, 0x11, 0xfa, 0x7c, 0xc6, 0x33, 0x64, 0x01,
    0xc0, 0x00, 0x02, 0x01,
];

// The header of its last fragment. tshark reads: length 1068, protocol 17, offset 370.
const LAST: [u8; 20] = [
    0x45, 0x00, 0x04, 0x2c, 0x6e, 0x5e, 0x01, 0x72, 0x40, 0x11, 0x1a, 0xbb, 0xc6, 0x33, 0x64, 0x01,
    0xc0, 0x00, 0x02, 0x01,
];

/// The addresses, the length that is stated of the payload, the lengths of the packet and of its
/// payload, the protocol, and whether the packet is a fragment.
type Fields = (u32, u32, u32, usize, usize, u8, bool);

fn fields(view: &Ipv4View<'_>) -> Fields {
    (
        view.src(),
        view.dst(),
        view.stated_payload(),
        view.packet().len(),
        view.payload().len(),
        view.protocol(),
        view.is_fragment(),
    )
}

#[test]
fn captured_headers_have_the_fields_that_tshark_reads(rt: HostRuntime) {
    let [src, dst] = [0xc633_6401, 0xc000_0201];
    let syn = read_ipv4(&SYN).expect(&rt, "the first packet");
    assert!(rt; fields(&syn) == (src, dst, 40, 60, 40, 6, false));
    let first = read_ipv4(&FIRST).expect(&rt, "the first fragment");
    assert!(rt; fields(&first) == (src, dst, 1480, 20, 0, 17, true));
    let last = read_ipv4(&LAST).expect(&rt, "the last fragment");
    assert!(rt; fields(&last) == (src, dst, 1048, 20, 0, 17, true));
}

#[test]
fn sums_are_those_of_rfc_1071_and_of_captured_headers(rt: HostRuntime) {
    // RFC 1071, section 3: the sum of these words is ddf2.
    let words = [0x00, 0x01, 0xf2, 0x03, 0xf4, 0xf5, 0xf6, 0xf7];
    assert!(rt; header_sum(&words) == !0xddf2u16);
    for header in [&SYN[..20], &FIRST, &LAST] {
        assert!(rt; header_sum(header) == 0);
    }
}
