//! Tests of `bm_base`.
ghost use Rattle.std.specs.Prelude.{◌≡◌, ◌<◌, ◌++◌, ◌∷◌, List, [], length};

use bm_base::flags::{ACK, CWR, ECE, FIN, PSH, RST, SYN, URG};
use bm_base::{
    Entry, Flow, Hop, LAST, Label, List, Moment, MuxId, Octets, Past, Segment, ServerId, Tag, Text,
    Version, is_opening, mux_addr, mux_at, server_addr, server_of, tag_of,
};
use std::process::Abort;

#[test]
fn a_list_gives_back_what_it_was_made_of(rt: HostRuntime) {
    let list = List::of(vec![in rt.alloc(); 3u32, 1, 2].expect(&rt, "memory"));
    assert!(rt; list.items() == [3, 1, 2].as_slice());
}

#[test]
fn a_text_gives_back_what_it_was_made_of(rt: HostRuntime) {
    let text = Text::of(String::from_str(rt.alloc(), "a b").expect(&rt, "memory"));
    assert!(rt; text.as_str() == "a b");
}

#[test]
fn a_segment_opens_with_syn_and_without_ack_rst_and_fin(rt: HostRuntime) {
    let flow = Flow {
        src: 1,
        dst: 2,
        sport: 3,
        dport: 4,
    };
    // SYN; SYN with PSH, URG, ECE and CWR; SYN with ACK; SYN with RST; SYN with FIN; none; ACK
    let rows = [
        (0x02, true),
        (0xea, true),
        (0x12, false),
        (0x06, false),
        (0x03, false),
        (0x00, false),
        (0x10, false),
    ];
    for (flags, want) in rows {
        let segment = Segment {
            flow,
            seq: 7,
            ack: 0,
            len: 1,
            flags,
        };
        assert!(rt; is_opening(&segment) == want, "at {flags}");
    }
}

fn past(server: u16, stamp: u64) -> Past {
    Past {
        server: ServerId(server),
        stamp: Moment(stamp),
    }
}

#[test]
fn a_tag_has_the_destination_of_its_hop(rt: HostRuntime) {
    let label = Label {
        mux: MuxId(0),
        version: Version(1),
        entry: Entry {
            cur: ServerId(2),
            prev: Some(past(1, 500)),
            older: Some(past(3, 400)),
        },
    };
    for (hop, dest) in [
        (Hop::Direct, ServerId(2)),
        (Hop::Chained, ServerId(1)),
        (Hop::Twice, ServerId(3)),
    ] {
        let want = Tag {
            hop,
            dest,
            prev: Some(past(1, 500)),
            older: Some(past(3, 400)),
            version: Version(1),
            mux: MuxId(0),
        };
        assert!(rt; tag_of(&label, hop) == want);
    }
}

/// The lists are these, in this order.
fn are(octets: &Octets, want: &[&[u8]]) -> bool {
    for place in 0..octets.len() {
        if want.get(place as usize).copied() != Some(octets.get(place)) {
            return false;
        }
    }
    octets.len() as usize == want.len()
}

fn push(rt: &impl Abort, octets: &mut Octets, list: &[u8])
    requires { length octets.old < 4294967295 }
    ensures { octets.new ≡ octets.old ++ list.now ∷ [] }
{
    octets.push(list).expect(rt, "memory");
}

#[test]
fn octets_give_back_what_was_pushed_and_not_cleared(rt: HostRuntime) {
    let mut octets = Octets::new(rt.alloc());
    assert!(rt; are(&octets, &[]));
    push(&rt, &mut octets, &[1, 2]);
    push(&rt, &mut octets, &[]);
    push(&rt, &mut octets, &[3]);
    push(&rt, &mut octets, &[4, 5, 6]);
    assert!(rt; are(&octets, &[&[1, 2], &[], &[3], &[4, 5, 6]]));
    octets.clear_first(3);
    push(&rt, &mut octets, &[7]);
    assert!(rt; are(&octets, &[&[], &[], &[], &[4, 5, 6], &[7]]));
}

#[test]
fn servers_and_muxes_have_addresses(rt: HostRuntime) {
    let rows = [
        (0xac10_0000, None),
        (0xac10_0001, Some(ServerId(1))),
        (0xac10_0400, Some(ServerId(1_024))),
        (0xac10_0401, None),
        (0xac0f_ffff, None),
    ];
    for (addr, server) in rows {
        assert!(rt; server_of(addr) == server);
    }
    assert!(rt; server_addr(ServerId(2)) == 0xac10_0002);
    assert!(rt; mux_addr(MuxId(63)) == 0xac1f_003f);
    assert!(rt; mux_at(0xac1f_003f) == Some(MuxId(63)));
    assert!(rt; mux_at(0xac1f_0040) == None);
}

// RFC 9293, section 3.1; no clock of a run is above the last.
#[test]
fn flags_are_the_bits_of_their_octet_and_the_last_clock_is_below_2_to_the_63(rt: HostRuntime) {
    let all = [FIN, SYN, RST, PSH, ACK, URG, ECE, CWR];
    assert!(rt; all == [0x01, 0x02, 0x04, 0x08, 0x10, 0x20, 0x40, 0x80]);
    assert!(rt; LAST == 9_000_000_000_000_000_000);
}
