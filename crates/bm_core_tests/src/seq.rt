//! Tests of `bm_seq`: what a receiver takes.
ghost use Rattle.std.specs.Prelude.{◌≡◌};

use crate::flows::flow;
use bm_base::{Segment, Taken};
use bm_seq::{Receiver, acceptable};

const SYN: u8 = 0x02;

const SYN_ACK: u8 = 0x12;

const RST: u8 = 0x04;

const ACK: u8 = 0x10;

const FIN_ACK: u8 = 0x11;

fn segment(seq: u32, len: u16, flags: u8) -> Segment
    ensures { result.len ≡ len }
{
    Segment {
        flow: flow(1000),
        seq,
        ack: 501,
        len: u32::from(len),
        flags,
    }
}

// The four cases of the table in RFC 9293, section 3.10.7.4, at their edges.
#[test]
fn a_segment_is_acceptable_where_it_has_a_part_in_the_window(rt: HostRuntime) {
    // next, window, seq, len
    let rows: [(u32, u16, u32, u16, bool); 14] = [
        (100, 0, 100, 0, true),
        (100, 0, 101, 0, false),
        (100, 10, 100, 0, true),
        (100, 10, 109, 0, true),
        (100, 10, 110, 0, false),
        (100, 10, 99, 0, false),
        (100, 0, 100, 5, false),
        (100, 10, 95, 5, false),
        (100, 10, 95, 6, true),
        (100, 10, 109, 5, true),
        (100, 10, 110, 5, false),
        (4294967290, 65535, 4, 1, true),
        (5, 65535, 4294967290, 11, false),
        (5, 65535, 4294967290, 12, true),
    ];
    for (next, window, seq, len, want) in rows {
        let got = acceptable(next, u32::from(window), seq, u32::from(len));
        assert!(rt; got == want, "at {next} {window} {seq} {len}");
    }
}

#[test]
fn an_rst_ends_a_connection_only_at_the_next_number(rt: HostRuntime) {
    let mut receiver = Receiver::open(&segment(100, 1, SYN));
    for (seq, want) in [
        (66000, Taken::Outside),
        (102, Taken::Challenge),
        (101, Taken::Ended),
    ] {
        let got = receiver.take(&segment(seq, 0, RST));
        assert!(rt; got == want, "at {seq}");
    }
}

#[test]
fn octets_come_in_turn_once_also_past_the_last_number(rt: HostRuntime) {
    let mut receiver = Receiver::open(&segment(4294967290, 1, SYN));
    // seq, len, flags
    let rows: [(u32, u16, u8, Taken); 9] = [
        (5, 10, ACK, Taken::Ahead),
        (4294967291, 10, ACK, Taken::Advance),
        (4294967291, 10, ACK, Taken::Duplicate),
        (65541, 10, ACK, Taken::Outside),
        (5, 0, ACK, Taken::Advance),
        (5, 1, FIN_ACK, Taken::Advance),
        (4294967290, 1, SYN, Taken::Duplicate),
        (1000, 1, SYN, Taken::Challenge),
        (6, 1, SYN_ACK, Taken::Challenge),
    ];
    for (seq, len, flags, want) in rows {
        let got = receiver.take(&segment(seq, len, flags));
        assert!(rt; got == want, "at {seq} {len} {flags}");
    }
    let want = Receiver {
        start: 4294967290,
        next: 6,
        finished: true,
    };
    assert!(rt; receiver == want);
}
