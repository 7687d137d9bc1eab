//! Tests of `bm_core`: verdicts and clocks.
use crate::flows::flow;
use bm_base::{Hop, Moment, MuxId, Past, Segment, ServerId, Tag, Taken, Version};
use bm_core::{Local, Verdict, Why, decide, next_clock};
use bm_seq::Receiver;
use std::process::Abort;

const SYN: u8 = 0x02;

const RST: u8 = 0x04;

const PSH_ACK: u8 = 0x18;

const OPEN: Receiver = Receiver {
    start: 100,
    next: 101,
    finished: false,
};

const FINISHED: Receiver = Receiver {
    start: 100,
    next: 112,
    finished: true,
};

/// What a shard knows, the hop and the previous servers, the flags, sequence number and length, the
/// clock, and the verdict.
type Row = (Local, Moves, (u8, u32, u16), u64, Verdict);

/// The hop, and the servers that had the bucket before: the previous one until 500, the older one
/// until 300.
type Moves = (Hop, Option<Past>, Option<Past>);

const PREV: Option<Past> = Some(Past {
    server: ServerId(1),
    stamp: Moment(500),
});

const OLDER: Option<Past> = Some(Past {
    server: ServerId(3),
    stamp: Moment(300),
});

const MOVED: Moves = (Hop::Direct, PREV, None);

const UNMOVED: Moves = (Hop::Direct, None, None);

const CHAINED: Moves = (Hop::Chained, PREV, None);

const CHAINED_TWICE: Moves = (Hop::Chained, PREV, OLDER);

const TWICE: Moves = (Hop::Twice, PREV, OLDER);

const OPENING: (u8, u32, u16) = (SYN, 100, 1);

const OTHER: (u8, u32, u16) = (SYN, 900, 1);

const DATA: (u8, u32, u16) = (PSH_ACK, 101, 10);

const END: (u8, u32, u16) = (RST, 101, 0);

fn knows(held: Option<Receiver>, full: bool) -> Local {
    let retired = false;
    Local {
        retired,
        held,
        full,
    }
}

/// Checks the verdicts of moves, with a timeout of a second.
fn check(rt: &impl Abort, rows: &[Row]) {
    for &(known, (hop, prev, older), (flags, seq, len), clock, want) in rows {
        let tag = Tag {
            hop,
            dest: ServerId(2),
            prev,
            older,
            version: Version(1),
            mux: MuxId(0),
        };
        let segment = Segment {
            flow: flow(1000),
            seq,
            ack: 501,
            len: u32::from(len),
            flags,
        };
        let got = decide(&known, &tag, &segment, Moment(clock), 1_000_000_000);
        assert!(rt;
            got == want,
            "at {clock}, of flags {flags} and sequence number {seq}"
        );
    }
}

#[test]
fn an_opening_segment_is_accepted_or_dropped(rt: HostRuntime) {
    let mut retired = knows(None, true);
    retired.retired = true;
    let free = knows(None, false);
    let full = knows(None, true);
    let finished = knows(Some(FINISHED), true);
    let rows = [
        (retired, UNMOVED, OPENING, 1, Verdict::Drop(Why::Retired)),
        (free, MOVED, OPENING, 1_002, Verdict::Accept),
        (full, MOVED, OPENING, 1_002, Verdict::Drop(Why::Full)),
        (finished, MOVED, OTHER, 1_002, Verdict::Accept),
    ];
    check(&rt, &rows);
}

#[test]
fn a_held_connection_processes(rt: HostRuntime) {
    let duplicate = Verdict::Process(Taken::Duplicate);
    let challenge = Verdict::Process(Taken::Challenge);
    let advance = Verdict::Process(Taken::Advance);
    let open = knows(Some(OPEN), true);
    let rows = [
        (open, MOVED, OPENING, 1_002, duplicate),
        (open, MOVED, OTHER, 1_002, challenge),
        (knows(Some(OPEN), false), CHAINED, DATA, 1_003, advance),
    ];
    check(&rt, &rows);
}

#[test]
fn a_segment_of_no_connection_is_passed_on_or_refused(rt: HostRuntime) {
    let empty = knows(None, false);
    let forward = Verdict::Forward(ServerId(1));
    let older = Verdict::Forward(ServerId(3));
    let expired = Verdict::Reset(Why::ChainExpired);
    let unknown = Verdict::Reset(Why::ChainedUnknown);
    let rows = [
        (empty, MOVED, DATA, 1_000_000_500, forward),
        (empty, MOVED, (PSH_ACK, 111, 10), 1_000_000_501, expired),
        (empty, CHAINED, DATA, 1_003, unknown),
        (empty, CHAINED_TWICE, DATA, 1_000_000_300, older),
        (empty, CHAINED_TWICE, DATA, 1_000_000_301, expired),
        (empty, TWICE, DATA, 1_004, unknown),
        (empty, UNMOVED, DATA, 2, Verdict::Reset(Why::NoPrevious)),
        (empty, UNMOVED, END, 5_002, Verdict::Drop(Why::Silent)),
        (empty, MOVED, END, 1_002, forward),
        (empty, CHAINED, END, 1_003, Verdict::Drop(Why::Silent)),
    ];
    check(&rt, &rows);
}

#[test]
fn a_clock_is_after_both(rt: HostRuntime) {
    assert!(rt; next_clock(Moment(2), Moment(500)) == Moment(501));
    assert!(rt; next_clock(Moment(501), Moment(500)) == Moment(502));
}
