//! Tests of `bm_shard`: what a shard answers.
ghost use Rattle.bm_shard.specs.Books.{IsTaken};

use crate::flows::flow;
use bm_base::{Flow, Hop, Memory, Moment, MuxId, Past, Segment, ServerId, Tag, Taken, Version};
use bm_core::{Verdict, What, Why};
use bm_shard::{ShardBook, ShardCall, ShardReply};
use bm_table::Retirement;
use std::alloc::Global;

const SYN: u8 = 0x02;

const PSH_ACK: u8 = 0x18;

/// Makes a call under seat 3.
fn ask(book: &mut ShardBook, call: ShardCall) -> Option<ShardReply>
    requires { IsTaken call }
{
    if book.history().len() >= 100 {
        return None;
    }
    book.apply(3, call).ok()
}

/// A direct copy arrives, whose bucket left the previous server at 500: its port, sequence number,
/// length and flags.
fn arrive(
    book: &mut ShardBook,
    prev: Option<ServerId>,
    segment: (u16, u32, u16, u8),
    due: u32,
) -> Option<ShardReply> {
    let (sport, seq, len, flags) = segment;
    let segment = Segment {
        flow: flow(sport),
        seq,
        ack: 501,
        len: u32::from(len),
        flags,
    };
    let tag = Tag {
        hop: Hop::Direct,
        dest: ServerId(1),
        prev: prev.map(|server| Past {
            server,
            stamp: Moment(500),
        }),
        older: None,
        version: Version(1),
        mux: MuxId(0),
    };
    let due = Moment(u64::from(due));
    ask(
        book,
        ShardCall::Arrive {
            packet: 7,
            tag,
            segment,
            due,
        },
    )
}

fn close(book: &mut ShardBook, sport: u16, at: u32) -> Option<ShardReply> {
    let flow = flow(sport);
    let at = Moment(u64::from(at));
    ask(book, ShardCall::Close { flow, at })
}

fn retire(book: &mut ShardBook, at: u32) -> Option<ShardReply> {
    let at = Moment(u64::from(at));
    let result = Retirement::Done;
    ask(book, ShardCall::Retire { at, result })
}

fn arrived(clock: u64, verdict: Verdict) -> Option<ShardReply> {
    Some(ShardReply::Arrived {
        clock: Moment(clock),
        verdict,
        answer: None,
    })
}

fn closed(clock: u64, closed: bool) -> Option<ShardReply> {
    Some(ShardReply::Closed {
        clock: Moment(clock),
        closed,
    })
}

/// The empty book of shard 5 of server 1, for one connection, with a timeout of a second.
fn new_book(alloc: Global) -> Result<ShardBook, Memory> {
    ShardBook::new(alloc, ServerId(1), 5, 1, 1_000_000_000)
}

#[test]
fn a_copy_is_judged_by_what_came_before(rt: HostRuntime) {
    let mut book = new_book(rt.alloc()).expect(&rt, "memory");
    assert!(rt; book.clock() == Moment(0));
    let other = Some(ServerId(2));
    let full = Verdict::Drop(Why::Full);
    let advance = Verdict::Process(Taken::Advance);
    let forward = Verdict::Forward(ServerId(2));
    let rows = [
        (None, (1000, 100, 1, SYN), 1, 2, Verdict::Accept),
        (None, (1002, 100, 1, SYN), 1_001, 1_002, full),
        (None, (1000, 101, 10, PSH_ACK), 1_000, 1_003, advance),
        (
            other,
            (1002, 101, 10, PSH_ACK),
            1_000_000_499,
            1_000_000_500,
            forward,
        ),
    ];
    for (prev, segment, due, clock, verdict) in rows {
        assert!(rt; arrive(&mut book, prev, segment, due) == arrived(clock, verdict));
    }
}

#[test]
fn a_shard_closes_and_retires(rt: HostRuntime) {
    let mut book = new_book(rt.alloc()).expect(&rt, "memory");
    let opening = (1000, 100, 1, SYN);
    let first = arrive(&mut book, None, opening, 1_000_000_499);
    assert!(rt; first == arrived(1_000_000_500, Verdict::Accept));
    assert!(rt; close(&mut book, 1000, 600) == closed(1_000_000_501, true));
    assert!(rt; close(&mut book, 1000, 600) == closed(1_000_000_502, false));
    let clock = Moment(2_000_000_001);
    let retired = retire(&mut book, 2_000_000_000);
    assert!(rt; retired == Some(ShardReply::Retired { clock }));
    let after = arrive(&mut book, None, opening, 0);
    assert!(rt; after == arrived(2_000_000_002, Verdict::Drop(Why::Retired)));
    assert!(rt; book.clock() == Moment(2_000_000_002));
    assert!(rt; book.history().len() == 5);
    let server = ServerId(1);
    let flow = flow(1000);
    let closed = true;
    let close = What::Close {
        server,
        flow,
        closed,
    };
    let kept = book
        .history()
        .get(1)
        .map(|entry| (entry.seat, entry.event.what));
    assert!(rt; kept == Some((3, close)));
}

// The reset of a segment with an acknowledgment number has that as its sequence number, and the
// flag RST alone.
#[test]
fn a_packet_of_no_connection_is_answered_by_a_reset(rt: HostRuntime) {
    let mut book = new_book(rt.alloc()).expect(&rt, "memory");
    let reply = arrive(
        &mut book,
        Some(ServerId(2)),
        (1002, 101, 10, PSH_ACK),
        1_000_000_500,
    );
    let Some(
        ShardReply::Arrived {
            clock,
            verdict,
            answer: Some(octets),
        },
    ) = reply
    else {
        panic!(rt; "no reset");
    };
    assert!(rt; (clock, verdict) == (Moment(1_000_000_501), Verdict::Reset(Why::ChainExpired)));
    let tcp: [u8; 14] = [0, 80, 3, 234, 0, 0, 1, 245, 0, 0, 0, 0, 0x50, 0x04];
    assert!(rt; &octets[20..34] == tcp.as_slice());
}
