//! One copy at two servers.
ghost use Rattle.std.specs.Prelude.{◌≡◌, ◌<◌, length, map};
ghost use Rattle.bm_turnstile.specs.Sittings.{who};
ghost use Rattle.bm_server.specs.Seats.{most_turns, row};

use crate::packets::{FLOW, syn};
use crate::vectors::alone;
use bm_base::{Hop, Memory, Moment, MuxId, Past, ServerId, Tag, Version};
use bm_encap::wrap;
use bm_server::{HandleFault, Server, ServerSeat};
use bm_shard::ShardReply;
use bm_table::Retirement;
use std::alloc::Global;
use std::process::Abort;
use std::sync::Wait;

/// Direct to server 2, where server 1 had the bucket until the moment 500.
const TAG: Tag = Tag {
    hop: Hop::Direct,
    dest: ServerId(2),
    prev: Some(Past {
        server: ServerId(1),
        stamp: Moment(500),
    }),
    older: None,
    version: Version(1),
    mux: MuxId(0),
};

/// What a server answers to the copy, to a close of its flow and to a retirement of its shard 0.
#[derive(Drop)]
struct Answers {
    arrived: Result<ShardReply, HandleFault>,
    closed: Result<ShardReply, Memory>,
    retired: Result<ShardReply, Memory>,
}

fn ask<R: Wait>(rt: &R, server: &Server, seat: &mut ServerSeat, octets: &[u8]) -> Answers
    requires shard { 0 < length server.now.tables }
    requires who { map who seat.old ≡ row server.now 0 }
    requires new { most_turns seat.old ≡ 0 }
    ensures who { map who seat.new ≡ row server.now 0 }
{
    let arrived = server.handle(rt, seat, 0, octets, Moment(505));
    let closed = server.close_flow(rt, seat, FLOW, Moment(600));
    let retired = server.retire(rt, seat, 0, Moment(700), Retirement::Done);
    Answers {
        arrived,
        closed,
        retired,
    }
}

/// The copy, with its carrier header.
fn copy(rt: &impl Abort, alloc: Global) -> Vec<u8> {
    let mut octets = Vec::new(alloc);
    wrap(&TAG, &syn(1000), &mut octets).expect(rt, "memory");
    octets
}

/// What the server with this number answers, and how many entries its books have then.
fn ask_server<R: Wait>(
    rt: &R,
    alloc: Global,
    id: ServerId,
    octets: &[u8],
) -> Result<(Answers, usize), Memory> {
    let (server, mut seats) = Server::new(alloc, id, 2, 8, 1000, 1)?;
    let mut seat = seats.remove(0);
    let answers = ask(rt, &server, &mut seat, octets);
    let back = alone(alloc, seat)?;
    let books = server.finish(alloc, back)?;
    let entries = match books.items() {
        [first, second] => first.history().len().saturating_add(second.history().len()),
        _ => 0,
    };
    Ok((answers, entries))
}

/// The copy is handled, its flow is closed, and the shard is retired.
fn assert_taken(rt: &impl Abort, answers: &Answers) {
    assert!(rt; matches!(answers.arrived, Ok(ShardReply::Arrived { .. })));
    assert!(rt; matches!(answers.closed, Ok(ShardReply::Closed { closed: true, .. })));
    assert!(rt; matches!(answers.retired, Ok(ShardReply::Retired { .. })));
}

/// The copy isn't handled, and there is no flow to close.
fn assert_refused(rt: &impl Abort, answers: &Answers) {
    assert!(rt; matches!(answers.arrived, Err(HandleFault::NotMine)));
    assert!(rt; matches!(answers.closed, Ok(ShardReply::Closed { closed: false, .. })));
}

#[test]
fn a_copy_is_taken_at_its_destination_alone(rt: HostRuntime) {
    let alloc = rt.alloc();
    let octets = copy(&rt, alloc);
    let (there, entries) = ask_server(&rt, alloc, ServerId(2), &octets).expect(&rt, "memory");
    assert_taken(&rt, &there);
    assert!(rt; entries == 3);
    let (elsewhere, entries) = ask_server(&rt, alloc, ServerId(3), &octets).expect(&rt, "memory");
    assert_refused(&rt, &elsewhere);
    assert!(rt; entries == 2);
}
