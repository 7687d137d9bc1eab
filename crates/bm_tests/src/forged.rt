//! Copies that were damaged or sent to another server, at new servers.
ghost use Rattle.std.specs.Prelude.{◌≡◌, ◌<◌, ◌∷◌, [], length, map, IfOk};
ghost use Rattle.bm_turnstile.specs.Sittings.{who};
ghost use Rattle.bm_server.specs.Seats.{most_turns, row};

use bm_base::{Hop, Memory, Moment, MuxId, Past, ServerId, Tag, Version};
use bm_core::{Verdict, Why};
use bm_encap::{set_chained, wrap};
use bm_ipv4::Ipv4Fault;
use bm_server::{HandleFault, Server, ServerSeat};
use bm_shard::ShardReply;
use bm_tcp::{InnerFault, TcpFault};
use std::alloc::Global;
use std::process::Abort;
use std::sync::Wait;

/// Ten octets of data from port 1000 of 10.0.0.1 to port 80 of 192.0.2.1.
const DATA: [u8; 50] = [
    0x45, 0, 0, 50, 0, 0, 0x40, 0, 64, 6, 0, 0, 10, 0, 0, 1, 192, 0, 2, 1, 3, 0xe8, 0, 80, 0, 0, 0,
    101, 0, 0, 1, 0xf5, 0x50, 0x18, 255, 255, 0, 0, 0, 0, b'a', b'b', b'c', b'd', b'e', b'f', b'g',
    b'h', b'i', b'j',
];

/// Direct to server 2, where server 1 had the bucket until the moment 500.
const TAG: Tag = Tag {
    hop: Hop::Direct,
    dest: ServerId(2),
    prev: Some(Past {
        server: ServerId(1),
        stamp: Moment(500),
    }),
    older: None,
    version: Version(1),
    mux: MuxId(0),
};

/// Direct to server 1, where server 3 had the bucket until the moment 600, and server 2 until 500.
const MOVED_TWICE: Tag = Tag {
    hop: Hop::Direct,
    dest: ServerId(1),
    prev: Some(Past {
        server: ServerId(3),
        stamp: Moment(600),
    }),
    older: Some(Past {
        server: ServerId(2),
        stamp: Moment(500),
    }),
    version: Version(2),
    mux: MuxId(0),
};

/// The reset of the data: from 192.0.2.1 port 80, with the number that the data acknowledges.
const RESET: [u8; 40] = [
    0x45, 0, 0, 0x28, 0, 0, 0x40, 0, 0x40, 6, 0x6e, 0xce, 0xc0, 0, 2, 1, 0x0a, 0, 0, 1, 0, 0x50, 3,
    0xe8, 0, 0, 1, 0xf5, 0, 0, 0, 0, 0x50, 4, 0, 0, 0xdd, 0xb1, 0, 0,
];

/// What happens to the copy before a server gets it.
#[derive(Clone, Copy)]
pub(crate) enum Damage {
    /// It is rewritten for the previous server.
    Chained,
    /// Its bucket moved twice, and it is rewritten for the next hop this many times.
    MovedTwice(u8),
    /// The copy stays as it is.
    Nothing,
    /// The octet at this place of the packet within, counted from 0, is replaced by this one.
    Octet(usize, u8),
}

/// The damage, and the server that gets the copy.
pub(crate) type Case = (Damage, u16);

const CHAINED: Result<ShardReply, HandleFault> = Ok(ShardReply::Arrived {
    clock: Moment(6),
    verdict: Verdict::Reset(Why::ChainedUnknown),
    answer: Some(RESET),
});

const fn forwarded(to: u16) -> Result<ShardReply, HandleFault> {
    Ok(ShardReply::Arrived {
        clock: Moment(6),
        verdict: Verdict::Forward(ServerId(to)),
        answer: None,
    })
}

const fn bad(fault: InnerFault) -> Result<ShardReply, HandleFault> {
    Err(HandleFault::BadInner(fault))
}

fn alone<S: Drop>(alloc: Global, item: S) -> Result<Vec<S>, Memory>
    ensures { IfOk result (λ all. all.items ≡ item ∷ []) }
{
    let mut all = Vec::new(alloc);
    all.push(item)?;
    Ok(all)
}

/// The octets of the copy; the carrier header is the first 56 of them.
fn copy_of(alloc: Global, damage: Damage) -> Result<Vec<u8>, Memory> {
    let mut inner = DATA;
    if let Damage::Octet(place, octet) = damage {
        if let Some(at) = inner.get_mut(place) {
            *at = octet;
        }
    }
    let mut octets = Vec::new(alloc);
    let (tag, hops) = match damage {
        Damage::Chained => (&TAG, 1),
        Damage::MovedTwice(hops) => (&MOVED_TWICE, hops),
        _ => (&TAG, 0),
    };
    wrap(tag, &inner, &mut octets)?;
    for _ in 0..hops {
        let _turned = set_chained(&mut octets);
    }
    Ok(octets)
}

fn hand<R: Wait>(
    rt: &R,
    server: &Server,
    seat: &mut ServerSeat,
    octets: &[u8],
) -> Result<ShardReply, HandleFault>
    requires shard { 0 < length server.now.tables }
    requires who { map who seat.old ≡ row server.now 0 }
    requires new { most_turns seat.old ≡ 0 }
    ensures who { map who seat.new ≡ row server.now 0 }
{
    server.handle(rt, seat, 2, octets, Moment(5))
}

/// What a new server answers, and how many entries its book has then.
pub(crate) fn ask<R: Wait>(
    rt: &R,
    alloc: Global,
    (damage, id): Case,
) -> Result<(Result<ShardReply, HandleFault>, usize), Memory> {
    let octets = copy_of(alloc, damage)?;
    let (server, mut seats) = Server::new(alloc, ServerId(id), 1, 8, 1_000_000_000, 1)?;
    let mut seat = seats.remove(0);
    let answer = hand(rt, &server, &mut seat, &octets);
    let back = alone(alloc, seat)?;
    let books = server.finish(alloc, back)?;
    let entries = match books.items() {
        [book] => book.history().len(),
        _ => 9,
    };
    Ok((answer, entries))
}

type Due = (Result<ShardReply, HandleFault>, usize);

fn check(rt: &(impl Abort + Wait), alloc: Global, name: &str, case: Case, due: Due) {
    assert!(rt; ask(rt, alloc, case) == Ok(due), "{name}");
}

#[test]
fn a_server_judges_what_it_is_addressed(rt: HostRuntime) {
    let alloc = rt.alloc();
    check(&rt, alloc, "chained", (Damage::Chained, 1), (CHAINED, 1));
    check(
        &rt,
        alloc,
        "as it was sent",
        (Damage::Nothing, 2),
        (forwarded(1), 1),
    );
}

#[test]
fn a_copy_goes_on_to_each_server_before(rt: HostRuntime) {
    let alloc = rt.alloc();
    let not_mine = (Err(HandleFault::NotMine), 0);
    check(
        &rt,
        alloc,
        "moved twice",
        (Damage::MovedTwice(0), 1),
        (forwarded(3), 1),
    );
    check(
        &rt,
        alloc,
        "moved twice, on the first hop",
        (Damage::MovedTwice(1), 3),
        (forwarded(2), 1),
    );
    check(
        &rt,
        alloc,
        "moved twice, on the last hop",
        (Damage::MovedTwice(2), 2),
        (CHAINED, 1),
    );
    check(
        &rt,
        alloc,
        "moved twice, at another server",
        (Damage::MovedTwice(2), 3),
        not_mine,
    );
}

#[test]
fn a_damaged_copy_touches_no_shard(rt: HostRuntime) {
    let alloc = rt.alloc();
    let version = bad(InnerFault::Ipv4(Ipv4Fault::NotVersion4));
    let offset = bad(InnerFault::Tcp(TcpFault::BadOffset));
    check(
        &rt,
        alloc,
        "version",
        (Damage::Octet(0, 0x65), 2),
        (version, 0),
    );
    check(
        &rt,
        alloc,
        "fragment",
        (Damage::Octet(6, 0x20), 2),
        (bad(InnerFault::Fragment), 0),
    );
    check(
        &rt,
        alloc,
        "protocol",
        (Damage::Octet(9, 0x11), 2),
        (bad(InnerFault::NotTcp), 0),
    );
    check(
        &rt,
        alloc,
        "data offset",
        (Damage::Octet(32, 0x40), 2),
        (offset, 0),
    );
    check(
        &rt,
        alloc,
        "another server",
        (Damage::Octet(0, 0x65), 3),
        (Err(HandleFault::NotMine), 0),
    );
}
