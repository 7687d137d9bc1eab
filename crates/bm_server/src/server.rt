//! A server's shards, each with its turnstile.
ghost use Rattle.std.specs.Prelude.{◌≡◌, ℕ, ◌+◌, ◌*◌, ◌^◌, ◌<◌, ◌≤◌, Some, map, length, slice_get};
ghost use Rattle.std.specs.Prelude.{IfOk};
ghost use Rattle.bm_shard.specs.Books.{IsTaken};
ghost use Rattle.bm_shard.specs.Copies.{copy_in};
ghost use Rattle.bm_shard.specs.declared.calls.ShardCall.TheVariants.{Close, Retire};
ghost use Rattle.bm_turnstile.specs.Sittings.{who};
ghost use Rattle.bm_server.specs.Books.{IsBookOf};
ghost use Rattle.bm_server.specs.Copies.{HandlesCopy};
ghost use Rattle.bm_server.specs.Seats.{GetsReply, IsNewSeat, IsReply, TakesTurn};
ghost use Rattle.bm_server.specs.Seats.{most_turns, row};
ghost use Rattle.bm_server.specs.Servings.{serving, shard_for};

use crate::ServerSeat;
use crate::seats::{make_shards, seated, unseated};
use bm_base::{Flow, List, Memory, Moment, ServerId};
use bm_hash::shard_of;
use bm_rows::last_column;
use bm_shard::{HandleFault, ShardBook, ShardCall, ShardReply, read_copy};
use bm_table::Retirement;
use bm_turnstile::Turnstile;
use std::alloc::Global;
use std::marker::Model;
use std::sync::Wait;

/// The books of a server's shards, in their order.
pub type Books = List<ShardBook>;

/// A server: its shards, each with a turnstile that has as many seats as the server.
#[derive(Drop)]
pub struct Server {
    id: ServerId,
    capacity: u32,
    timeout: u64,
    seats: u16,
    shards: Vec<Turnstile<ShardBook>>,
}

impl Model for Server {
    ghost use Rattle.bm_server.specs.Servings.{Serving, serving};
    ghost use Rattle.bm_server.specs.Inside.Servings.{IsServing};

    ghost Value = { Serving };

    ghost view = { λ s. serving s.id s.capacity s.timeout s.seats s.shards.items };

    ghost invariant = { λ s. IsServing (serving s.id s.capacity s.timeout s.seats s.shards.items) };
}

impl Server {
    /// A server of 1 to 64 shards, each for at most `capacity` connections, 1 to 65,536, and its
    /// seats, at least one.
    /// `timeout` is in nanoseconds. `Memory` where memory was refused.
    pub fn new(
        alloc: Global,
        id: ServerId,
        shards: u16,
        capacity: u32,
        timeout: u64,
        seats: u16,
    ) -> Result<(Server, Vec<ServerSeat>), Memory>
        requires shards { (1 ≤ shards) × (shards ≤ 64) }
        requires capacity { (1 ≤ capacity) × (capacity ≤ 65536) }
        requires seats { 0 < seats }
        ensures server { IfOk result (λ r. r.0 ≡ serving id capacity timeout seats r.0.tables) }
        ensures shards { IfOk result (λ r. length r.0.tables ≡ shards) }
        ensures count { IfOk result (λ r. length r.1.items ≡ seats) }
        ensures each { IfOk result (λ r. (i : ℕ) (seat : _) → slice_get r.1.items i ≡ Some seat
            → IsNewSeat r.0 i seat) }
    {
        let (shards, rows) = make_shards(alloc, id, shards, capacity, timeout, seats)?;
        let given = seated(alloc, rows)?;
        let server = Server {
            id,
            capacity,
            timeout,
            seats,
            shards,
        };
        Ok((server, given))
    }

    /// The server's number. Takes no memory.
    pub fn id(&self) -> ServerId
        ensures { result ≡ self.now.id }
    {
        self.id
    }

    /// How many shards it has. Takes no memory.
    pub fn shards(&self) -> u16
        ensures shards { result ≡ length self.now.tables }
        ensures some { (1 ≤ result) × (result ≤ 64) }
    {
        self.shards.len() as u16
    }

    /// A copy of this packet, which was due at this moment (nanoseconds), arrives as octets. Octets
    /// that can't be read touch no shard; others are one turn at the shard of their flow, for which
    /// the call waits. `Memory` where the turn was refused memory.
    pub fn handle<R: Wait>(
        &self,
        rt: &R,
        seat: &mut ServerSeat,
        packet: u32,
        octets: &[u8],
        due: Moment,
    ) -> Result<ShardReply, HandleFault>
        requires mine { map (λ s. s.table) seat.old ≡ self.now.tables }
        requires few { most_turns seat.old < 4294967295 }
        requires due { due.0 ≤ 9 * 10 ^ 18 }
        ensures who { map who seat.new ≡ map who seat.old }
        ensures turns { most_turns seat.new ≤ most_turns seat.old + 1 }
        ensures replies { let read = copy_in self.now.id octets.now in
            HandlesCopy self.now packet due read result seat.old seat.new }
    {
        let (tag, segment) = read_copy(self.id, octets)?;
        let shard = shard_of(&segment.flow, self.shards());
        let call = ShardCall::Arrive {
            packet,
            tag,
            segment,
            due,
        };
        match self.turn(rt, seat, usize::from(shard), call) {
            Ok(reply) => Ok(reply),
            Err(Memory) => Err(HandleFault::Memory),
        }
    }

    /// The server ends a connection, if it holds one: one turn at the flow's shard, for which the
    /// call waits. `Memory` where the turn was refused memory.
    pub fn close_flow<R: Wait>(
        &self,
        rt: &R,
        seat: &mut ServerSeat,
        flow: Flow,
        at: Moment,
    ) -> Result<ShardReply, Memory>
        requires mine { map (λ s. s.table) seat.old ≡ self.now.tables }
        requires few { most_turns seat.old < 4294967295 }
        requires moment { at.0 ≤ 9 * 10 ^ 18 }
        ensures who { map who seat.new ≡ map who seat.old }
        ensures turns { most_turns seat.new ≤ most_turns seat.old + 1 }
        ensures replies { GetsReply (shard_for self.now flow) (Close flow at) result seat.old seat.new }
        ensures turn { TakesTurn (shard_for self.now flow) (Close flow at) result seat.old seat.new }
        ensures reply { IsReply (Close flow at) result }
    {
        let shard = shard_of(&flow, self.shards());
        self.turn(rt, seat, usize::from(shard), ShardCall::Close { flow, at })
    }

    /// Asks a shard to retire, with this result: one turn there, for which the call waits. `Memory`
    /// where the turn was refused memory.
    pub fn retire<R: Wait>(
        &self,
        rt: &R,
        seat: &mut ServerSeat,
        shard: u16,
        at: Moment,
        outcome: Retirement,
    ) -> Result<ShardReply, Memory>
        requires shard { shard < length self.now.tables }
        requires mine { map (λ s. s.table) seat.old ≡ self.now.tables }
        requires few { most_turns seat.old < 4294967295 }
        requires moment { at.0 ≤ 9 * 10 ^ 18 }
        ensures who { map who seat.new ≡ map who seat.old }
        ensures turns { most_turns seat.new ≤ most_turns seat.old + 1 }
        ensures replies { GetsReply shard (Retire at outcome) result seat.old seat.new }
        ensures turn { TakesTurn shard (Retire at outcome) result seat.old seat.new }
        ensures reply { IsReply (Retire at outcome) result }
    {
        let call = ShardCall::Retire {
            at,
            result: outcome,
        };
        self.turn(rt, seat, usize::from(shard), call)
    }

    // One turn at a shard.
    fn turn<R: Wait>(
        &self,
        rt: &R,
        seat: &mut ServerSeat,
        shard: usize,
        call: ShardCall,
    ) -> Result<ShardReply, Memory>
        requires shard { shard < length self.now.tables }
        requires mine { map (λ s. s.table) seat.old ≡ self.now.tables }
        requires few { most_turns seat.old < 4294967295 }
        requires taken { IsTaken call }
        ensures who { map who seat.new ≡ map who seat.old }
        ensures turns { most_turns seat.new ≤ most_turns seat.old + 1 }
        ensures replies { GetsReply shard call result seat.old seat.new }
        ensures turn { TakesTurn shard call result seat.old seat.new }
        ensures reply { IsReply call result }
    {
        self.shards[shard].turn(rt, &mut seat.seats[shard], call)
    }

    /// Takes all seats back, in their order, and returns the books of the shards. `Memory` where
    /// memory was refused; the server and its seats are then dropped.
    pub fn finish(self, alloc: Global, seats: Vec<ServerSeat>) -> Result<Books, Memory>
        requires count { length seats.items ≡ self.seats }
        requires each { (i : ℕ) (seat : _) → slice_get seats.items i ≡ Some seat
            → map who seat ≡ row self i }
        ensures count { IfOk result (λ books. length books ≡ length self.tables) }
        ensures books { IfOk result (λ books. (h : ℕ) (book : _) → slice_get books h ≡ Some book
            → IsBookOf self seats.items h book) }
    {
        let Server { shards, .. } = self;
        let mut left = shards;
        let mut rows = unseated(alloc, seats)?;
        let mut books = Vec::new(alloc);
        while let Some(turnstile) = left.pop() {
            let column = last_column(alloc, &mut rows)?;
            books.push(turnstile.close(column))?;
        }
        books.reverse();
        Ok(List::of(books))
    }
}
