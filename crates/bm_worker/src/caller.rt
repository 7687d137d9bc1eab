//! The seats of a worker, and the greatest clock of what it did.
ghost use Rattle.std.specs.Prelude.{◌≡◌, ℕ, ◌+◌, ◌*◌, ◌^◌, ◌<◌, ◌≤◌, ◌∷◌, [], max, length};
ghost use Rattle.std.specs.Prelude.{slice_get};
ghost use Rattle.std.specs.Prelude.{Some, Ok, Err, IfOk, OnErr, MatchResult};
ghost use Rattle.bm_shard.specs.declared.calls.ShardCall.TheVariants.{Close, Retire};
ghost use Rattle.bm_shard.specs.declared.calls.ShardReply.TheVariants.{Arrived, Closed, Retired};
ghost use Rattle.bm_server.specs.Servings.{Serving, shard_for};
ghost use Rattle.bm_server.specs.Copies.{IsMemory};
ghost use Rattle.bm_server.specs.Seats.{most_turns};
ghost use Rattle.bm_worker.specs.Inside.Answers.{IsArrived, IsClosed, IsRetired};
ghost use Rattle.bm_worker.specs.Arrivals.{HasCome, IsCopy};
ghost use Rattle.bm_worker.specs.WorkerNotes.{IsSameCaller, HasSeats};
ghost use Rattle.bm_worker.specs.SeatCalls.{AddsCall, AddsNoCall};

use bm_base::{Flow, Memory, Moment};
use bm_core::Verdict;
use bm_server::{HandleFault, Server, ServerSeat};
use bm_shard::ShardReply;
use bm_table::Retirement;
use std::marker::Model;
use std::sync::Wait;

/// A worker's seats, one of every server, and the greatest clock of what it did.
#[derive(Drop)]
pub struct Caller {
    number: u16,
    seats: Vec<ServerSeat>,
    tries: u32,
    latest: Moment,
}

impl Model for Caller {
    ghost use Rattle.bm_worker.specs.Callers.{CallerState};

    ghost Value = { CallerState };

    ghost use Rattle.bm_worker.specs.Views.{caller_state, IsCaller};

    ghost view = { caller_state };

    ghost invariant = { IsCaller };
}

/// The clock and the verdict of an arrival.
fn arrived(answer: Result<ShardReply, HandleFault>) -> Result<(Moment, Verdict), Memory>
    requires memory { IsMemory answer }
    requires kind { IfOk answer IsArrived }
    ensures { MatchResult result (λ r. (reset : _) × (answer ≡ Ok (Arrived r.0 r.1 reset)))
        (λ _. (fault : _) × (answer ≡ Err fault)) }
{
    match answer {
        Ok(ShardReply::Arrived { clock, verdict, .. }) => Ok((clock, verdict)),
        Err(HandleFault::Memory) => Err(Memory),
        _ => unreachable!(),
    }
}

/// The clock of a close, and whether there was a connection.
fn closed(answer: Result<ShardReply, Memory>) -> Result<(Moment, bool), Memory>
    requires kind { IfOk answer IsClosed }
    ensures { MatchResult result (λ r. answer ≡ Ok (Closed r.0 r.1)) (λ fault. answer ≡ Err fault) }
{
    match answer {
        Ok(ShardReply::Closed { clock, closed }) => Ok((clock, closed)),
        Err(Memory) => Err(Memory),
        _ => unreachable!(),
    }
}

/// The clock of a retirement.
fn retired(answer: Result<ShardReply, Memory>) -> Result<Moment, Memory>
    requires kind { IfOk answer IsRetired }
    ensures { MatchResult result (λ clock. answer ≡ Ok (Retired clock))
        (λ fault. answer ≡ Err fault) }
{
    match answer {
        Ok(ShardReply::Retired { clock }) => Ok(clock),
        Err(Memory) => Err(Memory),
        _ => unreachable!(),
    }
}

impl Caller {
    /// A caller of seats that have made no turn yet. Takes no memory.
    pub fn new(number: u16, seats: Vec<ServerSeat>) -> Caller
        requires { (s : ℕ) (seat : _) → slice_get seats.items s ≡ Some seat → most_turns seat ≡ 0 }
        ensures { result ≡ record { number = number; seats = seats.items; tries = 0; latest = 0 } }
    {
        Caller {
            number,
            seats,
            tries: 0,
            latest: Moment(0),
        }
    }

    /// A copy of the packet, which was due at this moment, arrives as octets; returns the clock and
    /// the verdict. `Memory` where memory was refused; then no call was made. It may wait.
    pub fn arrive<R: Wait>(
        &mut self,
        rt: &R,
        servers: &[Server],
        place: usize,
        packet: u32,
        octets: &[u8],
        due: Moment,
    ) -> Result<(Moment, Verdict), Memory>
        requires place { place < length servers.now }
        requires has_seats { HasSeats servers.now self.old }
        requires few { self.old.tries < 4294967295 }
        requires due { due.0 ≤ 9 * 10 ^ 18 }
        requires copy { (server : Serving) → slice_get servers.now place ≡ Some server → (read : _)
            × IsCopy server octets.now read }
        ensures same { IsSameCaller self.old self.new }
        ensures tries { self.new.tries ≤ self.old.tries + 1 }
        ensures call { IfOk result
            (λ r. (server : Serving) (read : _) → slice_get servers.now place ≡ Some server
            → IsCopy server octets.now read
            → HasCome place server packet read due r self.old.seats self.new.seats) }
        ensures no_call { OnErr result (AddsNoCall self.old.seats self.new.seats) }
        ensures later { IfOk result (λ r. due.0 < r.0.0) }
        ensures latest { MatchResult result (λ r. self.new.latest ≡ max self.old.latest r.0.0)
            (λ _. self.new.latest ≡ self.old.latest) }
    {
        let server = &servers[place];
        self.tries += 1;
        let answer = server.handle(rt, &mut self.seats[place], packet, octets, due);
        let (clock, verdict) = arrived(answer)?;
        self.latest = clock.max(self.latest);
        Ok((clock, verdict))
    }

    /// The server at the place ends a connection at this moment; returns the clock, and whether it
    /// held one. `Memory` where memory was refused; then no call was made. It may wait.
    pub fn close<R: Wait>(
        &mut self,
        rt: &R,
        servers: &[Server],
        place: usize,
        flow: Flow,
        at: Moment,
    ) -> Result<(Moment, bool), Memory>
        requires place { place < length servers.now }
        requires has_seats { HasSeats servers.now self.old }
        requires few { self.old.tries < 4294967295 }
        requires moment { at.0 ≤ 9 * 10 ^ 18 }
        ensures same { IsSameCaller self.old self.new }
        ensures tries { self.new.tries ≤ self.old.tries + 1 }
        ensures call { IfOk result
            (λ r. (server : Serving) → slice_get servers.now place ≡ Some server
            → AddsCall place (shard_for server flow) (Close flow at) (Closed r.0 r.1) self.old.seats
            self.new.seats) }
        ensures no_call { OnErr result (AddsNoCall self.old.seats self.new.seats) }
        ensures later { IfOk result (λ r. at.0 < r.0.0) }
        ensures latest { MatchResult result (λ r. self.new.latest ≡ max self.old.latest r.0.0)
            (λ _. self.new.latest ≡ self.old.latest) }
    {
        let server = &servers[place];
        self.tries += 1;
        let answer = server.close_flow(rt, &mut self.seats[place], flow, at);
        let (clock, was_held) = closed(answer)?;
        self.latest = clock.max(self.latest);
        Ok((clock, was_held))
    }

    /// Asks the server at the place to retire a shard at this moment, with this outcome; returns
    /// the clock. `Memory` where memory was refused; then no call was made. It may wait.
    pub fn retire<R: Wait>(
        &mut self,
        rt: &R,
        servers: &[Server],
        place: usize,
        shard: u16,
        at: Moment,
        outcome: Retirement,
    ) -> Result<Moment, Memory>
        requires place { place < length servers.now }
        requires shard { (server : Serving) → slice_get servers.now place ≡ Some server
            → shard < length server.tables }
        requires has_seats { HasSeats servers.now self.old }
        requires few { self.old.tries < 4294967295 }
        requires moment { at.0 ≤ 9 * 10 ^ 18 }
        ensures same { IsSameCaller self.old self.new }
        ensures tries { self.new.tries ≤ self.old.tries + 1 }
        ensures call { IfOk result
            (λ clock. AddsCall place shard (Retire at outcome) (Retired clock) self.old.seats
            self.new.seats) }
        ensures no_call { OnErr result (AddsNoCall self.old.seats self.new.seats) }
        ensures later { IfOk result (λ clock. at.0 < clock.0) }
        ensures latest { MatchResult result (λ clock. self.new.latest ≡ max self.old.latest clock.0)
            (λ _. self.new.latest ≡ self.old.latest) }
    {
        let server = &servers[place];
        self.tries += 1;
        let answer = server.retire(rt, &mut self.seats[place], shard, at, outcome);
        let clock = retired(answer)?;
        self.latest = clock.max(self.latest);
        Ok(clock)
    }

    /// A sending at this clock has no copies; returns the clock of its Lose.
    pub fn lose(&mut self, clock: Moment) -> Moment
        requires clock { clock.0 ≤ 9 * 10 ^ 18 }
        ensures same { IsSameCaller self.old self.new }
        ensures seats { self.new.seats ≡ self.old.seats }
        ensures tries { self.new.tries ≡ self.old.tries }
        ensures clock { result.0 ≡ clock.0 + 1 }
        ensures latest { self.new.latest ≡ max self.old.latest (clock.0 + 1) }
    {
        let lost = Moment(clock.0 + 1);
        self.latest = lost.max(self.latest);
        lost
    }

    /// Records that the worker did something at this clock that was not at a shard.
    pub fn see(&mut self, clock: Moment)
        ensures same { IsSameCaller self.old self.new }
        ensures seats { self.new.seats ≡ self.old.seats }
        ensures tries { self.new.tries ≡ self.old.tries }
        ensures latest { self.new.latest ≡ max self.old.latest clock.0 }
    {
        self.latest = clock.max(self.latest);
    }

    /// The greatest clock of all that the worker did, or 0. Takes no memory.
    pub fn latest(&self) -> Moment
        ensures { result.0 ≡ self.now.latest }
    {
        self.latest
    }

    /// The worker's number. Takes no memory.
    pub fn number(&self) -> u16
        ensures { result ≡ self.now.number }
    {
        self.number
    }

    /// The seats, to be given back. Takes no memory.
    pub fn into_seats(self) -> Vec<ServerSeat>
        ensures { result.items ≡ self.seats }
    {
        self.seats
    }
}
