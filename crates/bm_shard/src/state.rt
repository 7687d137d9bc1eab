//! A shard without the book of its calls.
ghost use Rattle.std.specs.Prelude.{◌≡◌, ◌<◌, ◌≤◌, ◌^◌, IfOk, OnErr, OnOk};
ghost use Rattle.bm_shard.specs.Books.{IsShort, IsTaken};
ghost use Rattle.bm_shard.specs.Replies.{reply_of, what_of};
ghost use Rattle.bm_shard.specs.States.{IsAfter, IsServed, event_at, first_state, known_in};
ghost use Rattle.bm_shard.specs.States.{reply_at};

use crate::holding::Holding;
use crate::{Shard, ShardCall, ShardReply};
use bm_base::{Memory, Moment};
use bm_conn::ConnTable;
use bm_core::{Event, What, next_clock};
use std::alloc::Global;
use std::marker::Model;

/// A shard, what it holds, and the clock of its last call.
#[derive(Drop)]
pub struct ShardState {
    shard: Shard,
    holding: Holding,
    clock: Moment,
}

impl Model for ShardState {
    ghost use Rattle.bm_shard.specs.States.{State};

    ghost Value = { State };

    ghost use Rattle.bm_shard.specs.Views.{HasCapacity, state_of};

    ghost view = { state_of };

    ghost invariant = { HasCapacity };
}

impl ShardState {
    /// A shard that holds nothing, of a capacity of 1 to 65,536. `Memory` where memory was refused.
    pub fn new(alloc: Global, shard: Shard) -> Result<ShardState, Memory>
        requires { (1 ≤ shard.capacity) × (shard.capacity ≤ 65536) }
        ensures { IfOk result (λ state. state ≡ first_state shard) }
    {
        let table = ConnTable::new(alloc, shard.capacity)?;
        Ok(ShardState {
            shard,
            holding: Holding {
                table,
                retired: false,
            },
            clock: Moment(0),
        })
    }

    /// Makes a call at this clock: what happens, and the reply. Where memory is refused, nothing
    /// changes.
    // Inlined, so that a caller that ignores the reply doesn't compute it.
    #[inline(always)]
    pub fn serve(&mut self, clock: Moment, call: &ShardCall) -> Result<(What, ShardReply), Memory>
        requires { IsShort call.now }
        ensures what { IfOk result
            (λ made. made.0 ≡ what_of self.old.shard (known_in self.old) clock call.now) }
        ensures reply { IfOk result
            (λ made. made.1 ≡ reply_of self.old.shard (known_in self.old) clock call.now) }
        ensures effect { OnOk result (IsServed clock call.now self.old self.new) }
        ensures memory { OnErr result (self.new ≡ self.old) }
    {
        self.holding.table.ready()?;
        let (what, reply) = self.holding.serve(&self.shard, clock, call);
        // The connections are a map, of at most as many flows as the capacity.
        prove!(self.holding.table.len() <= self.shard.capacity);
        self.clock = clock;
        Ok((what, reply))
    }

    /// Makes a call at the first clock that is above the last one and the call's moment: its event,
    /// and the reply. Where memory is refused, nothing changes.
    #[inline(always)]
    pub fn apply(&mut self, call: &ShardCall) -> Result<(Event, ShardReply), Memory>
        requires taken { IsTaken call.now }
        requires clock { self.old.clock.0 < 2 ^ 63 }
        ensures event { IfOk result (λ made. made.0 ≡ event_at self.old call.now) }
        ensures reply { IfOk result (λ made. made.1 ≡ reply_at self.old call.now) }
        ensures effect { OnOk result (IsAfter call.now self.old self.new) }
        ensures memory { OnErr result (self.new ≡ self.old) }
    {
        let clock = next_clock(self.clock, call.moment());
        let (what, reply) = self.serve(clock, call)?;
        Ok((Event { clock, what }, reply))
    }

    /// The clock of the last call, or 0.
    pub(crate) fn clock(&self) -> Moment
        ensures { result ≡ self.now.clock }
    {
        self.clock
    }
}
