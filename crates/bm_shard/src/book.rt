//! The book of a shard.
ghost use Rattle.std.specs.Prelude.{◌≡◌, ◌≤◌, ◌<◌, ◌+◌, ◌*◌, ◌^◌, ◌++◌, ◌∷◌, [], length, reverse};
ghost use Rattle.std.specs.Prelude.{IfOk, OnOk, OnErr};
ghost use Rattle.bm_shard.specs.Books.{IsTaken, Replays, clock_of, entry_after, reply_after};

use crate::{ShardCall, ShardEntry, ShardReply, ShardState};
use bm_base::{Memory, Moment, ServerId};
use std::alloc::Global;
use std::marker::Model;

/// What no call to a shard changes: its server, its number there, how many connections it may hold,
/// and for how many nanoseconds after a move it passes packets on.
#[derive(Clone, Copy, PartialEq, Eq)]
pub struct Shard {
    pub server: ServerId,
    pub number: u16,
    pub capacity: u32,
    pub timeout: u64,
}

/// A shard with all calls that were made to it, in their order.
#[derive(Drop)]
pub struct ShardBook {
    state: ShardState,
    entries: Vec<ShardEntry>,
}

impl Model for ShardBook {
    ghost use Rattle.bm_shard.specs.Books.{Book};

    ghost Value = { Book };

    ghost use Rattle.bm_shard.specs.Views.{IsKept, book_of};

    ghost view = { book_of };

    ghost invariant = { IsKept };
}

impl ShardBook {
    /// An empty book for at most `capacity` connections, 1 to 65,536. `timeout` is in nanoseconds.
    /// `Memory` where memory was refused.
    pub fn new(
        alloc: Global,
        server: ServerId,
        shard: u16,
        capacity: u32,
        timeout: u64,
    ) -> Result<ShardBook, Memory>
        requires { (1 ≤ capacity) × (capacity ≤ 65536) }
        ensures shard { IfOk result
            (λ book. book.shard
            ≡ record { server = server; number = shard; capacity = capacity; timeout = timeout }) }
        ensures entries { IfOk result (λ book. book.entries ≡ []) }
    {
        let shard = Shard {
            server,
            number: shard,
            capacity,
            timeout,
        };
        Ok(ShardBook {
            state: ShardState::new(alloc, shard)?,
            entries: Vec::new(alloc),
        })
    }

    /// Makes a call under the number of a seat, and keeps it. Where memory is refused, nothing
    /// changes.
    pub fn apply(&mut self, seat: u16, call: ShardCall) -> Result<ShardReply, Memory>
        requires taken { IsTaken call }
        requires few { length self.old.entries < 2 ^ 48 }
        ensures reply { IfOk result
            (λ reply. reply ≡ reply_after self.old.shard (reverse self.old.entries) call) }
        ensures kept { OnOk result (self.new ≡ record self.old {
          entries =
              self.old.entries
              ++ entry_after self.old.shard (reverse self.old.entries) seat call ∷ [];
        }) }
        ensures memory { OnErr result (self.new ≡ self.old) }
    {
        self.entries.reserve(1)?;
        let (event, reply) = self.state.apply(&call)?;
        self.entries.push_reserved(ShardEntry { seat, call, event });
        Ok(reply)
    }

    /// The calls that were made, in their order, with their events. Takes no memory.
    pub fn history(&self) -> &[ShardEntry]
        ensures entries { result.now ≡ self.now.entries }
        ensures replays { Replays self.now.shard (reverse self.now.entries) }
    {
        self.entries.as_slice()
    }

    /// The clock of the last call, or 0.
    pub fn clock(&self) -> Moment
        ensures clock { result ≡ clock_of (reverse self.now.entries) }
        ensures bound { result.0 ≤ 9 * 10 ^ 18 + length self.now.entries }
    {
        self.state.clock()
    }
}
