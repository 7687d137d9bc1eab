//! A shard, which is made at its first call.
ghost use Rattle.std.specs.Prelude.{◌≡◌, ◌<◌, ◌^◌, IfOk, OnOk};
ghost use Rattle.bm_shard.specs.Books.{IsTaken};
ghost use Rattle.bm_shard.specs.States.{IsAfter, first_state};
ghost use Rattle.bm_table.specs.Settings.{IsWithin};
ghost use Rattle.bm_replay.specs.Inside.Shards.{what_in};

use bm_base::Memory;
use bm_core::What;
use bm_shard::{Shard, ShardCall, ShardState};
use std::alloc::Global;
use std::marker::Model;

/// A shard. Until its first call it takes no memory of its own.
#[derive(Drop)]
pub(crate) struct Slot {
    shard: Shard,
    state: Option<Box<ShardState>>,
}

impl Model for Slot {
    ghost use Rattle.bm_shard.specs.States.{State};
    ghost use Rattle.bm_table.specs.Settings.{IsWithin};
    ghost use Rattle.bm_replay.specs.Inside.Slots.{state_in};

    ghost Value = { State };

    ghost view = { λ slot. state_in slot.shard slot.state };

    ghost invariant = { λ slot. IsWithin 1 65536 slot.shard.capacity };
}

/// A shard that holds nothing.
fn first_state(alloc: Global, shard: Shard) -> Result<Box<ShardState>, Memory>
    requires { IsWithin 1 65536 shard.capacity }
    ensures { IfOk result (λ state. state.value ≡ first_state shard) }
{
    let state = ShardState::new(alloc, shard)?;
    Ok(Box::new(alloc, state)?)
}

/// Makes a call; returns what happens.
fn make_call(state: &mut ShardState, call: &ShardCall) -> Result<What, Memory>
    requires clock { state.old.clock.0 < 2 ^ 63 }
    requires taken { IsTaken call.now }
    ensures what { IfOk result (λ what. what ≡ what_in state.old call.now) }
    ensures effect { OnOk result (IsAfter call.now state.old state.new) }
{
    let (event, _) = state.apply(call)?;
    Ok(event.what)
}

impl Slot {
    /// A shard to which no call was made. Takes no memory.
    pub(crate) fn new(shard: Shard) -> Slot
        requires { IsWithin 1 65536 shard.capacity }
        ensures { result ≡ first_state shard }
    {
        Slot { shard, state: None }
    }

    /// Makes a call to the shard; returns what happens there.
    pub(crate) fn call(&mut self, alloc: Global, call: &ShardCall) -> Result<What, Memory>
        requires clock { self.old.clock.0 < 2 ^ 63 }
        requires taken { IsTaken call.now }
        ensures what { IfOk result (λ what. what ≡ what_in self.old call.now) }
        ensures effect { OnOk result (IsAfter call.now self.old self.new) }
    {
        if self.state.is_none() {
            self.state = Some(first_state(alloc, self.shard)?);
        }
        match &mut self.state {
            Some(state) => make_call(state, call),
            None => unreachable!(),
        }
    }
}
