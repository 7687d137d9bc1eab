//! The shards of all servers.
ghost use Rattle.std.specs.Prelude.{◌≡◌, ◌++◌, ◌<◌, ◌^◌, IfOk, OnOk, length};
ghost use Rattle.bm_shard.specs.Books.{IsTaken};
ghost use Rattle.bm_table.specs.Settings.{IsWithin};
ghost use Rattle.bm_replay.specs.Inside.Shards.{IsCalled, all_shards, before, server_shards};
ghost use Rattle.bm_replay.specs.Inside.Shards.{state_at};
ghost use Rattle.bm_replay.specs.Inside.Shards.{what_in};

use crate::slot::Slot;
use bm_base::{Memory, Moment, ServerId};
use bm_core::What;
use bm_shard::{Shard, ShardCall};
use bm_table::Setting;
use std::alloc::Global;
use std::marker::Model;

/// The shards of all servers, which contracts see as a list.
#[derive(Drop)]
pub(crate) struct Shards {
    slots: Vec<Slot>,
}

impl Model for Shards {
    ghost use Rattle.std.specs.Prelude.{List};
    ghost use Rattle.bm_shard.specs.States.{State};

    ghost Value = { List State };

    ghost view = { λ shards. shards.slots.items };
}

impl Shards {
    /// The shards of the servers with numbers below this, which hold nothing.
    #[tactic(auto, unfolding(crate::specs::Inside::Shards::all_shards))]
    pub(crate) fn new(alloc: Global, setting: &Setting, servers: u16) -> Result<Shards, Memory>
        requires { IsWithin 1 65536 setting.now.capacity }
        ensures { IfOk result (λ shards. shards ≡ all_shards setting.now servers) }
    {
        let mut slots = Vec::new(alloc);
        for server in 0..servers {
            add_server(&mut slots, setting, ServerId(server))?;
        }
        Ok(Shards { slots })
    }

    /// Makes a call to the shard at this place; returns what happens there.
    pub(crate) fn call(&mut self, place: usize, call: &ShardCall) -> Result<What, Memory>
        requires place { place < length self.old }
        requires clock { (state_at self.old place).clock.0 < 2 ^ 63 }
        requires taken { IsTaken call.now }
        ensures what { IfOk result (λ what. what ≡ what_in (state_at self.old place) call.now) }
        ensures called { OnOk result (IsCalled place call.now self.old self.new) }
    {
        let alloc = *self.slots.allocator();
        self.slots[place].call(alloc, call)
    }
}

/// Adds the shards of one server, which hold nothing.
fn add_server(slots: &mut Vec<Slot>, setting: &Setting, server: ServerId) -> Result<(), Memory>
    requires { IsWithin 1 65536 setting.now.capacity }
    ensures { OnOk result
        (slots.new.items ≡ slots.old.items ++ server_shards setting.now server setting.now.shards) }
{
    for number in 0..setting.shards {
        slots.push(Slot::new(Shard {
            server,
            number,
            capacity: setting.capacity,
            timeout: setting.timeout,
        }))?;
    }
    Ok(())
}

/// The moment before a clock.
pub(crate) fn before(clock: Moment) -> Moment
    ensures { result ≡ before clock }
{
    Moment(clock.0.saturating_sub(1))
}
