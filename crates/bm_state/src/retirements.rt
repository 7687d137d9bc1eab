//! When shards were retired.
ghost use Rattle.std.specs.Prelude.{◌≡◌, OnOk, Some, None, if◌then◌else◌};
ghost use Rattle.std.specs.BTreeMap as tree;
ghost use Rattle.bm_base.specs.declared.ids.ServerId.{ServerId};
ghost use Rattle.bm_core.specs.Past as past;
ghost use Rattle.bm_table.specs.Settings.{IsWithin};
ghost use Rattle.bm_state.specs.Holders.{alive_place, is_alive, place_in};
ghost use Rattle.bm_state.specs.Inside.Retirements.{other_alive, same_key};
ghost use Rattle.bm_state.specs.ShardKeys.{key_at};

use crate::holder_lists::{Holder, place_in};
use crate::shard_key::ShardKey;
use bm_base::{Flow, ServerId};
use bm_core::Stage;
use bm_hash::shard_of;
use std::alloc::{AllocError, Global};
use std::collections::BTreeMap;

/// How many events came before each shard's last retirement.
#[derive(Drop)]
pub(crate) struct Retirements {
    places: BTreeMap<ShardKey, usize>,
}

impl Retirements {
    ghost use Rattle.bm_state.specs.Holders.{retired_in};
    ghost use Rattle.bm_state.specs.declared.shard_key.ShardKey.{ShardKey};

    pub(crate) fn new(alloc: Global) -> Retirements
        ensures { (q : ShardKey) → retired_in result q ≡ None }
    {
        Retirements {
            places: BTreeMap::new(alloc),
        }
    }

    /// The shard of the flow, for looking up its servers' retirements. While there are none any
    /// number will do, which saves a hash.
    #[tactic(auto, using(crate::proofs::Retiring::none_in))]
    pub(crate) fn shard_for(&self, stage: &Stage, flow: &Flow) -> u16
        requires { IsWithin 1 64 stage.now.script.setting.shards }
        ensures { (s : ServerId) → retired_in self.now (key_at s result)
            ≡ retired_in self.now (key_at s (past.shard stage.now flow.now)) }
    {
        if self.places.is_empty() {
            0
        } else {
            shard_of(flow, stage.script.setting.shards)
        }
    }

    fn get(&self, key: ShardKey) -> Option<usize>
        ensures { result ≡ retired_in self.now key }
    {
        self.places.get(&key).copied()
    }

    pub(crate) fn put(&mut self, key: ShardKey, place: usize) -> Result<(), AllocError>
        ensures { OnOk result ((q : ShardKey) → retired_in self.new q
            ≡ (if same_key key q then Some place else retired_in self.old q)) }
    {
        self.places.insert(key, place)?;
        Ok(())
    }

    /// Whether an Accept at this place came after the shard's last retirement.
    fn is_alive(&self, key: ShardKey, place: usize) -> bool
        ensures { result ≡ is_alive (retired_in self.now key) place }
    {
        match self.get(key) {
            None => true,
            Some(retired) => retired < place,
        }
    }

    /// The place of the Accept that the server holds, by this list.
    pub(crate) fn alive_in(&self, holders: &[Holder], server: ServerId, shard: u16) -> Option<usize>
        ensures { result ≡ alive_place (retired_in self.now (key_at server shard))
            (place_in holders.now server) }
    {
        let place = place_in(holders, server)?;
        if self.is_alive(ShardKey::at(server, shard), place) {
            Some(place)
        } else {
            None
        }
    }

    /// Whether one of these, at another server, came after its shard's last retirement.
    pub(crate) fn is_other_alive(&self, holders: &[Holder], server: ServerId, shard: u16) -> bool
        ensures { result
            ≡ other_alive (λ t. retired_in self.now (key_at t shard)) holders.now server }
    {
        let mut rest = holders;
        while let Some((holder, others)) = rest.split_first() {
            let key = ShardKey::at(holder.server, shard);
            if holder.server != server && self.is_alive(key, holder.place) {
                return true;
            }
            rest = others;
        }
        false
    }
}
