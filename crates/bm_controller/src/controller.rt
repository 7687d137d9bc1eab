//! The controller of servers without racks.
ghost use Rattle.std.specs.Prelude.{◌≡◌, ◌≢◌, ◌<◌, [], All, length, Some, None, IfOk, IfErr, OnOk};
ghost use Rattle.std.specs.Prelude.{OnErr, replicate};
ghost use Rattle.bm_controller.specs.Commands as commands;
ghost use Rattle.bm_controller.specs.Commands.Command.{AddServer, DrainServer, WeighServer};
ghost use Rattle.bm_controller.specs.Commands.Command.{MoveBucket};
ghost use Rattle.bm_controller.specs.Controlled as controlled;
ghost use Rattle.bm_controller.specs.declared.refusal.RackRefusal.TheVariants.{Base as base};
ghost use Rattle.bm_controller.specs.Inside.Kinds.{IsBase};
ghost use Rattle.bm_controller.specs.Membership as membership;
ghost use Rattle.bm_quota.specs.declared.refusal.Refusal.TheVariants.{Memory as memory};
ghost use Rattle.bm_table.specs.declared.plan.Kind.TheVariants as kind;
ghost use Rattle.bm_table.specs.Settings.{IsWithin, RiseFrom};
ghost use Rattle.bm_table.specs.Tables as tables;

use crate::{Engine, RackRefusal};
use bm_base::{Memory, Moment, ServerId};
use bm_quota::Refusal;
use bm_table::Plan;
use std::alloc::Global;
use std::marker::Model;

/// The servers, and the plan that commands made so far. A server is known from the opening, or from
/// when it is added, for good; it is active until it is drained. An active server has a weight. All
/// servers and all buckets are in one rack.
#[derive(Drop)]
pub struct Controller {
    engine: Engine,
}

impl Model for Controller {
    ghost use Rattle.bm_controller.specs.Controlled.{Controlled};

    ghost Value = { Controlled };

    ghost use Rattle.bm_controller.specs.Views.{with_one_rack, HasOneRack};

    ghost view = { with_one_rack };

    ghost invariant = { HasOneRack };
}

impl Controller {
    /// A controller of these servers, each with the weight at its place, 1 to 1,000, and with a plan
    /// without changes. At the opening bucket b is at server number b modulo their count; weights
    /// count from the first command that rebalances. `Memory` where memory was refused.
    pub fn new(
        alloc: Global,
        buckets: u32,
        servers: &[ServerId],
        weights: &[u32],
    ) -> Result<Controller, Memory>
        requires buckets { IsWithin 1 65536 buckets }
        requires servers { 0 < length servers.now }
        requires rising { RiseFrom 0 servers.now }
        requires count { length weights.now ≡ length servers.now }
        requires range { All (IsWithin 1 1000) weights.now }
        ensures { IfOk result (λ controller. controller ≡ record {
          plan = record { buckets = buckets; servers = servers.now; changes = [] };
          racks = 1;
          members = controlled.members_of servers.now weights.now
              (replicate (length servers.now) 0);
        }) }
    {
        let racks = one_rack(alloc, servers.len())?;
        Ok(Controller {
            engine: Engine::new(alloc, buckets, servers, weights, 1, racks.as_slice())?,
        })
    }

    /// Adds a server with its weight at a moment in nanoseconds, and brings all active servers to
    /// their quotas. A refusal is the first of KnownServer, StampFell and TooMany that applies, or
    /// Memory, which may come if none of these but `TooMany(Moves)` applies. A refusal changes
    /// nothing.
    pub fn add(&mut self, at: Moment, s: ServerId, weight: u32) -> Result<(), Refusal>
        requires number { IsWithin 1 1024 s.0 }
        requires weight { IsWithin 1 1000 weight }
        ensures ok { OnOk result (self.new ≡ commands.after self.old at (AddServer s weight 0)) }
        ensures accepted { OnOk result (commands.refusal self.old at (AddServer s weight 0) ≡ None) }
        ensures refused { IfErr result (λ refusal. refusal ≢ memory
            → commands.refusal self.old at (AddServer s weight 0) ≡ Some (base refusal)) }
        ensures want { IfErr result (λ refusal. refusal ≡ memory
            → commands.refused self.old at (AddServer s weight 0) 0 ≡ None) }
        ensures err { OnErr result (self.new ≡ self.old) }
        ensures change { OnOk result (commands.change_of self.old at (AddServer s weight 0)
            ≡ commands.change_of_all self.old.plan at (kind.Add s)
            (commands.members_after (AddServer s weight 0) self.old.members)) }
        ensures rebalanced { OnOk result (commands.Rebalances self.old at (AddServer s weight 0)) }
    {
        // So each member is in rack 0.
        prove!(self.engine.racks() == 1);
        match self.engine.add(at, s, weight, 0) {
            Ok(()) => {}
            Err(refusal) => return Err(base_of(refusal)),
        }
        Ok(())
    }

    /// Drains a server at a moment in nanoseconds: its buckets go to the other active servers,
    /// which reach their quotas. A refusal is the first of UnknownServer, NotActive, LastServer,
    /// StampFell and TooMany that applies, or Memory, which may come if none of these but
    /// `TooMany(Moves)` applies. A refusal changes nothing.
    pub fn drain(&mut self, at: Moment, s: ServerId) -> Result<(), Refusal>
        ensures ok { OnOk result (self.new ≡ commands.after self.old at (DrainServer s)) }
        ensures accepted { OnOk result (commands.refusal self.old at (DrainServer s) ≡ None) }
        ensures refused { IfErr result (λ refusal. refusal ≢ memory
            → commands.refusal self.old at (DrainServer s) ≡ Some (base refusal)) }
        ensures want { IfErr result (λ refusal. refusal ≡ memory
            → commands.refused self.old at (DrainServer s) 0 ≡ None) }
        ensures err { OnErr result (self.new ≡ self.old) }
        ensures change { OnOk result (commands.change_of self.old at (DrainServer s)
            ≡ commands.change_of_all self.old.plan at (kind.Drain s)
            (commands.members_after (DrainServer s) self.old.members)) }
        ensures rebalanced { OnOk result (commands.Rebalances self.old at (DrainServer s)) }
    {
        // So each member is in rack 0.
        prove!(self.engine.racks() == 1);
        match self.engine.drain(at, s) {
            Ok(()) => {}
            Err(refusal) => return Err(base_of(refusal)),
        }
        Ok(())
    }

    /// Gives an active server another weight at a moment in nanoseconds, and brings all active
    /// servers to their quotas; it is a change also where no bucket moves. A refusal is the first of
    /// UnknownServer, NotActive, StampFell and TooMany that applies, or Memory, which may come if
    /// none of these but `TooMany(Moves)` applies. A refusal changes nothing.
    pub fn weigh(&mut self, at: Moment, s: ServerId, weight: u32) -> Result<(), Refusal>
        requires { IsWithin 1 1000 weight }
        ensures ok { OnOk result (self.new ≡ commands.after self.old at (WeighServer s weight)) }
        ensures accepted { OnOk result (commands.refusal self.old at (WeighServer s weight) ≡ None) }
        ensures refused { IfErr result (λ refusal. refusal ≢ memory
            → commands.refusal self.old at (WeighServer s weight) ≡ Some (base refusal)) }
        ensures want { IfErr result (λ refusal. refusal ≡ memory
            → commands.refused self.old at (WeighServer s weight) 0 ≡ None) }
        ensures err { OnErr result (self.new ≡ self.old) }
        ensures change { OnOk result (commands.change_of self.old at (WeighServer s weight)
            ≡ commands.change_of_all self.old.plan at kind.Shift
            (commands.members_after (WeighServer s weight) self.old.members)) }
        ensures rebalanced { OnOk result (commands.Rebalances self.old at (WeighServer s weight)) }
    {
        // So each member is in rack 0.
        prove!(self.engine.racks() == 1);
        match self.engine.weigh(at, s, weight) {
            Ok(()) => {}
            Err(refusal) => return Err(base_of(refusal)),
        }
        Ok(())
    }

    /// Moves one bucket to an active server, at a moment in nanoseconds. A refusal is the first of
    /// BadBucket, UnknownServer, NotActive, SameServer, StampFell and TooMany that applies, or
    /// Memory, which may come if none of these applies. A refusal changes nothing.
    pub fn shift(&mut self, at: Moment, bucket: u32, s: ServerId) -> Result<(), Refusal>
        ensures ok { OnOk result (self.new ≡ commands.after self.old at (MoveBucket bucket s)) }
        ensures accepted { OnOk result (commands.refusal self.old at (MoveBucket bucket s) ≡ None) }
        ensures refused { IfErr result (λ refusal. refusal ≢ memory
            → commands.refusal self.old at (MoveBucket bucket s) ≡ Some (base refusal)) }
        ensures want { IfErr result (λ refusal. refusal ≡ memory
            → commands.refusal self.old at (MoveBucket bucket s) ≡ None) }
        ensures err { OnErr result (self.new ≡ self.old) }
    {
        // So each member is in rack 0.
        prove!(self.engine.racks() == 1);
        match self.engine.shift(at, bucket, s) {
            Ok(()) => {}
            Err(refusal) => return Err(base_of(refusal)),
        }
        Ok(())
    }

    /// Whether the server is known.
    pub fn knows(&self, s: ServerId) -> bool
        ensures { result ≡ membership.knows self.now.plan s }
    {
        self.engine.knows(s)
    }

    /// The plan that the commands made.
    pub fn into_plan(self) -> Plan
        ensures plan { result ≡ self.plan }
        // Stamps never decrease, each move is to a known server and changes its bucket's server,
        // and once a server is drained no bucket is at it.
        ensures orderly { tables.IsOrderly result }
        ensures membership { membership.KeepsMembership result }
    {
        self.engine.into_plan()
    }
}

/// The rack of each of `count` servers, which is rack 0.
fn one_rack(alloc: Global, count: usize) -> Result<Vec<u16>, Memory>
    ensures { IfOk result (λ racks. racks.items ≡ replicate count 0) }
{
    Ok(vec![in alloc; 0; count]?)
}

/// A refusal where there is one rack.
fn base_of(refusal: RackRefusal) -> Refusal
    requires { IsBase refusal }
    ensures { refusal ≡ base result }
{
    match refusal {
        RackRefusal::Base(refusal) => refusal,
        RackRefusal::LastInRack | RackRefusal::WrongRack => unreachable!(),
    }
}
