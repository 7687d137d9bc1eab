//! The controller of servers in racks.
ghost use Rattle.std.specs.Prelude.{◌≡◌, ◌≢◌, ◌≤◌, [], All, length, map, Some, None, IfOk, IfErr};
ghost use Rattle.std.specs.Prelude.{OnOk, OnErr, ℕ};
ghost use Rattle.bm_controller.specs.Commands as commands;
ghost use Rattle.bm_controller.specs.Commands.Command.{AddServer, DrainServer, WeighServer};
ghost use Rattle.bm_controller.specs.Commands.Command.{MoveBucket};
ghost use Rattle.bm_controller.specs.Controlled as controlled;
ghost use Rattle.bm_controller.specs.declared.refusal.RackRefusal.TheVariants.{Base as base};
ghost use Rattle.bm_controller.specs.Membership as membership;
ghost use Rattle.bm_base.specs.declared.ids.ServerId.{ServerId};
ghost use Rattle.bm_controller.specs.Racks.{EachRackHasMember, IsHome, IsRacked};
ghost use Rattle.bm_policy.specs.Policies.{IsNumber, IsPolicy};
ghost use Rattle.bm_quota.specs.declared.refusal.Refusal.TheVariants.{Memory as memory};
ghost use Rattle.bm_table.specs.Settings.{IsWithin, RiseFrom};
ghost use Rattle.bm_table.specs.Tables as tables;

use crate::{Engine, RackRefusal};
use bm_base::{Memory, Moment, ServerId};
use bm_policy::Policy;
use bm_table::Plan;
use std::alloc::Global;

/// The servers in their racks, and the plan that commands made so far. A stored rule names the rack
/// of each server; it is asked at the opening and at each `add`. The rack of bucket b is b modulo
/// the racks. A server is known from the opening, or from when it is added, for good; it is active
/// until it is drained. An active server has a weight.
#[derive(Drop)]
pub struct RackController<P> {
    pub policy: Policy<P>,
    pub engine: Engine,
}

impl<P: Fn(ServerId) -> u16 + Drop> RackController<P> {
    /// A controller of these servers, each with the weight at its place, 1 to 1,000, and in the rack
    /// that the policy names, with a plan without changes. At the opening bucket b is at server
    /// number b modulo their count, which may be in another rack; racks and weights count from the
    /// first command that rebalances. `Memory` where memory was refused.
    pub fn new(
        alloc: Global,
        buckets: u32,
        servers: &[ServerId],
        weights: &[u32],
        policy: Policy<P>,
    ) -> Result<RackController<P>, Memory>
        requires buckets { IsWithin 1 65536 buckets }
        requires rising { RiseFrom 0 servers.now }
        requires numbers { All IsNumber servers.now }
        requires count { length weights.now ≡ length servers.now }
        requires range { All (IsWithin 1 1000) weights.now }
        requires rule { IsPolicy P.Fn policy.rule policy.racks }
        requires few { policy.racks ≤ buckets }
        requires each { (p : IsPolicy P.Fn policy.rule policy.racks)
            → EachRackHasMember policy.racks
            (controlled.members_of servers.now weights.now (map p.rack servers.now)) }
        ensures policy { IfOk result (λ controller. controller.policy ≡ policy) }
        ensures opening { (p : IsPolicy P.Fn policy.rule policy.racks)
            → IfOk result (λ controller. controller.engine ≡ record {
              plan = record { buckets = buckets; servers = servers.now; changes = [] };
              racks = policy.racks;
              members = controlled.members_of servers.now weights.now (map p.rack servers.now);
            }) }
        ensures racked { (p : IsPolicy P.Fn policy.rule policy.racks)
            → IfOk result (λ controller. IsRacked p.rack controller.engine) }
    {
        let racks = racks_of(alloc, &policy, servers)?;
        let engine = Engine::new(
            alloc,
            buckets,
            servers,
            weights,
            policy.racks,
            racks.as_slice(),
        )?;
        Ok(RackController { policy, engine })
    }

    /// Adds a server with its weight at a moment in nanoseconds, in the rack that the policy names,
    /// and brings the active servers of each rack to their quotas of its buckets. A refusal is the
    /// first of KnownServer, StampFell and TooMany that applies, or Memory, which may come if none of
    /// these but `TooMany(Moves)` applies; each is a `Base` refusal. A refusal changes nothing.
    pub fn add(&mut self, at: Moment, s: ServerId, weight: u32) -> Result<(), RackRefusal>
        requires number { IsNumber s }
        requires weight { IsWithin 1 1000 weight }
        requires rule { IsPolicy P.Fn self.old.policy.rule self.old.policy.racks }
        requires racks { self.old.policy.racks ≡ self.old.engine.racks }
        ensures ok { (p : IsPolicy P.Fn self.old.policy.rule self.old.policy.racks)
            → OnOk result
            (self.new.engine ≡ commands.after self.old.engine at (AddServer s weight (p.rack s))) }
        ensures accepted { (p : IsPolicy P.Fn self.old.policy.rule self.old.policy.racks)
            → OnOk result
            (commands.refusal self.old.engine at (AddServer s weight (p.rack s)) ≡ None) }
        ensures refused { (p : IsPolicy P.Fn self.old.policy.rule self.old.policy.racks)
            → IfErr result (λ refusal. refusal ≢ base memory
            → commands.refusal self.old.engine at (AddServer s weight (p.rack s)) ≡ Some refusal) }
        ensures want { (p : IsPolicy P.Fn self.old.policy.rule self.old.policy.racks)
            → IfErr result (λ refusal. refusal ≡ base memory
            → commands.refused self.old.engine at (AddServer s weight (p.rack s)) 0 ≡ None) }
        ensures err { OnErr result (self.new.engine ≡ self.old.engine) }
        ensures rebalanced { (p : IsPolicy P.Fn self.old.policy.rule self.old.policy.racks)
            → OnOk result
            (commands.Rebalances self.old.engine at (AddServer s weight (p.rack s))) }
        // Members stay in the racks that the policy names, and are the plan's active servers. So
        // each bucket is at such a server of its own rack.
        ensures racked { (p : IsPolicy P.Fn self.old.policy.rule self.old.policy.racks)
            → IsRacked p.rack self.old.engine → IsRacked p.rack self.new.engine }
        ensures home { (p : IsPolicy P.Fn self.old.policy.rule self.old.policy.racks)
            → IsRacked p.rack self.old.engine → OnOk result (IsHome p.rack self.new.engine) }
        ensures policy { self.new.policy ≡ self.old.policy }
    {
        let rack = self.policy.rack(s);
        self.engine.add(at, s, weight, rack)
    }

    /// Drains a server at a moment in nanoseconds: its buckets go to the other active servers of
    /// their rack, and each rack's servers reach their quotas. A refusal is the first of
    /// UnknownServer, NotActive, LastServer, LastInRack, StampFell and TooMany that applies, or
    /// Memory, which may come if none of these but `TooMany(Moves)` applies. All but LastInRack are
    /// `Base` refusals. A refusal changes nothing.
    pub fn drain(&mut self, at: Moment, s: ServerId) -> Result<(), RackRefusal>
        ensures ok { OnOk result
            (self.new.engine ≡ commands.after self.old.engine at (DrainServer s)) }
        ensures accepted { OnOk result
            (commands.refusal self.old.engine at (DrainServer s) ≡ None) }
        ensures refused { IfErr result (λ refusal. refusal ≢ base memory
            → commands.refusal self.old.engine at (DrainServer s) ≡ Some refusal) }
        ensures want { IfErr result (λ refusal. refusal ≡ base memory
            → commands.refused self.old.engine at (DrainServer s) 0 ≡ None) }
        ensures err { OnErr result (self.new.engine ≡ self.old.engine) }
        ensures rebalanced { OnOk result
            (commands.Rebalances self.old.engine at (DrainServer s)) }
        ensures racked { (rack : ServerId → ℕ)
            → IsRacked rack self.old.engine → IsRacked rack self.new.engine }
        ensures home { (rack : ServerId → ℕ)
            → IsRacked rack self.old.engine → OnOk result (IsHome rack self.new.engine) }
        ensures policy { self.new.policy ≡ self.old.policy }
    {
        self.engine.drain(at, s)
    }

    /// Gives an active server another weight at a moment in nanoseconds, and brings the active
    /// servers of each rack to their quotas; it is a change also where no bucket moves. A refusal is
    /// the first of UnknownServer, NotActive, StampFell and TooMany that applies, or Memory, which
    /// may come if none of these but `TooMany(Moves)` applies; each is a `Base` refusal. A refusal
    /// changes nothing.
    pub fn weigh(&mut self, at: Moment, s: ServerId, weight: u32) -> Result<(), RackRefusal>
        requires { IsWithin 1 1000 weight }
        ensures ok { OnOk result
            (self.new.engine ≡ commands.after self.old.engine at (WeighServer s weight)) }
        ensures accepted { OnOk result
            (commands.refusal self.old.engine at (WeighServer s weight) ≡ None) }
        ensures refused { IfErr result (λ refusal. refusal ≢ base memory
            → commands.refusal self.old.engine at (WeighServer s weight) ≡ Some refusal) }
        ensures want { IfErr result (λ refusal. refusal ≡ base memory
            → commands.refused self.old.engine at (WeighServer s weight) 0 ≡ None) }
        ensures err { OnErr result (self.new.engine ≡ self.old.engine) }
        ensures rebalanced { OnOk result
            (commands.Rebalances self.old.engine at (WeighServer s weight)) }
        ensures racked { (rack : ServerId → ℕ)
            → IsRacked rack self.old.engine → IsRacked rack self.new.engine }
        ensures home { (rack : ServerId → ℕ)
            → IsRacked rack self.old.engine → OnOk result (IsHome rack self.new.engine) }
        ensures policy { self.new.policy ≡ self.old.policy }
    {
        self.engine.weigh(at, s, weight)
    }

    /// Moves one bucket to an active server of the bucket's rack, at a moment in nanoseconds. A
    /// refusal is the first of BadBucket, UnknownServer, NotActive, WrongRack, SameServer, StampFell
    /// and TooMany that applies, or Memory, which may come if none of these applies. All but
    /// WrongRack are `Base` refusals. A refusal changes nothing.
    pub fn shift(&mut self, at: Moment, bucket: u32, s: ServerId) -> Result<(), RackRefusal>
        ensures ok { OnOk result
            (self.new.engine ≡ commands.after self.old.engine at (MoveBucket bucket s)) }
        ensures accepted { OnOk result
            (commands.refusal self.old.engine at (MoveBucket bucket s) ≡ None) }
        ensures refused { IfErr result (λ refusal. refusal ≢ base memory
            → commands.refusal self.old.engine at (MoveBucket bucket s) ≡ Some refusal) }
        ensures want { IfErr result (λ refusal. refusal ≡ base memory
            → commands.refusal self.old.engine at (MoveBucket bucket s) ≡ None) }
        ensures err { OnErr result (self.new.engine ≡ self.old.engine) }
        ensures racked { (rack : ServerId → ℕ)
            → IsRacked rack self.old.engine → IsRacked rack self.new.engine }
        ensures policy { self.new.policy ≡ self.old.policy }
    {
        self.engine.shift(at, bucket, s)
    }

    /// Whether the server is known.
    pub fn knows(&self, s: ServerId) -> bool
        ensures { result ≡ membership.knows self.now.engine.plan s }
    {
        self.engine.knows(s)
    }

    /// The plan that the commands made.
    pub fn into_plan(self) -> Plan
        ensures plan { result ≡ self.engine.plan }
        // Stamps never decrease, each move is to a known server and changes its bucket's server,
        // and once a server is drained no bucket is at it.
        ensures orderly { tables.IsOrderly result }
        ensures membership { membership.KeepsMembership result }
    {
        self.engine.into_plan()
    }
}

/// The rack of each server.
fn racks_of<P: Fn(ServerId) -> u16>(
    alloc: Global,
    policy: &Policy<P>,
    servers: &[ServerId],
) -> Result<Vec<u16>, Memory>
    requires numbers { All IsNumber servers.now }
    requires rule { IsPolicy P.Fn policy.now.rule policy.now.racks }
    ensures { (p : IsPolicy P.Fn policy.now.rule policy.now.racks)
        → IfOk result (λ racks. racks.items ≡ map p.rack servers.now) }
{
    let mut racks = Vec::with_capacity(alloc, servers.len())?;
    for s in servers {
        racks.push(policy.rack(*s))?;
    }
    Ok(racks)
}
