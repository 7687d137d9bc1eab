//! What both controllers stand on: the plan, and the active servers in their racks.
ghost use Rattle.std.specs.Prelude.{◌≡◌, ◌≢◌, ◌<◌, ◌≤◌, ℕ, [], ◌∷◌, All, length, true, false};
ghost use Rattle.std.specs.Prelude.{vec_len, slice_index_or, Some, None, IfOk, IfErr, OnOk, OnErr};
ghost use Rattle.std.specs.Prelude.{MatchResult};
ghost use Rattle.bm_base.specs.declared.ids.ServerId.{ServerId};
ghost use Rattle.bm_controller.specs.Commands as commands;
ghost use Rattle.bm_controller.specs.Commands.Command.{AddServer, DrainServer, WeighServer};
ghost use Rattle.bm_controller.specs.Commands.Command.{MoveBucket};
ghost use Rattle.bm_controller.specs.Controlled as controlled;
ghost use Rattle.bm_controller.specs.declared.refusal.RackRefusal.TheVariants.{Base as base};
ghost use Rattle.bm_controller.specs.Inside.Kinds.{known_after, HasRack, HasWeight, MayCome};
ghost use Rattle.bm_controller.specs.Membership as membership;
ghost use Rattle.bm_controller.specs.Racks.{EachRackHasMember, IsRebalanced};
ghost use Rattle.bm_quota.specs.declared.refusal.Refusal.TheVariants.{Memory as memory};
ghost use Rattle.bm_table.specs.Plans.{IsPlan, with_change};
ghost use Rattle.bm_table.specs.Settings.{IsWithin, RiseFrom};
ghost use Rattle.bm_table.specs.Tables as tables;

use crate::RackRefusal;
use crate::members::{self, Member};
use crate::rebalance::moves_by_racks;
use bm_base::{List, Memory, Moment, ServerId};
use bm_quota::Refusal;
use bm_table::{Change, Kind, Move, Plan};
use std::alloc::Global;
use std::marker::Model;

/// How many server numbers there may be.
const NUMBERS: usize = 65_536;

/// The plan that commands made so far, and the servers. A server is known from the opening, or from
/// when it is added, for good; it is active until it is drained. An active server has a weight and
/// a rack.
#[derive(Drop)]
pub struct Engine {
    plan: Plan,
    /// How many racks there are.
    racks: u16,
    /// The active servers with their weights and racks, in rising order.
    members: Vec<Member>,
    /// Whether each server is known, by its number.
    known: Vec<bool>,
}

impl Model for Engine {
    ghost use Rattle.bm_controller.specs.Controlled.{Controlled};

    ghost Value = { Controlled };

    ghost use Rattle.bm_controller.specs.Views.{controlled, IsKept};

    ghost view = { controlled };

    ghost invariant = { IsKept };
}

impl Engine {
    /// The servers, each with the weight and the rack at its place, and a plan without changes.
    pub(crate) fn new(
        alloc: Global,
        buckets: u32,
        servers: &[ServerId],
        weights: &[u32],
        racks: u16,
        rack_of_each: &[u16],
    ) -> Result<Engine, Memory>
        requires buckets { IsWithin 1 65536 buckets }
        requires servers { 0 < length servers.now }
        requires rising { RiseFrom 0 servers.now }
        requires count { length weights.now ≡ length servers.now }
        requires range { All (IsWithin 1 1000) weights.now }
        requires few { IsWithin 1 buckets racks }
        requires places { length rack_of_each.now ≡ length servers.now }
        requires below { All (λ rack. rack < racks) rack_of_each.now }
        requires each { EachRackHasMember racks
            (controlled.members_of servers.now weights.now rack_of_each.now) }
        ensures { IfOk result (λ engine. engine ≡ record {
          plan = record { buckets = buckets; servers = servers.now; changes = [] };
          racks = racks;
          members = controlled.members_of servers.now weights.now rack_of_each.now;
        }) }
    {
        Ok(Engine {
            plan: Plan::new(alloc, buckets, servers)?,
            racks,
            members: members::of(alloc, servers, weights, rack_of_each)?,
            known: known_of(alloc, servers)?,
        })
    }

    /// Adds a server with its weight to a rack.
    pub(crate) fn add(
        &mut self,
        at: Moment,
        s: ServerId,
        weight: u32,
        rack: u16,
    ) -> Result<(), RackRefusal>
        requires number { IsWithin 1 1024 s.0 }
        requires weight { IsWithin 1 1000 weight }
        requires rack { rack < self.old.racks }
        ensures ok { OnOk result (self.new ≡ commands.after self.old at (AddServer s weight rack)) }
        ensures accepted { OnOk result (commands.refusal self.old at (AddServer s weight rack) ≡ None) }
        ensures refused { IfErr result (λ refusal. refusal ≢ base memory
            → commands.refusal self.old at (AddServer s weight rack) ≡ Some refusal) }
        ensures want { IfErr result (λ refusal. refusal ≡ base memory
            → commands.refused self.old at (AddServer s weight rack) 0 ≡ None) }
        ensures err { OnErr result (self.new ≡ self.old) }
        ensures rebalanced { OnOk result (commands.Rebalances self.old at (AddServer s weight rack)) }
    {
        if self.knows(s) {
            return Err(RackRefusal::Base(Refusal::KnownServer));
        }
        self.check_limits(at, 0)?;
        let member = Member {
            server: s,
            weight,
            rack,
        };
        let members = members::with(*self.members.allocator(), self.members.as_slice(), member)?;
        self.rebalanced(at, Kind::Add(s), members)?;
        Ok(())
    }

    /// Drains a server.
    pub(crate) fn drain(&mut self, at: Moment, s: ServerId) -> Result<(), RackRefusal>
        ensures ok { OnOk result (self.new ≡ commands.after self.old at (DrainServer s)) }
        ensures accepted { OnOk result (commands.refusal self.old at (DrainServer s) ≡ None) }
        ensures refused { IfErr result (λ refusal. refusal ≢ base memory
            → commands.refusal self.old at (DrainServer s) ≡ Some refusal) }
        ensures want { IfErr result (λ refusal. refusal ≡ base memory
            → commands.refused self.old at (DrainServer s) 0 ≡ None) }
        ensures err { OnErr result (self.new ≡ self.old) }
        ensures rebalanced { OnOk result (commands.Rebalances self.old at (DrainServer s)) }
    {
        self.check_active(s)?;
        self.check_others(s)?;
        self.check_limits(at, 0)?;
        let members = members::without(*self.members.allocator(), self.members.as_slice(), s)?;
        self.rebalanced(at, Kind::Drain(s), members)?;
        Ok(())
    }

    /// Gives an active server another weight.
    pub(crate) fn weigh(&mut self, at: Moment, s: ServerId, weight: u32) -> Result<(), RackRefusal>
        requires { IsWithin 1 1000 weight }
        ensures ok { OnOk result (self.new ≡ commands.after self.old at (WeighServer s weight)) }
        ensures accepted { OnOk result (commands.refusal self.old at (WeighServer s weight) ≡ None) }
        ensures refused { IfErr result (λ refusal. refusal ≢ base memory
            → commands.refusal self.old at (WeighServer s weight) ≡ Some refusal) }
        ensures want { IfErr result (λ refusal. refusal ≡ base memory
            → commands.refused self.old at (WeighServer s weight) 0 ≡ None) }
        ensures err { OnErr result (self.new ≡ self.old) }
        ensures rebalanced { OnOk result (commands.Rebalances self.old at (WeighServer s weight)) }
    {
        self.check_active(s)?;
        self.check_limits(at, 0)?;
        let alloc = *self.members.allocator();
        let members = members::reweighed(alloc, self.members.as_slice(), s, weight)?;
        self.rebalanced(at, Kind::Shift, members)?;
        Ok(())
    }

    /// Moves one bucket to an active server of its rack.
    pub(crate) fn shift(&mut self, at: Moment, bucket: u32, s: ServerId) -> Result<(), RackRefusal>
        ensures ok { OnOk result (self.new ≡ commands.after self.old at (MoveBucket bucket s)) }
        ensures accepted { OnOk result (commands.refusal self.old at (MoveBucket bucket s) ≡ None) }
        ensures refused { IfErr result (λ refusal. refusal ≢ base memory
            → commands.refusal self.old at (MoveBucket bucket s) ≡ Some refusal) }
        ensures want { IfErr result (λ refusal. refusal ≡ base memory
            → commands.refusal self.old at (MoveBucket bucket s) ≡ None) }
        ensures err { OnErr result (self.new ≡ self.old) }
    {
        if bucket >= self.plan.buckets() {
            return Err(RackRefusal::Base(Refusal::BadBucket));
        }
        self.check_active(s)?;
        self.check_fits(bucket, s)?;
        self.check_limits(at, 1)?;
        let moves = one_move(*self.members.allocator(), Move { bucket, to: s })?;
        self.plan.push(Change {
            moment: at,
            kind: Kind::Shift,
            moves: List::of(moves),
        })?;
        Ok(())
    }

    /// How many racks there are; each member is in one of them.
    pub(crate) fn racks(&self) -> u16
        ensures count { result ≡ self.now.racks }
        ensures members { All (HasRack self.now.racks) self.now.members }
    {
        self.racks
    }

    /// Whether the server is known.
    pub(crate) fn knows(&self, s: ServerId) -> bool
        ensures { result ≡ membership.knows self.now.plan s }
    {
        self.known[s.0 as usize]
    }

    /// The plan that the commands made.
    pub(crate) fn into_plan(self) -> Plan
        ensures plan { result ≡ self.plan }
        ensures orderly { tables.IsOrderly result }
        ensures membership { membership.KeepsMembership result }
    {
        self.plan
    }

    /// Refuses a server that isn't active.
    fn check_active(&self, s: ServerId) -> Result<(), RackRefusal>
        ensures { MatchResult result
            (λ _. commands.first_refusal (commands.unless_active self.now s) ≡ None)
            (λ refusal. (refusal ≢ base memory)
            × (commands.first_refusal (commands.unless_active self.now s) ≡ Some refusal)) }
    {
        if !self.knows(s) {
            return Err(RackRefusal::Base(Refusal::UnknownServer));
        }
        if !members::is_among(self.members.as_slice(), s) {
            return Err(RackRefusal::Base(Refusal::NotActive));
        }
        Ok(())
    }

    /// Refuses the only active server, and the only one of its rack.
    fn check_others(&self, s: ServerId) -> Result<(), RackRefusal>
        ensures { MatchResult result
            (λ _. commands.first_refusal (commands.if_last self.now s) ≡ None)
            (λ refusal. (refusal ≢ base memory)
            × (commands.first_refusal (commands.if_last self.now s) ≡ Some refusal)) }
    {
        if self.members.len() <= 1 {
            return Err(RackRefusal::Base(Refusal::LastServer));
        }
        let rack = members::rack_of(self.members.as_slice(), s);
        if members::count_in(self.members.as_slice(), rack) <= 1 {
            return Err(RackRefusal::LastInRack);
        }
        Ok(())
    }

    /// Refuses a server of another rack than the bucket's, and the one at which the bucket is.
    fn check_fits(&self, bucket: u32, s: ServerId) -> Result<(), RackRefusal>
        requires { bucket < self.now.plan.buckets }
        ensures { MatchResult result
            (λ _. commands.first_refusal (commands.unless_fits self.now bucket s) ≡ None)
            (λ refusal. (refusal ≢ base memory)
            × (commands.first_refusal (commands.unless_fits self.now bucket s) ≡ Some refusal)) }
    {
        let rack = members::rack_of(self.members.as_slice(), s);
        if u32::from(rack) != bucket % u32::from(self.racks) {
            return Err(RackRefusal::WrongRack);
        }
        if self.plan.server(bucket) == s {
            return Err(RackRefusal::Base(Refusal::SameServer));
        }
        Ok(())
    }

    /// Refuses a moment below the last, and a change with this many moves that a limit forbids.
    fn check_limits(&self, at: Moment, moves: usize) -> Result<(), RackRefusal>
        ensures { MatchResult result
            (λ _. commands.first_refusal (commands.limits self.now.plan at moves) ≡ None)
            (λ refusal. (refusal ≢ base memory)
            × (commands.first_refusal (commands.limits self.now.plan at moves) ≡ Some refusal)) }
    {
        self.plan.check_limits(at, moves)?;
        Ok(())
    }

    /// Makes the change that brings these members, active after it, to the quotas of their racks.
    fn rebalanced(
        &mut self,
        at: Moment,
        kind: Kind,
        members: Vec<Member>,
    ) -> Result<(), RackRefusal>
        requires kind { MayCome self.old.plan kind }
        requires servers { controlled.servers_of members.items
            ≡ membership.active_after kind (membership.active_now self.old.plan) }
        requires weights { All HasWeight members.items }
        requires racks { All (HasRack self.old.racks) members.items }
        requires each { EachRackHasMember self.old.racks members.items }
        ensures ok { OnOk result (self.new ≡ record {
          plan = with_change self.old.plan
              (commands.change_to self.old.plan self.old.racks at kind members.items);
          racks = self.old.racks;
          members = members.items;
        }) }
        ensures accepted { OnOk result (commands.first_refusal (commands.limits self.old.plan at
            (length
            (commands.change_to self.old.plan self.old.racks at kind members.items).moves)) ≡ None) }
        ensures refused { IfErr result (λ refusal. refusal ≢ base memory
            → commands.first_refusal (commands.limits self.old.plan at
            (length (commands.change_to self.old.plan self.old.racks at kind members.items).moves))
            ≡ Some refusal) }
        ensures err { OnErr result (self.new ≡ self.old) }
        ensures rebalanced { OnOk result (IsRebalanced self.old.plan
            (commands.change_to self.old.plan self.old.racks at kind members.items) self.new) }
    {
        let change = change_to(&self.plan, self.racks, at, kind, members.as_slice())?;
        self.plan.push(change)?;
        self.members = members;
        make_known(self.known.as_mut_slice(), kind);
        Ok(())
    }
}

/// A server that is added becomes known.
fn make_known(known: &mut [bool], kind: Kind)
    requires { length known.old ≡ NUMBERS }
    ensures { known.new ≡ known_after kind known.old }
{
    match kind {
        Kind::Add(s) => known[s.0 as usize] = true,
        Kind::Drain(_) | Kind::Shift => {}
    }
}

/// The change that brings these members to the quotas of their racks.
fn change_to(
    plan: &Plan,
    racks: u16,
    at: Moment,
    kind: Kind,
    members: &[Member],
) -> Result<Change, Memory>
    requires plan { IsPlan plan.now }
    requires rising { RiseFrom 0 (controlled.servers_of members.now) }
    requires few { IsWithin 1 plan.now.buckets racks }
    requires each { EachRackHasMember racks members.now }
    requires weights { All HasWeight members.now }
    ensures { IfOk result (λ change.
        change ≡ commands.change_to plan.now racks at kind members.now) }
{
    let owners = plan.owners()?;
    let moves = moves_by_racks(*owners.allocator(), owners.as_slice(), racks, members)?;
    Ok(Change {
        moment: at,
        kind,
        moves: List::of(moves),
    })
}

fn one_move(alloc: Global, m: Move) -> Result<Vec<Move>, Memory>
    ensures { IfOk result (λ moves. moves.items ≡ m ∷ []) }
{
    Ok(vec![in alloc; m]?)
}

/// Whether each server is among these, by its number.
fn known_of(alloc: Global, servers: &[ServerId]) -> Result<Vec<bool>, Memory>
    ensures numbers { IfOk result (λ known. vec_len known ≡ NUMBERS) }
    ensures known { IfOk result (λ known. (s : ServerId) → s.0 < NUMBERS
        → slice_index_or known.items s.0 false ≡ tables.is_among servers.now s) }
{
    let mut known = none_known(alloc, NUMBERS)?;
    for s in servers {
        known[s.0 as usize] = true;
    }
    Ok(known)
}

fn none_known(alloc: Global, count: usize) -> Result<Vec<bool>, Memory>
    ensures count { IfOk result (λ known. vec_len known ≡ count) }
    ensures none { IfOk result (λ known. (i : ℕ) → slice_index_or known.items i false ≡ false) }
{
    Ok(vec![in alloc; false; count]?)
}
