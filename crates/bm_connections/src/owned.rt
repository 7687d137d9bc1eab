//! How many buckets each server has in the table of a version.
ghost use Rattle.std.specs.Prelude.{◌≡◌, ◌<◌, ◌≤◌, ◌+◌, ◌-◌, ◌^◌, ◌==◌, ◌++◌, ◌∷◌, [], ℕ, IfOk, OnOk, Some};
ghost use Rattle.std.specs.Prelude.{count_by, filter, if◌then◌else◌, length, slice_index_or};
ghost use Rattle.bm_table.specs.Planned.{Planned};
ghost use Rattle.bm_table.specs.Plans.{IsPlan};
ghost use Rattle.bm_table.specs.Tables.{next_change};
ghost use Rattle.bm_connections.specs.Inside.Owned as kept;
ghost use Rattle.bm_connections.specs.Owned as spec;

use bm_base::{Memory, ServerId};
use bm_table::{Change, Move, Plan, rack_of};
use std::alloc::{AllocError, Global};
use std::marker::Model;

/// How many buckets a server has.
#[derive(Clone, Copy, PartialEq, Eq)]
pub struct OwnedCount {
    pub server: ServerId,
    pub buckets: u64,
}

/// The server of each bucket, and how many buckets each server has.
#[derive(Drop)]
pub struct Owners {
    owners: Vec<ServerId>,
    /// By the number of the server.
    counts: Vec<u64>,
}

impl Model for Owners {
    ghost use Rattle.bm_connections.specs.Owning.{Owning};

    ghost Value = { Owning };

    ghost use Rattle.bm_connections.specs.Inside.Owned.{IsOwning, owning};

    ghost view = { owning };

    ghost invariant = { IsOwning };
}

/// Adds one to the count at this place, if there is one.
fn add_one(counts: &mut Vec<u64>, place: usize)
    requires { slice_index_or counts.old.items place 0 < 2 ^ 63 }
    ensures length { length counts.new.items ≡ length counts.old.items }
    ensures counts { (n : ℕ) → n < length counts.old.items → slice_index_or counts.new.items n 0
        ≡ (if place == n then slice_index_or counts.old.items n 0 + 1
        else slice_index_or counts.old.items n 0) }
{
    if place < counts.len() {
        counts[place] += 1;
    }
}

/// Takes one from the count at this place, if there is one.
fn take_one(counts: &mut Vec<u64>, place: usize)
    ensures length { length counts.new.items ≡ length counts.old.items }
    ensures counts { (n : ℕ) → n < length counts.old.items → slice_index_or counts.new.items n 0
        ≡ (if place == n then slice_index_or counts.old.items n 0 - 1
        else slice_index_or counts.old.items n 0) }
{
    if place < counts.len() {
        counts[place] = counts[place].saturating_sub(1);
    }
}

/// How many buckets each server below this number has, by the server of each bucket.
fn counts_of(alloc: Global, owners: &[ServerId], servers: u16) -> Result<Vec<u64>, AllocError>
    ensures length { IfOk result (λ counts. length counts.items ≡ servers) }
    ensures counted { IfOk result (λ counts. kept.AreCounted owners.now counts.items) }
{
    let mut counts = vec![in alloc; 0; servers as usize]?;
    for owner in owners {
        add_one(&mut counts, owner.0 as usize);
    }
    Ok(counts)
}

/// Appends the count of the server with this number, if it has buckets.
fn push_owning(found: &mut Vec<OwnedCount>, number: u16, buckets: u64) -> Result<(), AllocError>
    ensures { OnOk result (found.new.items ≡ found.old.items ++ filter spec.owns_some
        (record { server = record { 0 = number }; buckets = buckets } ∷ [])) }
{
    if buckets > 0 {
        found.push(OwnedCount {
            server: ServerId(number),
            buckets,
        })?;
    }
    Ok(())
}

impl Owners {
    /// The servers of a plan's buckets before its first change. The servers with a number below this
    /// one are counted. `Memory` where memory was refused.
    pub fn opening(alloc: Global, plan: &Plan, servers: u16) -> Result<Owners, Memory>
        ensures { IfOk result (λ o. o
            ≡ record { owners = spec.owners_at plan.now 0; servers = servers }) }
    {
        let owners = opening_owners(alloc, plan)?;
        let counts = counts_of(alloc, owners.as_slice(), servers)?;
        Ok(Owners { owners, counts })
    }

    /// The servers below the number that have buckets, in rising order, and how many. `Memory` where
    /// memory was refused.
    pub fn counts(&self, alloc: Global) -> Result<Vec<OwnedCount>, Memory>
        ensures { IfOk result (λ found. found.items
            ≡ spec.owned_below self.now.servers self.now.owners) }
    {
        let mut found = Vec::new(alloc);
        for number in 0..self.counts.len() as u16 {
            push_owning(&mut found, number, self.counts[number as usize])?;
        }
        Ok(found)
    }

    /// How many of these moves bring their buckets home to their racks. Takes no memory.
    pub fn homeward(&self, racks: u16, moves: &[Move]) -> usize
        requires { 1 ≤ racks }
        ensures { result ≡ spec.homeward racks self.now.owners moves.now }
    {
        let owners = self.owners.as_slice();
        moves
            .iter()
            .filter(
                |m|
                    requires { 1 ≤ racks }
                { comes_home(racks, owners, m) },
            )
            .count()
    }

    /// Carries out the moves of a change. Takes no memory.
    pub fn apply(&mut self, change: &Change)
        ensures servers { self.new.servers ≡ self.old.servers }
        // From the servers of a version, a plan's next change makes those of the next version.
        ensures next { (plan : Planned) (v : ℕ) → IsPlan plan
            → next_change plan v ≡ Some change.now
            → self.old.owners ≡ spec.owners_at plan v → self.new.owners ≡ spec.owners_at plan (v + 1) }
    {
        self.carry_out(change.moves.items());
    }

    fn carry_out(&mut self, moves: &[Move])
        ensures servers { self.new.servers ≡ self.old.servers }
        ensures owners { self.new.owners ≡ kept.all_gone moves.now self.old.owners }
    {
        for m in moves {
            self.carry(m);
        }
    }

    fn carry(&mut self, m: &Move)
        ensures servers { self.new.servers ≡ self.old.servers }
        ensures owners { self.new.owners ≡ kept.gone m.now self.old.owners }
    {
        let bucket = m.bucket as usize;
        if bucket < self.owners.len() {
            let from = self.owners[bucket];
            self.owners[bucket] = m.to;
            take_one(&mut self.counts, from.0 as usize);
            add_one(&mut self.counts, m.to.0 as usize);
        }
    }
}

/// The server on which each bucket opens.
fn opening_owners(alloc: Global, plan: &Plan) -> Result<Vec<ServerId>, AllocError>
    ensures { IfOk result (λ owners. owners.items ≡ spec.owners_at plan.now 0) }
{
    let mut owners = Vec::with_capacity(alloc, plan.buckets() as usize)?;
    for bucket in 0..plan.buckets() {
        owners.push(plan.opening(bucket))?;
    }
    Ok(owners)
}

/// Whether the move's bucket is at a server of another rack than the bucket's own.
fn comes_home(racks: u16, owners: &[ServerId], m: &Move) -> bool
    requires { 1 ≤ racks }
    ensures { result ≡ spec.comes_home racks owners.now m.now }
{
    match owners.get(m.bucket as usize) {
        Some(owner) => u32::from(rack_of(racks, *owner)) != m.bucket % u32::from(racks),
        None => false,
    }
}
