//! When servers may retire, after some versions of a plan.
ghost use Rattle.std.specs.Prelude.{◌≡◌, ℕ, ◌<◌, ◌≤◌, ◌==◌, ◌||◌, All, IfOk, List, OnOk, Some, false};
ghost use Rattle.std.specs.Prelude.{if◌then◌else◌, length, suc, take};
ghost use Rattle.std.specs.BTreeMap as tree;
ghost use Rattle.std.specs.BTreeSet as set;
ghost use Rattle.std.specs.Ordering.{nat_cmp};
ghost use Rattle.bm_state.specs.Moves.{AreMoves};
ghost use Rattle.bm_table.specs.Planned.{Planned};
ghost use Rattle.bm_table.specs.Plans.{IsPlan};
ghost use Rattle.bm_table.specs.Tables as tables;
ghost use Rattle.bm_table.specs.Tables.{IsRetirement};
ghost use Rattle.bm_running.specs.Inside.Leaves.{AreLeft, Rises, below, first_since, listed};
ghost use Rattle.bm_running.specs.Inside.Leaves.{with_leave};

use bm_base::{Memory, Moment, ServerId, Version};
use bm_state::Moves;
use bm_table::{Kind, Move, Plan, Retirement};
use std::alloc::Global;
use std::collections::{BTreeMap, BTreeSet};

/// A bucket that left a server, and when.
#[derive(Clone, Copy)]
pub(crate) struct Leave {
    pub(crate) moment: u64,
    pub(crate) bucket: u32,
}

/// The first of these buckets that left at this moment or later.
fn first_since(leaves: &[Leave], since: u64) -> Option<u32>
    ensures { Rises 0 0 leaves.now → result ≡ first_since leaves.now since }
{
    let place = leaves.partition_point(|l| l.moment < since);
    if place < leaves.len() {
        Some(leaves[place].bucket)
    } else {
        None
    }
}

/// How many of these buckets are below another.
fn count_below(leaves: &[Leave], bucket: u32) -> usize
    ensures few { result ≤ length leaves.now }
    ensures below { Rises 0 0 leaves.now → take result leaves.now ≡ below bucket leaves.now }
{
    leaves.partition_point(|l| l.bucket < bucket)
}

/// Adds a bucket that leaves now, in place of those that aren't below it.
fn put_leave(leaves: &mut Vec<Leave>, leave: Leave) -> Result<(), Memory>
    ensures { Rises 0 0 leaves.old.items
        → OnOk result (leaves.new.items ≡ with_leave leave leaves.old.items) }
{
    let count = count_below(leaves.as_slice(), leave.bucket);
    leaves.truncate(count);
    leaves.push(leave)?;
    Ok(())
}

/// Which servers are drained, and for each server the buckets that left it, in the order in which
/// they left, except where a bucket with a lower number left later. The first of these since a
/// moment is the least of all that left since then.
#[derive(Drop)]
pub(crate) struct Leaves {
    drained: BTreeSet<u16>,
    left: BTreeMap<u16, Vec<Leave>>,
}

impl Leaves {
    ghost use Rattle.bm_running.specs.Inside.Leaves.{KeepsLeaves, is_kept};

    /// By the first table.
    pub(crate) fn new(alloc: Global) -> Leaves
        ensures { (plan : Planned) → KeepsLeaves plan 0 result }
    {
        Leaves {
            drained: BTreeSet::new(alloc),
            left: BTreeMap::new(alloc),
        }
    }

    /// Takes the server's list out.
    fn take(&mut self, alloc: Global, server: ServerId) -> Vec<Leave>
        ensures list { result.items ≡ listed (tree.get nat_cmp self.old.left server.0) }
        ensures others { (q : ℕ) → (server.0 == q) ≡ false
            → tree.get nat_cmp self.new.left q ≡ tree.get nat_cmp self.old.left q }
        ensures drained { self.new.drained ≡ self.old.drained }
    {
        match self.left.remove(&server.0) {
            Some(list) => list,
            None => Vec::new(alloc),
        }
    }

    fn put(&mut self, server: ServerId, list: Vec<Leave>) -> Result<(), Memory>
        ensures left { OnOk result
            ((q : ℕ) → tree.get nat_cmp self.new.left q
            ≡ (if server.0 == q then Some list else tree.get nat_cmp self.old.left q)) }
        ensures drained { self.new.drained ≡ self.old.drained }
    {
        self.left.insert(server.0, list)?;
        Ok(())
    }

    /// A bucket leaves the server.
    fn leave(&mut self, alloc: Global, server: ServerId, leave: Leave) -> Result<(), Memory>
        ensures left { Rises 0 0 (listed (tree.get nat_cmp self.old.left server.0))
            → OnOk result ((q : ℕ) → listed (tree.get nat_cmp self.new.left q)
            ≡ (if server.0 == q then with_leave leave (listed (tree.get nat_cmp self.old.left q))
            else listed (tree.get nat_cmp self.old.left q))) }
        ensures drained { self.new.drained ≡ self.old.drained }
    {
        let mut list = self.take(alloc, server);
        put_leave(&mut list, leave)?;
        self.put(server, list)
    }

    /// The buckets of the change that comes after this many leave their servers.
    fn leave_all(
        &mut self,
        alloc: Global,
        plan: &Plan,
        moves: &Moves,
        changes: u32,
        moment: Moment,
        list: &[Move],
    ) -> Result<(), Memory>
        requires plan { IsPlan plan.now }
        requires within { changes < length plan.now.changes }
        requires moment { moment.0
            ≡ tables.change_moment (tables.next_change plan.now changes) }
        requires range { All (λ m. m.bucket < plan.now.buckets) list.now }
        requires moves { AreMoves plan.now moves.now }
        ensures left { ((s : ℕ) → AreLeft plan.now changes (take 0 list.now) s
            (listed (tree.get nat_cmp self.old.left s)))
            → OnOk result ((s : ℕ) → AreLeft plan.now changes list.now s
            (listed (tree.get nat_cmp self.new.left s))) }
        ensures drained { self.new.drained ≡ self.old.drained }
    {
        for place in 0..list.len() {
            let bucket = list[place].bucket;
            let server = moves.entry(plan, bucket, Version(changes)).cur;
            let moment = moment.0;
            self.leave(alloc, server, Leave { moment, bucket })?;
        }
        Ok(())
    }

    fn drain(&mut self, kind: Kind) -> Result<(), Memory>
        ensures drained { OnOk result ((s : ServerId) → is_kept self.new s
            ≡ (tables.is_drain kind s || is_kept self.old s)) }
        ensures left { self.new.left ≡ self.old.left }
    {
        if let Kind::Drain(server) = kind {
            self.drained.insert(server.0)?;
        }
        Ok(())
    }

    /// Records the change that comes after this many.
    pub(crate) fn observe(
        &mut self,
        alloc: Global,
        plan: &Plan,
        moves: &Moves,
        changes: u32,
    ) -> Result<(), Memory>
        requires { AreMoves plan.now moves.now }
        ensures { changes < length plan.now.changes → KeepsLeaves plan.now changes self.old
            → OnOk result (KeepsLeaves plan.now (suc changes) self.new) }
    {
        if plan.versions() <= changes {
            return Ok(());
        }
        let Some(change) = plan.next_change(Version(changes)) else {
            return Ok(());
        };
        let list = change.moves.items();
        self.leave_all(alloc, plan, moves, changes, change.moment, list)?;
        self.drain(change.kind)?;
        Ok(())
    }

    /// Whether the server may retire at this moment. Takes time in proportion to the logarithm of
    /// the number of moves.
    pub(crate) fn retirement(&self, server: ServerId, at: Moment, timeout: u64) -> Retirement
        ensures { (plan : Planned) (changes : ℕ) → KeepsLeaves plan changes self.now
            → IsRetirement plan timeout changes server at.0 result }
    {
        if !self.drained.contains(&server.0) {
            return Retirement::NotDrained;
        }
        match self.first_left(server, at.0.saturating_sub(timeout)) {
            Some(bucket) => Retirement::TooEarly(bucket),
            None => Retirement::Done,
        }
    }

    fn first_left(&self, server: ServerId, since: u64) -> Option<u32>
        ensures { Rises 0 0 (listed (tree.get nat_cmp self.now.left server.0))
            → result ≡ first_since (listed (tree.get nat_cmp self.now.left server.0)) since }
    {
        match self.left.get(&server.0) {
            Some(list) => first_since(list.as_slice(), since),
            None => None,
        }
    }
}
