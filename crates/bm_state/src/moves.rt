//! The entries of a plan's tables, and how often buckets move.
ghost use Rattle.std.specs.Prelude.{◌≡◌, ℕ, ◌<◌, ◌≤◌, List, length, OnOk, IfOk, Some};
ghost use Rattle.std.specs.Prelude.{if◌then◌else◌, [], false, ◌==◌, suc};
ghost use Rattle.std.specs.BTreeMap as tree;
ghost use Rattle.std.specs.Ordering.{nat_cmp};
ghost use Rattle.std.specs.Option.{option_copied};
ghost use Rattle.bm_table.specs.Planned.{Planned};
ghost use Rattle.bm_table.specs.Tables as tables;
ghost use Rattle.bm_state.specs.Moves.{bucket_moves, listed};
ghost use Rattle.bm_state.specs.Inside.Moves.{IsSplit, add_once, is_last, older_at, past_at};
ghost use Rattle.bm_state.specs.Inside.Moves.{server_at, with_moves};

use bm_base::{Entry, Moment, Past, ServerId, Version};
use bm_table::{Change, Move, Plan};
use std::alloc::{AllocError, Global};
use std::collections::BTreeMap;

/// A change that moves a bucket, by the number of changes before it, and the server to which it
/// brings the bucket.
#[derive(Clone, Copy)]
pub(crate) struct BucketMove {
    pub(crate) change: u32,
    pub(crate) to: ServerId,
}

fn is_last(moves: &[BucketMove], change: u32) -> bool
    ensures { result ≡ is_last moves.now change }
{
    let count = moves.len();
    0 < count && moves[count - 1].change == change
}

fn add_once(moves: &mut Vec<BucketMove>, change: u32, to: ServerId) -> Result<(), AllocError>
    ensures { OnOk result (moves.new.items ≡ add_once change to moves.old.items) }
{
    if !is_last(moves.as_slice(), change) {
        moves.push(BucketMove { change, to })?;
    }
    Ok(())
}

/// How many of the moves are by changes below this one.
fn rank(moves: &[BucketMove], version: u32) -> usize
    ensures few { result ≤ length moves.now }
    ensures rank { (low : List BucketMove) → IsSplit version moves.now low → result ≡ length low }
    ensures planned { (plan : Planned) (b : ℕ)
        → moves.now ≡ bucket_moves plan b (length plan.changes)
        → result ≡ length (bucket_moves plan b version) }
{
    moves.partition_point(|m| m.change < version)
}

fn moment_of(change: Option<&Change>) -> Moment
    ensures { result.0 ≡ tables.change_moment (option_copied change.entry) }
{
    match change {
        None => Moment(0),
        Some(change) => change.moment,
    }
}

/// The bucket's server after this many of its moves.
fn server_at(plan: &Plan, bucket: u32, moves: &[BucketMove], count: usize) -> ServerId
    requires bucket { bucket < plan.now.buckets }
    requires count { count ≤ length moves.now }
    ensures { result ≡ server_at plan.now bucket moves.now count }
{
    if count == 0 {
        return plan.opening(bucket);
    }
    moves[count - 1].to
}

/// The server that the bucket had before the last of this many moves.
fn past_at(plan: &Plan, bucket: u32, moves: &[BucketMove], count: usize) -> Option<Past>
    requires bucket { bucket < plan.now.buckets }
    requires count { count ≤ length moves.now }
    ensures { result ≡ past_at plan.now bucket moves.now count }
{
    if count == 0 {
        return None;
    }
    Some(Past {
        server: server_at(plan, bucket, moves, count - 1),
        stamp: moment_of(plan.next_change(Version(moves[count - 1].change))),
    })
}

/// The server that the bucket had before the last two of this many moves.
fn older_at(plan: &Plan, bucket: u32, moves: &[BucketMove], count: usize) -> Option<Past>
    requires bucket { bucket < plan.now.buckets }
    requires count { count ≤ length moves.now }
    ensures { result ≡ older_at plan.now bucket moves.now count }
{
    if count == 0 {
        return None;
    }
    past_at(plan, bucket, moves, count - 1)
}

/// The moves of each bucket by a plan's changes. It takes 8 octets for each move.
#[derive(Drop)]
pub struct Moves {
    lists: BTreeMap<u32, Vec<BucketMove>>,
}

impl Moves {
    ghost use Rattle.bm_state.specs.Moves.{AreMoves};

    fn empty(alloc: Global) -> Moves
        ensures { (q : ℕ) → listed (tree.get nat_cmp result.lists q) ≡ [] }
    {
        Moves {
            lists: BTreeMap::new(alloc),
        }
    }

    /// Takes the bucket's list out.
    fn take(&mut self, alloc: Global, bucket: u32) -> Vec<BucketMove>
        ensures list { result.items ≡ listed (tree.get nat_cmp self.old.lists bucket) }
        ensures others { (q : ℕ) → (bucket == q) ≡ false
            → tree.get nat_cmp self.new.lists q ≡ tree.get nat_cmp self.old.lists q }
    {
        match self.lists.remove(&bucket) {
            Some(list) => list,
            None => Vec::new(alloc),
        }
    }

    fn put(&mut self, bucket: u32, list: Vec<BucketMove>) -> Result<(), AllocError>
        ensures { OnOk result
            ((q : ℕ) → tree.get nat_cmp self.new.lists q
            ≡ (if bucket == q then Some list else tree.get nat_cmp self.old.lists q)) }
    {
        self.lists.insert(bucket, list)?;
        Ok(())
    }

    fn add(&mut self, alloc: Global, change: u32, m: &Move) -> Result<(), AllocError>
        ensures { OnOk result ((q : ℕ) → listed (tree.get nat_cmp self.new.lists q)
            ≡ (if m.now.bucket == q
            then add_once change m.now.to (listed (tree.get nat_cmp self.old.lists q))
            else listed (tree.get nat_cmp self.old.lists q))) }
    {
        let mut list = self.take(alloc, m.bucket);
        add_once(&mut list, change, m.to)?;
        self.put(m.bucket, list)
    }

    fn add_all(&mut self, alloc: Global, change: u32, moves: &[Move]) -> Result<(), AllocError>
        ensures { OnOk result
            ((q : ℕ) → listed (tree.get nat_cmp self.new.lists q)
            ≡ with_moves change moves.now q (listed (tree.get nat_cmp self.old.lists q))) }
    {
        let mut rest = moves;
        while let Some((first, others)) = rest.split_first() {
            self.add(alloc, change, first)?;
            rest = others;
        }
        Ok(())
    }

    /// Records the change that leads from this version to the next.
    #[tactic(auto, using(crate::proofs::Moving::moves_same))]
    fn observe(&mut self, alloc: Global, plan: &Plan, change: u32) -> Result<(), AllocError>
        requires { (q : ℕ)
            → listed (tree.get nat_cmp self.old.lists q) ≡ bucket_moves plan.now q change }
        ensures { OnOk result
            ((q : ℕ) → listed (tree.get nat_cmp self.new.lists q)
            ≡ bucket_moves plan.now q (suc change)) }
    {
        if let Some(next) = plan.next_change(Version(change)) {
            self.add_all(alloc, change, next.moves.items())?;
        }
        Ok(())
    }

    /// The moves of the plan.
    pub fn new(alloc: Global, plan: &Plan) -> Result<Moves, AllocError>
        ensures { IfOk result (AreMoves plan.now) }
    {
        let mut moves = Moves::empty(alloc);
        for change in 0..plan.versions() {
            moves.observe(alloc, plan, change)?;
        }
        Ok(moves)
    }

    fn get(&self, bucket: u32) -> &[BucketMove]
        ensures { result.now ≡ listed (tree.get nat_cmp self.now.lists bucket) }
    {
        match self.lists.get(&bucket) {
            Some(list) => list.as_slice(),
            None => &[],
        }
    }

    fn passed(&self, plan: &Plan, bucket: u32, version: u32) -> usize
        requires { AreMoves plan.now self.now }
        ensures { result ≡ length (bucket_moves plan.now bucket version) }
    {
        rank(self.get(bucket), version)
    }

    /// How many of the changes from `since + 1` to `version` move the bucket. Takes time in
    /// proportion to the logarithm of the number of moves.
    pub fn count(&self, plan: &Plan, bucket: u32, since: Version, version: Version) -> usize
        requires moves { AreMoves plan.now self.now }
        requires order { since.0 ≤ version.0 }
        ensures { result ≡ tables.moves plan.now bucket since.0 version.0 }
    {
        self.passed(plan, bucket, version.0) - self.passed(plan, bucket, since.0)
    }

    /// The bucket's entry in the table of the version. Takes time in proportion to the logarithm
    /// of the number of moves.
    pub fn entry(&self, plan: &Plan, bucket: u32, version: Version) -> Entry
        requires moves { AreMoves plan.now self.now }
        requires bucket { bucket < plan.now.buckets }
        ensures { result ≡ tables.table plan.now version.0 bucket }
    {
        let moves = self.get(bucket);
        let count = rank(moves, version.0);
        Entry {
            cur: server_at(plan, bucket, moves, count),
            prev: past_at(plan, bucket, moves, count),
            older: older_at(plan, bucket, moves, count),
        }
    }
}
