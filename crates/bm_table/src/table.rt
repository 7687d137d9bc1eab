//! The table of one version: an array of entries that each change updates in place.
ghost use Rattle.std.specs.Prelude.{◌≡◌, ◌<◌, ◌+◌, ◌%◌, ℕ, [], ◌∷◌, length, All, IfOk};
ghost use Rattle.std.specs.Prelude.{if◌then◌else◌, ◌==◌, Some, None, slice_get};
ghost use Rattle.std.specs.Option.{option_map, option_or};
ghost use Rattle.bm_table.specs.Entries.{IsTable, after_moves};
ghost use Rattle.bm_table.specs.Inside.Entries.{server_in};
ghost use Rattle.bm_table.specs.Planned.{Planned};
ghost use Rattle.std.specs.BTreeMap.{get};
ghost use Rattle.std.specs.Ordering.{nat_cmp};
ghost use Rattle.bm_table.specs.Inside.Leaves.{first_left};
ghost use Rattle.bm_table.specs.Plans.{IsPlan, bucket_already_there};
ghost use Rattle.bm_table.specs.Tables.{next_change, opening};

use crate::{Change, Move, Plan};
use bm_base::{Entry, Memory, Moment, Past, ServerId};
use std::alloc::Global;
use std::collections::BTreeMap;
use std::marker::Model;

/// Each bucket's server, and the two servers that had it before.
#[derive(Drop)]
pub struct Table {
    entries: Vec<Entry>,
}

impl Model for Table {
    ghost use Rattle.std.specs.Prelude.{List};
    ghost use Rattle.bm_base.specs.declared.label.Entry.{Entry};

    ghost Value = { List Entry };

    ghost view = { λ table. table.entries.items };
}

impl Table {
    /// The table of version 0. `Memory` where memory was refused.
    pub fn opening(alloc: Global, plan: &Plan) -> Result<Table, Memory>
        ensures { IfOk result (IsTable plan.now 0) }
    {
        Table::over(alloc, plan.buckets(), plan.servers())
    }

    /// The table of a plan without changes, bucket b on server number `b mod n` of the list.
    pub(crate) fn over(alloc: Global, buckets: u32, servers: &[ServerId]) -> Result<Table, Memory>
        requires { 0 < length servers.now }
        ensures { IfOk result (IsTable
            (record { buckets = buckets; servers = servers.now; changes = [] }) 0) }
    {
        let mut entries = Vec::with_capacity(alloc, buckets as usize)?;
        for bucket in 0..buckets {
            entries.push(Entry {
                cur: servers[bucket as usize % servers.len()],
                prev: None,
                older: None,
            })?;
        }
        Ok(Table { entries })
    }

    /// Carries out the moves in their order: the previous server becomes the older one, the current
    /// server becomes the previous one with the change's moment, and the move's target becomes the
    /// current one. A move whose bucket isn't in range changes nothing. Takes no memory.
    pub fn apply(&mut self, change: &Change)
        ensures count { length self.new ≡ length self.old }

        // What becomes of each entry, whatever the change.
        ensures entries { (b : ℕ) → slice_get self.new b
            ≡ option_map (after_moves change.now.moment.0 change.now.moves b)
            (slice_get self.old b) }

        // Applied to the table of a version, a plan's next change makes the table of the next
        // version.
        ensures next { (plan : Planned) (v : ℕ) → IsPlan plan
            → next_change plan v ≡ Some change.now
            → IsTable plan v self.old → IsTable plan (v + 1) self.new }
    {
        carry_out(
            self.entries.as_mut_slice(),
            change.moves.items(),
            change.moment,
        );
    }

    /// The entry of a bucket. Takes no memory.
    pub fn entry(&self, bucket: u32) -> Entry
        requires { bucket < length self.now }
        ensures { slice_get self.now bucket ≡ Some result }
    {
        self.entries[bucket as usize]
    }

    /// The server of a bucket.
    pub(crate) fn server(&self, bucket: u32) -> ServerId
        requires { bucket < length self.now }
        ensures { result ≡ server_in self.now bucket }
    {
        self.entry(bucket).cur
    }

    /// The first bucket that is already at the server to which it is moved.
    pub(crate) fn first_already_there(&self, moves: &[Move]) -> Option<u32>
        requires { All (λ m. m.bucket < length self.now) moves.now }
        ensures { result ≡ bucket_already_there (server_in self.now) moves.now }
    {
        for m in moves {
            if self.server(m.bucket) == m.to {
                return Some(m.bucket);
            }
        }
        None
    }

    /// The first bucket that leaves each server by these moves, by the server's number.
    pub(crate) fn left(&self, alloc: Global, moves: &[Move]) -> Result<BTreeMap<u16, u32>, Memory>
        requires { All (λ m. m.bucket < length self.now) moves.now }
        ensures { IfOk result
            (λ left. (s : ℕ) → get nat_cmp left s ≡ first_left (server_in self.now) moves.now s) }
    {
        let mut left = BTreeMap::new(alloc);
        for m in moves {
            insert_left(&mut left, self.server(m.bucket), m.bucket)?;
        }
        Ok(left)
    }
}

/// Inserts a bucket that leaves the server, unless another is there.
fn insert_left(left: &mut BTreeMap<u16, u32>, from: ServerId, bucket: u32) -> Result<(), Memory>
    ensures { IfOk result (λ _. (s : ℕ) → get nat_cmp left.new s
        ≡ option_or (get nat_cmp left.old s) (if from.0 == s then Some bucket else None)) }
{
    if !left.contains_key(&from.0) {
        left.insert(from.0, bucket)?;
    }
    Ok(())
}

/// Carries out the moves of one moment in their order.
fn carry_out(entries: &mut [Entry], moves: &[Move], at: Moment)
    ensures { (b : ℕ) → slice_get entries.new b
        ≡ option_map (after_moves at.0 moves.now b) (slice_get entries.old b) }
{
    for m in moves {
        carry(entries, m, at);
    }
}

/// Carries out one move.
fn carry(entries: &mut [Entry], m: &Move, at: Moment)
    ensures { (b : ℕ) → slice_get entries.new b
        ≡ option_map (after_moves at.0 (m.now ∷ []) b) (slice_get entries.old b) }
{
    let place = m.bucket as usize;
    if place < entries.len() {
        let old = entries[place];
        entries[place] = Entry {
            cur: m.to,
            prev: Some(Past {
                server: old.cur,
                stamp: at,
            }),
            older: old.prev,
        };
    }
}
