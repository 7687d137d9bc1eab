//! The plan: where the buckets open, and the changes in their order.
ghost use Rattle.std.specs.Prelude.{◌≡◌, ◌≤◌, ◌<◌, ◌+◌, ◌-◌, [], length, map, IfOk};
ghost use Rattle.std.specs.Prelude.{IfErr, OnOk, OnErr, MatchResult, Some, None};
ghost use Rattle.bm_table.specs.Inside.Leaves.{has_drain, least_since, lesser_of, step_left};
ghost use Rattle.bm_table.specs.Limits.{limit_word};
ghost use Rattle.bm_table.specs.Plans.{bad_bucket};
ghost use Rattle.bm_table.specs.Settings.{IsWithin, RiseFrom};
ghost use Rattle.bm_table.specs.declared.plan.PlanFault.TheVariants.{Memory as memory};

use crate::Table;
use bm_base::{List, Memory, Moment, ServerId, Version};
use std::alloc::{AllocError, Global};
use std::collections::BTreeMap;
use std::fmt;
use std::marker::Model;
use thiserror::Error;

const MAX_CHANGES: usize = 4_096;

/// The most moves of a plan, over all changes.
const MAX_MOVES: usize = 1_000_000;

/// What a change is for.
#[derive(Clone, Copy, PartialEq, Eq)]
pub enum Kind {
    Add(ServerId),
    Drain(ServerId),
    Shift,
}

/// A bucket goes to a server.
#[derive(Clone, Copy, PartialEq, Eq)]
pub struct Move {
    pub bucket: u32,
    pub to: ServerId,
}

/// One change of the table.
#[derive(Drop)]
pub struct Change {
    pub moment: Moment,
    pub kind: Kind,
    pub moves: List<Move>,
}

/// Which limit a plan would exceed.
#[derive(Clone, Copy, Debug, PartialEq, Eq)]
pub enum Limit {
    Changes,
    Moves,
}

impl fmt::Display for Limit {
    ghost output = { λ limit. Some (limit_word limit) };

    fn fmt<W: fmt::Write>(&self, f: &mut fmt::Formatter<W>) -> fmt::Result {
        match self {
            Limit::Changes => write!(f, "changes"),
            Limit::Moves => write!(f, "moves"),
        }
    }
}

/// The answer to a request to retire a server.
#[derive(Clone, Copy, PartialEq, Eq)]
pub enum Retirement {
    Done,
    NotDrained,
    TooEarly(u32),
}

/// Why a plan refuses a change.
#[derive(Clone, Copy, Debug, Drop, Error, PartialEq, Eq)]
pub enum PlanFault {
    /// The moment is below that of the last change.
    #[error("the moment is below that of the last change")]
    StampFell,
    /// A move's bucket isn't below the number of buckets, or isn't above that of the move before.
    #[error("bucket {0} is out of range or out of order")]
    BadBucket(u32),
    /// A move's target is the server where its bucket is.
    #[error("bucket {0} is at that server")]
    SameServer(u32),
    /// A limit would be exceeded.
    #[error("too many {0}")]
    TooMany(Limit),
    /// Memory was refused.
    #[error("out of memory")]
    Memory,
}

impl From<AllocError> for PlanFault {
    ghost from_gives = { λ _ fault. fault ≡ memory };

    fn from(_e: AllocError) -> PlanFault {
        PlanFault::Memory
    }
}

impl From<Memory> for PlanFault {
    ghost from_gives = { λ _ fault. fault ≡ memory };

    fn from(_e: Memory) -> PlanFault {
        PlanFault::Memory
    }
}

/// A change, and the first bucket that leaves each server by it, by the server's number.
#[derive(Drop)]
struct Step {
    change: Change,
    left: BTreeMap<u16, u32>,
}

/// The number of buckets, the servers that they open on, and the changes in their order.
#[derive(Drop)]
pub struct Plan {
    buckets: u32,
    servers: Vec<ServerId>,
    steps: Vec<Step>,
    /// The table after all changes.
    latest: Table,
    /// How many moves all changes have together.
    moves: usize,
}

impl Model for Plan {
    ghost use Rattle.bm_table.specs.Planned.{Planned};

    ghost Value = { Planned };

    ghost use Rattle.bm_table.specs.Views.{planned, IsKept};

    ghost view = { planned };

    ghost invariant = { IsKept };
}

impl Plan {
    ghost use Rattle.bm_table.specs.Plans.{IsPlan, IsRefusal, first_fault, late_fault};
    ghost use Rattle.bm_table.specs.Plans.{limit_faults, limit_refusal, refusal, with_change};
    ghost use Rattle.bm_table.specs.Plans.{last_moment, owners_now, server_now};
    ghost use Rattle.bm_table.specs.Tables.{IsRetirement, next_change, opening};
    ghost use Rattle.std.specs.Option.{option_copied};

    /// A plan without changes. Bucket b opens on server number `b mod n` of the list, from 0.
    /// `Memory` where memory was refused.
    pub fn new(alloc: Global, buckets: u32, servers: &[ServerId]) -> Result<Plan, Memory>
        requires buckets { IsWithin 1 65536 buckets }
        requires servers { 0 < length servers.now }
        requires rising { RiseFrom 0 servers.now }
        ensures { IfOk result (λ plan. plan
            ≡ record { buckets = buckets; servers = servers.now; changes = [] }) }
    {
        Ok(Plan {
            buckets,
            servers: Vec::from_slice(alloc, servers)?,
            steps: Vec::new(alloc),
            latest: Table::over(alloc, buckets, servers)?,
            moves: 0,
        })
    }

    /// The number of changes.
    pub fn versions(&self) -> u32
        ensures count { result ≡ length self.now.changes }
        ensures kept { IsPlan self.now }
    {
        self.steps.len() as u32
    }

    /// The number of buckets.
    pub fn buckets(&self) -> u32
        ensures { result ≡ self.now.buckets }
    {
        self.buckets
    }

    /// The servers that buckets open on.
    pub(crate) fn servers(&self) -> &[ServerId]
        ensures servers { result.now ≡ self.now.servers }
        ensures some { 0 < length result.now }
    {
        self.servers.as_slice()
    }

    /// The server that the bucket opens on.
    pub fn opening(&self, bucket: u32) -> ServerId
        requires { bucket < self.now.buckets }
        ensures { result ≡ (opening self.now bucket).cur }
    {
        self.servers[bucket as usize % self.servers.len()]
    }

    /// The server of the bucket after all changes. Takes no memory.
    pub fn server(&self, bucket: u32) -> ServerId
        requires { bucket < self.now.buckets }
        ensures { result ≡ server_now self.now bucket }
    {
        self.latest.server(bucket)
    }

    /// The server of each bucket after all changes, in the order of the buckets. `Memory` where
    /// memory was refused.
    pub fn owners(&self) -> Result<Vec<ServerId>, Memory>
        ensures { IfOk result (λ owners. owners.items ≡ owners_now self.now) }
    {
        let owners = (0..self.buckets)
            .map(|bucket| self.server(bucket))
            .collect(*self.steps.allocator())?;
        Ok(owners)
    }

    /// The change that leads from version `v` to the next, if the plan has it. Takes no memory.
    pub fn next_change(&self, v: Version) -> Option<&Change>
        ensures { option_copied result ≡ next_change self.now v.0 }
    {
        Some(&self.steps.get(v.0 as usize)?.change)
    }

    /// The change that leads to version `v`. `Memory` where memory was refused.
    pub fn copy_change(&self, v: Version) -> Result<Change, Memory>
        requires { IsWithin 1 (length self.now.changes) v.0 }
        ensures { IfOk result (λ change. next_change self.now (v.0 - 1) ≡ Some change) }
    {
        let change = &self.steps[v.0 as usize - 1].change;
        let alloc = *self.steps.allocator();
        Ok(Change {
            moment: change.moment,
            kind: change.kind,
            moves: List::of(Vec::from_slice(alloc, change.moves.items())?),
        })
    }

    /// Adds a change. Faults are checked in the order of their declaration, each for the first
    /// bucket that has it, and leave the plan as it was.
    pub fn push(&mut self, change: Change) -> Result<(), PlanFault>
        ensures ok { OnOk result (self.new ≡ with_change self.old change) }
        ensures accepted { OnOk result (refusal self.old change ≡ None) }
        ensures refused { IfErr result (IsRefusal self.old change) }
        ensures err { OnErr result (self.new ≡ self.old) }
    {
        self.admit(&change)?;
        let alloc = *self.steps.allocator();
        let left = self.latest.left(alloc, change.moves.items())?;
        self.steps.reserve(1)?;
        self.latest.apply(&change);
        self.moves += change.moves.items().len();
        self.steps.push_reserved(Step { change, left });
        Ok(())
    }

    /// Whether a change at this moment with this many moves may come next, whatever the moves are.
    /// The fault is StampFell or TooMany. Takes no memory.
    pub fn check_limits(&self, at: Moment, moves: usize) -> Result<(), PlanFault>
        ensures { MatchResult result (λ _. limit_refusal self.now at moves ≡ None)
            (λ fault. limit_refusal self.now at moves ≡ Some fault) }
    {
        self.check_moment(at)?;
        self.check_counts(moves)
    }

    fn check_moment(&self, at: Moment) -> Result<(), PlanFault>
        ensures { MatchResult result (λ _. late_fault self.now at ≡ None)
            (λ fault. late_fault self.now at ≡ Some fault) }
    {
        if at.0 < self.last_moment().0 {
            return Err(PlanFault::StampFell);
        }
        Ok(())
    }

    fn check_counts(&self, moves: usize) -> Result<(), PlanFault>
        ensures { MatchResult result (λ _. first_fault (limit_faults self.now moves) ≡ None)
            (λ fault. first_fault (limit_faults self.now moves) ≡ Some fault) }
    {
        if self.steps.len() >= MAX_CHANGES {
            return Err(PlanFault::TooMany(Limit::Changes));
        }
        if moves > MAX_MOVES - self.moves {
            return Err(PlanFault::TooMany(Limit::Moves));
        }
        Ok(())
    }

    /// Whether the change may come next.
    fn admit(&self, change: &Change) -> Result<(), PlanFault>
        ensures { MatchResult result (λ _. refusal self.now change.now ≡ None)
            (λ fault. refusal self.now change.now ≡ Some fault) }
    {
        let moves = change.moves.items();
        self.check_moment(change.moment)?;
        if let Some(bucket) = first_bad_bucket(self.buckets, moves) {
            return Err(PlanFault::BadBucket(bucket));
        }
        if let Some(bucket) = self.latest.first_already_there(moves) {
            return Err(PlanFault::SameServer(bucket));
        }
        self.check_counts(moves.len())
    }

    /// The moment of the last change, or 0.
    fn last_moment(&self) -> Moment
        ensures { result.0 ≡ last_moment self.now }
    {
        match self.steps.last() {
            Some(step) => step.change.moment,
            None => Moment(0),
        }
    }

    /// Whether the server may retire at the moment `at`, when `published` changes are published
    /// and a chain ends `timeout` nanoseconds after a move. Takes no memory, and time in proportion
    /// to the changes, however many moves they have.
    pub fn retirement(
        &self,
        published: Version,
        s: ServerId,
        at: Moment,
        timeout: u64,
    ) -> Retirement
        requires { published.0 ≤ length self.now.changes }
        ensures { IsRetirement self.now timeout published.0 s at.0 result }
    {
        let steps = &self.steps[..published.0 as usize];
        if !any_drains(steps, s) {
            return Retirement::NotDrained;
        }
        match least_left(steps, s, Moment(at.0.saturating_sub(timeout))) {
            Some(bucket) => Retirement::TooEarly(bucket),
            None => Retirement::Done,
        }
    }
}

impl Step {
    /// The first bucket that leaves the server by this step; None if the step is before the moment.
    fn left_since(&self, s: ServerId, since: Moment) -> Option<u32>
        ensures { result ≡ step_left self.now s since.0 }
    {
        if self.change.moment < since {
            return None;
        }
        self.left.get(&s.0).copied()
    }
}

/// The first bucket that isn't below the number of buckets, or isn't above the one before it.
fn first_bad_bucket(buckets: u32, moves: &[Move]) -> Option<u32>
    ensures { result ≡ bad_bucket buckets 0 moves.now }
{
    let mut low = 0;
    for m in moves {
        if m.bucket < low || m.bucket >= buckets {
            return Some(m.bucket);
        }
        low = m.bucket + 1;
    }
    None
}

fn any_drains(steps: &[Step], s: ServerId) -> bool
    ensures { result ≡ has_drain steps.now s }
{
    steps.iter().any(|step| step.change.kind == Kind::Drain(s))
}

/// The least bucket that left the server by a step that isn't before the moment `since`.
fn least_left(steps: &[Step], s: ServerId, since: Moment) -> Option<u32>
    ensures { result ≡ least_since steps.now s since.0 }
{
    let mut least = None;
    for step in steps {
        least = lesser(least, step.left_since(s, since));
    }
    least
}

/// The lesser of the numbers that are there.
fn lesser(a: Option<u32>, b: Option<u32>) -> Option<u32>
    ensures { result ≡ lesser_of a b }
{
    match (a, b) {
        (Some(x), Some(y)) => Some(x.min(y)),
        (Some(x), None) => Some(x),
        (None, y) => y,
    }
}
