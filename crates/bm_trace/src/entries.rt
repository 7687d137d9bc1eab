//! Entries of a table, by looking through the changes of a plan.
ghost use Rattle.std.specs.Prelude.{◌≡◌, ◌<◌, Some, None, find, ◌==◌};
ghost use Rattle.std.specs.Option.{option_copied};
ghost use Rattle.bm_table.specs.Tables as tables;

use bm_base::{Entry, Moment, Past, ServerId, Version};
use bm_table::{Change, Move, Plan};

fn move_of(moves: &[Move], bucket: u32) -> Option<&Move>
    ensures { option_copied result ≡ find (λ m. m.bucket == bucket) moves.now }
{
    moves.iter().find(|m| m.bucket == bucket)
}

/// The server to which these moves bring the bucket.
#[tactic(auto, using(crate::proofs::Moving::target_find))]
fn target(moves: &[Move], bucket: u32) -> Option<ServerId>
    ensures { result ≡ tables.target moves.now bucket }
{
    Some(move_of(moves, bucket)?.to)
}

/// The server to which the change brings the bucket.
fn brings(change: Option<&Change>, bucket: u32) -> Option<ServerId>
    ensures { result ≡ tables.brings (option_copied change.entry) bucket }
{
    target(change?.moves.items(), bucket)
}

pub(crate) fn moment_of(change: Option<&Change>) -> Moment
    ensures { result.0 ≡ tables.change_moment (option_copied change.entry) }
{
    match change {
        None => Moment(0),
        Some(change) => change.moment,
    }
}

fn moved(old: Entry, change: Option<&Change>, bucket: u32) -> Entry
    ensures { result ≡ tables.moved old (tables.change_moment (option_copied change.entry))
        (tables.brings (option_copied change.entry) bucket) }
{
    match brings(change, bucket) {
        None => old,
        Some(to) => Entry {
            cur: to,
            prev: Some(Past {
                server: old.cur,
                stamp: moment_of(change),
            }),
            older: old.prev,
        },
    }
}

pub(crate) fn entry_at(plan: &Plan, version: Version, bucket: u32) -> Entry
    requires { bucket < plan.now.buckets }
    ensures { result ≡ tables.table plan.now version.0 bucket }
{
    let mut entry = Entry {
        cur: plan.opening(bucket),
        prev: None,
        older: None,
    };
    for v in 0..version.0 {
        entry = moved(entry, plan.next_change(Version(v)), bucket);
    }
    entry
}

/// How many of the changes from `since + 1` to `version` move the bucket.
pub(crate) fn moves(plan: &Plan, bucket: u32, since: u32, version: u32) -> u32
    ensures { result ≡ tables.moves plan.now bucket since version }
{
    let mut count = 0;
    for v in 0..version {
        if since <= v && brings(plan.next_change(Version(v)), bucket).is_some() {
            count += 1;
        }
    }
    count
}
