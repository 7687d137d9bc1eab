//! By which changes buckets moved.
ghost use Rattle.std.specs.Prelude.{◌≡◌, ◌<◌, ◌≤◌, IfSome};
ghost use Rattle.bm_base.specs.Labels.{hop_number};
ghost use Rattle.bm_state.specs.Moves.{AreMoves};
ghost use Rattle.bm_table.specs.Tables as tables;
ghost use Rattle.bm_trace.specs.Ranges.{HasRanges};
ghost use Rattle.bm_connections.specs.Leaves as leaves;
ghost use Rattle.bm_connections.specs.Needed as spec;
ghost use Rattle.bm_connections.specs.Thrice as thrice;

use bm_base::{Flow, Hop, Label, ServerId, Version};
use bm_core::Stage;
use bm_hash::bucket_of;
use bm_state::Moves;
use bm_table::Plan;

/// How often the first changes move the bucket.
#[tactic(auto, using(crate::proofs::Moving::moves_within))]
fn moved(moves: &Moves, plan: &Plan, bucket: u32, version: u32) -> usize
    requires { AreMoves plan.now moves.now }
    ensures moves { result ≡ tables.moves plan.now bucket 0 version }
    ensures few { result ≤ version }
{
    moves.count(plan, bucket, Version(0), Version(version))
}

/// The number of changes before the one by which the bucket moved for the nth time, if it is among
/// those up to the version. Takes time in proportion to the square of the logarithm of the changes.
pub(crate) fn nth_move(
    moves: &Moves,
    plan: &Plan,
    bucket: u32,
    nth: usize,
    version: u32,
) -> Option<u32>
    requires { AreMoves plan.now moves.now }
    ensures change { result ≡ spec.nth_move plan.now bucket nth version }
    ensures below { IfSome result (λ v. v < version) }
{
    if nth == 0 {
        return None;
    }
    if moved(moves, plan, bucket, version) < nth {
        return None;
    }
    // The bucket moved less often by the first `low` changes, and this often by the first `high`.
    let mut low = 0;
    let mut high = version;
    while high - low > 1 {
        let middle = low + (high - low) / 2;
        if moved(moves, plan, bucket, middle) < nth {
            low = middle;
        } else {
            high = middle;
        }
    }
    Some(low)
}

fn number_of(hop: Hop) -> usize
    ensures { result ≡ hop_number hop }
{
    match hop {
        Hop::Direct => 0,
        Hop::Chained => 1,
        Hop::Twice => 2,
    }
}

/// The number of changes before the one by which the flow's bucket left the server to which a copy
/// of this hop may be passed on by its label.
pub(crate) fn moved_by(
    moves: &Moves,
    stage: &Stage,
    flow: &Flow,
    label: &Label,
    hop: Hop,
) -> Option<u32>
    requires ranges { HasRanges stage.now }
    requires moves { AreMoves stage.now.script.plan moves.now }
    ensures change { result ≡ spec.moved_by stage.now flow.now label.now hop }
    ensures below { IfSome result (λ v. v < label.now.version.0) }
{
    let bucket = bucket_of(flow, stage.script.setting.buckets);
    let plan = &stage.script.plan;
    let version = label.version.0;
    let count = moved(moves, plan, bucket, version);
    let nth = count.saturating_sub(number_of(hop));
    nth_move(moves, plan, bucket, nth, version)
}

/// The number of changes before the last one, among those up to the version, that moves the bucket.
fn last_move(moves: &Moves, plan: &Plan, bucket: u32, version: u32) -> Option<u32>
    requires { AreMoves plan.now moves.now }
    ensures change { result
        ≡ spec.nth_move plan.now bucket (tables.moves plan.now bucket 0 version) version }
    ensures below { IfSome result (λ v. v < version) }
{
    let count = moved(moves, plan, bucket, version);
    nth_move(moves, plan, bucket, count, version)
}

/// Whether the version gives the bucket to the server.
fn is_at(moves: &Moves, plan: &Plan, bucket: u32, server: ServerId, version: u32) -> bool
    requires moves { AreMoves plan.now moves.now }
    requires bucket { bucket < plan.now.buckets }
    ensures { result ≡ leaves.is_at plan.now bucket server version }
{
    moves.entry(plan, bucket, Version(version)).cur.0 == server.0
}

/// The number of changes before the last one, among those up to the version, by which the bucket
/// left the server. Takes time in proportion to the number of its moves since then.
fn last_leave(
    moves: &Moves,
    plan: &Plan,
    bucket: u32,
    server: ServerId,
    version: u32,
) -> Option<u32>
    requires moves { AreMoves plan.now moves.now }
    requires bucket { bucket < plan.now.buckets }
    ensures change { result ≡ leaves.last_leave plan.now bucket server version }
    ensures below { IfSome result (λ v. v < version) }
{
    let mut end = version;
    while let Some(before) = last_move(moves, plan, bucket, end) {
        if is_at(moves, plan, bucket, server, before) {
            return Some(before);
        }
        end = before;
    }
    None
}

/// The same, if the version gives the bucket to another server.
pub(crate) fn away_since(
    moves: &Moves,
    plan: &Plan,
    bucket: u32,
    server: ServerId,
    version: u32,
) -> Option<u32>
    requires moves { AreMoves plan.now moves.now }
    requires bucket { bucket < plan.now.buckets }
    ensures change { result ≡ leaves.away_since plan.now bucket server version }
    ensures below { IfSome result (λ v. v < version) }
{
    if is_at(moves, plan, bucket, server, version) {
        return None;
    }
    last_leave(moves, plan, bucket, server, version)
}

/// The number of changes before the third that moved the flow's bucket, counted from the last by
/// which it left the server, if the version doesn't give it to the server and has all three.
pub(crate) fn third_move(
    moves: &Moves,
    stage: &Stage,
    flow: &Flow,
    server: ServerId,
    version: u32,
) -> Option<u32>
    requires ranges { HasRanges stage.now }
    requires moves { AreMoves stage.now.script.plan moves.now }
    ensures change { result ≡ thrice.third_move stage.now flow.now server version }
    ensures below { IfSome result (λ v. v < version) }
{
    let bucket = bucket_of(flow, stage.script.setting.buckets);
    let plan = &stage.script.plan;
    let first = away_since(moves, plan, bucket, server, version)?;
    let count = moved(moves, plan, bucket, first);
    nth_move(moves, plan, bucket, count + 3, version)
}

/// The number of the change that moves the bucket this many moves before the change of this number,
/// or 0.
pub(crate) fn moved_before(moves: &Moves, plan: &Plan, bucket: u32, change: u32, back: usize) -> u32
    requires { AreMoves plan.now moves.now }
    ensures { result ≡ thrice.moved_before plan.now bucket change back }
{
    let nth = moved(moves, plan, bucket, change).saturating_sub(back);
    match nth_move(moves, plan, bucket, nth, change) {
        Some(before) => before + 1,
        None => 0,
    }
}
