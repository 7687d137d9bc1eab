//! The moves that bring each active server to its quota.
ghost use Rattle.std.specs.Prelude.{◌≡◌, ◌≤◌, ◌<◌, ◌+◌, ◌-◌, ℕ, List, length, map, sum, nat_lt};
ghost use Rattle.std.specs.Prelude.{slice_index, slice_set, vec_len, All, IfOk, OnOk};
ghost use Rattle.std.specs.List.{zip};
ghost use Rattle.bm_base.specs.declared.ids.ServerId.{ServerId};
ghost use Rattle.bm_quota.specs.Rebalancing as rule;
ghost use Rattle.bm_quota.specs.Inside.Rooms.{room_in, cleared, given, left};
ghost use Rattle.bm_table.specs.Settings.{RiseFrom};
ghost use Rattle.bm_table.specs.declared.plan.Move.{Move};

use bm_base::{Memory, ServerId};
use bm_table::Move;
use std::alloc::Global;

/// The fewest moves after which each active server owns its quota and no other server owns a
/// bucket. Each server that owns more than its quota gives away its highest buckets. These buckets,
/// in rising order, go to the servers below their quota, in rising number, each filled before the
/// next. `owner` is the server of each bucket. The moves rise by their bucket. `Memory` where
/// memory was refused.
pub fn moves(
    alloc: Global,
    owner: &[ServerId],
    active: &[ServerId],
    quotas: &[u32],
) -> Result<Vec<Move>, Memory>
    requires rising { RiseFrom 0 active.now }
    requires count { length quotas.now ≡ length active.now }
    requires total { sum quotas.now ≡ length owner.now }
    requires buckets { length owner.now ≤ 65536 }

    ensures chosen { IfOk result (λ moves. moves.items
        ≡ rule.rebalancing owner.now active.now quotas.now) }
    ensures reach { IfOk result (λ moves.
        rule.ReachQuotas owner.now active.now quotas.now moves.items) }

    // There are as many moves as buckets that the servers own above their quotas, together.
    ensures surpluses { IfOk result (λ moves. (n : ℕ) → All (λ s. s.0 < n) owner.now
        → length moves.items ≡ rule.sum_below (rule.surplus owner.now active.now quotas.now) n) }

    // No list of moves that meets the quotas is shorter.
    ensures least { IfOk result (λ moves. (others : List Move)
        → rule.ReachQuotas owner.now active.now quotas.now others
        → length moves.items ≤ length others) }
{
    let mut rooms = zeros(alloc, numbers(active))?;
    moves_in(alloc, rooms.as_mut_slice(), owner, active, quotas)
}

/// One more than the highest number of these servers, or 0 if there are none.
fn numbers(servers: &[ServerId]) -> usize
    ensures { All (λ s. s.0 < result) servers.now }
{
    let mut numbers = 0;
    for s in servers {
        if numbers <= s.0 as usize {
            numbers = s.0 as usize + 1;
        }
    }
    numbers
}

/// The moves of `moves`, found in a table that the caller keeps: it has a place for the number of
/// each active server, is zero at each, and is zero again after `Ok`. So one table serves several
/// rebalancings.
/// `Memory` where memory was refused; the table may then contain anything.
pub fn moves_in(
    alloc: Global,
    rooms: &mut [u32],
    owner: &[ServerId],
    active: &[ServerId],
    quotas: &[u32],
) -> Result<Vec<Move>, Memory>
    requires numbers { All (λ s. s.0 < length rooms.old) active.now }
    requires zero { (s : ServerId) → slice_index rooms.old s.0 ≡ 0 }
    requires rising { RiseFrom 0 active.now }
    requires count { length quotas.now ≡ length active.now }
    requires total { sum quotas.now ≡ length owner.now }
    requires buckets { length owner.now ≤ 65536 }
    ensures numbers { length rooms.new ≡ length rooms.old }
    ensures chosen { IfOk result (λ moves. moves.items
        ≡ rule.rebalancing owner.now active.now quotas.now) }
    ensures zero { OnOk result ((s : ServerId) → slice_index rooms.new s.0 ≡ 0) }
{
    make_room(rooms, active, quotas);
    let buckets = give(alloc, owner, rooms)?;
    let takers = takers(alloc, active, rooms)?;
    let moves = moves_to(alloc, buckets.as_slice(), takers.as_slice())?;
    clear(rooms, active);
    Ok(moves)
}

/// Writes the quota of each active server at its number.
fn make_room(rooms: &mut [u32], active: &[ServerId], quotas: &[u32])
    requires numbers { All (λ s. s.0 < length rooms.old) active.now }
    requires zero { (s : ServerId) → room_in rooms.old s ≡ 0 }
    requires rising { RiseFrom 0 active.now }
    requires count { length quotas.now ≡ length active.now }
    ensures numbers { length rooms.new ≡ length rooms.old }
    ensures rooms { (s : ServerId)
        → room_in rooms.new s ≡ rule.quota_of active.now quotas.now s }
{
    for (i, s) in active.iter().enumerate() {
        rooms[s.0 as usize] = quotas[i];
    }
}

/// Writes zero at the number of each of these servers.
fn clear(rooms: &mut [u32], servers: &[ServerId])
    requires numbers { All (λ s. s.0 < length rooms.old) servers.now }
    ensures numbers { length rooms.new ≡ length rooms.old }
    ensures cleared { (s : ServerId)
        → room_in rooms.new s ≡ cleared servers.now (room_in rooms.old) s }
{
    for s in servers {
        rooms[s.0 as usize] = 0;
    }
}

fn zeros(alloc: Global, count: usize) -> Result<Vec<u32>, Memory>
    ensures count { IfOk result (λ zeros. vec_len zeros ≡ count) }
    ensures zero { IfOk result (λ zeros. (i : ℕ) → slice_index zeros.items i ≡ 0) }
{
    Ok(vec![in alloc; 0; count]?)
}

/// The buckets for which their servers have no room, in rising order. `rooms` ends as the room that
/// is left.
fn give(alloc: Global, owner: &[ServerId], rooms: &mut [u32]) -> Result<Vec<u32>, Memory>
    requires buckets { length owner.now ≤ 65536 }
    ensures numbers { length rooms.new ≡ length rooms.old }
    ensures given { IfOk result (λ buckets. buckets.items ≡ given (room_in rooms.old) 0 owner.now) }
    ensures left { OnOk result ((s : ServerId)
        → room_in rooms.new s ≡ left (room_in rooms.old) owner.now s) }
{
    let mut buckets = Vec::new(alloc);
    for (bucket, s) in owner.iter().enumerate() {
        if !has_kept(rooms, s.0 as usize) {
            buckets.push(bucket as u32)?;
        }
    }
    Ok(buckets)
}

/// Whether there was room at the place; if so, it is one less afterwards. Where the table has no
/// such place, there is none.
#[tactic(auto, using(crate::proofs::StepLemmas::no_place))]
fn has_kept(rooms: &mut [u32], place: usize) -> bool
    ensures numbers { length rooms.new ≡ length rooms.old }
    ensures room { result ≡ nat_lt 0 (slice_index rooms.old place) }
    ensures after { rooms.new ≡ slice_set rooms.old place (slice_index rooms.old place - 1) }
{
    if place >= rooms.len() {
        return false;
    }
    let room = rooms[place];
    rooms[place] = room.saturating_sub(1);
    room > 0
}

/// The active servers in order, each as often as it has room.
fn takers(alloc: Global, active: &[ServerId], rooms: &[u32]) -> Result<Vec<ServerId>, Memory>
    requires numbers { All (λ s. s.0 < length rooms.now) active.now }
    ensures { IfOk result (λ takers. takers.items ≡ rule.takers (room_in rooms.now) active.now) }
{
    let mut takers = Vec::new(alloc);
    for s in active {
        let room = rooms[s.0 as usize] as usize;
        takers.resize(takers.len() + room, *s)?;
    }
    Ok(takers)
}

/// Each bucket goes to the server at its place.
fn moves_to(alloc: Global, buckets: &[u32], takers: &[ServerId]) -> Result<Vec<Move>, Memory>
    ensures { IfOk result (λ moves. moves.items
        ≡ map (λ p. record { bucket = p.0; to = p.1 }) (zip buckets.now takers.now)) }
{
    let moves = buckets
        .iter()
        .zip(takers)
        .map(|(bucket, to)| Move {
            bucket: *bucket,
            to: *to,
        })
        .collect(alloc)?;
    Ok(moves)
}
