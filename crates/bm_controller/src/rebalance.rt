//! The moves that bring the servers of each rack to their quotas of the rack's buckets.
ghost use Rattle.std.specs.Prelude.{◌≡◌, ◌<◌, ◌≤◌, ◌+◌, ◌*◌, ◌/◌, ◌%◌, ℕ, All, IfOk, OnOk, None, length};
ghost use Rattle.std.specs.Prelude.{slice_index, slice_index_or, vec_len};
ghost use Rattle.bm_base.specs.declared.ids.ServerId.{ServerId};
ghost use Rattle.bm_controller.specs.Controlled as controlled;
ghost use Rattle.bm_controller.specs.Inside.Kinds.{HasWeight};
ghost use Rattle.bm_controller.specs.Inside.Targets.{with_targets, target_in};
ghost use Rattle.bm_controller.specs.Racks.{rack_part, EachRackHasMember};
ghost use Rattle.bm_quota.specs.Parts as parts;
ghost use Rattle.bm_table.specs.Settings.{RiseFrom};
ghost use Rattle.bm_table.specs.Tables.{target};

use crate::members::{self, Member};
use bm_base::{Memory, ServerId};
use bm_quota::{moves_in, quotas};
use bm_table::Move;
use std::alloc::Global;

/// The moves of all racks, in rising bucket. `owners` has the server of each bucket. One table of
/// rooms serves all racks, for a server has a quota in one rack alone.
pub(crate) fn moves_by_racks(
    alloc: Global,
    owners: &[ServerId],
    racks: u16,
    members: &[Member],
) -> Result<Vec<Move>, Memory>
    requires rising { RiseFrom 0 (controlled.servers_of members.now) }
    requires few { 0 < racks }
    requires buckets { length owners.now ≤ 65536 }
    requires each { EachRackHasMember racks members.now }
    requires weights { All HasWeight members.now }
    ensures { IfOk result (λ moves. moves.items
        ≡ parts.rebalancing_by_parts (length owners.now) racks
        (rack_part (λ b. slice_index_or owners.now b (record { 0 = 0 })) (length owners.now) racks
        members.now)) }
{
    let mut rooms = no_rooms(alloc, members::numbers(members))?;
    let mut targets = no_targets(alloc, owners.len())?;
    find_targets(
        alloc,
        rooms.as_mut_slice(),
        targets.as_mut_slice(),
        owners,
        racks,
        members,
    )?;
    listed(alloc, targets.as_slice())
}

/// Finds for each bucket where the moves of its rack bring it.
fn find_targets(
    alloc: Global,
    rooms: &mut [u32],
    targets: &mut [Option<ServerId>],
    owners: &[ServerId],
    racks: u16,
    members: &[Member],
) -> Result<(), Memory>
    requires numbers { All (λ m. m.server.0 < length rooms.old) members.now }
    requires zero { (s : ServerId) → slice_index rooms.old s.0 ≡ 0 }
    requires count { length targets.old ≡ length owners.now }
    requires none { (b : ℕ) → target_in targets.old b ≡ None }
    requires rising { RiseFrom 0 (controlled.servers_of members.now) }
    requires few { 0 < racks }
    requires buckets { length owners.now ≤ 65536 }
    requires each { EachRackHasMember racks members.now }
    requires weights { All HasWeight members.now }
    ensures { OnOk result ((b : ℕ) → target_in targets.new b
        ≡ target (parts.rebalancing_of
        (rack_part (λ x. slice_index_or owners.now x (record { 0 = 0 })) (length owners.now) racks
        members.now (b % racks))) (b / racks)) }
{
    for rack in 0..racks {
        let moves = moves_of_rack(alloc, rooms, owners, racks, rack, members)?;
        set_targets(targets, racks, rack, moves.as_slice());
    }
    Ok(())
}

/// The moves of one rack's buckets, by their numbers in it. `rooms` is zero for each server, and
/// ends so.
fn moves_of_rack(
    alloc: Global,
    rooms: &mut [u32],
    owners: &[ServerId],
    racks: u16,
    rack: u16,
    members: &[Member],
) -> Result<Vec<Move>, Memory>
    requires numbers { All (λ m. m.server.0 < length rooms.old) members.now }
    requires zero { (s : ServerId) → slice_index rooms.old s.0 ≡ 0 }
    requires rack { rack < racks }
    requires rising { RiseFrom 0 (controlled.servers_of members.now) }
    requires buckets { length owners.now ≤ 65536 }
    requires some { 0 < length (controlled.in_rack rack members.now) }
    requires weights { All HasWeight members.now }
    ensures numbers { length rooms.new ≡ length rooms.old }
    ensures moves { IfOk result (λ moves. moves.items ≡ parts.rebalancing_of
        (rack_part (λ b. slice_index_or owners.now b (record { 0 = 0 })) (length owners.now) racks
        members.now rack)) }
    ensures zero { OnOk result ((s : ServerId) → slice_index rooms.new s.0 ≡ 0) }
{
    let mates = members::in_rack(alloc, members, rack)?;
    let servers = members::servers(alloc, mates.as_slice())?;
    let weights = members::weights(alloc, mates.as_slice())?;
    let made = owners_of_rack(alloc, owners, racks, rack)?;
    let owned = made.as_slice();
    let buckets = owned.len() as u32;
    let quotas = quotas(alloc, buckets, servers.as_slice(), weights.as_slice())?;
    let moves = moves_in(alloc, rooms, owned, servers.as_slice(), quotas.as_slice())?;
    Ok(moves)
}

/// The servers of the rack's buckets.
fn owners_of_rack(
    alloc: Global,
    owners: &[ServerId],
    racks: u16,
    rack: u16,
) -> Result<Vec<ServerId>, Memory>
    requires rack { rack < racks }
    requires buckets { length owners.now ≤ 65536 }
    ensures { IfOk result (λ owned. owned.items
        ≡ parts.owners_of_part (λ b. slice_index_or owners.now b (record { 0 = 0 })) racks rack
        (parts.part_size (length owners.now) racks rack)) }
{
    let racks = racks as usize;
    let rack = rack as usize;
    let count = (owners.len() + (racks - 1) - rack) / racks;
    let mut owned = Vec::with_capacity(alloc, count)?;
    for j in 0..count {
        owned.push(owners[j * racks + rack])?;
    }
    Ok(owned)
}

/// Sets the targets of the buckets that the moves of a rack bring somewhere.
fn set_targets(targets: &mut [Option<ServerId>], racks: u16, rack: u16, moves: &[Move])
    requires places { All (λ m. m.bucket * racks + rack < length targets.old) moves.now }
    ensures count { length targets.new ≡ length targets.old }
    ensures moved { (b : ℕ)
        → target_in targets.new b ≡ with_targets racks rack moves.now (target_in targets.old) b }
{
    for m in moves {
        targets[m.bucket as usize * racks as usize + rack as usize] = Some(m.to);
    }
}

/// A move for each bucket that is brought somewhere.
fn listed(alloc: Global, targets: &[Option<ServerId>]) -> Result<Vec<Move>, Memory>
    requires { length targets.now ≤ 65536 }
    ensures { IfOk result (λ moves. moves.items
        ≡ parts.listed (target_in targets.now) 0 (length targets.now)) }
{
    let mut moves = Vec::new(alloc);
    for (bucket, target) in targets.iter().enumerate() {
        if let Some(to) = *target {
            moves.push(Move {
                bucket: bucket as u32,
                to,
            })?;
        }
    }
    Ok(moves)
}

fn no_rooms(alloc: Global, count: usize) -> Result<Vec<u32>, Memory>
    ensures count { IfOk result (λ rooms. vec_len rooms ≡ count) }
    ensures zero { IfOk result (λ rooms. (i : ℕ) → slice_index rooms.items i ≡ 0) }
{
    Ok(vec![in alloc; 0; count]?)
}

fn no_targets(alloc: Global, count: usize) -> Result<Vec<Option<ServerId>>, Memory>
    ensures count { IfOk result (λ targets. vec_len targets ≡ count) }
    ensures none { IfOk result (λ targets. (b : ℕ) → target_in targets.items b ≡ None) }
{
    Ok(vec![in alloc; None; count]?)
}
