//! The slots of a table, and the probe from a flow's home.
ghost use Rattle.std.specs.Prelude.{if◌then◌else◌, is_some, IfOk, Some, None, replicate};
ghost use Rattle.std.specs.Prelude.{◌≡◌, ◌<◌, ◌≤◌, ◌+◌, ◌^◌, ℕ, length, true};
ghost use Rattle.bm_conn.specs.Connections.{AreOnce, receiver_in};
ghost use Rattle.bm_conn.specs.Layouts.{IsFound};
ghost use Rattle.bm_conn.specs.Slots.{slot_at, is_free};
ghost use Rattle.bm_conn.specs.Inside.Slots.{used};
ghost use Rattle.bm_conn.specs.Slots as slots;
ghost use Rattle.bm_conn.specs.Inside.Slots as inside;

use bm_base::{Flow, Memory};
use bm_hash::{flow_hash, remainder};
use bm_seq::Receiver;
use std::alloc::Global;

/// A place of a table: free, or with a flow and its receiver.
#[derive(Clone, Copy, PartialEq, Eq)]
pub enum Slot {
    Free,
    Used(Flow, Receiver),
}

/// What a search for a flow found: its receiver, if it is there, and its own slot or the free one
/// where the probe ends.
#[derive(Clone, Copy, PartialEq, Eq)]
pub struct Found {
    pub flow: Flow,
    pub receiver: Option<Receiver>,
    place: usize,
}

/// How many steps it is from one place to another among `count` places, wrapping around at the end.
#[tactic(auto, unfolding(crate::specs::Slots::distance))]
pub(crate) fn distance(count: usize, from: usize, to: usize) -> usize
    requires few { count ≤ 2 ^ 32 }
    requires from { from < count }
    requires to { to < count }
    ensures { result ≡ slots.distance count from to }
{
    if from <= to {
        to - from
    } else {
        to + count - from
    }
}

/// The place where the flow's probe begins, among `count` places.
#[tactic(auto, unfolding(crate::specs::Slots::home))]
pub(crate) fn home(count: usize, flow: &Flow) -> usize
    requires some { 1 ≤ count }
    ensures within { result < count }
    ensures home { result ≡ slots.home count flow.now }
{
    remainder(flow_hash(flow) >> 40, count as u64) as usize
}

/// The next place, wrapping around at the end.
pub(crate) fn after(count: usize, place: usize) -> usize
    requires few { count ≤ 2 ^ 32 }
    requires within { place < count }
    ensures { result ≡ inside.after count place }
{
    if place + 1 == count { 0 } else { place + 1 }
}

/// The place of the flow, or the free slot where its probe ends.
pub(crate) fn seek(places: &[Slot], flow: &Flow) -> usize
    requires few { length places.now ≤ 2 ^ 32 }
    requires free { (place : ℕ) × (place < length places.now)
        × (is_free (slot_at places.now place) ≡ true) }
    ensures { slots.IsPlaceOf places.now flow.now result }
{
    let count = places.len();
    let mut place = home(count, flow);
    for _ in 0..count {
        match places[place] {
            Slot::Free => return place,
            Slot::Used(other, _) => {
                if other == *flow {
                    return place;
                }
            }
        }
        place = after(count, place);
    }
    // Never reached, since a slot is free.
    place
}

/// Moves the flow at the place into the hole, if its probe passes the hole. Returns where the hole
/// is afterwards.
fn shift(places: &mut [Slot], hole: usize, place: usize, flow: &Flow) -> usize
    requires few { length places.old ≤ 2 ^ 32 }
    requires hole { hole < length places.old }
    requires place { place < length places.old }
    ensures { inside.Shifts (length places.old) flow.now places.old places.new hole place result }
{
    let count = places.len();
    let home = home(count, flow);
    if distance(count, home, hole) < distance(count, home, place) {
        let moved = places[place];
        places[place] = Slot::Free;
        places[hole] = moved;
        place
    } else {
        hole
    }
}

/// Closes the hole at the start: shifts back what follows, until a slot is free.
#[inline(never)]
pub(crate) fn close_up(places: &mut [Slot], start: usize)
    requires few { length places.old ≤ 2 ^ 32 }
    requires spare { length (used places.old) + 2 ≤ length places.old }
    requires once { AreOnce (used places.old) }
    requires hole { inside.HasHole places.old (length places.old) start }
    ensures reached { slots.AreReached places.new (length places.old) }
    ensures same { inside.HoldsSame places.old places.new }
{
    let count = places.len();
    let mut hole = start;
    let mut place = start;
    // The loop always returns, since a slot other than the hole is free.
    for _ in 1..count {
        place = after(count, place);
        match places[place] {
            Slot::Free => return,
            Slot::Used(flow, _) => {
                hole = shift(places, hole, place, &flow);
            }
        }
    }
}

/// This many free slots.
pub(crate) fn free_slots(alloc: Global, count: usize) -> Result<Vec<Slot>, Memory>
    ensures { IfOk result (λ places. places.items ≡ replicate count Slot.Free) }
{
    Ok(vec![in alloc; Slot::Free; count]?)
}

fn receiver_of(slot: Slot) -> Option<Receiver>
    ensures { result ≡ inside.receiver_of slot }
{
    match slot {
        Slot::Free => None,
        Slot::Used(_, receiver) => Some(receiver),
    }
}

/// Searches for the flow.
#[inline(always)]
pub(crate) fn look(places: &[Slot], flow: &Flow) -> Found
    requires few { length places.now ≤ 2 ^ 32 }
    requires spare { length (used places.now) < length places.now }
    requires placed { inside.IsPlaced places.now }
    ensures flow { result.flow ≡ flow.now }
    ensures found { IsFound (used places.now) places.now result }
{
    let place = seek(places, flow);
    Found {
        flow: *flow,
        receiver: receiver_of(places[place]),
        place,
    }
}

/// Puts a receiver where the flow was found, or into the free slot that was found for it.
pub(crate) fn fill(places: &mut [Slot], found: Found, receiver: Receiver)
    requires placed { inside.IsPlaced places.old }
    requires found { IsFound (used places.old) places.old found }
    ensures puts { inside.IsPutInto found.flow (Some receiver) places.old places.new }
    ensures count { length (used places.new)
        ≡ length (used places.old) + (if is_some found.receiver then 0 else 1) }
{
    places[found.place] = Slot::Used(found.flow, receiver);
}

/// Adds a flow that isn't there.
fn put(places: &mut [Slot], flow: Flow, receiver: Receiver)
    requires few { length places.old ≤ 2 ^ 32 }
    requires spare { length (used places.old) < length places.old }
    requires placed { inside.IsPlaced places.old }
    requires absent { receiver_in (used places.old) flow ≡ None }
    ensures puts { inside.IsPutInto flow (Some receiver) places.old places.new }
    ensures count { length (used places.new) ≡ length (used places.old) + 1 }
{
    let found = look(places, &flow);
    fill(places, found, receiver);
}

/// Removes the flow that was searched for; true exactly if it was there.
pub(crate) fn take(places: &mut [Slot], found: Found) -> bool
    requires few { length places.old ≤ 2 ^ 32 }
    requires spare { length (used places.old) < length places.old }
    requires placed { inside.IsPlaced places.old }
    requires found { IsFound (used places.old) places.old found }
    ensures there { result ≡ is_some found.receiver }
    ensures puts { inside.IsPutInto found.flow None places.old places.new }
    ensures count { length (used places.new) + (if result then 1 else 0)
        ≡ length (used places.old) }
{
    match places[found.place] {
        Slot::Free => false,
        Slot::Used(_, _) => {
            places[found.place] = Slot::Free;
            close_up(places, found.place);
            true
        }
    }
}

/// Puts the flows of the old slots into the new ones, which are free and more than enough.
#[inline(never)]
pub(crate) fn move_all(old: &[Slot], places: &mut [Slot])
    requires few { length places.old ≤ 2 ^ 32 }
    requires spare { length (used old.now) < length places.old }
    requires once { AreOnce (used old.now) }
    requires free { places.old ≡ replicate (length places.old) Slot.Free }
    ensures { inside.AreMoved old.now places.new (length places.old) }
{
    for place in old {
        match *place {
            Slot::Free => {}
            Slot::Used(flow, receiver) => put(places, flow, receiver),
        }
    }
}

/// Frees all slots.
pub(crate) fn wipe(places: &mut [Slot])
    ensures { places.new ≡ replicate (length places.old) Slot.Free }
{
    places.fill(Slot::Free);
}
