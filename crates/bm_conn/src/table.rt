//! A table of connections: a finite map from flows to receivers, in slots by open addressing.
ghost use Rattle.std.specs.Prelude.{◌≡◌, ◌==◌, ◌<◌, ◌≤◌, ◌+◌, [], length, is_some, if◌then◌else◌};
ghost use Rattle.std.specs.Prelude.{IsSome, IfOk, MatchResult, Some, None};
ghost use Rattle.std.specs.Bool.{OnFalse};
ghost use Rattle.bm_conn.specs.Connections.{HasRoom, IsMap, IsSame, Puts, receiver_in};
ghost use Rattle.bm_conn.specs.Layouts.{IsFound, IsLaidOut, Readies};

use crate::slot::{Found, Slot, fill, free_slots, look, move_all, take, wipe};
use bm_base::{Flow, Memory};
use bm_seq::Receiver;
use std::alloc::Global;
use std::marker::Model;

/// How many slots a new table has.
const FIRST_SLOTS: usize = 8;

/// A flow and its receiver.
#[derive(Clone, Copy, PartialEq, Eq)]
pub struct Connection {
    pub flow: Flow,
    pub receiver: Receiver,
}

/// A finite map from flows to receivers, with at most `capacity` flows.
#[derive(Drop)]
pub struct ConnTable {
    slots: Vec<Slot>,
    len: u32,
    capacity: u32,
}

impl Model for ConnTable {
    ghost use Rattle.bm_conn.specs.Connections.{Connections};

    ghost Value = { Connections };

    ghost use Rattle.bm_conn.specs.Views.{connections_of, IsTable};

    ghost view = { connections_of };

    ghost invariant = { λ a. IsTable a.slots.items a.len a.capacity };
}

impl ConnTable {
    /// An empty table for at most `capacity` flows, 1 to 65,536. `Memory` where memory was refused.
    pub fn new(alloc: Global, capacity: u32) -> Result<ConnTable, Memory>
        requires { (1 ≤ capacity) × (capacity ≤ 65536) }
        ensures { IfOk result
            (λ table. (table.capacity ≡ capacity) × (table.connections ≡ [])
            × (length table.slots ≡ 8)) }
    {
        Ok(ConnTable {
            slots: free_slots(alloc, FIRST_SLOTS)?,
            len: 0,
            capacity,
        })
    }

    /// The receiver of the flow; None exactly if the flow isn't there.
    pub fn find(&self, flow: &Flow) -> Option<Receiver>
        ensures { result ≡ receiver_in self.now.connections flow.now }
    {
        self.seek(flow).receiver
    }

    /// Searches for the flow. What it finds holds until the table changes, so one search is enough
    /// for all that is then done with the flow.
    pub fn seek(&self, flow: &Flow) -> Found
        ensures flow { result.flow ≡ flow.now }
        ensures found { IsFound self.now.connections self.now.slots result }
    {
        look(&self.slots, flow)
    }

    /// The slots. Takes no memory.
    pub fn slots(&self) -> &[Slot]
        ensures slots { result.now ≡ self.now.slots }
        ensures laid { IsLaidOut self.now }
    {
        &self.slots
    }

    /// How many flows there are.
    pub fn len(&self) -> u32
        ensures count { result ≡ length self.now.connections }
        ensures map { IsMap self.now }
    {
        self.len
    }

    /// Whether there are as many flows as the capacity.
    pub fn is_full(&self) -> bool
        ensures full { result ≡ (length self.now.connections == self.now.capacity) }
        ensures free { OnFalse result (length self.now.connections < self.now.capacity) }
    {
        self.len() == self.capacity
    }

    /// Makes room for one more flow, unless the table is full: if no more slots may be used, their
    /// number is doubled. Where memory is refused, the table stays as it was.
    pub fn ready(&mut self) -> Result<(), Memory>
        ensures room { MatchResult result
            (λ _. IsSame self.old self.new × HasRoom self.new)
            (λ _. self.new ≡ self.old) }
        ensures slots { IfOk result (λ _. Readies self.old self.new) }
        ensures map { IsMap self.new }
    {
        let count = self.slots.len();
        let most = count * 3 / 4;
        if self.len == self.capacity || (self.len as usize) < most {
            return Ok(());
        }
        let mut slots = free_slots(*self.slots.allocator(), 2 * count)?;
        move_all(&self.slots, &mut slots);
        self.slots = slots;
        Ok(())
    }

    /// Adds a flow that isn't there. Takes no memory.
    pub fn insert(&mut self, flow: Flow, receiver: Receiver)
        requires absent { receiver_in self.old.connections flow ≡ None }
        requires free { length self.old.connections < self.old.capacity }
        requires room { 1 ≤ self.old.room }
        ensures puts { Puts flow (Some receiver) self.old self.new }
        ensures count { length self.new.connections ≡ length self.old.connections + 1 }
        ensures room { self.new.room + 1 ≡ self.old.room }
        ensures slots { length self.new.slots ≡ length self.old.slots }
    {
        let found = self.seek(&flow);
        self.insert_at(found, receiver);
    }

    /// Gives a flow that is there another receiver. Takes no memory.
    pub fn replace(&mut self, flow: &Flow, receiver: Receiver)
        requires { IsSome (receiver_in self.old.connections flow.now) }
        ensures puts { Puts flow.now (Some receiver) self.old self.new }
        ensures count { length self.new.connections ≡ length self.old.connections }
        ensures room { self.new.room ≡ self.old.room }
        ensures slots { length self.new.slots ≡ length self.old.slots }
    {
        let found = self.seek(flow);
        self.replace_at(found, receiver);
    }

    /// Removes the flow; true exactly if it was there. Takes no memory.
    pub fn remove(&mut self, flow: &Flow) -> bool
        ensures there { result ≡ is_some (receiver_in self.old.connections flow.now) }
        ensures puts { Puts flow.now None self.old self.new }
        ensures count { length self.new.connections + (if result then 1 else 0)
            ≡ length self.old.connections }
        ensures room { self.new.room ≡ self.old.room + (if result then 1 else 0) }
        ensures slots { length self.new.slots ≡ length self.old.slots }
    {
        let found = self.seek(flow);
        self.remove_at(found)
    }

    /// Adds a flow that was searched for and isn't there. Takes no memory.
    pub fn insert_at(&mut self, found: Found, receiver: Receiver)
        requires found { IsFound self.old.connections self.old.slots found }
        requires absent { found.receiver ≡ None }
        requires free { length self.old.connections < self.old.capacity }
        requires room { 1 ≤ self.old.room }
        ensures puts { Puts found.flow (Some receiver) self.old self.new }
        ensures count { length self.new.connections ≡ length self.old.connections + 1 }
        ensures room { self.new.room + 1 ≡ self.old.room }
        ensures slots { length self.new.slots ≡ length self.old.slots }
    {
        fill(&mut self.slots, found, receiver);
        self.len += 1;
    }

    /// Gives a flow that was searched for and is there another receiver. Takes no memory.
    pub fn replace_at(&mut self, found: Found, receiver: Receiver)
        requires found { IsFound self.old.connections self.old.slots found }
        requires there { IsSome found.receiver }
        ensures puts { Puts found.flow (Some receiver) self.old self.new }
        ensures count { length self.new.connections ≡ length self.old.connections }
        ensures room { self.new.room ≡ self.old.room }
        ensures slots { length self.new.slots ≡ length self.old.slots }
    {
        fill(&mut self.slots, found, receiver);
    }

    /// Removes a flow that was searched for; true exactly if it was there. Takes no memory.
    pub fn remove_at(&mut self, found: Found) -> bool
        requires found { IsFound self.old.connections self.old.slots found }
        ensures there { result ≡ is_some found.receiver }
        ensures puts { Puts found.flow None self.old self.new }
        ensures count { length self.new.connections + (if result then 1 else 0)
            ≡ length self.old.connections }
        ensures room { self.new.room ≡ self.old.room + (if result then 1 else 0) }
        ensures slots { length self.new.slots ≡ length self.old.slots }
    {
        let there = take(&mut self.slots, found);
        if there {
            self.len -= 1;
        }
        there
    }

    /// Removes all flows. Takes no memory.
    pub fn clear(&mut self)
        ensures empty { self.new.connections ≡ [] }
        ensures capacity { self.new.capacity ≡ self.old.capacity }
        ensures room { self.new.room ≡ self.old.room + length self.old.connections }
        ensures slots { length self.new.slots ≡ length self.old.slots }
    {
        wipe(&mut self.slots);
        self.len = 0;
    }
}
