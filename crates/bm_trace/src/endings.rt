//! The ends of each packet's copies, in the order of the events.
ghost use Rattle.std.specs.Prelude.{◌≡◌, ℕ, ◌+◌, ◌<◌, ◌==◌, ◌∷◌, ◌++◌, []};
ghost use Rattle.std.specs.Prelude.{reverse, OnOk, IfOk, false, if◌then◌else◌, vec_len};
ghost use Rattle.bm_trace.specs.Inside.Ends.{words_of_end, words_of_ends};
ghost use Rattle.bm_trace.specs.Inside.EndTables.{ends_at, first_at, later_at, listed_at};
ghost use Rattle.bm_trace.specs.Report as report;

use crate::records::{End, Ending, ending_of};
use bm_core::{Event, What};
use std::alloc::{AllocError, Global};
use std::collections::HashMap;

/// The first end of a packet's copies, and whether there are later ones.
#[derive(Clone, Copy)]
pub(crate) enum First {
    Missing,
    Only(End),
    Followed(End),
}

/// The ends of each packet's copies. A packet with one end needs no allocation.
#[derive(Drop)]
pub(crate) struct EndTable {
    firsts: Vec<First>,
    /// The later ends of the packets that have several, by the packet's place.
    laters: HashMap<usize, Vec<End>>,
}

impl EndTable {
    /// No end for any of this many packets.
    fn new(alloc: Global, packets: usize) -> Result<EndTable, AllocError>
        ensures count { IfOk result (λ table. vec_len table.firsts ≡ packets) }
        ensures none { IfOk result (λ table. (k : ℕ) → k < packets → ends_at table k ≡ []) }
    {
        Ok(EndTable {
            firsts: vec![in alloc; First::Missing; packets]?,
            laters: HashMap::new(alloc),
        })
    }

    /// The first end of the packet at a place.
    pub(crate) fn first(&self, place: usize) -> Option<End>
        requires { place < vec_len self.now.firsts }
        ensures { result ≡ first_at self.now place }
    {
        match self.firsts[place] {
            First::Missing => None,
            First::Only(end) => Some(end),
            First::Followed(end) => Some(end),
        }
    }

    fn listed(&self, place: usize) -> &[End]
        ensures { result.now ≡ listed_at self.now place }
    {
        match self.laters.get(&place) {
            Some(ends) => ends.as_slice(),
            None => &[],
        }
    }

    /// The ends of the packet at a place that came after its first.
    pub(crate) fn later(&self, place: usize) -> &[End]
        requires { place < vec_len self.now.firsts }
        ensures { result.now ≡ later_at self.now place }
    {
        match self.firsts[place] {
            First::Missing | First::Only(_) => &[],
            First::Followed(_) => self.listed(place),
        }
    }

    /// Puts the second end of a packet into the map.
    fn begin_list(&mut self, place: usize, end: End) -> Result<(), AllocError>
        ensures firsts { OnOk result (self.new.firsts ≡ self.old.firsts) }
        ensures here { OnOk result (listed_at self.new place ≡ end ∷ []) }
        ensures apart { OnOk result ((k : ℕ) → (place == k) ≡ false
            → listed_at self.new k ≡ listed_at self.old k) }
    {
        let mut ends = Vec::new(*self.firsts.allocator());
        ends.push(end)?;
        self.laters.insert(place, ends)?;
        Ok(())
    }

    /// Adds an end after those of the packet in the map.
    fn extend_list(&mut self, place: usize, end: End) -> Result<(), AllocError>
        ensures firsts { OnOk result (self.new.firsts ≡ self.old.firsts) }
        ensures here { OnOk result
            (listed_at self.new place ≡ listed_at self.old place ++ end ∷ []) }
        ensures apart { OnOk result ((k : ℕ) → (place == k) ≡ false
            → listed_at self.new k ≡ listed_at self.old k) }
    {
        let mut ends = match self.laters.remove(&place) {
            Some(ends) => ends,
            None => Vec::new(*self.firsts.allocator()),
        };
        ends.push(end)?;
        self.laters.insert(place, ends)?;
        Ok(())
    }

    /// Adds an end after those of the packet at a place.
    fn push(&mut self, place: usize, end: End) -> Result<(), AllocError>
        requires { place < vec_len self.old.firsts }
        ensures count { OnOk result (vec_len self.new.firsts ≡ vec_len self.old.firsts) }
        ensures here { OnOk result
            (ends_at self.new place ≡ ends_at self.old place ++ end ∷ []) }
        ensures apart { OnOk result ((k : ℕ) → (place == k) ≡ false
            → ends_at self.new k ≡ ends_at self.old k) }
    {
        match self.firsts[place] {
            First::Missing => self.firsts[place] = First::Only(end),
            First::Only(first) => {
                self.firsts[place] = First::Followed(first);
                self.begin_list(place, end)?;
            }
            First::Followed(_) => self.extend_list(place, end)?,
        }
        Ok(())
    }

    /// Adds an end after those of its packet, if that is one of the table's.
    fn add(&mut self, ending: Ending) -> Result<(), AllocError>
        ensures count { OnOk result (vec_len self.new.firsts ≡ vec_len self.old.firsts) }
        ensures added { OnOk result ((k : ℕ) → k < vec_len self.old.firsts
            → words_of_ends (ends_at self.new k) ≡ words_of_ends (ends_at self.old k)
            ++ (if ending.packet == k + 1 then words_of_end ending.end else [])) }
    {
        let packet = ending.packet as usize;
        if 0 < packet && packet <= self.firsts.len() {
            self.push(packet - 1, ending.end)?;
        }
        Ok(())
    }

    /// Records an event, which may be the end of a copy.
    fn observe(&mut self, what: &What) -> Result<(), AllocError>
        ensures count { OnOk result (vec_len self.new.firsts ≡ vec_len self.old.firsts) }
        ensures observed { OnOk result ((k : ℕ) → k < vec_len self.old.firsts
            → words_of_ends (ends_at self.new k)
            ≡ words_of_ends (ends_at self.old k) ++ report.end_words what.now (k + 1)) }
    {
        if let Some(ending) = ending_of(what) {
            self.add(ending)?;
        }
        Ok(())
    }
}

/// The ends of each of this many packets.
pub(crate) fn ends_of_packets(
    alloc: Global,
    packets: usize,
    events: &[Event],
) -> Result<EndTable, AllocError>
    ensures count { IfOk result (λ table. vec_len table.firsts ≡ packets) }
    ensures ends { IfOk result
        (λ table. (k : ℕ) → k < packets
        → words_of_ends (ends_at table k) ≡ report.ends_of (reverse events.now) (k + 1)) }
{
    let mut table = EndTable::new(alloc, packets)?;
    for event in events {
        table.observe(&event.what)?;
    }
    Ok(table)
}
