//! How often packets were sent, and how many copies of them arrived, after some events.
ghost use Rattle.std.specs.Prelude.{◌≡◌, ◌<◌, ◌^◌, ℕ, [], ◌∷◌, List, OnOk, ◌==◌, ◌&&◌, length, suc, Some};
ghost use Rattle.std.specs.Prelude.{if◌then◌else◌};
ghost use Rattle.bm_base.specs.declared.ids.ServerId.{ServerId};
ghost use Rattle.bm_base.specs.Labels.{same_hop};
ghost use Rattle.bm_core.specs.Past.{is_sent, sending_of};
ghost use Rattle.bm_core.specs.declared.events.Event.{Event};
ghost use Rattle.bm_state.specs.Sendings.{as_sending};
ghost use Rattle.bm_state.specs.Tallies.{KeepsTallies, tally_of, unsent, with_hop};
ghost use Rattle.bm_state.specs.Inside.Tallies.{AreTallied};

use crate::count::one_more;
use crate::sending::{Sending, sending_of};
use crate::slots::{set_value, value_at};
use bm_base::Hop;
use bm_core::{Verdict, What};
use std::alloc::{AllocError, Global};

/// How often a packet was sent with a hop, and how many copies of it arrived with that hop.
#[derive(Clone, Copy)]
pub struct Tally {
    pub sendings: u64,
    pub arrivals: u64,
}

impl Tally {
    /// Of a packet that wasn't sent.
    fn unsent() -> Tally
        ensures { result ≡ unsent }
    {
        Tally {
            sendings: 0,
            arrivals: 0,
        }
    }

    fn with_sending(self) -> Tally
        ensures { self.sendings < 2 ^ 63 → result ≡ record self { sendings = suc self.sendings } }
    {
        Tally {
            sendings: one_more(self.sendings),
            arrivals: self.arrivals,
        }
    }

    fn with_arrival(self) -> Tally
        ensures { self.arrivals < 2 ^ 63 → result ≡ record self { arrivals = suc self.arrivals } }
    {
        Tally {
            sendings: self.sendings,
            arrivals: one_more(self.arrivals),
        }
    }
}

/// The tally of each packet and hop. For each hop it takes room for the packets up to the greatest
/// that was sent or arrived.
#[derive(Drop)]
pub struct Tallies {
    direct: Vec<Tally>,
    chained: Vec<Tally>,
    twice: Vec<Tally>,
}

impl Tallies {
    ghost use Rattle.bm_state.specs.Tallies.{tally_in};

    /// Before the first event.
    pub fn new(alloc: Global) -> Tallies
        ensures { KeepsTallies [] result }
    {
        Tallies {
            direct: Vec::new(alloc),
            chained: Vec::new(alloc),
            twice: Vec::new(alloc),
        }
    }

    fn with_hop(&self, hop: Hop) -> &[Tally]
        ensures { result.now ≡ with_hop self.now hop }
    {
        match hop {
            Hop::Direct => self.direct.as_slice(),
            Hop::Chained => self.chained.as_slice(),
            Hop::Twice => self.twice.as_slice(),
        }
    }

    /// How often the packet was sent with this hop, and how many copies of it arrived.
    pub fn of(&self, packet: u32, hop: Hop) -> Tally
        ensures kept { result ≡ tally_in self.now packet hop }
        ensures tally { (past : List Event) → KeepsTallies past self.now
            → result ≡ tally_of past packet hop }
    {
        value_at(self.with_hop(hop), packet, Tally::unsent())
    }

    /// Whether copies of the packet with this hop were sent.
    pub fn is_sent(&self, packet: u32, hop: Hop) -> bool
        ensures { (past : List Event) → KeepsTallies past self.now
            → result ≡ is_sent past packet hop }
    {
        0 < self.of(packet, hop).sendings
    }

    fn put(&mut self, packet: u32, hop: Hop, tally: Tally) -> Result<(), AllocError>
        ensures { OnOk result ((k : ℕ) (h : Hop) → tally_in self.new k h
            ≡ (if packet == k && same_hop hop h then tally else tally_in self.old k h)) }
    {
        let unsent = Tally::unsent();
        match hop {
            Hop::Direct => set_value(&mut self.direct, packet, tally, unsent),
            Hop::Chained => set_value(&mut self.chained, packet, tally, unsent),
            Hop::Twice => set_value(&mut self.twice, packet, tally, unsent),
        }
    }

    fn observe_sending(&mut self, sending: Sending) -> Result<(), AllocError>
        ensures { (sent came : List Event) (e : Event) → length sent < 2 ^ 63
            → sending_of e.what ≡ Some (as_sending sending) → AreTallied sent came self.old
            → OnOk result (AreTallied (e ∷ sent) came self.new) }
    {
        let tally = self.of(sending.packet, sending.hop);
        self.put(sending.packet, sending.hop, tally.with_sending())?;
        Ok(())
    }

    fn observe_arrival(&mut self, packet: u32, hop: Hop) -> Result<(), AllocError>
        ensures { (sent came : List Event) (e : Event) (server : ServerId) (verdict : Verdict)
            → length came < 2 ^ 63 → e.what ≡ What.Arrive packet hop server verdict
            → AreTallied sent came self.old
            → OnOk result (AreTallied sent (e ∷ came) self.new) }
    {
        let tally = self.of(packet, hop);
        self.put(packet, hop, tally.with_arrival())?;
        Ok(())
    }

    /// Records what the event sends.
    fn observe_sent(&mut self, what: What) -> Result<(), AllocError>
        ensures { (sent came : List Event) (e : Event) → e.what ≡ what → length sent < 2 ^ 63
            → AreTallied sent came self.old
            → OnOk result (AreTallied (e ∷ sent) came self.new) }
    {
        match sending_of(what) {
            Some(sending) => self.observe_sending(sending),
            None => Ok(()),
        }
    }

    /// Records the copy that arrives.
    fn observe_came(&mut self, what: What) -> Result<(), AllocError>
        ensures { (sent came : List Event) (e : Event) → e.what ≡ what → length came < 2 ^ 63
            → AreTallied sent came self.old
            → OnOk result (AreTallied sent (e ∷ came) self.new) }
    {
        match what {
            What::Arrive { packet, hop, .. } => self.observe_arrival(packet, hop),
            What::Publish(_)
            | What::Switch { .. }
            | What::Steer { .. }
            | What::Lose { .. }
            | What::Close { .. }
            | What::Retire { .. }
            | What::Sync => Ok(()),
        }
    }

    /// Records what happens next.
    pub fn observe(&mut self, what: What) -> Result<(), AllocError>
        ensures { (past : List Event) (e : Event) → e.what ≡ what → length past < 2 ^ 63
            → KeepsTallies past self.old → OnOk result (KeepsTallies (e ∷ past) self.new) }
    {
        self.observe_sent(what)?;
        self.observe_came(what)?;
        Ok(())
    }
}
