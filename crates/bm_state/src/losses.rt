//! At which clocks packets were sent, and how often they were lost just after, after some events.
ghost use Rattle.std.specs.Prelude.{◌≡◌, ◌<◌, ◌^◌, ℕ, [], ◌∷◌, List, OnOk, length, suc, Some};
ghost use Rattle.std.specs.Prelude.{if◌then◌else◌, true, ◌==◌};
ghost use Rattle.std.specs.Bool.{Decides};
ghost use Rattle.bm_core.specs.Accounts.{count_of, lost_at};
ghost use Rattle.bm_base.specs.Labels.{hop_number};
ghost use Rattle.bm_core.specs.Past.{is_sent_at, sending_of};
ghost use Rattle.bm_core.specs.declared.events.Event.{Event};
ghost use Rattle.bm_state.specs.Sendings.{as_sending};
ghost use Rattle.bm_base.specs.declared.label.Hop.TheVariants.{Direct};
ghost use Rattle.bm_state.specs.Losses.{AreCounted, KeepsLosses, is_loss, sendings_at, sent_at};
ghost use Rattle.bm_state.specs.Inside.Losses.{same_sent};

use crate::count::one_more;
use crate::sending::{Sending, sending_of};
use crate::slots::{set_value, value_at};
use bm_base::{Hop, Moment};
use bm_core::{Event, What};
use std::alloc::{AllocError, Global};
use std::collections::HashMap;

/// A packet that was sent with a hop, which stands here by its number, at a clock.
#[derive(Clone, Copy, PartialEq, Eq, Hash)]
pub(crate) struct SentAt {
    pub(crate) clock: u64,
    pub(crate) packet: u32,
    pub(crate) hop: u8,
}

/// How often a packet was sent with a hop at one clock, and how often it was lost at the next. Its
/// first direct sending isn't counted.
#[derive(Clone, Copy)]
pub(crate) struct LossTally {
    pub(crate) sendings: u64,
    pub(crate) losses: u64,
}

fn number_of(hop: Hop) -> u8
    ensures { result ≡ hop_number hop }
{
    match hop {
        Hop::Direct => 0,
        Hop::Chained => 1,
        Hop::Twice => 2,
    }
}

impl SentAt {
    fn of(packet: u32, hop: Hop, clock: u64) -> SentAt
        ensures { result ≡ sent_at packet hop clock }
    {
        SentAt {
            clock,
            packet,
            hop: number_of(hop),
        }
    }
}

impl LossTally {
    fn with_sending(self) -> LossTally
        ensures { self.sendings < 2 ^ 63 → result ≡ record self { sendings = suc self.sendings } }
    {
        LossTally {
            sendings: one_more(self.sendings),
            losses: self.losses,
        }
    }

    fn with_loss(self) -> LossTally
        ensures { self.losses < 2 ^ 63 → result ≡ record self { losses = suc self.losses } }
    {
        LossTally {
            sendings: self.sendings,
            losses: one_more(self.losses),
        }
    }
}

/// The losses of each packet and hop by the clock of the sending.
#[derive(Drop)]
pub struct Losses {
    /// The clock of each packet's first direct sending. In most runs there are few others.
    direct: Vec<Option<u64>>,
    tallies: HashMap<SentAt, LossTally>,
    /// How many losses there are.
    count: u64,
}

impl Losses {
    ghost use Rattle.bm_state.specs.Losses.{first_in, is_first, losses_in};

    /// Before the first event.
    pub fn new(alloc: Global) -> Losses
        ensures { KeepsLosses [] result }
    {
        Losses {
            direct: Vec::new(alloc),
            tallies: HashMap::new(alloc),
            count: 0,
        }
    }

    fn get(&self, sent: SentAt) -> LossTally
        ensures { result ≡ losses_in self.now sent }
    {
        match self.tallies.get(&sent) {
            Some(tally) => *tally,
            None => LossTally {
                sendings: 0,
                losses: 0,
            },
        }
    }

    /// The clock of the packet's first direct sending.
    fn first(&self, packet: u32) -> Option<u64>
        ensures { result ≡ first_in self.now packet }
    {
        value_at(self.direct.as_slice(), packet, None)
    }

    /// Whether this is the clock of the packet's first direct sending, and the hop is direct.
    fn is_first(&self, packet: u32, hop: Hop, clock: u64) -> bool
        ensures { result ≡ is_first self.now packet hop clock }
    {
        match hop {
            Hop::Direct => match self.first(packet) {
                Some(first) => first == clock,
                None => false,
            },
            Hop::Chained | Hop::Twice => false,
        }
    }

    /// How often the packet was lost with this hop at the clock after this one.
    pub fn of(&self, packet: u32, hop: Hop, clock: Moment) -> u64
        ensures { (past : List Event) → KeepsLosses past self.now
            → result ≡ lost_at past packet hop (suc clock.0) }
    {
        self.get(SentAt::of(packet, hop, clock.0)).losses
    }

    /// Whether the packet was lost with this hop just as often as it was sent at this clock.
    pub fn are_all(&self, packet: u32, hop: Hop, clock: Moment) -> bool
        ensures { (past : List Event) → KeepsLosses past self.now → Decides result
            (lost_at past packet hop (suc clock.0) ≡ sendings_at past packet hop clock.0) }
    {
        let tally = self.get(SentAt::of(packet, hop, clock.0));
        if self.is_first(packet, hop, clock.0) {
            0 < tally.losses && tally.losses - 1 == tally.sendings
        } else {
            tally.losses == tally.sendings
        }
    }

    /// Whether copies of the packet with this hop were sent at this clock.
    pub fn is_sent_at(&self, packet: u32, hop: Hop, clock: Moment) -> bool
        ensures { (past : List Event) → KeepsLosses past self.now
            → result ≡ is_sent_at past packet hop clock.0 }
    {
        if self.is_first(packet, hop, clock.0) {
            return true;
        }
        0 < self.get(SentAt::of(packet, hop, clock.0)).sendings
    }

    /// Whether there is no loss at all.
    pub fn are_none(&self) -> bool
        ensures count { (past : List Event) → KeepsLosses past self.now
            → result ≡ (count_of is_loss past == 0) }
        ensures none { (past : List Event) → KeepsLosses past self.now
            → result ≡ true → (k : ℕ) (hop : Hop) (clock : ℕ) → lost_at past k hop clock ≡ 0 }
    {
        self.count == 0
    }

    fn put(&mut self, sent: SentAt, tally: LossTally) -> Result<(), AllocError>
        ensures tallies { OnOk result ((q : SentAt) → losses_in self.new q
            ≡ (if same_sent sent q then tally else losses_in self.old q)) }
        ensures count { self.new.count ≡ self.old.count }
        ensures direct { self.new.direct ≡ self.old.direct }
    {
        self.tallies.insert(sent, tally)?;
        Ok(())
    }

    /// One more sending.
    fn add_sending(&mut self, sent: SentAt) -> Result<(), AllocError>
        ensures tallies { (losses_in self.old sent).sendings < 2 ^ 63
            → OnOk result ((q : SentAt) → losses_in self.new q
            ≡ (if same_sent sent q
            then record (losses_in self.old sent) { sendings = suc (losses_in self.old sent).sendings }
            else losses_in self.old q)) }
        ensures count { self.new.count ≡ self.old.count }
        ensures direct { self.new.direct ≡ self.old.direct }
    {
        let once = LossTally {
            sendings: 1,
            losses: 0,
        };
        // Mostly there is no other, and one look-up is enough.
        if let Some(before) = self.tallies.insert(sent, once)? {
            self.put(sent, before.with_sending())?;
        }
        Ok(())
    }

    /// Records the packet's first direct sending.
    fn set_first(&mut self, packet: u32, clock: u64) -> Result<(), AllocError>
        ensures direct { OnOk result ((q : ℕ) → first_in self.new q
            ≡ (if packet == q then Some clock else first_in self.old q)) }
        ensures tallies { self.new.tallies ≡ self.old.tallies }
        ensures count { self.new.count ≡ self.old.count }
    {
        set_value(&mut self.direct, packet, Some(clock), None)
    }

    /// Records a direct sending at this clock.
    fn observe_direct(&mut self, packet: u32, clock: u64) -> Result<(), AllocError>
        ensures { (sent lost : List Event) (e : Event) → length sent < 2 ^ 63
            → sending_of e.what ≡ Some (record { packet = packet; hop = Direct })
            → e.clock.0 ≡ clock → AreCounted sent lost self.old
            → OnOk result (AreCounted (e ∷ sent) lost self.new) }
    {
        match self.first(packet) {
            None => self.set_first(packet, clock)?,
            Some(_) => self.add_sending(SentAt::of(packet, Hop::Direct, clock))?,
        }
        Ok(())
    }

    /// Records a sending at this clock.
    fn observe_sending(&mut self, sending: Sending, clock: Moment) -> Result<(), AllocError>
        ensures { (sent lost : List Event) (e : Event) → length sent < 2 ^ 63
            → sending_of e.what ≡ Some (as_sending sending) → e.clock ≡ clock
            → AreCounted sent lost self.old
            → OnOk result (AreCounted (e ∷ sent) lost self.new) }
    {
        if sending.hop == Hop::Direct {
            return self.observe_direct(sending.packet, clock.0);
        }
        self.add_sending(SentAt::of(sending.packet, sending.hop, clock.0))?;
        Ok(())
    }

    /// Records a loss at this clock, which comes one nanosecond after its sending.
    fn observe_loss(&mut self, packet: u32, hop: Hop, clock: Moment) -> Result<(), AllocError>
        ensures { (sent lost : List Event) (e : Event) → length lost < 2 ^ 63
            → e.what ≡ What.Lose packet hop → e.clock ≡ clock
            → AreCounted sent lost self.old
            → OnOk result (AreCounted sent (e ∷ lost) self.new) }
    {
        self.count = one_more(self.count);
        if 0 < clock.0 {
            let sent = SentAt::of(packet, hop, clock.0 - 1);
            let tally = self.get(sent);
            self.put(sent, tally.with_loss())?;
        }
        Ok(())
    }

    /// Records what the event sends.
    fn observe_sent(&mut self, event: &Event) -> Result<(), AllocError>
        ensures { (sent lost : List Event) → length sent < 2 ^ 63
            → AreCounted sent lost self.old
            → OnOk result (AreCounted (event.now ∷ sent) lost self.new) }
    {
        match sending_of(event.what) {
            Some(sending) => self.observe_sending(sending, event.clock),
            None => Ok(()),
        }
    }

    /// Records what is lost.
    fn observe_lost(&mut self, event: &Event) -> Result<(), AllocError>
        ensures { (sent lost : List Event) → length lost < 2 ^ 63
            → AreCounted sent lost self.old
            → OnOk result (AreCounted sent (event.now ∷ lost) self.new) }
    {
        match event.what {
            What::Lose { packet, hop } => self.observe_loss(packet, hop, event.clock),
            What::Publish(_)
            | What::Switch { .. }
            | What::Steer { .. }
            | What::Arrive { .. }
            | What::Close { .. }
            | What::Retire { .. }
            | What::Sync => Ok(()),
        }
    }

    /// Records the event that comes next.
    pub fn observe(&mut self, event: &Event) -> Result<(), AllocError>
        ensures { (past : List Event) → length past < 2 ^ 63
            → KeepsLosses past self.old → OnOk result (KeepsLosses (event.now ∷ past) self.new) }
    {
        self.observe_sent(event)?;
        self.observe_lost(event)?;
        Ok(())
    }
}
