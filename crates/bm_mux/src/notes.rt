//! What a mux records.
ghost use Rattle.std.specs.Prelude.{◌≡◌, ◌+◌, ◌*◌, ◌^◌, ◌<◌, ◌≤◌, [], ◌∷◌, ◌++◌, All, IfOk};
ghost use Rattle.std.specs.Prelude.{OnErr, OnOk, length, reverse};
ghost use mathlib.Core.List.{IsPrefix};
ghost use Rattle.bm_base.specs.Tags.{IsTag};
ghost use Rattle.bm_publish.specs.Posts.{last_post, last_version};
ghost use Rattle.bm_mux.specs.Steers.{sent, steers, switch_to, switches, tag_by};
ghost use Rattle.bm_mux.specs.Muxes.{IsBatch, IsItem};
ghost use Rattle.bm_mux.specs.Inside.Noting.{AreKept, HasSteeredOne, IsSame, IsSameVersion};

use crate::{MuxItem, Steered};
use bm_base::{Hop, Label, List, Memory, Moment, MuxId, Segment, Tag, Version, tag_of};
use bm_core::{Event, What, next_clock};
use bm_encap::wrap;
use bm_hash::bucket_of;
use bm_publish::Guard;

/// A mux without its look: its log, with the version of its last Switch, or 0, and the clock of its
/// last Switch or Steer, or 0.
#[derive(Drop)]
pub(crate) struct Notes {
    pub(crate) id: MuxId,
    pub(crate) buckets: u32,
    pub(crate) version: Version,
    pub(crate) clock: Moment,
    pub(crate) log: Vec<Event>,
}

impl Notes {
    /// Logs a Switch to the guard's version, at the clock after the mux's last one and `cause`.
    pub(crate) fn switch(&mut self, guard: &Guard, cause: Moment) -> Result<(), Memory>
        requires kept { AreKept self.old guard.now }
        requires room { length self.old.log.items < 2 ^ 48 }
        requires cause { (cause.0 ≤ 9 * 10 ^ 18) × (last_post guard.now ≤ cause.0) }
        ensures same { IsSame self.old self.new }
        ensures kept { AreKept self.new guard.now }
        ensures ok { OnOk result (self.new.log.items ≡ self.old.log.items
            ++ switch_to self.old.id guard.now (reverse self.old.log.items) cause.0 ∷ []) }
        ensures version { OnOk result (self.new.version.0 ≡ last_version guard.now) }
        ensures err { OnErr result (self.new.log.items ≡ self.old.log.items) }
    {
        let version = guard.version();
        let clock = next_clock(self.clock, cause);
        self.log.push(Event {
            clock,
            what: What::Switch {
                mux: self.id,
                version,
            },
        })?;
        self.version = version;
        self.clock = clock;
        Ok(())
    }

    /// Logs a Switch, if the guard's version is newer.
    fn catch_up(&mut self, guard: &Guard) -> Result<(), Memory>
        requires kept { AreKept self.old guard.now }
        requires room { length self.old.log.items < 2 ^ 48 }
        ensures same { IsSame self.old self.new }
        ensures kept { AreKept self.new guard.now }
        ensures ok { OnOk result (self.new.log.items
            ≡ self.old.log.items ++ switches self.old.id guard.now (reverse self.old.log.items)) }
        ensures version { OnOk result (self.new.version.0 ≡ last_version guard.now) }
        ensures err { OnErr result (self.new.log.items ≡ self.old.log.items) }
    {
        if self.version.0 < guard.version().0 {
            self.switch(guard, guard.clock())?;
        }
        Ok(())
    }

    /// The tag of a direct copy of a packet of this flow.
    fn tag(&self, guard: &Guard, segment: &Segment) -> Tag
        requires kept { AreKept self.now guard.now }
        ensures tag { result ≡ tag_by self.now.id guard.now segment.now }
        ensures valid { IsTag result }
    {
        let version = guard.version();
        let label = Label {
            mux: self.id,
            version,
            entry: guard.entry(bucket_of(&segment.flow, self.buckets)),
        };
        tag_of(&label, Hop::Direct)
    }

    /// Logs a Steer of the item, and returns what is sent.
    fn steer(&mut self, guard: &Guard, item: &MuxItem<'_>) -> Result<Steered, Memory>
        requires kept { AreKept self.old guard.now }
        requires room { length self.old.log.items < 2 ^ 48 + 257 }
        requires item { IsItem item.now }
        ensures same { IsSameVersion self.old self.new }
        ensures kept { AreKept self.new guard.now }
        ensures ok { IfOk result (HasSteeredOne self.old guard.now item.now self.new) }
        ensures err { OnErr result (self.new.log.items ≡ self.old.log.items) }
    {
        let tag = self.tag(guard, &item.segment);
        let clock = next_clock(self.clock, item.moment);
        let mut octets = Vec::new(*self.log.allocator());
        wrap(&tag, item.inner, &mut octets)?;
        self.log.push(Event {
            clock,
            what: What::Steer {
                packet: item.packet,
                mux: self.id,
            },
        })?;
        self.clock = clock;
        Ok(Steered {
            packet: item.packet,
            clock,
            tag,
            octets: List::of(octets),
        })
    }

    /// Steers the items in order. Where memory is refused the first of them are in the log.
    fn steer_all(
        &mut self,
        guard: &Guard,
        items: &[MuxItem<'_>],
        out: &mut Vec<Steered>,
    ) -> Result<(), Memory>
        requires kept { AreKept self.old guard.now }
        requires room { length self.old.log.items < 2 ^ 48 + 1 }
        requires few { length items.now ≤ 256 }
        requires items { All IsItem items.now }
        ensures same { IsSameVersion self.old self.new }
        ensures kept { AreKept self.new guard.now }
        ensures log { OnOk result (self.new.log.items
            ≡ self.old.log.items ++ steers self.old.id self.old.clock.0 items.now) }
        ensures out { OnOk result (out.new.items
            ≡ out.old.items ++ sent self.old.id guard.now self.old.clock.0 items.now) }
        ensures logged { IsPrefix self.old.log.items self.new.log.items }
        ensures given { IsPrefix out.old.items out.new.items }
    {
        for item in items {
            out.push(self.steer(guard, item)?)?;
        }
        Ok(())
    }

    /// Makes room for a batch of this many items.
    pub(crate) fn reserve(&mut self, items: usize, out: &mut Vec<Steered>) -> Result<(), Memory>
        requires { items ≤ 256 }
        ensures same { IsSameVersion self.old self.new × (self.new.clock ≡ self.old.clock) }
        ensures log { self.new.log.items ≡ self.old.log.items }
        ensures out { out.new.items ≡ out.old.items }
    {
        self.log.reserve(items + 1)?;
        out.reserve(items)?;
        Ok(())
    }

    /// Logs a Switch, if the guard's version is newer, and steers the items. Where memory is
    /// refused the log and `out` are as they were.
    pub(crate) fn batch(
        &mut self,
        guard: &Guard,
        items: &[MuxItem<'_>],
        out: &mut Vec<Steered>,
    ) -> Result<(), Memory>
        requires kept { AreKept self.old guard.now }
        requires room { length self.old.log.items < 2 ^ 48 }
        requires few { length items.now ≤ 256 }
        requires items { All IsItem items.now }
        ensures same { IsSame self.old self.new }
        ensures kept { AreKept self.new guard.now }
        ensures version { OnOk result (self.new.version.0 ≡ last_version guard.now) }
        ensures ok { OnOk result (IsBatch self.old.id guard.now items.now
            self.old.log.items self.new.log.items out.old.items out.new.items) }
        ensures log { OnErr result (self.new.log.items ≡ self.old.log.items) }
        ensures out { OnErr result (out.new.items ≡ out.old.items) }
    {
        let (version, clock) = (self.version, self.clock);
        let (logged, given) = (self.log.len(), out.len());
        let done = self.catch_up_and_steer(guard, items, out);
        if done.is_err() {
            self.log.truncate(logged);
            out.truncate(given);
            self.version = version;
            self.clock = clock;
        }
        done
    }

    fn catch_up_and_steer(
        &mut self,
        guard: &Guard,
        items: &[MuxItem<'_>],
        out: &mut Vec<Steered>,
    ) -> Result<(), Memory>
        requires kept { AreKept self.old guard.now }
        requires room { length self.old.log.items < 2 ^ 48 }
        requires few { length items.now ≤ 256 }
        requires items { All IsItem items.now }
        ensures same { IsSame self.old self.new }
        ensures kept { AreKept self.new guard.now }
        ensures version { OnOk result (self.new.version.0 ≡ last_version guard.now) }
        ensures ok { OnOk result (IsBatch self.old.id guard.now items.now
            self.old.log.items self.new.log.items out.old.items out.new.items) }
        ensures logged { IsPrefix self.old.log.items self.new.log.items }
        ensures given { IsPrefix out.old.items out.new.items }
    {
        self.catch_up(guard)?;
        self.steer_all(guard, items, out)
    }
}
