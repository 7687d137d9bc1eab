//! A mux: a look at the board, and a log.
ghost use Rattle.std.specs.Prelude.{◌≡◌, ◌+◌, ◌*◌, ◌^◌, ◌<◌, ◌≤◌, [], All, IfOk, IsSome};
ghost use Rattle.std.specs.Prelude.{OnErr, OnOk, length, reverse};
ghost use Rattle.bm_core.specs.declared.events.What.TheVariants.{Lose};
ghost use Rattle.bm_publish.specs.Posts.{Continues};
ghost use Rattle.bm_mux.specs.Steers.{at_clock, steering_clock};
ghost use Rattle.bm_mux.specs.Muxes.{HasBegun, HasServers, HasSteered, IsItem};
ghost use Rattle.bm_mux.specs.Muxes.{IsLogOf, IsSameMux, with_event};
ghost use Rattle.bm_mux.specs.Inside.Keeping.{seen_by};

use crate::notes::Notes;
use crate::{MuxItem, Steered};
use bm_base::{Hop, List, Memory, Moment, MuxId, Version};
use bm_core::{Event, Log, What};
use bm_publish::{Guard, Look, Poster, Snapshot};
use std::alloc::Global;
use std::marker::Model;

/// A mux. Contracts see its number, the posts that its look has seen or learned of, and its log.
#[derive(Drop)]
pub struct Mux {
    /// None only while a call is looking.
    look: Option<Look>,
    notes: Notes,
}

impl Model for Mux {
    ghost use Rattle.std.specs.Prelude.{IsSome};
    ghost use Rattle.bm_mux.specs.Muxes.{MuxState};
    ghost use Rattle.bm_mux.specs.Inside.Keeping.{seen_by};
    ghost use Rattle.bm_mux.specs.Inside.Noting.{AreKept};

    ghost Value = { MuxState };

    ghost view = { λ m. record {
      id = m.notes.id;
      seen = seen_by m.look;
      log = m.notes.log.items;
    } };

    ghost invariant = { λ m. IsSome m.look × AreKept m.notes (seen_by m.look) };
}

impl Mux {
    /// A mux with an empty log, for the plan that the look shows. Takes no memory.
    pub fn new(alloc: Global, id: MuxId, look: Look, buckets: u32) -> Mux
        requires mux { id.0 < 64 }
        requires buckets { buckets ≡ look.plan.buckets }
        requires servers { HasServers look.plan }
        ensures { result ≡ record { id = id; seen = look; log = [] } }
    {
        let notes = Notes {
            id,
            buckets,
            version: Version(0),
            clock: Moment(0),
            log: Vec::new(alloc),
        };
        Mux {
            look: Some(look),
            notes,
        }
    }

    /// Learns these posts, looks, and logs one Switch to the version that it sees, with a clock
    /// above `after`, above that of its last Switch or Steer, and above that of the last post.
    /// `Memory` where memory or the look was refused; then it has learned them, and the log is as
    /// it was.
    pub fn begin(&mut self, snapshot: Snapshot, after: Moment) -> Result<(), Memory>
        requires board { snapshot.board ≡ self.old.seen.board }
        requires after { after.0 ≤ 9 * 10 ^ 18 }
        requires room { length self.old.log < 2 ^ 48 }
        ensures ok { OnOk result (HasBegun self.old snapshot after.0 self.new) }
        ensures err { OnErr result (IsSameMux self.old self.new
            × Continues snapshot self.new.seen × (self.new.log ≡ self.old.log)) }
    {
        learn(&mut self.look, snapshot);
        let guard = enter(&mut self.look)?;
        let cause = Moment(after.0.max(guard.clock().0));
        let done = self.notes.switch(&guard, cause);
        self.look = Some(guard.leave());
        done
    }

    /// Steers the items under one look: a Switch if the version is newer than the mux's, then a
    /// Steer of each item in order. What is sent for each is added to `out`. `Memory` where memory
    /// or the look was refused; then the log and `out` are as they were.
    pub fn batch(&mut self, items: &[MuxItem<'_>], out: &mut Vec<Steered>) -> Result<(), Memory>
        requires room { length self.old.log < 2 ^ 48 }
        requires few { length items.now ≤ 256 }
        requires items { All IsItem items.now }
        ensures ok { OnOk result (HasSteered self.old items.now self.new
            out.old.items out.new.items) }
        ensures err { OnErr result (IsSameMux self.old self.new
            × (self.new.log ≡ self.old.log) × (out.new.items ≡ out.old.items)) }
    {
        self.notes.reserve(items.len(), out)?;
        let guard = enter(&mut self.look)?;
        let done = self.notes.batch(&guard, items, out);
        self.look = Some(guard.leave());
        done
    }

    /// Logs that the copies of a sending at the clock `after` were lost.
    pub fn lost(&mut self, packet: u32, hop: Hop, after: Moment) -> Result<(), Memory>
        requires { after.0 < 2 ^ 63 }
        ensures ok { OnOk result (self.new
            ≡ with_event self.old (at_clock (after.0 + 1) (Lose packet hop))) }
        ensures err { OnErr result (self.new ≡ self.old) }
    {
        self.notes.log.push(Event {
            clock: Moment(after.0 + 1),
            what: What::Lose { packet, hop },
        })?;
        Ok(())
    }

    /// The clock of the mux's last Switch or Steer, or 0. Takes no memory.
    pub fn clock(&self) -> Moment
        ensures clock { result.0 ≡ steering_clock (reverse self.now.log) }
        ensures bound { result.0 ≤ 9 * 10 ^ 18 + length self.now.log }
    {
        self.notes.clock
    }

    /// The log. What the mux was shown is a beginning of what the board's poster has posted, so each
    /// Switch of the log is to version 0 or to that of one of these posts, which has a lower clock.
    pub fn into_log(self, poster: &mut Poster) -> Log
        requires { self.seen.board ≡ poster.old.board }
        ensures kept { poster.new ≡ poster.old }
        ensures log { IsLogOf self poster.old result }
    {
        let Mux { look, notes } = self;
        let Some(look) = look else { unreachable!() };
        poster.posted_all(&look);
        List::of(notes.log)
    }
}

fn learn(look: &mut Option<Look>, snapshot: Snapshot)
    requires some { IsSome look.old }
    requires board { snapshot.board ≡ (seen_by look.old).board }
    ensures some { IsSome look.new }
    ensures seen { Continues (seen_by look.old) (seen_by look.new) }
    ensures learned { Continues snapshot (seen_by look.new) }
{
    let Some(look) = look else { unreachable!() };
    look.learn(snapshot);
}

/// Takes the look, and looks. If that is refused the look is put back.
fn enter(look: &mut Option<Look>) -> Result<Guard, Memory>
    requires { IsSome look.old }
    ensures ok { IfOk result (Continues (seen_by look.old)) }
    ensures err { OnErr result (look.new ≡ look.old) }
{
    let Some(taken) = look.take() else {
        unreachable!()
    };
    match taken.look() {
        Ok(guard) => Ok(guard),
        Err((refused, why)) => {
            *look = Some(refused);
            Err(why)
        }
    }
}
