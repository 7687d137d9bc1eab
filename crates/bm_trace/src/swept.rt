//! One sweep over a history, which finds the causes of all its events.
ghost use Rattle.std.specs.Prelude.{suc, ◌^◌, if◌then◌else◌, ◌≡◌, ◌&&◌, ◌<◌, ℕ, List, length};
ghost use Rattle.std.specs.Prelude.{reverse, OnOk, IfOk, None, is_some, [], ◌+◌, ◌≤◌};
ghost use Rattle.std.specs.Prelude.{take};
ghost use Rattle.bm_core.specs.Causes as causes;
ghost use Rattle.bm_core.specs.Runs.{IsRun};
ghost use Rattle.bm_core.specs.declared.events.History.{History};
ghost use Rattle.bm_trace.specs.CauseOf.{cause_of};
ghost use Rattle.bm_trace.specs.Ranges.{HasRanges};
ghost use Rattle.bm_state.specs.Versions.{KeepsVersions};
ghost use Rattle.bm_trace.specs.Swept.{AreCauses, cause_in};
ghost use Rattle.bm_trace.specs.Inside.Swept.{AreCausesOf};
ghost use Rattle.bm_trace.specs.Totals as totals;

use crate::counts::totals_but_strays;
use crate::known::Known;
use crate::sums::Totals;
use bm_base::Memory;
use bm_core::{Cause, History, Verdict, What};
use bm_state::Versions;
use std::alloc::{AllocError, Global};
use std::marker::Model;

/// The cause of each event of a history, if it has one.
#[derive(Drop)]
pub struct CauseList {
    causes: Vec<Option<Cause>>,
}

impl Model for CauseList {
    ghost use Rattle.std.specs.Prelude.{List, Option};
    ghost use Rattle.bm_core.specs.declared.events.Cause.{Cause};

    ghost Value = { List (Option Cause) };

    ghost view = { λ a. a.causes.items };
}

pub(crate) fn cause_in(causes: &[Option<Cause>], place: usize) -> Option<Cause>
    ensures { result ≡ cause_in causes.now place }
{
    if place < causes.len() {
        causes[place]
    } else {
        None
    }
}

impl CauseList {
    fn of(causes: Vec<Option<Cause>>) -> CauseList
        ensures { result ≡ causes.items }
    {
        CauseList { causes }
    }

    /// The allocator of its memory.
    pub(crate) fn allocator(&self) -> Global {
        *self.causes.allocator()
    }

    /// The cause of the event at this place, if it has one. Takes no memory.
    pub fn at(&self, place: usize) -> Option<Cause>
        ensures { result ≡ cause_in self.now place }
    {
        cause_in(self.causes.as_slice(), place)
    }
}

/// Whether an event with this cause is a stray.
fn is_stray(what: &What, cause: Option<Cause>) -> bool
    ensures { result ≡ (totals.arrives causes.is_process what.now && is_some cause) }
{
    match what {
        What::Arrive {
            verdict: Verdict::Process(_),
            ..
        } => cause.is_some(),
        _ => false,
    }
}

/// One more, if the event is a stray.
fn counted(count: u64, stray: bool) -> u64
    requires { suc count < 2 ^ 64 }
    ensures { result ≡ (if stray then suc count else count) }
{
    if stray { count + 1 } else { count }
}

/// What is known before the next event of a history, and how many strays came before it.
#[derive(Drop)]
pub(crate) struct Sweeper {
    known: Known,
    strays: u64,
}

impl Sweeper {
    ghost use Rattle.bm_trace.specs.Inside.Swept.{HasSwept};

    /// What is known before the first event.
    pub(crate) fn new(alloc: Global, h: &History) -> Result<Sweeper, AllocError>
        ensures { IfOk result (HasSwept h.now 0) }
    {
        Ok(Sweeper {
            known: Known::new(alloc, &h.stage)?,
            strays: 0,
        })
    }

    /// The versions before the next event.
    pub(crate) fn versions(&self) -> &Versions
        ensures { (h : History) (place : ℕ) → HasSwept h place self.now
            → KeepsVersions (reverse (take place h.events)) result.now }
    {
        self.known.versions()
    }

    /// How many strays came before the next event of a run.
    pub(crate) fn strays(&self) -> u64
        ensures { (h : History) (place : ℕ) → HasSwept h place self.now → IsRun h
            → result ≡ totals.strays h.stage (reverse (take place h.events)) }
    {
        self.strays
    }

    /// The cause of the next event, which is at this place.
    fn pass(
        &mut self,
        alloc: Global,
        h: &History,
        place: usize,
    ) -> Result<Option<Cause>, AllocError>
        requires ranges { HasRanges h.now.stage }
        requires place { place < length h.now.events }
        requires swept { HasSwept h.now place self.old }
        ensures cause { IfOk result (λ cause. cause ≡ cause_of h.now place) }
        ensures swept { OnOk result (HasSwept h.now (place + 1) self.new) }
    {
        let events = h.events.items();
        let event = &events[place];
        let cause = self.known.cause(&h.stage, event);
        self.known.observe(alloc, &h.stage, place, event.what)?;
        self.strays = counted(self.strays, is_stray(&event.what, cause));
        Ok(cause)
    }

    /// The causes of the events from one place to another, as far as there are events.
    pub(crate) fn advance(
        &mut self,
        alloc: Global,
        h: &History,
        from: usize,
        to: usize,
        causes: &mut Vec<Option<Cause>>,
    ) -> Result<(), AllocError>
        requires ranges { HasRanges h.now.stage }
        requires order { from ≤ to }
        requires swept { HasSwept h.now from self.old }
        requires empty { causes.old.items ≡ [] }
        ensures swept { OnOk result (HasSwept h.now to self.new) }
        ensures causes { OnOk result (AreCausesOf h.now from to causes.new.items) }
    {
        let end = h.events.items().len();
        for place in from.min(end)..to.min(end) {
            causes.push(self.pass(alloc, h, place)?)?;
        }
        Ok(())
    }
}

/// The cause of each event, in one sweep over the history.
#[tactic(auto, using(crate::proofs::Sweeping::all_causes))]
pub fn sweep(alloc: Global, h: &History) -> Result<CauseList, Memory>
    requires { HasRanges h.now.stage }
    ensures { IfOk result (λ causes. AreCauses h.now causes) }
{
    let mut causes = Vec::new(alloc);
    let mut sweeper = Sweeper::new(alloc, h)?;
    sweeper.advance(alloc, h, 0, h.events.items().len(), &mut causes)?;
    Ok(CauseList::of(causes))
}

fn stray_count(h: &History, causes: &CauseList) -> u64
    requires run { IsRun h.now }
    requires causes { AreCauses h.now causes.now }
    ensures { result ≡ totals.strays h.now.stage (reverse h.now.events) }
{
    let mut count = 0;
    for (place, event) in h.events.items().iter().enumerate() {
        count = counted(count, is_stray(&event.what, causes.at(place)));
    }
    count
}

/// The ten numbers of the history's last line, by the causes of its events. Takes no memory.
pub fn totals_of(h: &History, causes: &CauseList) -> Totals
    requires run { IsRun h.now }
    requires causes { AreCauses h.now causes.now }
    ensures { result ≡ totals.totals_of h.now }
{
    Totals {
        stray: stray_count(h, causes),
        ..totals_but_strays(h)
    }
}
