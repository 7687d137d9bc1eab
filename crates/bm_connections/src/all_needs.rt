//! The pass over the events that finds the longest needs, and the longest wait of the packets that
//! came too late.
ghost use Rattle.std.specs.Prelude.{◌≡◌, ◌∷◌, [], List, length, reverse, OnOk, IfOk};
ghost use Rattle.bm_core.specs.Runs.{IsRun};
ghost use Rattle.bm_core.specs.declared.events.Event.{Event};
ghost use Rattle.bm_state.specs.Moves.{AreMoves};
ghost use Rattle.bm_trace.specs.Ranges.{HasRanges};
ghost use Rattle.bm_trace.specs.Swept.{AreCauses};
ghost use Rattle.bm_connections.specs.Connections.{counted_cause};

use crate::followed::Followed;
use crate::late::longest_after;
use crate::needs::LongestNeeds;
use crate::resets::Resets;
use bm_base::Memory;
use bm_core::{Cause, Event, History, Stage};
use bm_trace::CauseList;
use std::alloc::Global;

/// The longest needs of all kinds, and the longest wait of a packet that came too late, after some
/// events.
#[derive(Drop)]
pub(crate) struct AllNeeds {
    pub(crate) followed: Followed,
    pub(crate) late: Option<u64>,
    pub(crate) changes: LongestNeeds,
    pub(crate) thirds: LongestNeeds,
    pub(crate) servers: LongestNeeds,
}

impl AllNeeds {
    ghost use Rattle.bm_connections.specs.Inside.Needs.{HasNeeds, HasRoom};

    /// Before the first event.
    fn new(alloc: Global, stage: &Stage) -> Result<AllNeeds, Memory>
        ensures { IfOk result (HasNeeds stage.now []) }
    {
        Ok(AllNeeds {
            followed: Followed::new(alloc, stage)?,
            late: None,
            changes: LongestNeeds::new(alloc),
            thirds: LongestNeeds::new(alloc),
            servers: LongestNeeds::new(alloc),
        })
    }

    /// Records the event that comes next, after this many events, whose cause is this if it counts.
    fn observe(
        &mut self,
        alloc: Global,
        stage: &Stage,
        place: usize,
        event: &Event,
        cause: Option<Cause>,
    ) -> Result<(), Memory>
        requires ranges { HasRanges stage.now }
        requires moves { AreMoves stage.now.script.plan self.old.followed.stamps.moves }
        requires room { HasRoom self.old.followed.last }
        ensures { (past : List Event) → place ≡ length past
            → cause ≡ counted_cause stage.now past event.now
            → HasNeeds stage.now past self.old
            → OnOk result (HasNeeds stage.now (event.now ∷ past) self.new) }
    {
        let followed = &self.followed;
        let change = followed.change_need(stage, event);
        let third = followed.thrice_need(stage, event, cause);
        let server = followed.server_need(stage, event, cause);
        let late = followed.came_late(stage, event, cause, third);
        let wait = followed.stamps.wait(stage, event);
        self.late = longest_after(self.late, late, wait);
        self.changes.observe(change)?;
        self.thirds.observe(third)?;
        self.servers.observe(server)?;
        self.followed.observe(alloc, stage, place, event.what)?;
        Ok(())
    }

    /// The longest needs of all events of a history with these causes.
    pub(crate) fn of(alloc: Global, h: &History, causes: &CauseList) -> Result<AllNeeds, Memory>
        requires run { IsRun h.now }
        requires causes { AreCauses h.now causes.now }
        ensures { IfOk result (HasNeeds h.now.stage (reverse h.now.events)) }
    {
        let events = h.events.items();
        let mut resets = Resets::new(alloc);
        let mut all = AllNeeds::new(alloc, &h.stage)?;
        for (place, event) in events.iter().enumerate() {
            let found = causes.at(place);
            let cause = resets.counted(&h.stage, event, found);
            all.observe(alloc, &h.stage, place, event, cause)?;
            resets.observe(&h.stage, event, found)?;
        }
        Ok(all)
    }
}
