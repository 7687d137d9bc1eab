//! The pass over the events that counts packets by their causes and by their servers, and those that
//! come after their connection's end, and finds the replies to commands.
ghost use Rattle.std.specs.Prelude.{◌≡◌, [], ◌∷◌, List, length, IfOk, OnOk, reverse};
ghost use Rattle.bm_core.specs.Runs.{IsRun};
ghost use Rattle.bm_core.specs.declared.events.Event.{Event};
ghost use Rattle.bm_core.specs.declared.events.Stage.{Stage};
ghost use Rattle.bm_trace.specs.Ranges.{HasRanges};
ghost use Rattle.bm_trace.specs.Swept.{AreCauses};
ghost use Rattle.bm_connections.specs.Connections.{breaks_nothing, counted_cause};

use crate::counts::CausePackets;
use crate::held::HeldByShards;
use crate::observed::one_more;
use crate::replies::observe_reply;
use crate::resets::Resets;
use crate::servers::Loads;
use bm_base::Memory;
use bm_core::{Cause, Event, History, Stage};
use bm_trace::CauseList;
use std::alloc::Global;

/// What is counted of some events.
#[derive(Drop)]
pub(crate) struct Counters {
    pub(crate) packets: CausePackets,
    pub(crate) after_end: u64,
    pub(crate) loads: Loads,
    pub(crate) held: HeldByShards,
    pub(crate) replies: Vec<Event>,
}

impl Counters {
    ghost use Rattle.bm_connections.specs.Inside.Counters.{CanCountMore, HasCounted};

    /// What is counted before the first event.
    fn new(alloc: Global) -> Counters
        ensures { (stage : Stage) → HasCounted stage [] result }
    {
        Counters {
            packets: CausePackets::new(),
            after_end: 0,
            loads: Loads::new(alloc),
            held: HeldByShards::new(alloc),
            replies: Vec::new(alloc),
        }
    }

    /// Records the event that comes next, after this many events, whose cause is this if it counts.
    /// It is a break that comes after its connection's end or not.
    fn observe(
        &mut self,
        alloc: Global,
        stage: &Stage,
        place: usize,
        event: &Event,
        cause: Option<Cause>,
        late: bool,
    ) -> Result<(), Memory>
        requires ranges { HasRanges stage.now }
        requires room { CanCountMore self.old }
        ensures { (past : List Event) → place ≡ length past
            → cause ≡ counted_cause stage.now past event.now
            → late ≡ breaks_nothing stage.now past event.now.what
            → HasCounted stage.now past self.old
            → OnOk result (HasCounted stage.now (event.now ∷ past) self.new) }
    {
        self.packets.observe(cause);
        self.after_end = one_more(late, self.after_end);
        self.loads.observe(event)?;
        self.held.observe(alloc, stage, place, event)?;
        observe_reply(&mut self.replies, event)?;
        Ok(())
    }

    /// What is counted of all events of a history with these causes.
    pub(crate) fn of(alloc: Global, h: &History, causes: &CauseList) -> Result<Counters, Memory>
        requires run { IsRun h.now }
        requires causes { AreCauses h.now causes.now }
        ensures { IfOk result (HasCounted h.now.stage (reverse h.now.events)) }
    {
        let events = h.events.items();
        let mut resets = Resets::new(alloc);
        let mut counters = Counters::new(alloc);
        for (place, event) in events.iter().enumerate() {
            let found = causes.at(place);
            let cause = resets.counted(&h.stage, event, found);
            let late = resets.discount(&h.stage, event, found);
            counters.observe(alloc, &h.stage, place, event, cause, late)?;
            resets.observe(&h.stage, event, found)?;
        }
        Ok(counters)
    }
}
