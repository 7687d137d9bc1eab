//! The clocks of some events.
ghost use Rattle.std.specs.Prelude.{◌≡◌, [], ◌∷◌, List, OnOk, Some, option_map, if◌then◌else◌};
ghost use Rattle.std.specs.Bool.{Decides};
ghost use Rattle.bm_core.specs.Runs.{actor_of, same_actor};
ghost use Rattle.bm_core.specs.declared.events.Event.{Event};
ghost use Rattle.bm_core.specs.declared.events.Stage.{Stage};
ghost use Rattle.bm_state.specs.Authors.{actor};

use crate::author::Author;
use bm_base::Moment;
use std::alloc::{AllocError, Global};
use std::collections::BTreeMap;

/// The clock of the last event, and that of the last event of each author.
#[derive(Drop)]
pub struct Clocks {
    last: u64,
    own: BTreeMap<Author, u64>,
}

impl Clocks {
    ghost use Rattle.bm_state.specs.Clocks.{IsOnTime, KeepsClocks, clock_in};

    /// Before the first event.
    pub fn new(alloc: Global) -> Clocks
        ensures { (stage : Stage) → KeepsClocks stage [] result }
    {
        Clocks {
            last: 0,
            own: BTreeMap::new(alloc),
        }
    }

    fn put(&mut self, author: Author, clock: u64) -> Result<(), AllocError>
        ensures last { OnOk result (self.new.last ≡ self.old.last) }
        ensures own { OnOk result ((q : Author) → clock_in self.new q
            ≡ (if same_actor (actor author) (actor q) then Some clock else clock_in self.old q)) }
    {
        self.own.insert(author, clock)?;
        Ok(())
    }

    /// Whether an event of this author may come next at this clock.
    pub fn allow(&self, author: Option<Author>, clock: Moment) -> bool
        ensures { (stage : Stage) (past : List Event) (e : Event)
            → KeepsClocks stage past self.now → option_map actor author ≡ actor_of stage e.what
            → e.clock ≡ clock → Decides result (IsOnTime stage past e) }
    {
        if clock.0 < self.last {
            return false;
        }
        match author {
            None => true,
            Some(author) => match self.own.get(&author) {
                None => true,
                Some(own) => *own < clock.0,
            },
        }
    }

    /// Records an event of this author at this clock.
    pub fn observe(&mut self, author: Option<Author>, clock: Moment) -> Result<(), AllocError>
        ensures { (stage : Stage) (past : List Event) (e : Event)
            → KeepsClocks stage past self.old → option_map actor author ≡ actor_of stage e.what
            → e.clock ≡ clock → OnOk result (KeepsClocks stage (e ∷ past) self.new) }
    {
        self.last = clock.0;
        if let Some(author) = author {
            self.put(author, clock.0)?;
        }
        Ok(())
    }
}
