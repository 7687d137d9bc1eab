//! The events of a replay so far.
ghost use Rattle.std.specs.Prelude.{◌≡◌, ◌++◌, ◌∷◌, [], IfOk, OnOk};

use bm_base::{List, Memory};
use bm_core::Event;
use std::alloc::Global;
use std::marker::Model;

/// The events so far, which contracts see as a list.
#[derive(Drop)]
pub(crate) struct Events {
    items: Vec<Event>,
}

impl Model for Events {
    ghost use Rattle.std.specs.Prelude.{List};
    ghost use Rattle.bm_core.specs.declared.events.Event.{Event};

    ghost Value = { List Event };

    ghost view = { λ events. events.items.items };
}

impl Events {
    /// No events, with room for this many.
    pub(crate) fn with_room(alloc: Global, room: usize) -> Result<Events, Memory>
        ensures { IfOk result (λ events. events ≡ []) }
    {
        Ok(Events {
            items: Vec::with_capacity(alloc, room)?,
        })
    }

    /// Adds an event.
    pub(crate) fn push(&mut self, event: Event) -> Result<(), Memory>
        ensures { OnOk result (self.new ≡ self.old ++ event ∷ []) }
    {
        self.items.push(event)?;
        Ok(())
    }

    /// The events, as a list.
    pub(crate) fn into_list(self) -> List<Event>
        ensures { result ≡ self }
    {
        List::of(self.items)
    }
}
