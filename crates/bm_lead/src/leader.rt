//! Worker 0, and what it keeps.
ghost use Rattle.std.specs.Prelude.{◌≡◌, [], List};
ghost use Rattle.bm_core.specs.declared.events.Stage.{Stage};
ghost use Rattle.bm_core.specs.Stages.{IsSound};
ghost use Rattle.bm_server.specs.Servings.{Serving};
ghost use Rattle.bm_publish.specs.Posts.{Posted};
ghost use Rattle.bm_lead.specs.Leaders.{Begins, IsReady};
ghost use Rattle.bm_lead.specs.Leads.{IsLed};

use bm_base::Version;
use bm_core::Event;
use bm_worker::Caller;
use std::alloc::Global;

/// Worker 0, which carries out the commands.
#[derive(Drop)]
pub struct Leader {
    /// Its seats. The greatest clock of what it did is the controller's clock.
    pub caller: Caller,
    /// The place of the next command, counted from 0.
    pub next: usize,
    /// How many versions are published.
    pub published: Version,
    /// The controller's log of Publishes and Syncs.
    pub log: Vec<Event>,
}

impl Leader {
    /// Worker 0 before the first command. Takes no memory.
    pub fn new(alloc: Global, caller: Caller) -> Leader
        ensures caller { result.caller ≡ caller }
        ensures next { result.next ≡ 0 }
        ensures published { result.published.0 ≡ 0 }
        ensures log { result.log.items ≡ [] }
        ensures ready { (stage : Stage) (servers : List Serving) (posted : Posted) → IsSound stage
            → Begins stage servers posted caller → IsReady stage servers posted result }
        ensures led { (stage : Stage) (servers : List Serving) (posted : Posted)
            → Begins stage servers posted caller → IsLed stage posted result [] }
    {
        Leader {
            caller,
            next: 0,
            published: Version(0),
            log: Vec::new(alloc),
        }
    }
}
