//! How long the old servers are needed, which third changes came too soon, and which packets too
//! late.
ghost use Rattle.std.specs.Prelude.{◌≡◌, IfOk};
ghost use Rattle.bm_core.specs.Runs.{IsRun};
ghost use Rattle.bm_trace.specs.Swept.{AreCauses};
ghost use Rattle.bm_connections.specs.Late.{longest_late};
ghost use Rattle.bm_connections.specs.Needed.{needed_changes, needed_servers};
ghost use Rattle.bm_connections.specs.Thrice.{moved_thrice};

use crate::all_needs::AllNeeds;
use crate::late::{LongestLate, as_late};
use crate::needed::{NeededChange, NeededServer, needed_changes, needed_servers};
use crate::thrice::{MovedThrice, moved_thrice};
use bm_base::{List, Memory, ServerId};
use bm_core::History;
use bm_trace::CauseList;
use std::alloc::Global;

/// The longest wait of the packets that came too late, if there are any, the changes that packets
/// were forwarded after, the third changes that came too soon, and the servers that retired too soon.
#[derive(Drop)]
pub struct Needs {
    pub late: Option<LongestLate>,
    pub changes: List<NeededChange>,
    pub thirds: List<MovedThrice>,
    pub servers: List<NeededServer>,
}

/// How long the old servers are needed in a history with these causes, which third changes came too
/// soon, and how late packets came: of retirements those of these servers. It goes over the records
/// and the events once.
/// `Memory` where memory was refused.
pub fn needs_of(
    alloc: Global,
    h: &History,
    causes: &CauseList,
    servers: &[ServerId],
) -> Result<Needs, Memory>
    requires run { IsRun h.now }
    requires causes { AreCauses h.now causes.now }
    ensures late { IfOk result (λ needs. needs.late ≡ longest_late h.now) }
    ensures changes { IfOk result (λ needs. needs.changes ≡ needed_changes h.now) }
    ensures thirds { IfOk result (λ needs. needs.thirds ≡ moved_thrice h.now) }
    ensures servers { IfOk result
        (λ needs. needs.servers ≡ needed_servers h.now servers.now) }
{
    let all = AllNeeds::of(alloc, h, causes)?;
    let changes = needed_changes(alloc, &h.stage, &all.changes)?;
    let thirds = moved_thrice(alloc, all.followed.stamps.moves(), &h.stage, &all.thirds)?;
    let retired = needed_servers(alloc, servers, &all.servers)?;
    Ok(Needs {
        late: as_late(all.late),
        changes: List::of(changes),
        thirds: List::of(thirds),
        servers: List::of(retired),
    })
}
