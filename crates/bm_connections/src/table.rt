//! The table of a history's connections.
ghost use Rattle.std.specs.Prelude.{◌≡◌, IfOk};
ghost use Rattle.bm_core.specs.Runs.{IsRun};
ghost use Rattle.bm_trace.specs.Swept.{AreCauses};
ghost use Rattle.bm_connections.specs.Connections as spec;

use crate::connection::Connection;
use crate::observed::observe_events;
use crate::seen::see_records;
use bm_base::{List, Memory};
use bm_core::History;
use bm_trace::CauseList;
use std::alloc::Global;

/// A connection for each flow of the capture, in the order of their first packets, with the causes
/// of the history's events.
pub fn connections(
    alloc: Global,
    h: &History,
    causes: &CauseList,
) -> Result<List<Connection>, Memory>
    requires run { IsRun h.now }
    requires causes { AreCauses h.now causes.now }
    ensures { IfOk result (λ list. list ≡ spec.connections h.now) }
{
    let rows = see_records(alloc, h.stage.capture.records.items())?;
    Ok(List::of(observe_events(alloc, rows, h, causes)?))
}
