//! What is told of a history apart from its connections.
ghost use Rattle.std.specs.Prelude.{◌≡◌, IfOk};
ghost use Rattle.bm_core.specs.Runs.{IsRun};
ghost use Rattle.bm_trace.specs.Swept.{AreCauses};
ghost use Rattle.bm_connections.specs.AfterEnd.{after_end};
ghost use Rattle.bm_connections.specs.Connections.{connections};
ghost use Rattle.bm_connections.specs.Counts.{causes_in, server_counts};
ghost use Rattle.bm_connections.specs.Replies.{replies};

use crate::after_end::{AfterEnd, connections_after_end};
use crate::connection::Connection;
use crate::counters::Counters;
use crate::counts::{CauseCount, causes_in};
use crate::servers::{ServerCount, server_counts};
use bm_base::{List, Memory, ServerId};
use bm_core::{Event, History};
use bm_trace::CauseList;
use std::alloc::Global;

/// The counts of the causes that occur and of some servers, of the packets that come after their
/// connection's end, and the replies to `close` and `retire`.
#[derive(Drop)]
pub struct Summary {
    pub causes: List<CauseCount>,
    pub servers: List<ServerCount>,
    pub after_end: AfterEnd,
    pub replies: List<Event>,
}

/// The summary of a history with these causes and this table of connections: of causes in a fixed
/// order, and of these servers in theirs. It goes over the events once. `Memory` where memory was
/// refused.
pub fn summary_of(
    alloc: Global,
    h: &History,
    causes: &CauseList,
    table: &[Connection],
    servers: &[ServerId],
) -> Result<Summary, Memory>
    requires run { IsRun h.now }
    requires causes { AreCauses h.now causes.now }
    requires table { table.now ≡ connections h.now }
    ensures causes { IfOk result (λ summary. summary.causes ≡ causes_in h.now) }
    ensures servers { IfOk result (λ summary. summary.servers ≡ server_counts h.now servers.now) }
    ensures after_end { IfOk result (λ summary. summary.after_end ≡ after_end h.now) }
    ensures replies { IfOk result (λ summary. summary.replies ≡ replies h.now) }
{
    let counters = Counters::of(alloc, h, causes)?;
    let occurring = causes_in(alloc, &counters.packets, table)?;
    let served = server_counts(alloc, &h.stage, &counters.loads, &counters.held, servers)?;
    let after_end = AfterEnd {
        packets: counters.after_end,
        connections: connections_after_end(table),
    };
    Ok(Summary {
        causes: List::of(occurring),
        servers: List::of(served),
        after_end,
        replies: List::of(counters.replies),
    })
}
