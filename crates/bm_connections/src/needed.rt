//! The changes and the servers that have a need.
ghost use Rattle.std.specs.Prelude.{◌≡◌, ◌++◌, ℕ, List, flat_map, OnOk, IfOk};
ghost use Rattle.bm_core.specs.declared.events.Event.{Event};
ghost use Rattle.bm_connections.specs.Inside.Needs.{need_in, server_in};
ghost use Rattle.bm_connections.specs.Needed as spec;

use crate::needs::{LongestNeeds, Need};
use bm_base::ServerId;
use bm_core::Stage;
use std::alloc::{AllocError, Global};

/// A change, and the longest time after it that a packet was still forwarded because of it.
#[derive(Clone, Copy, PartialEq, Eq)]
pub struct NeededChange {
    pub change: u32,
    pub need: Need,
}

/// A server that retired, and the longest time after that at which a packet still came whose
/// connection the server would have held.
#[derive(Clone, Copy, PartialEq, Eq)]
pub struct NeededServer {
    pub server: ServerId,
    pub need: Need,
}

/// Appends the change of this number, if it has a need.
fn push_change(
    list: &mut Vec<NeededChange>,
    change: u32,
    need: Option<Need>,
) -> Result<(), AllocError>
    ensures { OnOk result (list.new.items ≡ list.old.items ++ spec.as_change change need) }
{
    if let Some(need) = need {
        list.push(NeededChange { change, need })?;
    }
    Ok(())
}

/// Those of the plan's changes that have a need.
pub(crate) fn needed_changes(
    alloc: Global,
    stage: &Stage,
    needs: &LongestNeeds,
) -> Result<Vec<NeededChange>, AllocError>
    ensures { (past : List Event)
        → ((n : ℕ) → need_in needs.now n ≡ spec.longest_of_change stage.now past n)
        → IfOk result (λ list. list.items ≡ spec.all_changes stage.now past) }
{
    let mut list = Vec::new(alloc);
    for before in 0..stage.script.plan.versions() {
        let change = before + 1;
        push_change(&mut list, change, needs.get(change))?;
    }
    Ok(list)
}

/// Appends the server, if it has a need.
fn push_server(
    list: &mut Vec<NeededServer>,
    needs: &LongestNeeds,
    server: ServerId,
) -> Result<(), AllocError>
    ensures { OnOk result (list.new.items ≡ list.old.items ++ server_in needs.now server) }
{
    if let Some(need) = needs.get(u32::from(server.0)) {
        list.push(NeededServer { server, need })?;
    }
    Ok(())
}

/// Those of these servers that have a need.
pub(crate) fn needed_servers(
    alloc: Global,
    servers: &[ServerId],
    needs: &LongestNeeds,
) -> Result<Vec<NeededServer>, AllocError>
    ensures { IfOk result (λ list. list.items ≡ flat_map (server_in needs.now) servers.now) }
{
    let mut list = Vec::new(alloc);
    for server in servers {
        push_server(&mut list, needs, *server)?;
    }
    Ok(list)
}
