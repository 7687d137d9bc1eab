//! The servers of a script.
ghost use Rattle.std.specs.Prelude.{◌≡◌, ◌++◌, IfOk, OnOk};
ghost use Rattle.bm_table.specs.Tables.{next_change};
ghost use Rattle.bm_connections_cli.specs.Servers as spec;
ghost use Rattle.bm_connections_cli.specs.Inside.Servers as inside;

use bm_base::{ServerId, Version};
use bm_table::{Kind, Plan, Script};
use std::alloc::{AllocError, Global};

/// The servers that are there at the beginning, and then those that the script's changes add, in
/// order.
pub(crate) fn servers_of(alloc: Global, script: &Script) -> Result<Vec<ServerId>, AllocError>
    ensures { IfOk result (λ servers. servers.items ≡ spec.servers_of script.now) }
{
    let mut servers = Vec::from_slice(alloc, script.setting.servers.items())?;
    for version in 0..script.plan.versions() {
        push_added(&mut servers, &script.plan, Version(version))?;
    }
    Ok(servers)
}

/// Appends the server that the change after this version adds, if there is one.
fn push_added(servers: &mut Vec<ServerId>, plan: &Plan, v: Version) -> Result<(), AllocError>
    ensures { OnOk result (servers.new.items
        ≡ servers.old.items ++ inside.added_by (next_change plan.now v.0)) }
{
    if let Some(change) = plan.next_change(v) {
        push_kind(servers, change.kind)?;
    }
    Ok(())
}

/// Appends the server that a change of this kind adds, if it adds one.
fn push_kind(servers: &mut Vec<ServerId>, kind: Kind) -> Result<(), AllocError>
    ensures { OnOk result (servers.new.items ≡ servers.old.items ++ spec.added kind) }
{
    match kind {
        Kind::Add(server) => {
            servers.push(server)?;
        }
        Kind::Drain(_) | Kind::Shift => {}
    }
    Ok(())
}
