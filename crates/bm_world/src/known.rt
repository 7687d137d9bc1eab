//! The servers that a script knows.
ghost use Rattle.std.specs.Prelude.{◌≡◌, true, false, length, IfOk};
ghost use Rattle.bm_table.specs.Settings.{IsWithin, RiseFrom};
ghost use Rattle.bm_table.specs.Tables as tables;
ghost use Rattle.bm_table.specs.Tables.{is_add, is_among, is_known, next_change};
ghost use Rattle.bm_base.specs.declared.ids.ServerId.{ServerId as Id};

use bm_base::{Memory, ServerId, Version};
use bm_table::{Change, Kind, Plan, Script};
use std::alloc::Global;

fn is_one_of(ids: &[ServerId], id: ServerId) -> bool
    ensures { result ≡ is_among ids.now id }
{
    for other in ids {
        if other.0 == id.0 {
            return true;
        }
    }
    false
}

fn adds(change: &Change, id: ServerId) -> bool
    ensures { result ≡ is_add change.now.kind id }
{
    match change.kind {
        Kind::Add(added) => added.0 == id.0,
        Kind::Drain(_) | Kind::Shift => false,
    }
}

/// Whether the change that leads from version `v` to the next adds the server.
fn adds_after(plan: &Plan, v: Version, id: ServerId) -> bool
    ensures { result ≡ tables.adds (next_change plan.now v.0) id }
{
    match plan.next_change(v) {
        Some(change) => adds(change, id),
        None => false,
    }
}

/// Whether one of the plan's changes adds the server.
fn is_added(plan: &Plan, id: ServerId) -> bool
    requires { is_among plan.now.servers id ≡ false }
    ensures { result ≡ is_known plan.now (length plan.now.changes) id }
{
    for version in 0..plan.versions() {
        if adds_after(plan, Version(version), id) {
            return true;
        }
    }
    false
}

/// Whether the script knows the server once all its changes are published.
pub(crate) fn is_known_at_last(script: &Script, id: ServerId) -> bool
    requires { script.now.plan.servers ≡ script.now.setting.servers }
    ensures { result ≡ is_known script.now.plan (length script.now.plan.changes) id }
{
    is_one_of(script.setting.servers.items(), id) || is_added(&script.plan, id)
}

/// The servers that the script knows once all its changes are published, by their numbers.
pub(crate) fn known_servers(alloc: Global, script: &Script) -> Result<Vec<ServerId>, Memory>
    requires { script.now.plan.servers ≡ script.now.setting.servers }
    ensures rise { IfOk result (λ ids. RiseFrom 1 ids.items) }
    ensures known { IfOk result (λ ids. (id : Id) → IsWithin 1 1024 id.0
        → is_known script.now.plan (length script.now.plan.changes) id ≡ true
        → is_among ids.items id ≡ true) }
    ensures only { IfOk result (λ ids. (id : Id) → is_among ids.items id ≡ true
        → is_known script.now.plan (length script.now.plan.changes) id ≡ true) }
{
    let mut ids = Vec::new(alloc);
    for number in 1..1025 {
        if is_known_at_last(script, ServerId(number)) {
            ids.push(ServerId(number))?;
        }
    }
    Ok(ids)
}
