//! The commands of the script, one at a time.
ghost use Rattle.std.specs.Prelude.{◌≡◌, ℕ, ◌+◌, ◌*◌, ◌^◌, ◌<◌, ◌≤◌, ◌∷◌, ◌++◌, []};
ghost use Rattle.std.specs.Prelude.{length, List, slice_get, Some, Err, IfErr, OnOk, OnErr};
ghost use Rattle.bm_table.specs.declared.script.Command.TheVariants.{Change, Close, Retire};
ghost use Rattle.bm_core.specs.Stages.{IsSound};
ghost use Rattle.bm_merge.specs.Notes.{Note};
ghost use Rattle.bm_server.specs.Servings.{Serving};
ghost use Rattle.bm_publish.specs.Posts.{Posted};
ghost use Rattle.bm_worker.specs.declared.stop.Stop.TheVariants.{Memory as stopped};
ghost use Rattle.bm_lead.specs.Leaders.{IsReady, IsStopFrom, IsSyncCommand, OnLate};
ghost use Rattle.bm_lead.specs.Inside.Steps.{AreRetirings, CanCall, CarriesOut, HasCalled, IsKnown};

use crate::Leader;
use crate::clock::{clock_up_to, due_moment};
use bm_base::{Flow, LAST, Memory, Moment, ServerId, Version};
use bm_core::{Event, What};
use bm_publish::Poster;
use bm_table::{Command, Retirement, Script};
use bm_worker::{Caller, Shared, Stop, place_of};
use std::sync::Wait;

/// The place of a server that the script knows.
fn known_place<F, G>(shared: &Shared<'_, F, G>, id: ServerId) -> usize
    requires { IsKnown shared.now.stage id }
    ensures { (server : Serving) × (slice_get shared.now.servers result ≡ Some server)
        × (server.id ≡ id) }
{
    let Some(place) = place_of(shared.servers(), id) else {
        unreachable!()
    };
    place
}

/// Adds an event to the controller's log.
pub(crate) fn write_down(log: &mut Vec<Event>, clock: Moment, what: What) -> Result<(), Memory>
    ensures { OnOk result
        (log.new.items ≡ log.old.items ++ record { clock = clock; what = what } ∷ []) }
{
    log.push(Event { clock, what })?;
    Ok(())
}

/// Publishes the plan's next version. Late if its clock would be above LAST.
fn publish<R: Wait, F, G>(
    rt: &R,
    shared: &Shared<'_, F, G>,
    version: Version,
    poster: &mut Poster,
    leader: &mut Leader,
) -> Result<(), Stop>
    requires ready { IsReady shared.now.stage shared.now.servers poster.old leader.old }
    requires version { version.0 ≡ leader.old.published.0 + 1 }
    requires there { version.0 ≤ length shared.now.stage.script.plan.changes }
    ensures ok { OnOk result (CarriesOut shared.now.stage shared.now.servers poster.old poster.new
        leader.old leader.new (Change version)) }
    ensures late { OnLate result ((leader.new ≡ leader.old) × (poster.new ≡ poster.old)) }
    ensures stop { IfErr result (IsStopFrom (9 * 10 ^ 18) leader.old.caller.latest) }
{
    let change = shared.stage().script.plan.copy_change(version)?;
    let clock = clock_up_to(LAST, leader.caller.latest(), change.moment)?;
    poster.post(rt, change, clock)?;
    write_down(&mut leader.log, clock, What::Publish(version))?;
    leader.caller.see(clock);
    leader.published = version;
    Ok(())
}

/// A server ends a connection. Late if the moment would be above LAST.
fn close<R: Wait, F, G>(
    rt: &R,
    shared: &Shared<'_, F, G>,
    at: Moment,
    server: ServerId,
    flow: Flow,
    leader: &mut Leader,
) -> Result<(), Stop>
    requires at { at.0 ≤ 9 * 10 ^ 18 }
    requires known { IsKnown shared.now.stage server }
    requires can { CanCall shared.now.servers 1 leader.old.caller }
    ensures ok { (p : Posted) → OnOk result (CarriesOut shared.now.stage shared.now.servers p p
        leader.old leader.new (Close at server flow)) }
    ensures late { OnLate result (leader.new ≡ leader.old) }
    ensures stop { IfErr result (IsStopFrom (9 * 10 ^ 18) leader.old.caller.latest) }
{
    let due = due_moment(at, leader.caller.latest())?;
    let place = known_place(shared, server);
    let _closed = leader.caller.close(rt, shared.servers(), place, flow, due)?;
    Ok(())
}

/// Asks all shards of a server to retire, one after another.
fn retire_shards<R: Wait, F, G>(
    rt: &R,
    shared: &Shared<'_, F, G>,
    place: usize,
    at: Moment,
    outcome: Retirement,
    caller: &mut Caller,
) -> Result<(), Stop>
    requires place { place < length shared.now.servers }
    requires at { at.0 ≤ 9 * 10 ^ 18 }
    requires can { CanCall shared.now.servers 64 caller.old }
    ensures ok { (i : ℕ) (server : Serving) → slice_get shared.now.servers place ≡ Some server
        → OnOk result ((notes : List Note)
        × AreRetirings i server.id at outcome shared.now.stage.script.setting.shards notes
        × HasCalled shared.now.stage shared.now.servers 64 caller.old caller.new notes) }
    ensures stop { OnErr result (result ≡ Err stopped) }
{
    for shard in 0..shared.stage().script.setting.shards {
        caller.retire(rt, shared.servers(), place, shard, at, outcome)?;
    }
    Ok(())
}

/// Asks a server to retire: each of its shards gets the answer by the versions that are published.
/// Late if the moment would be above LAST.
fn retire<R: Wait, F, G>(
    rt: &R,
    shared: &Shared<'_, F, G>,
    at: Moment,
    server: ServerId,
    leader: &mut Leader,
) -> Result<(), Stop>
    requires at { at.0 ≤ 9 * 10 ^ 18 }
    requires known { IsKnown shared.now.stage server }
    requires published { leader.old.published.0 ≤ length shared.now.stage.script.plan.changes }
    requires can { CanCall shared.now.servers 64 leader.old.caller }
    ensures ok { (p : Posted) → OnOk result (CarriesOut shared.now.stage shared.now.servers p p
        leader.old leader.new (Retire at server)) }
    ensures late { OnLate result (leader.new ≡ leader.old) }
    ensures stop { IfErr result (IsStopFrom (9 * 10 ^ 18) leader.old.caller.latest) }
{
    let due = due_moment(at, leader.caller.latest())?;
    let Script { setting, plan, .. } = &shared.stage().script;
    let outcome = plan.retirement(leader.published, server, due, setting.timeout);
    let place = known_place(shared, server);
    retire_shards(rt, shared, place, due, outcome, &mut leader.caller)?;
    Ok(())
}

/// Carries out one command, which isn't a sync.
pub(crate) fn carry_out<R: Wait, F, G>(
    rt: &R,
    shared: &Shared<'_, F, G>,
    command: Command,
    poster: &mut Poster,
    leader: &mut Leader,
) -> Result<(), Stop>
    requires sound { IsSound shared.now.stage }
    requires ready { IsReady shared.now.stage shared.now.servers poster.old leader.old }
    requires command { slice_get shared.now.stage.script.commands leader.old.next ≡ Some command }
    requires no_sync { IsSyncCommand (Some command) → ⊥ }
    ensures ok { OnOk result (CarriesOut shared.now.stage shared.now.servers poster.old poster.new
        leader.old leader.new command) }
    ensures late { OnLate result ((leader.new ≡ leader.old) × (poster.new ≡ poster.old)) }
    ensures stop { IfErr result (IsStopFrom (9 * 10 ^ 18) leader.old.caller.latest) }
{
    match command {
        Command::Change(version) => publish(rt, shared, version, poster, leader),
        Command::Close { at, server, flow } => close(rt, shared, at, server, flow, leader),
        Command::Retire { at, server } => retire(rt, shared, at, server, leader),
        Command::Sync { .. } => unreachable!(),
    }
}
