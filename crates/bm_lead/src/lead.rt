//! The commands of a phase, and the Sync after them.
ghost use Rattle.std.specs.Prelude.{◌≡◌, ◌+◌, ◌*◌, ◌^◌, ◌<◌, ◌≤◌, length, List};
ghost use Rattle.std.specs.Prelude.{slice_get, Some, IfErr, OnOk};
ghost use Rattle.bm_table.specs.declared.script.Command.TheVariants.{Sync};
ghost use Rattle.bm_core.specs.Stages.{IsSound};
ghost use Rattle.bm_server.specs.Servings.{Serving};
ghost use Rattle.bm_publish.specs.Posts.{Posted};
ghost use Rattle.bm_worker.specs.WorkerNotes.{AreServersOf};
ghost use Rattle.bm_lead.specs.Leaders.{IsPhase, IsReady, IsStopFrom, IsSyncCommand, OnLate};
ghost use Rattle.bm_lead.specs.Leaders.{UnlessMemory};
ghost use Rattle.bm_lead.specs.Leads.{HasLed, HasSynced};

use crate::Leader;
use crate::clock::clock_up_to;
use crate::command::{carry_out, write_down};
use bm_base::{LAST, Moment};
use bm_core::{Stage, What};
use bm_io::Gate;
use bm_publish::Poster;
use bm_table::Command;
use bm_worker::{Shared, Stop};
use std::sync::Wait;

/// Carries out the next command, which isn't a sync.
fn lead_next<R: Wait, F, G: Gate>(
    rt: &R,
    shared: &Shared<'_, F, G>,
    poster: &mut Poster,
    leader: &mut Leader,
) -> Result<(), Stop>
    requires ready { IsReady shared.now.stage shared.now.servers poster.old leader.old }
    requires there { leader.old.next < length shared.now.stage.script.commands }
    requires no_sync { IsSyncCommand (slice_get shared.now.stage.script.commands leader.old.next)
        → ⊥ }
    ensures led { UnlessMemory result (HasLed shared.now.stage shared.now.servers poster.old
        poster.new leader.old leader.new) }
    ensures next { OnOk result (leader.new.next ≡ leader.old.next + 1) }
    ensures stop { IfErr result (IsStopFrom (9 * 10 ^ 18) leader.new.caller.latest) }
{
    let place = leader.next;
    let commands = shared.stage().script.commands.items();
    shared.come_to_gate(0, place as u32 + 1);
    carry_out(rt, shared, commands[place], poster, leader)?;
    leader.next += 1;
    Ok(())
}

/// Carries out the commands of a phase: from the next one on, those whose places are below `until`,
/// where there is a sync or no command. Right before each it comes to the gate. `Late` if a moment
/// would be above LAST; the commands before it are then carried out. `Memory` where memory was
/// refused. It may wait.
pub fn lead_phase<R: Wait, F, G: Gate>(
    rt: &R,
    shared: &Shared<'_, F, G>,
    poster: &mut Poster,
    leader: &mut Leader,
    until: usize,
) -> Result<(), Stop>
    requires ready { IsReady shared.now.stage shared.now.servers poster.old leader.old }
    requires phase { IsPhase shared.now.stage.script.commands leader.old.next until }
    ensures led { UnlessMemory result (HasLed shared.now.stage shared.now.servers poster.old
        poster.new leader.old leader.new) }
    ensures next { OnOk result (leader.new.next ≡ until) }
    ensures stop { IfErr result (IsStopFrom (9 * 10 ^ 18) leader.new.caller.latest) }
{
    while leader.next < until {
        lead_next(rt, shared, poster, leader)?;
    }
    Ok(())
}

fn sync_moment(commands: &[Command], place: usize) -> Moment
    requires there { place < length commands.now }
    requires sync { IsSyncCommand (slice_get commands.now place) }
    ensures { slice_get commands.now place ≡ Some (Sync result) }
{
    match commands[place] {
        Command::Sync { at } => at,
        _ => unreachable!(),
    }
}

/// All workers have done the phase, and `greatest` is the greatest clock of what they did. Logs the
/// Sync that is the next command. `Late` if its clock would be above LAST; then nothing changes.
/// `Memory` where memory was refused.
pub fn sync(stage: &Stage, leader: &mut Leader, greatest: Moment) -> Result<(), Stop>
    requires sound { IsSound stage.now }
    requires sync { IsSyncCommand (slice_get stage.now.script.commands leader.old.next) }
    requires greatest { leader.old.caller.latest ≤ greatest.0 }
    ensures synced { (servers : List Serving) (posted : Posted) → AreServersOf stage.now servers
        → IsReady stage.now servers posted leader.old
        → OnOk result (HasSynced stage.now servers posted greatest.0 leader.old leader.new) }
    ensures late { OnLate result (leader.new ≡ leader.old) }
    ensures stop { IfErr result (IsStopFrom (9 * 10 ^ 18) greatest.0) }
{
    let at = sync_moment(stage.script.commands.items(), leader.next);
    let clock = clock_up_to(LAST, greatest, at)?;
    write_down(&mut leader.log, clock, What::Sync)?;
    leader.caller.see(clock);
    leader.next += 1;
    Ok(())
}
