//! Where a phase ends.
ghost use Rattle.std.specs.Prelude.{◌≡◌, ℕ, ◌<◌, ◌≤◌, length, slice_get, Some, IfNone, IfSome};
ghost use Rattle.bm_base.specs.declared.capture.Record.{Record as Recorded};
ghost use Rattle.bm_core.specs.Accounts.{wants_sync};
ghost use Rattle.bm_table.specs.declared.script.Command.TheVariants.{Sync};
ghost use Rattle.bm_lead.specs.Leaders.{IsPhase, IsSyncCommand};

use bm_base::{Moment, Record};
use bm_table::Command;

/// The place of the first sync from a place on, or the place after the last command.
pub(crate) fn sync_place(commands: &[Command], from: usize) -> usize
    requires { from ≤ length commands.now }
    ensures phase { IsPhase commands.now from result }
    ensures sync { result < length commands.now → IsSyncCommand (slice_get commands.now result) }
{
    let mut place = from;
    while place < commands.len() && !is_sync(commands[place]) {
        place += 1;
    }
    place
}

fn is_sync(command: Command) -> bool
    ensures { result ≡ wants_sync command }
{
    matches!(command, Command::Sync { .. })
}

/// The moment of the sync at the place, if there is one.
pub(crate) fn sync_at(commands: &[Command], place: usize) -> Option<Moment>
    ensures some { IfSome result (λ at. slice_get commands.now place ≡ Some (Sync at)) }
    ensures none { IfNone result (IsSyncCommand (slice_get commands.now place) → ⊥) }
{
    match commands.get(place) {
        Some(Command::Sync { at }) => Some(*at),
        _ => None,
    }
}

/// The place of the first record from a place on that is no earlier than the moment, or the place
/// after the last record.
pub(crate) fn record_place(records: &[Record], from: u32, at: Moment) -> u32
    requires within { from ≤ length records.now }
    requires few { length records.now ≤ 200000 }
    ensures order { (from ≤ result) × (result ≤ length records.now) }
    ensures earlier { (i : ℕ) (r : Recorded) → from ≤ i → i < result
        → slice_get records.now i ≡ Some r → r.moment.0 < at.0 }
    ensures later { (r : Recorded) → slice_get records.now result ≡ Some r → at.0 ≤ r.moment.0 }
{
    let mut place = from;
    while (place as usize) < records.len() && records[place as usize].moment < at {
        place += 1;
    }
    place
}
