//! The reader of a script.
ghost use Rattle.std.specs.Prelude.{◌≡◌, ◌≢◌, Some, None, IfOk, IfErr};
ghost use Rattle.bm_controller.specs.Membership.{KeepsMembership};
ghost use Rattle.bm_script.specs.Faults.{Gives, IsOfScript};
ghost use Rattle.bm_script.specs.Scripts.{script_in, script_of, script_with, tree_of};
ghost use Rattle.bm_script.specs.declared.fault.ScriptFault.TheVariants.{Memory as memory, NotToml};
ghost use Rattle.bm_table.specs.Scripts.{IsSoundScript};
ghost use Rattle.toml.specs.View.{table_view};

use crate::commands::read_commands;
use crate::key::only_keys;
use crate::rows::read_rows;
use crate::top::{Opening, command_tables, fault_tables, read_opening, version_of};
use crate::{Key, Place, ScriptFault};
use bm_table::Script;
use std::alloc::Global;
use toml::Table;

/// The keys at the top of a script.
const TOP_KEYS: [Key; 14] = [
    Key::Version,
    Key::Buckets,
    Key::Servers,
    Key::Weights,
    Key::Racks,
    Key::Muxes,
    Key::Shards,
    Key::Capacity,
    Key::Timeout,
    Key::Vips,
    Key::Route,
    Key::Lags,
    Key::Fault,
    Key::Command,
];

/// Reads a script. A fault is the first in the order of the checks: the text, unknown keys at the
/// top, the top keys, the fault tables, the commands. `Memory` may come in place of any result.
pub fn read_script(alloc: Global, text: &[u8]) -> Result<Script, ScriptFault>
    ensures gives { Gives result (script_of text.now) }
    ensures sound { IfOk result IsSoundScript }
    ensures refusals { IfErr result IsOfScript }
{
    let table = read_table(alloc, text)?;
    read_tree(alloc, &table)
}

/// The top table of the text.
pub(crate) fn read_table(alloc: Global, text: &[u8]) -> Result<Table, ScriptFault>
    ensures ok { IfOk result (λ table. tree_of text.now ≡ Some (table_view table)) }
    ensures err { IfErr result
        (λ fault. fault ≢ memory → (fault ≡ NotToml) × (tree_of text.now ≡ None)) }
    ensures refusals { IfErr result IsOfScript }
{
    match std::str::from_utf8(text) {
        Ok(text) => match toml::table_from_str(alloc, text) {
            Ok(table) => Ok(table),
            Err(e) if e.is_memory() => Err(ScriptFault::Memory),
            Err(_) => Err(ScriptFault::NotToml),
        },
        Err(_) => Err(ScriptFault::NotToml),
    }
}

/// The script that a table describes.
pub(crate) fn read_tree(alloc: Global, table: &Table) -> Result<Script, ScriptFault>
    ensures gives { Gives result (script_in (table_view table.now)) }
    ensures membership { IfOk result (λ script. KeepsMembership script.plan) }
{
    read_with(alloc, version_of(table), table)
}

/// The script that a table describes, with its keys judged by this version.
fn read_with(alloc: Global, version: u8, table: &Table) -> Result<Script, ScriptFault>
    ensures gives { Gives result (script_with version (table_view table.now)) }
    ensures membership { IfOk result (λ script. KeepsMembership script.plan) }
{
    only_keys(alloc, table, Place::Top, version, &TOP_KEYS)?;
    let opening = read_opening(alloc, table)?;
    let fault_tables = fault_tables(table)?;
    let command_tables = command_tables(table)?;
    let rows = read_rows(alloc, fault_tables)?;
    let (plan, commands) = read_commands(alloc, version, &opening, command_tables)?;
    let Opening {
        mut setting,
        weights: _,
    } = opening;
    setting.faults = rows;
    Ok(Script {
        setting,
        plan,
        commands,
    })
}
