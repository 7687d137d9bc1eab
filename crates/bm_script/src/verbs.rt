//! What the commands that change the table say, in the script's own words.
ghost use Rattle.std.specs.Prelude.{◌≡◌, ◌++◌, IfOk, IfErr, OnOk, option_to_list};
ghost use Rattle.bm_script.specs.Faults.{Gives, IsOfScript};
ghost use Rattle.bm_script.specs.Values as values;
ghost use Rattle.bm_script.specs.Verbs as spec;
ghost use Rattle.bm_script.specs.declared.key.Key.TheVariants as key_;
ghost use Rattle.bm_table.specs.Scripts.{IsSoundScript};
ghost use Rattle.toml.specs.Data.{as_table};
ghost use Rattle.toml.specs.View.{items_view, table_view, view};

use crate::commands::{Verb, verb_of};
use crate::script::{read_table, read_tree};
use crate::top::{command_tables, version_of};
use crate::value::{find, number, weight};
use crate::{Key, ScriptFault};
use bm_base::{List, ServerId};
use bm_table::Script;
use std::alloc::{AllocError, Global};
use toml::{Table, Value};

/// What a command that changes the table says.
#[derive(Clone, Copy, PartialEq, Eq)]
pub enum ChangeVerb {
    Add(ServerId),
    Drain(ServerId),
    Move { bucket: u32, to: ServerId },
    Weight { server: ServerId, weight: u32 },
}

/// A script, and for each change of its plan what the command says that made it.
#[derive(Drop)]
pub struct WordedScript {
    pub script: Script,
    pub verbs: List<ChangeVerb>,
}

/// Reads a script as `read_script` does, and what its commands say that they change.
pub fn read_worded_script(alloc: Global, text: &[u8]) -> Result<WordedScript, ScriptFault>
    ensures gives { Gives result (spec.worded_script_of text.now) }
    ensures sound { IfOk result (λ read. IsSoundScript read.script) }
    ensures done { IfOk result (λ read. spec.AreDoneBy read.verbs read.script.plan.changes) }
    ensures refusals { IfErr result IsOfScript }
{
    let table = read_table(alloc, text)?;
    let script = read_tree(alloc, &table)?;
    let verbs = verb_list(alloc, version_of(&table), tables_of(&table))?;
    Ok(WordedScript { script, verbs })
}

/// The tables of the commands; none where they have a fault.
fn tables_of(table: &Table) -> &[Value]
    ensures { items_view result.now ≡ spec.commands_in (table_view table.now) }
{
    command_tables(table).unwrap_or(&[])
}

/// What the commands of these tables say that they change.
fn verb_list(alloc: Global, version: u8, tables: &[Value]) -> Result<List<ChangeVerb>, AllocError>
    ensures { IfOk result (λ verbs. verbs ≡ spec.verbs_in version (items_view tables.now)) }
{
    let mut verbs = Vec::new(alloc);
    for value in tables {
        add(&mut verbs, verb_in(version, value))?;
    }
    Ok(List::of(verbs))
}

fn add(verbs: &mut Vec<ChangeVerb>, verb: Option<ChangeVerb>) -> Result<(), AllocError>
    ensures { OnOk result (verbs.new.items ≡ verbs.old.items ++ option_to_list verb) }
{
    match verb {
        Some(verb) => {
            verbs.push(verb)?;
            Ok(())
        }
        None => Ok(()),
    }
}

/// What the command of this table says that it changes.
fn verb_in(version: u8, value: &Value) -> Option<ChangeVerb>
    ensures { result ≡ values.◌>>=◌ (as_table (view value.now)) (spec.change_verb version) }
{
    change_verb(version, value.as_table()?)
}

fn change_verb(version: u8, table: &Table) -> Option<ChangeVerb>
    ensures { result ≡ spec.change_verb version (table_view table.now) }
{
    let verb = verb_of(version, find(table, Key::Do)?)?;
    said(verb, table)
}

/// What a command with this verb says that it changes; None for one that changes no table.
fn said(verb: Verb, table: &Table) -> Option<ChangeVerb>
    ensures { result ≡ spec.said verb (table_view table.now) }
{
    match verb {
        Verb::Add => Some(ChangeVerb::Add(server(table)?)),
        Verb::Drain => Some(ChangeVerb::Drain(server(table)?)),
        Verb::Move => {
            let bucket = number(find(table, Key::Bucket)?, 0, 65_535)? as u32;
            let to = server(table)?;
            Some(ChangeVerb::Move { bucket, to })
        }
        Verb::Weigh => {
            let server = server(table)?;
            let weight = weight(find(table, Key::Weight)?)?;
            Some(ChangeVerb::Weight { server, weight })
        }
        Verb::Close | Verb::Retire | Verb::Sync => None,
    }
}

/// The number of a server.
fn server(table: &Table) -> Option<ServerId>
    ensures { result ≡ spec.found key_.Server values.server (table_view table.now) }
{
    let n = number(find(table, Key::Server)?, 1, 1_024)?;
    Some(ServerId(n as u16))
}
