//! The fault tables of a script.
ghost use Rattle.std.specs.Prelude.{◌≤◌, length};
ghost use Rattle.bm_script.specs.Commands as commands;
ghost use Rattle.bm_script.specs.Faults as faults;
ghost use Rattle.toml.specs.View.{items_view, table_view};

use crate::key::only_keys;
use crate::value::{required_hop, required_number};
use crate::{Key, Place, ScriptFault};
use bm_base::{Fate, List};
use bm_table::FaultRow;
use std::alloc::Global;
use toml::{Table, Value};

/// The keys of a fault table.
const ROW_KEYS: [Key; 4] = [Key::Packet, Key::Hop, Key::Copies, Key::Delay];

/// The longest delay of an impairment, in nanoseconds.
const MAX_DELAY: u64 = 60_000_000_000;

pub(crate) fn read_rows(alloc: Global, tables: &[Value]) -> Result<List<FaultRow>, ScriptFault>
    requires { length tables.now ≤ 4096 }
    ensures { faults.Gives result (commands.rows_from 1 (items_view tables.now)) }
{
    let mut rows = Vec::new(alloc);
    let mut number = 1;
    for value in tables {
        let Some(table) = value.as_table() else {
            return Err(ScriptFault::BadValue(Place::Top, Key::Fault));
        };
        rows.push(read_row(alloc, number, table)?)?;
        number += 1;
    }
    Ok(List::of(rows))
}

fn read_row(alloc: Global, number: u32, table: &Table) -> Result<FaultRow, ScriptFault>
    ensures { faults.Gives result (commands.row_of number (table_view table.now)) }
{
    let place = Place::Fault(number);
    only_keys(alloc, table, place, 1, &ROW_KEYS)?;
    let packet = required_number(table, place, Key::Packet, 1, 200_000)?;
    let hop = required_hop(table, place)?;
    let copies = required_number(table, place, Key::Copies, 0, 3)?;
    let delay = required_number(table, place, Key::Delay, 0, MAX_DELAY)?;
    Ok(FaultRow {
        packet: packet as u32,
        hop,
        fate: Fate {
            copies: copies as u8,
            delay,
        },
    })
}
