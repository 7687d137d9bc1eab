//! The impairments of a setting, found by packet and hop.
ghost use Rattle.std.specs.Prelude.{◌≡◌, ◌==◌, ℕ, IfOk, Some, None, if◌then◌else◌, unwrap_or};
ghost use Rattle.std.specs.BTreeMap.{get};
ghost use Rattle.std.specs.Ordering.{nat_cmp};
ghost use Rattle.bm_fault.specs.Rows.{fate_in, plain_fate};
ghost use Rattle.bm_fault.specs.Inside.Rows.{fate_or, found_in, row_fate};

use bm_base::{Fate, Hop, Memory};
use bm_table::FaultRow;
use std::alloc::Global;
use std::collections::BTreeMap;
use std::marker::Model;

/// One copy without delay.
const PLAIN: Fate = Fate {
    copies: 1,
    delay: 0,
};

/// Impairments, at most one for each packet and hop.
#[derive(Drop)]
pub struct FaultRows {
    direct: BTreeMap<u32, Fate>,
    chained: BTreeMap<u32, Fate>,
    twice: BTreeMap<u32, Fate>,
}

impl Model for FaultRows {
    ghost use Rattle.std.specs.Prelude.{List};
    ghost use Rattle.bm_table.specs.declared.setting.FaultRow.{FaultRow as Row};

    ghost Value = { List Row };

    ghost use Rattle.bm_fault.specs.Views.{rows_of};

    ghost view = { rows_of };
}

impl FaultRows {
    /// The rows that count: of two with the same packet and hop, the first. `Memory` where memory
    /// was refused. Takes time in proportion to n log n, which isn't proved.
    pub fn new(alloc: Global, rows: &[FaultRow]) -> Result<FaultRows, Memory>
        ensures { IfOk result
            (λ kept. (packet : ℕ) (hop : _)
            → fate_in kept packet hop ≡ fate_in rows.now packet hop) }
    {
        let mut kept = FaultRows {
            direct: BTreeMap::new(alloc),
            chained: BTreeMap::new(alloc),
            twice: BTreeMap::new(alloc),
        };
        for row in rows {
            kept.add(row)?;
        }
        Ok(kept)
    }

    /// Adds a row, unless there is one with its packet and hop.
    fn add(&mut self, row: &FaultRow) -> Result<(), Memory>
        ensures { IfOk result
            (λ _. (packet : ℕ) (hop : _)
            → found_in self.new packet hop ≡ fate_or (found_in self.old packet hop)
            (row_fate row.now packet hop)) }
    {
        match row.hop {
            Hop::Direct => add_fate(&mut self.direct, row.packet, row.fate),
            Hop::Chained => add_fate(&mut self.chained, row.packet, row.fate),
            Hop::Twice => add_fate(&mut self.twice, row.packet, row.fate),
        }
    }

    /// The fate in the first row of the packet and hop, or else one copy without delay. Takes time
    /// in proportion to log n, which isn't proved.
    pub fn fate(&self, packet: u32, hop: Hop) -> Fate
        ensures { result ≡ fate_in self.now packet hop }
    {
        match hop {
            Hop::Direct => fate_of(&self.direct, packet),
            Hop::Chained => fate_of(&self.chained, packet),
            Hop::Twice => fate_of(&self.twice, packet),
        }
    }
}

/// The packet's fate, or one copy without delay.
fn fate_of(fates: &BTreeMap<u32, Fate>, packet: u32) -> Fate
    ensures { result ≡ unwrap_or (get nat_cmp fates.now packet) plain_fate }
{
    fates.get(&packet).copied().unwrap_or(PLAIN)
}

/// Adds a packet's fate, unless the packet has one.
fn add_fate(fates: &mut BTreeMap<u32, Fate>, packet: u32, fate: Fate) -> Result<(), Memory>
    ensures { IfOk result
        (λ _. (k : ℕ)
        → get nat_cmp fates.new k
        ≡ fate_or (get nat_cmp fates.old k) (if packet == k then Some fate else None)) }
{
    if !fates.contains_key(&packet) {
        fates.insert(packet, fate)?;
    }
    Ok(())
}
