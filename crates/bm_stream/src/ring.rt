//! A ring of octets.
ghost use Rattle.std.specs.Prelude.{◌≡◌, ◌≢◌, ◌+◌, ◌^◌, ◌<◌, ◌≤◌, ℕ, IfOk, None, Some, length};
ghost use Rattle.bm_stream.specs.Inside.Positions.{AreBelow};
ghost use Rattle.bm_stream.specs.Rings.{held_at};

use bm_base::Memory;
use std::alloc::Global;

/// How many octets a ring has.
const CELLS: u64 = 65_535;

/// An octet, and its position.
#[derive(Clone, Copy)]
pub(crate) struct Cell {
    pub(crate) position: u64,
    pub(crate) octet: u8,
}

/// This many cells whose position is 0.
fn blank_cells(alloc: Global, count: usize) -> Result<Vec<Cell>, Memory>
    ensures count { IfOk result (λ cells. length cells.items ≡ count) }
    ensures blank { IfOk result (λ cells. AreBelow 1 cells.items) }
{
    let cell = Cell {
        position: 0,
        octet: 0,
    };
    Ok(vec![in alloc; cell; count]?)
}

/// The octets of 65,535 positions in a row. A cell counts as empty unless its position is the one
/// that is asked for, so no cell has to be emptied.
#[derive(Drop)]
pub(crate) struct Ring {
    pub(crate) cells: Vec<Cell>,
    ghost count: { length cells.items ≡ 65535 },
}

impl Ring {
    /// A ring without octets at positions from 1 on.
    pub(crate) fn new(alloc: Global) -> Result<Ring, Memory>
        ensures { IfOk result (λ ring. AreBelow 1 ring.cells.items) }
    {
        let cells = blank_cells(alloc, CELLS as usize)?;
        Ok(Ring { cells })
    }

    /// The octet at the position.
    pub(crate) fn get(&self, position: u64) -> Option<u8>
        ensures { result ≡ held_at self.now.cells.items position }
    {
        let cell = self.cells[(position % CELLS) as usize];
        if cell.position == position {
            Some(cell.octet)
        } else {
            None
        }
    }

    /// Keeps an octet at the position, in place of one at least 65,535 positions before it.
    pub(crate) fn put(&mut self, position: u64, octet: u8)
        ensures here { held_at self.new.cells.items position ≡ Some octet }
        ensures others { (p : ℕ) → p ≢ position → p < position + 65535 → position < p + 65535
            → held_at self.new.cells.items p ≡ held_at self.old.cells.items p }
        ensures below { (end : ℕ) → position < end → AreBelow end self.old.cells.items
            → AreBelow end self.new.cells.items }
    {
        self.cells[(position % CELLS) as usize] = Cell { position, octet };
    }

    /// Empties all positions from 1 on.
    pub(crate) fn clear(&mut self)
        ensures { AreBelow 1 self.new.cells.items }
    {
        self.cells.fill(Cell {
            position: 0,
            octet: 0,
        });
    }
}
