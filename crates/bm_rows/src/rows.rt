//! Adding a column at the end, and taking it off.
ghost use Rattle.std.specs.Prelude.{◌≡◌, ◌<◌, length, IfOk, OnOk, All};
ghost use Rattle.bm_rows.specs.Rows.{glued, items_of};

use bm_base::Memory;
use std::alloc::Global;

/// Adds an item of the column to the end of each row. `Memory` where memory was refused; some rows
/// may then have their item.
pub fn add_column<S: Drop>(rows: &mut Vec<Vec<S>>, column: Vec<S>) -> Result<(), Memory>
    requires { length rows.old.items ≡ length column.items }
    ensures { OnOk result
        (items_of rows.new.items ≡ glued (items_of rows.old.items) column.items) }
{
    let mut items = column.into_iter();
    for row in rows.iter_mut() {
        let Some(item) = items.next() else {
            unreachable!()
        };
        row.push(item)?;
    }
    Ok(())
}

/// Takes the last item off each row. `Memory` where memory was refused; some rows may then have
/// lost their item.
pub fn last_column<S: Drop>(alloc: Global, rows: &mut Vec<Vec<S>>) -> Result<Vec<S>, Memory>
    requires { All (λ row. 0 < length row.items) rows.old.items }
    ensures rows { IfOk result
        (λ column. items_of rows.old.items ≡ glued (items_of rows.new.items) column.items) }
    ensures count { length rows.new.items ≡ length rows.old.items }
    ensures long { IfOk result (λ column. length column.items ≡ length rows.old.items) }
{
    let mut column = Vec::new(alloc);
    for row in rows.iter_mut() {
        let Some(item) = row.pop() else {
            unreachable!()
        };
        column.push(item)?;
    }
    Ok(column)
}
