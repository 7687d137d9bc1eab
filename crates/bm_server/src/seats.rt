//! The shards of a server and their seats, made and taken apart.
ghost use Rattle.std.specs.Prelude.{◌≡◌, ℕ, ◌<◌, ◌≤◌, Some, All, [], length, slice_get, IfOk};
ghost use Rattle.bm_rows.specs.Rows.{items_of};
ghost use Rattle.bm_server.specs.Seats.{IsNewSeat};
ghost use Rattle.bm_server.specs.Servings.{serving};

use crate::ServerSeat;
use bm_base::{Memory, ServerId};
use bm_rows::add_column;
use bm_shard::ShardBook;
use bm_turnstile::{TurnSeat, Turnstile};
use std::alloc::Global;

/// For each seat of a server, its seats at the shards.
pub(crate) type Rows = Vec<Vec<TurnSeat<ShardBook>>>;

/// The shards, and for each seat of the server its seats at them.
pub(crate) fn make_shards(
    alloc: Global,
    id: ServerId,
    shards: u16,
    capacity: u32,
    timeout: u64,
    seats: u16,
) -> Result<(Vec<Turnstile<ShardBook>>, Rows), Memory>
    requires capacity { (1 ≤ capacity) × (capacity ≤ 65536) }
    requires seats { 0 < seats }
    ensures shards { IfOk result (λ made. length made.0.items ≡ shards) }
    ensures count { IfOk result (λ made. length made.1.items ≡ seats) }
    ensures each { IfOk result (λ made.
        let server = serving id capacity timeout seats made.0.items in
        (i : ℕ) (seat : _) → slice_get (items_of made.1.items) i ≡ Some seat
        → IsNewSeat server i seat) }
{
    let mut made = Vec::new(alloc);
    let mut rows = empty_rows(alloc, seats)?;
    for number in 0..shards {
        let book = ShardBook::new(alloc, id, number, capacity, timeout)?;
        let (turnstile, column) = Turnstile::new(alloc, book, seats)?;
        add_column(&mut rows, column)?;
        made.push(turnstile)?;
    }
    Ok((made, rows))
}

// This many rows without a seat.
fn empty_rows(alloc: Global, count: u16) -> Result<Rows, Memory>
    ensures count { IfOk result (λ rows. length rows.items ≡ count) }
    ensures empty { IfOk result (λ rows. All (λ row. row.items ≡ []) rows.items) }
{
    let mut rows = Vec::new(alloc);
    for _ in 0..count {
        rows.push(Vec::new(alloc))?;
    }
    Ok(rows)
}

/// A seat of the server for each row.
pub(crate) fn seated(alloc: Global, rows: Rows) -> Result<Vec<ServerSeat>, Memory>
    ensures { IfOk result (λ seats. seats.items ≡ items_of rows.items) }
{
    let mut all = Vec::new(alloc);
    for seats in rows {
        all.push(ServerSeat { seats })?;
    }
    Ok(all)
}

/// A row for each seat of the server.
pub(crate) fn unseated(alloc: Global, seats: Vec<ServerSeat>) -> Result<Rows, Memory>
    ensures { IfOk result (λ rows. items_of rows.items ≡ seats.items) }
{
    let mut all = Vec::new(alloc);
    for seat in seats {
        let ServerSeat { seats } = seat;
        all.push(seats)?;
    }
    Ok(all)
}
