//! The servers of a run, and the seats of its workers.
ghost use Rattle.std.specs.Prelude.{[], ◌≡◌, ℕ, ◌<◌, ◌≤◌, length, map, slice_get, Some, All};
ghost use Rattle.std.specs.Prelude.{IfOk};
ghost use Rattle.bm_rows.specs.Rows.{items_of};
ghost use Rattle.bm_turnstile.specs.Sittings.{who};
ghost use Rattle.bm_server.specs.Seats.{row};
ghost use Rattle.bm_world.specs.Inside.Served.{AreBooksThere, IsNewRow, IsServerOf};

use bm_base::{Memory, ServerId};
use bm_rows::{add_column, last_column};
use bm_server::{Books, Server, ServerSeat};
use bm_table::Setting;
use std::alloc::Global;

/// For each worker, its seats at the servers.
pub(crate) type Rows = Vec<Vec<ServerSeat>>;

/// This many rows without a seat.
fn empty_rows(alloc: Global, count: u16) -> Result<Rows, Memory>
    ensures count { IfOk result (λ rows. length rows.items ≡ count) }
    ensures empty { IfOk result (λ rows. All (λ row. row.items ≡ []) rows.items) }
{
    let mut rows = Vec::new(alloc);
    for _ in 0..count {
        rows.push(Vec::new(alloc))?;
    }
    Ok(rows)
}

/// The servers with these numbers, and for each worker its seats at them.
pub(crate) fn make_servers(
    alloc: Global,
    setting: &Setting,
    ids: &[ServerId],
    workers: u16,
) -> Result<(Vec<Server>, Rows), Memory>
    requires shards { (1 ≤ setting.now.shards) × (setting.now.shards ≤ 64) }
    requires capacity { (1 ≤ setting.now.capacity) × (setting.now.capacity ≤ 65536) }
    requires workers { 0 < workers }
    ensures servers { IfOk result (λ made. length made.0.items ≡ length ids.now) }
    ensures each_server { IfOk result
        (λ made. (s : ℕ) (server : _) → slice_get made.0.items s ≡ Some server
        → IsServerOf setting.now ids.now workers s server) }
    ensures count { IfOk result (λ made. length made.1.items ≡ workers) }
    ensures each_row { IfOk result
        (λ made. (w : ℕ) (seats : _) → slice_get (items_of made.1.items) w ≡ Some seats
        → IsNewRow made.0.items w seats) }
{
    let mut servers = Vec::new(alloc);
    let mut rows = empty_rows(alloc, workers)?;
    for id in ids {
        let (server, column) = Server::new(
            alloc,
            *id,
            setting.shards,
            setting.capacity,
            setting.timeout,
            workers,
        )?;
        add_column(&mut rows, column)?;
        servers.push(server)?;
    }
    Ok((servers, rows))
}

/// The books of all servers, once all seats are given back.
pub(crate) fn finish_all(
    alloc: Global,
    servers: Vec<Server>,
    rows: Rows,
) -> Result<Vec<Books>, Memory>
    requires count { (s : ℕ) (server : _) → slice_get servers.items s ≡ Some server
        → length rows.items ≡ server.seats }
    requires each { (w : ℕ) (seats : _) → slice_get (items_of rows.items) w ≡ Some seats
        → map (map who) seats ≡ map (λ server. row server w) servers.items }
    ensures count { IfOk result (λ all. length all.items ≡ length servers.items) }
    ensures books { IfOk result (λ all. (s : ℕ) (books : _) → slice_get all.items s ≡ Some books
        → AreBooksThere servers.items (items_of rows.items) s books) }
{
    let mut left = servers;
    let mut rest = rows;
    let mut all = Vec::new(alloc);
    while let Some(server) = left.pop() {
        let column = last_column(alloc, &mut rest)?;
        all.push(server.finish(alloc, column)?)?;
    }
    all.reverse();
    Ok(all)
}
