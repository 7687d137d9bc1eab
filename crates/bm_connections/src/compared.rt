//! Connections, compared with those of the stage without its changes.
ghost use Rattle.std.specs.Prelude.{◌≡◌, IfOk, false, map, slice_index_or};
ghost use Rattle.bm_connections.specs.Base as spec;

use crate::connection::Connection;
use bm_base::Memory;
use std::alloc::Global;

/// What broke a connection: the change, since without it the connection is whole; or it isn't whole
/// anyway.
#[derive(Clone, Copy, PartialEq, Eq)]
pub enum Origin {
    ByTheChange,
    Anyway,
}

/// A connection, and if it is broken, whether the change broke it.
#[derive(Clone, Copy, PartialEq, Eq)]
pub struct Compared {
    pub connection: Connection,
    pub origin: Option<Origin>,
}

#[tactic(auto, unfolding(crate::specs::Base::is_whole))]
fn is_whole(c: &Connection) -> bool
    ensures { result ≡ spec.is_whole c.now }
{
    c.server.is_some() && c.broken.is_none()
}

/// Of each of these connections, whether a server accepted it and nothing broke it.
pub fn wholes(alloc: Global, table: &[Connection]) -> Result<Vec<bool>, Memory>
    ensures { IfOk result (λ wholes. wholes.items ≡ map spec.is_whole table.now) }
{
    let mut wholes = Vec::with_capacity(alloc, table.len())?;
    for connection in table {
        wholes.push(is_whole(connection))?;
    }
    Ok(wholes)
}

/// What broke a connection, if it is broken.
fn origin_of(whole: bool, c: &Connection) -> Option<Origin>
    ensures { result ≡ spec.origin_of whole c.now }
{
    if c.broken.is_none() {
        return None;
    }
    if whole {
        Some(Origin::ByTheChange)
    } else {
        Some(Origin::Anyway)
    }
}

/// Whether the connection at this place is whole in the base.
fn whole_at(wholes: &[bool], place: usize) -> bool
    ensures { result ≡ slice_index_or wholes.now place false }
{
    wholes.get(place).copied().unwrap_or(false)
}

/// The connection at this place of a table, by whether each of the table is whole in the base.
pub fn compare_one(wholes: &[bool], place: usize, c: &Connection) -> Compared
    ensures { result ≡ spec.compared_one (slice_index_or wholes.now place false) c.now }
{
    Compared {
        connection: *c,
        origin: origin_of(whole_at(wholes, place), c),
    }
}
