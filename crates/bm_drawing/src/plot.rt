//! What is drawn, and where.
ghost use Rattle.std.specs.Prelude.{◌≡◌, ◌<◌, ◌^◌, [], IfOk, OnOk, option_map};
ghost use Rattle.bm_drawing.specs.Drawing as spec;

use crate::changes::Published;
use crate::choice::Choice;
use bm_base::ServerId;
use bm_connections::{Break, Clock, Connection, Forwarding};
use bm_core::History;
use std::alloc::{AllocError, Global};
use std::collections::BTreeSet;

/// The sizes of what is drawn: how many racks and buckets there are, the last moment, how many
/// servers are named and how many connections are drawn; how many of those that changes touched,
/// and of those that none touched, aren't. Moments are written by the clock.
#[derive(Clone, Copy)]
pub(crate) struct Plot {
    pub(crate) clock: Clock,
    pub(crate) racks: u16,
    pub(crate) buckets: u32,
    pub(crate) span: u64,
    pub(crate) servers: u64,
    pub(crate) rows: u64,
    pub(crate) cut: u64,
    pub(crate) folded: u64,
}

/// How high a row is that counts this many connections.
pub(crate) fn count_height(n: u64) -> u128
    ensures value { result ≡ spec.count_height n }
    ensures bound { result < 17 }
{
    if n > 0 { 16 } else { 0 }
}

impl Plot {
    /// Where the numbers at the axis are, under the legend.
    pub(crate) fn top(self) -> u128
        ensures place { result ≡ spec.top self }
        ensures bound { result < 2 ^ 100 }
    {
        72 + 18 * ((u128::from(self.servers.min(25)) + 7) / 8)
    }

    /// How far apart connections are.
    fn apart(self) -> u128
        ensures value { result ≡ spec.apart self }
        ensures bound { result < 13 }
    {
        if self.rows < 50 { 12 } else { 6 }
    }

    /// Where the connection at this place is.
    pub(crate) fn row(self, place: u64) -> u128
        ensures place { result ≡ spec.row self place }
        ensures bound { result < 2 ^ 101 }
    {
        self.top() + 62 + self.apart() * u128::from(place)
    }

    /// Where the last row ends.
    pub(crate) fn bottom(self) -> u128
        ensures place { result ≡ spec.bottom self }
        ensures bound { result < 2 ^ 102 }
    {
        self.row(self.rows) + count_height(self.cut) + count_height(self.folded)
    }

    /// The height of the drawing.
    pub(crate) fn height(self) -> u128
        ensures { result ≡ spec.height self }
    {
        self.bottom() + 66
    }
}

/// Adds the number of another server.
fn insert_server(servers: &mut BTreeSet<u16>, server: Option<ServerId>) -> Result<(), AllocError>
    ensures { OnOk result (servers.new.keys ≡ spec.with_server servers.old.keys server) }
{
    if let Some(server) = server {
        servers.insert(server.0)?;
    }
    Ok(())
}

/// The numbers of the servers that accepted one of the connections last, in rising order.
#[tactic(auto, using(std::proofs::lemmas::List::Sums::fold_more))]
pub(crate) fn servers_in(alloc: Global, table: &[Connection]) -> Result<Vec<u16>, AllocError>
    ensures { IfOk result (λ servers. servers.items ≡ spec.servers_in table.now) }
{
    let mut servers = BTreeSet::new(alloc);
    for connection in table {
        insert_server(&mut servers, connection.server)?;
    }
    servers.into_iter().collect(alloc)
}

/// The packet that broke a connection, or else the one that was refused.
pub(crate) fn break_of(c: &Connection) -> Option<Break>
    ensures { result ≡ spec.break_of c.now }
{
    match c.broken {
        Some(broken) => Some(broken),
        None => c.refused,
    }
}

fn break_moment(found: Option<Break>) -> u64
    ensures { result ≡ spec.break_moment found }
{
    match found {
        None => 0,
        Some(found) => found.clock.0,
    }
}

fn forward_moment(last: Option<Forwarding>) -> u64
    ensures { result ≡ spec.forward_moment last }
{
    match last {
        None => 0,
        Some(last) => last.clock.0,
    }
}

/// The last moment of a connection that is drawn.
fn last_moment(c: &Connection) -> u64
    ensures { result ≡ spec.last_moment c.now }
{
    let seen = c.first.moment.0.max(c.last.moment.0);
    let found = forward_moment(c.forwarded).max(break_moment(break_of(c)));
    seen.max(found)
}

/// The last clock of the changes.
#[tactic(auto, using(std::proofs::lemmas::List::Sums::fold_more))]
fn span_of_changes(changes: &[Published]) -> u64
    ensures { result ≡ spec.span_of changes.now [] }
{
    let mut span: u64 = 0;
    for change in changes {
        span = span.max(change.clock.0);
    }
    span
}

/// The last moment of all connections and changes.
#[tactic(auto, using(std::proofs::lemmas::List::Sums::fold_more))]
fn span_of(changes: &[Published], table: &[Connection]) -> u64
    ensures { result ≡ spec.span_of changes.now table.now }
{
    let mut span = span_of_changes(changes);
    for connection in table {
        span = span.max(last_moment(connection));
    }
    span
}

/// The sizes of a drawing of these changes, servers and connections, of which some are chosen.
pub(crate) fn plot_of(
    clock: Clock,
    h: &History,
    changes: &[Published],
    servers: &[u16],
    choice: &Choice,
    table: &[Connection],
) -> Plot
    requires servers { servers.now ≡ spec.servers_in table.now }
    requires choice { choice.now ≡ spec.choice_of changes.now table.now }
    ensures { result ≡ spec.plot_of clock.0 h.now changes.now table.now }
{
    let script = &h.stage.script;
    Plot {
        clock,
        racks: script.setting.racks,
        buckets: script.plan.buckets(),
        span: span_of(changes, table),
        servers: servers.len() as u64,
        rows: choice.rows.items().len() as u64,
        cut: choice.cut,
        folded: choice.folded,
    }
}
