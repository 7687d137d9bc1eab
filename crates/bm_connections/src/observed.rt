//! The pass over the events: what became of each connection's packets.
ghost use Rattle.std.specs.Prelude.{◌≡◌, ◌<◌, ◌^◌, ◌&&◌, suc, Some, is_some, reverse, IfOk};
ghost use Rattle.std.specs.Prelude.{if◌then◌else◌, length, List, None, [], ◌∷◌, OnOk};
ghost use Rattle.bm_core.specs.Causes as causes;
ghost use Rattle.bm_core.specs.Past as past;
ghost use Rattle.bm_core.specs.Runs.{IsRun};
ghost use Rattle.bm_core.specs.declared.events.Event.{Event};
ghost use Rattle.bm_core.specs.declared.events.Stage.{Stage};
ghost use Rattle.bm_trace.specs.CauseOf.{is_break};
ghost use Rattle.bm_trace.specs.Swept.{AreCauses};
ghost use Rattle.bm_trace.specs.Totals as totals;
ghost use Rattle.bm_connections.specs.Connections as spec;
ghost use Rattle.bm_connections.specs.Inside.Closed.{AreClosed};
ghost use Rattle.bm_connections.specs.Inside.Resets.{KnowsResets};
ghost use Rattle.bm_connections.specs.Inside.Rows as kept;
ghost use Rattle.bm_connections.specs.Seen.{records_of};
ghost use Rattle.bm_connections.specs.Waits.{wait_of};

use crate::closed::observe_close;
use crate::connection::{Break, Connection, Forwarding, Tally};
use crate::endings::end_all;
use crate::flow_set::FlowSet;
use crate::resets::Resets;
use crate::rows::Rows;
use crate::stamps::Stamps;
use bm_base::{Memory, ServerId};
use bm_core::{Cause, Event, History, Verdict, What};
use bm_trace::CauseList;
use std::alloc::Global;

/// One more, if `so` holds.
pub(crate) fn one_more(so: bool, count: u64) -> u64
    requires { suc count < 2 ^ 64 }
    ensures { result ≡ spec.one_more so count }
{
    if so { count + 1 } else { count }
}

pub(crate) fn is_accept(verdict: Verdict) -> bool
    ensures { result ≡ past.is_accept verdict }
{
    matches!(verdict, Verdict::Accept)
}

pub(crate) fn is_process(verdict: Verdict) -> bool
    ensures { result ≡ causes.is_process verdict }
{
    matches!(verdict, Verdict::Process(_))
}

fn is_forward(verdict: Verdict) -> bool
    ensures { result ≡ past.is_forward verdict }
{
    matches!(verdict, Verdict::Forward(_))
}

fn is_reset(verdict: Verdict) -> bool
    ensures { result ≡ totals.is_reset verdict }
{
    matches!(verdict, Verdict::Reset(_))
}

fn is_drop(verdict: Verdict) -> bool
    ensures { result ≡ totals.is_drop verdict }
{
    matches!(verdict, Verdict::Drop(_))
}

/// What is known about an arrival: how long it came after its bucket's move, whether it is a break
/// that comes after its connection's end, and whether its packet concerns more than the farewell.
#[derive(Clone, Copy)]
pub(crate) struct Facts {
    pub(crate) wait: u64,
    pub(crate) after_its_end: bool,
    pub(crate) risks_data: bool,
}

/// The counts after an arrival with this verdict, which is a break or not, and is one that comes
/// after its connection's end or not.
fn tallied(verdict: Verdict, broke: bool, late: bool, t: &Tally) -> Tally
    requires { kept.HasRoom t.now }
    ensures { result ≡ kept.tallied verdict broke late t.now }
{
    Tally {
        accepted: one_more(is_accept(verdict), t.accepted),
        processed: one_more(is_process(verdict), t.processed),
        forwarded: one_more(is_forward(verdict), t.forwarded),
        reset: one_more(is_reset(verdict), t.reset),
        dropped: one_more(is_drop(verdict), t.dropped),
        stray: one_more(is_process(verdict) && broke, t.stray),
        after_its_end: one_more(late, t.after_its_end),
    }
}

/// Whether an arrival is a break that counts.
fn is_counted(arrival: &Break, facts: &Facts) -> bool
    ensures { result ≡ kept.is_counted arrival.now facts.now }
{
    arrival.cause.is_some() && !facts.after_its_end
}

/// What broke a connection first, after an arrival of one of its packets, which breaks it or not.
fn broken_after(before: Option<Break>, breaks: bool, arrival: Break) -> Option<Break>
    ensures { result ≡ spec.first_of_two before (if breaks then Some arrival else None) }
{
    match before {
        Some(first) => Some(first),
        None if breaks => Some(arrival),
        None => None,
    }
}

/// The server that accepted a connection last, after an arrival of one of its packets.
fn server_after(arrival: &Break, before: Option<ServerId>) -> Option<ServerId>
    ensures { result ≡ kept.server_after arrival.now before }
{
    if is_accept(arrival.verdict) {
        Some(arrival.server)
    } else {
        before
    }
}

/// What was forwarded last, after an arrival with this wait.
fn forwarded_after(arrival: &Break, wait: u64, before: Option<Forwarding>) -> Option<Forwarding>
    ensures { result ≡ kept.forwarded_after arrival.now wait before }
{
    if is_forward(arrival.verdict) {
        Some(Forwarding {
            packet: arrival.packet,
            clock: arrival.clock,
            server: arrival.server,
            wait,
        })
    } else {
        before
    }
}

/// What refused a connection, after an arrival, if it then has this server.
fn refused_after(
    arrival: Break,
    facts: &Facts,
    server: Option<ServerId>,
    before: Option<Break>,
) -> Option<Break>
    ensures { result ≡ kept.refused_after arrival facts.now server before }
{
    match (server, before) {
        (Some(_), _) => None,
        (None, Some(first)) => Some(first),
        (None, None) if is_counted(&arrival, facts) => Some(arrival),
        (None, None) => None,
    }
}

/// An arrival as a break, with this cause.
pub(crate) fn as_break(event: &Event, cause: Option<Cause>) -> Option<Break>
    ensures { result ≡ spec.as_break event.now.clock event.now.what cause }
{
    match event.what {
        What::Arrive {
            packet,
            server,
            verdict,
            ..
        } => Some(Break {
            packet,
            clock: event.clock,
            server,
            verdict,
            cause,
        }),
        _ => None,
    }
}

impl Connection {
    /// Records an arrival of one of its packets, about which these facts are known.
    fn observe(&mut self, arrival: Break, facts: &Facts)
        requires { kept.HasRoom self.old.tally }
        ensures { self.new ≡ kept.observed arrival facts.now self.old }
    {
        let broke = arrival.cause.is_some();
        let breaks = is_counted(&arrival, facts) && self.server.is_some();
        self.broken = broken_after(self.broken, breaks, arrival);
        self.losing_data = breaks && facts.risks_data || self.losing_data;
        self.server = server_after(&arrival, self.server);
        self.tally = tallied(arrival.verdict, broke, facts.after_its_end, &self.tally);
        self.forwarded = forwarded_after(&arrival, facts.wait, self.forwarded);
        self.refused = refused_after(arrival, facts, self.server, self.refused);
    }
}

impl Rows {
    /// Records an arrival of a packet of the connection at this place.
    fn observe_arrival(&mut self, place: usize, arrival: Break, facts: &Facts)
        requires place { place < length self.old.connections.items }
        requires room { kept.HasRoomAt self.old.connections.items place }
        ensures places { self.new.places ≡ self.old.places }
        ensures risky { self.new.risky ≡ self.old.risky }
        ensures connections { self.new.connections.items
            ≡ kept.changed_at (kept.observed arrival facts.now) self.old.connections.items place }
    {
        self.connections[place].observe(arrival, facts);
    }

    /// What is known about the arrival of a packet with this wait, if it is a break that comes after
    /// its connection's end or not.
    fn facts_of(&self, late: bool, packet: u32, wait: u64) -> Facts
        ensures { result ≡ kept.facts_of self.now late packet wait }
    {
        Facts {
            wait,
            after_its_end: late,
            risks_data: self.risks_data(packet),
        }
    }

    /// Records the event that comes next, with this cause and this wait, which is a break that comes
    /// after its connection's end or not.
    fn observe(&mut self, late: bool, event: &Event, cause: Option<Cause>, wait: u64)
        requires { kept.HasRoomForEach self.old }
        ensures { (stage : Stage) (past : List Event)
            → kept.AreRows stage (records_of stage) past self.old
            → late ≡ spec.breaks_nothing stage past event.now.what
            → cause ≡ causes.cause stage past event.now.clock.0 event.now.what
            → is_some cause ≡ is_break stage past event.now.what
            → wait ≡ wait_of stage past event.now.clock.0 event.now.what
            → kept.AreRows stage (records_of stage) (event.now ∷ past) self.new }
    {
        match as_break(event, cause) {
            None => {}
            Some(arrival) => match self.place_of(arrival.packet) {
                None => {}
                Some(place) => {
                    let facts = self.facts_of(late, arrival.packet, wait);
                    self.observe_arrival(place, arrival, &facts);
                }
            },
        }
    }
}

/// Records all events, and which flows are closed and which an RST has ended after them.
fn observe_each(
    alloc: Global,
    rows: &mut Rows,
    closed: &mut FlowSet,
    resets: &mut Resets,
    h: &History,
    causes: &CauseList,
) -> Result<(), Memory>
    requires run { IsRun h.now }
    requires causes { AreCauses h.now causes.now }
    requires rows { kept.AreRows h.now.stage (records_of h.now.stage) [] rows.old }
    requires closed { AreClosed h.now.stage [] closed.old }
    requires resets { KnowsResets h.now.stage [] resets.old }
    ensures rows { OnOk result
        (kept.AreRows h.now.stage (records_of h.now.stage) (reverse h.now.events) rows.new) }
    ensures closed { OnOk result
        (AreClosed h.now.stage (reverse h.now.events) closed.new) }
    ensures resets { OnOk result
        (KnowsResets h.now.stage (reverse h.now.events) resets.new) }
{
    let events = h.events.items();
    let mut stamps = Stamps::new(alloc, &h.stage)?;
    for (place, event) in events.iter().enumerate() {
        let cause = causes.at(place);
        let late = resets.discount(&h.stage, event, cause);
        let wait = stamps.wait(&h.stage, event);
        rows.observe(late, event, cause, wait);
        observe_close(closed, &h.stage, event)?;
        resets.observe(&h.stage, event, cause)?;
        stamps.observe(event.what)?;
    }
    Ok(())
}

/// The connections after all events.
pub(crate) fn observe_events(
    alloc: Global,
    rows: Rows,
    h: &History,
    causes: &CauseList,
) -> Result<Vec<Connection>, Memory>
    requires run { IsRun h.now }
    requires causes { AreCauses h.now causes.now }
    requires rows { kept.AreRows h.now.stage (records_of h.now.stage) [] rows }
    ensures { IfOk result (λ list. list.items ≡ spec.connections h.now) }
{
    let mut rows = rows;
    let mut closed = FlowSet::new(alloc);
    let mut resets = Resets::new(alloc);
    observe_each(alloc, &mut rows, &mut closed, &mut resets, h, causes)?;
    let mut connections = rows.into_connections();
    end_all(&mut connections, &closed, &resets);
    Ok(connections)
}
