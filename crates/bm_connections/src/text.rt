//! The text of a table: a line for each connection.
ghost use Rattle.std.specs.Prelude.{◌≡◌, ◌++◌, Some, OnOk, IfOk, string_bytes};
ghost use Rattle.bm_trace.specs.Words.{spaced};
ghost use Rattle.bm_connections.specs.Base.{compared_with};
ghost use Rattle.bm_connections.specs.Text as spec;

use crate::compared::{Compared, Origin, compare_one};
use crate::connection::{Break, Connection, Ending, Forwarding, Sight, Tally};
use crate::times::{Clock, SecondsText, TimeText};
use bm_base::{Memory, ServerId, Text};
use bm_table::rack_of;
use bm_trace::{BecauseWords, Endpoint, VerdictWords};
use std::alloc::{AllocError, Global};
use std::fmt;

/// A server's number, or `none`.
#[derive(Clone, Copy)]
pub struct ServerWord(pub Option<ServerId>);

impl fmt::Display for ServerWord {
    ghost output = { λ s. Some (spec.server_word s.0) };

    fn fmt<W: fmt::Write>(&self, f: &mut fmt::Formatter<W>) -> fmt::Result {
        match self.0 {
            None => write!(f, "none"),
            Some(server) => write!(f, "{}", server.0),
        }
    }
}

/// The rack of a server, if there is more than one of them.
pub fn shown_rack(racks: u16, server: Option<ServerId>) -> Option<u16>
    ensures { result ≡ spec.shown_rack racks server }
{
    match server {
        Some(server) if racks > 1 => Some(rack_of(racks, server)),
        _ => None,
    }
}

/// A rack, each word after a space, or nothing.
#[derive(Clone, Copy)]
pub struct RackWords(pub Option<u16>);

impl fmt::Display for RackWords {
    ghost output = { λ r. Some (spec.rack_text r.0) };

    fn fmt<W: fmt::Write>(&self, f: &mut fmt::Formatter<W>) -> fmt::Result {
        match self.0 {
            None => Ok(()),
            Some(rack) => write!(f, " rack {rack}"),
        }
    }
}

/// A record of the capture, each word after a space.
#[derive(Clone, Copy)]
struct SightWords(Clock, Sight);

impl fmt::Display for SightWords {
    ghost output = { λ s. Some (spaced (spec.sight_words s.0.0 s.1)) };

    fn fmt<W: fmt::Write>(&self, f: &mut fmt::Formatter<W>) -> fmt::Result {
        let number = self.1.number;
        let at = TimeText(self.0, self.1.moment);
        write!(f, " {number} at {at}")
    }
}

/// How many arrivals were processed, forwarded, dropped, reset and strays, each word after a space.
#[derive(Clone, Copy)]
struct TallyWords(Tally);

impl fmt::Display for TallyWords {
    ghost output = { λ t. Some (spaced (spec.tally_words t.0)) };

    fn fmt<W: fmt::Write>(&self, f: &mut fmt::Formatter<W>) -> fmt::Result {
        let Tally {
            processed,
            forwarded,
            dropped,
            reset,
            stray,
            ..
        } = self.0;
        write!(
            f,
            " processed {processed} forwarded {forwarded} dropped {dropped} reset {reset} stray {stray}"
        )
    }
}

/// How a connection ended.
#[derive(Clone, Copy)]
pub struct EndingWord(pub Ending);

impl fmt::Display for EndingWord {
    ghost output = { λ e. Some (spec.ending_word e.0) };

    fn fmt<W: fmt::Write>(&self, f: &mut fmt::Formatter<W>) -> fmt::Result {
        match self.0 {
            Ending::Open => write!(f, "open"),
            Ending::Fin => write!(f, "fin"),
            Ending::Reset => write!(f, "rst"),
            Ending::Close => write!(f, "close"),
        }
    }
}

/// How many arrivals break nothing since the connection had ended itself, and how it ended, each
/// word after a space.
#[derive(Clone, Copy)]
struct EndingWords(u64, Ending);

impl fmt::Display for EndingWords {
    ghost output = { λ e. Some (spaced (spec.ending_words e.0 e.1)) };

    fn fmt<W: fmt::Write>(&self, f: &mut fmt::Formatter<W>) -> fmt::Result {
        let after = self.0;
        let ending = EndingWord(self.1);
        write!(f, " after-its-end {after} end {ending}")
    }
}

/// A packet that was forwarded, each word after a space.
#[derive(Clone, Copy)]
struct ForwardingWords(Clock, Forwarding);

impl fmt::Display for ForwardingWords {
    ghost output = { λ x. Some (spaced (spec.forwarding_words x.0.0 x.1)) };

    fn fmt<W: fmt::Write>(&self, f: &mut fmt::Formatter<W>) -> fmt::Result {
        let packet = self.1.packet;
        let server = self.1.server.0;
        let at = TimeText(self.0, self.1.clock);
        let wait = SecondsText(self.1.wait);
        write!(f, " {packet} by {server} at {at} after {wait}")
    }
}

/// The last packet that was forwarded, each word after a space, or nothing.
#[derive(Clone, Copy)]
struct ForwardedWords(Clock, Option<Forwarding>);

impl fmt::Display for ForwardedWords {
    ghost output = { λ x. Some (spec.forwarded_text x.0.0 x.1) };

    fn fmt<W: fmt::Write>(&self, f: &mut fmt::Formatter<W>) -> fmt::Result {
        match self.1 {
            None => Ok(()),
            Some(last) => write!(f, " last-forward{}", ForwardingWords(self.0, last)),
        }
    }
}

/// A packet that was dropped, reset or a stray, each word after a space.
#[derive(Clone, Copy)]
struct BreakWords(Break);

impl fmt::Display for BreakWords {
    ghost output = { λ b. Some (spec.break_words b.0) };

    fn fmt<W: fmt::Write>(&self, f: &mut fmt::Formatter<W>) -> fmt::Result {
        let packet = self.0.packet;
        let verdict = VerdictWords(self.0.verdict);
        let because = BecauseWords(self.0.cause);
        write!(f, " {packet}{verdict}{because}")
    }
}

/// What broke or refused a connection, each word after a space, or whether a server accepted it.
#[derive(Clone, Copy)]
pub struct EndWords {
    pub broken: Option<Break>,
    pub refused: Option<Break>,
    pub server: Option<ServerId>,
}

impl fmt::Display for EndWords {
    ghost output = { λ c. Some (spec.end_words c.broken c.refused c.server) };

    fn fmt<W: fmt::Write>(&self, f: &mut fmt::Formatter<W>) -> fmt::Result {
        match (self.broken, self.refused, self.server) {
            (Some(first), _, _) => write!(f, " broken{}", BreakWords(first)),
            (None, Some(first), _) => write!(f, " refused{}", BreakWords(first)),
            (None, None, None) => write!(f, " unaccepted"),
            (None, None, Some(_)) => write!(f, " whole"),
        }
    }
}

/// The clock of what broke or refused a connection, each word after a space, or nothing.
#[derive(Clone, Copy)]
struct EndTime {
    clock: Clock,
    broken: Option<Break>,
    refused: Option<Break>,
}

impl fmt::Display for EndTime {
    ghost output = { λ c. Some (spec.end_time c.clock.0 c.broken c.refused) };

    fn fmt<W: fmt::Write>(&self, f: &mut fmt::Formatter<W>) -> fmt::Result {
        match (self.broken, self.refused) {
            (Some(first), _) => write!(f, " at {}", TimeText(self.clock, first.clock)),
            (None, Some(first)) => write!(f, " at {}", TimeText(self.clock, first.clock)),
            (None, None) => Ok(()),
        }
    }
}

/// What broke a connection.
pub fn origin_word(origin: Origin) -> &'static str
    ensures { result.now ≡ spec.origin_word origin }
{
    match origin {
        Origin::ByTheChange => "by-the-change",
        Origin::Anyway => "anyway",
    }
}

/// What broke a connection, after a space, or nothing.
#[derive(Clone, Copy)]
struct OriginWords(Option<Origin>);

impl fmt::Display for OriginWords {
    ghost output = { λ o. Some (spec.origin_text o.0) };

    fn fmt<W: fmt::Write>(&self, f: &mut fmt::Formatter<W>) -> fmt::Result {
        match self.0 {
            None => Ok(()),
            Some(origin) => write!(f, " {}", origin_word(origin)),
        }
    }
}

/// Whether a broken connection loses data: a word after a space, or nothing.
#[derive(Clone, Copy)]
struct LosingWord(bool);

impl fmt::Display for LosingWord {
    ghost output = { λ w. Some (spec.losing_text w.0) };

    fn fmt<W: fmt::Write>(&self, f: &mut fmt::Formatter<W>) -> fmt::Result {
        if self.0 {
            write!(f, " losing-data")
        } else {
            Ok(())
        }
    }
}

/// The flow of a connection, and where it was first and last seen.
fn write_seen(text: &mut String, clock: Clock, c: &Connection) -> Result<(), AllocError>
    ensures { OnOk result
        (string_bytes text.new ≡ string_bytes text.old ++ spec.seen_text clock.0 c.now) }
{
    let client = Endpoint {
        addr: c.flow.src,
        port: c.flow.sport,
    };
    let service = Endpoint {
        addr: c.flow.dst,
        port: c.flow.dport,
    };
    let opened = SightWords(clock, c.first);
    let last = SightWords(clock, c.last);
    write!(
        text,
        "connection {client} {service} opened{opened} last{last}"
    )
}

/// The server that accepted a connection last, with its rack.
fn write_accepted(text: &mut String, racks: u16, c: &Connection) -> Result<(), AllocError>
    ensures { OnOk result
        (string_bytes text.new ≡ string_bytes text.old ++ spec.accepted_text racks c.now) }
{
    let server = ServerWord(c.server);
    let rack = RackWords(shown_rack(racks, c.server));
    write!(text, " accepted {server}{rack}")
}

/// How often a connection was accepted, what became of its packets, and how it ended.
fn write_tallied(text: &mut String, c: &Connection) -> Result<(), AllocError>
    ensures { OnOk result
        (string_bytes text.new ≡ string_bytes text.old ++ spec.tallied_text c.now) }
{
    let times = c.tally.accepted;
    let tally = TallyWords(c.tally);
    let ending = EndingWords(c.tally.after_its_end, c.ending);
    write!(text, " times {times}{tally}{ending}")
}

/// Which packet was forwarded last, and what broke or refused a connection.
fn write_outcome(text: &mut String, clock: Clock, c: &Connection) -> Result<(), AllocError>
    ensures { OnOk result
        (string_bytes text.new ≡ string_bytes text.old ++ spec.outcome_text clock.0 c.now) }
{
    let forwarded = ForwardedWords(clock, c.forwarded);
    let end = EndWords {
        broken: c.broken,
        refused: c.refused,
        server: c.server,
    };
    let at = EndTime {
        clock,
        broken: c.broken,
        refused: c.refused,
    };
    write!(text, "{forwarded}{end}{at}")
}

/// What broke a connection and whether it loses data, if it is broken, and the line's end.
fn write_cost(text: &mut String, c: &Compared) -> Result<(), AllocError>
    ensures { OnOk result (string_bytes text.new ≡ string_bytes text.old ++ spec.cost_text c.now) }
{
    let origin = OriginWords(c.origin);
    let losing = LosingWord(c.connection.losing_data);
    writeln!(text, "{origin}{losing}")
}

/// Appends the line of a connection. Moments are written by the clock, and waits in seconds; of
/// several `racks` that of the server that accepted it last is named.
pub fn write_connection(
    text: &mut String,
    clock: Clock,
    racks: u16,
    c: &Compared,
) -> Result<(), AllocError>
    ensures { OnOk result
        (string_bytes text.new ≡ string_bytes text.old ++ spec.connection_line clock.0 racks c.now) }
{
    write_seen(text, clock, &c.connection)?;
    write_accepted(text, racks, &c.connection)?;
    write_tallied(text, &c.connection)?;
    write_outcome(text, clock, &c.connection)?;
    write_cost(text, c)?;
    Ok(())
}

fn write_connections(
    text: &mut String,
    clock: Clock,
    racks: u16,
    table: &[Connection],
    wholes: &[bool],
) -> Result<(), AllocError>
    ensures { OnOk result (string_bytes text.new ≡ string_bytes text.old
        ++ spec.table_text clock.0 racks (compared_with table.now wholes.now)) }
{
    for (place, connection) in table.iter().enumerate() {
        let compared = compare_one(wholes, place, connection);
        write_connection(text, clock, racks, &compared)?;
    }
    Ok(())
}

/// The lines of a table, by whether each of it is whole in the base. Moments are written by the
/// clock.
pub fn table_text(
    alloc: Global,
    clock: Clock,
    racks: u16,
    table: &[Connection],
    wholes: &[bool],
) -> Result<Text, Memory>
    ensures { IfOk result (λ text. text
        ≡ spec.table_text clock.0 racks (compared_with table.now wholes.now)) }
{
    let mut text = String::new(alloc);
    write_connections(&mut text, clock, racks, table, wholes)?;
    Ok(Text::of(text))
}
