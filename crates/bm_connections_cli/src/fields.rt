//! The table as comma-separated fields.
ghost use Rattle.std.specs.Prelude.{◌≡◌, ◌++◌, ◌∷◌, [], List, ℕ, IfOk, OnOk, decimal, flat_map};
ghost use Rattle.csv.specs.Records.{fields_of};
ghost use Rattle.bm_trace.specs.Words.{endpoint};
ghost use Rattle.bm_connections.specs.Base.{compared_with};
ghost use Rattle.bm_connections.specs.Text.{ending_word};
ghost use Rattle.bm_connections.specs.Times as times;
ghost use Rattle.bm_connections_cli.specs.Csv as spec;
ghost use Rattle.bm_connections_cli.specs.Inside.Rows.{HasWritten};

use bm_base::{Memory, ServerId};
use bm_connections::{
    Break, Clock, Compared, Connection, Ending, EndingWord, Forwarding, Origin, SecondsText, Sight,
    Tally, TimeText, compare_one, origin_word, shown_rack,
};
use bm_core::{Cause, Verdict};
use bm_trace::{Endpoint, cause_word};
use csv::{ByteRecord, Writer};
use std::alloc::{AllocError, Global};
use std::io::Write;
use std::marker::Model;

/// The kind of a verdict.
pub(crate) fn verdict_field(verdict: Verdict) -> &'static str
    ensures { result.now ≡ spec.verdict_field verdict }
{
    match verdict {
        Verdict::Accept => "accept",
        Verdict::Process(_) => "process",
        Verdict::Forward(_) => "forward",
        Verdict::Reset(_) => "reset",
        Verdict::Drop(_) => "drop",
    }
}

/// A cause, or nothing.
fn cause_field(cause: Option<Cause>) -> &'static str
    ensures { result.now ≡ spec.cause_field cause }
{
    match cause {
        None => "",
        Some(cause) => cause_word(cause),
    }
}

/// What broke a connection, or nothing.
fn origin_field(origin: Option<Origin>) -> &'static str
    ensures { result.now ≡ spec.origin_field origin }
{
    match origin {
        None => "",
        Some(origin) => origin_word(origin),
    }
}

/// Whether a connection loses data, or nothing.
fn losing_field(losing_data: bool) -> &'static str
    ensures { result.now ≡ spec.losing_field losing_data }
{
    if losing_data { "losing-data" } else { "" }
}

/// The fields of a record, which contracts see as a list of texts.
#[derive(Drop)]
struct Fields {
    alloc: Global,
    row: ByteRecord,
}

impl Model for Fields {
    ghost use Rattle.std.specs.Prelude.{◌≡◌, [], List, ℕ};
    ghost use Rattle.csv.specs.Records.{fields_of, partial_of};

    ghost Value = { List (List ℕ) };

    ghost view = { λ a. fields_of a.row };

    ghost invariant = { λ a. partial_of a.row ≡ [] };
}

impl Fields {
    fn new(alloc: Global) -> Fields
        ensures { result ≡ [] }
    {
        let row = ByteRecord::new(alloc);
        Fields { alloc, row }
    }

    /// The record of these fields.
    fn row(&self) -> &ByteRecord
        ensures { fields_of result.now ≡ self.now }
    {
        &self.row
    }

    /// Appends a text.
    fn text(mut self, text: &str) -> Result<Fields, AllocError>
        ensures { IfOk result (λ fields. fields ≡ self ++ text.now ∷ []) }
    {
        self.row.push_field(text.as_bytes())?;
        Ok(self)
    }

    /// Appends a number.
    fn number(self, number: u64) -> Result<Fields, AllocError>
        ensures { IfOk result (λ fields. fields ≡ self ++ decimal number ∷ []) }
    {
        let text = format!(in self.alloc; "{number}")?;
        self.text(text.as_str())
    }

    /// Appends three numbers.
    fn numbers(self, first: u64, second: u64, third: u64) -> Result<Fields, AllocError>
        ensures { IfOk result (λ fields. fields
            ≡ self ++ decimal first ∷ decimal second ∷ decimal third ∷ []) }
    {
        self.number(first)?.number(second)?.number(third)
    }

    /// Appends a moment.
    fn time(self, time: TimeText) -> Result<Fields, AllocError>
        ensures { IfOk result (λ fields. fields ≡ self ++ times.time_text time.0.0 time.1.0 ∷ []) }
    {
        let text = format!(in self.alloc; "{time}")?;
        self.text(text.as_str())
    }

    /// Appends an address and a port.
    fn endpoint(self, addr: u32, port: u16) -> Result<Fields, AllocError>
        ensures { IfOk result (λ fields. fields ≡ self ++ endpoint addr port ∷ []) }
    {
        let text = format!(in self.alloc; "{}", Endpoint { addr, port })?;
        self.text(text.as_str())
    }

    /// Appends a server's number, or nothing.
    fn server(self, server: Option<ServerId>) -> Result<Fields, AllocError>
        ensures { IfOk result (λ fields. fields ≡ self ++ spec.server_field server ∷ []) }
    {
        match server {
            None => self.text(""),
            Some(server) => self.number(u64::from(server.0)),
        }
    }

    /// Appends a rack, or nothing.
    fn rack(self, rack: Option<u16>) -> Result<Fields, AllocError>
        ensures { IfOk result (λ fields. fields ≡ self ++ spec.rack_field rack ∷ []) }
    {
        match rack {
            None => self.text(""),
            Some(rack) => self.number(u64::from(rack)),
        }
    }

    /// Appends the number of a record and its moment.
    fn sight(self, clock: Clock, sight: Sight) -> Result<Fields, AllocError>
        ensures { IfOk result (λ fields. fields ≡ self ++ spec.sight_fields clock.0 sight) }
    {
        self.number(u64::from(sight.number))?
            .time(TimeText(clock, sight.moment))
    }

    /// Appends a packet, the clock at which it came to a server, and that server.
    fn arrival(self, packet: u32, time: TimeText, server: ServerId) -> Result<Fields, AllocError>
        ensures { IfOk result (λ fields. fields
            ≡ self ++ decimal packet ∷ times.time_text time.0.0 time.1.0 ∷ decimal server.0 ∷ []) }
    {
        self.number(u64::from(packet))?
            .time(time)?
            .number(u64::from(server.0))
    }

    /// Appends how many arrivals had each verdict.
    fn tally(self, tally: Tally) -> Result<Fields, AllocError>
        ensures { IfOk result (λ fields. fields ≡ self ++ spec.tally_fields tally) }
    {
        self.numbers(tally.accepted, tally.processed, tally.forwarded)?
            .numbers(tally.dropped, tally.reset, tally.stray)
    }

    /// Appends the first packet that broke or refused a connection, or nothing.
    fn break_fields(self, clock: Clock, found: Option<Break>) -> Result<Fields, AllocError>
        ensures { IfOk result (λ fields. fields ≡ self ++ spec.break_fields clock.0 found) }
    {
        match found {
            None => self.text("")?.text("")?.text("")?.text("")?.text(""),
            Some(first) => self
                .arrival(first.packet, TimeText(clock, first.clock), first.server)?
                .text(verdict_field(first.verdict))?
                .text(cause_field(first.cause)),
        }
    }

    /// Appends the last packet that was forwarded, or nothing.
    fn forwarded(self, clock: Clock, forwarded: Option<Forwarding>) -> Result<Fields, AllocError>
        ensures { IfOk result (λ fields. fields ≡ self ++ spec.forwarded_fields clock.0 forwarded) }
    {
        match forwarded {
            None => self.text("")?.text("")?.text("")?.text(""),
            Some(last) => self
                .arrival(last.packet, TimeText(clock, last.clock), last.server)?
                .seconds(last.wait),
        }
    }

    /// Appends how a connection ended.
    fn ending(self, ending: Ending) -> Result<Fields, AllocError>
        ensures { IfOk result (λ fields. fields ≡ self ++ ending_word ending ∷ []) }
    {
        let text = format!(in self.alloc; "{}", EndingWord(ending))?;
        self.text(text.as_str())
    }

    /// Appends whether the change broke a connection, how it ended, how many arrivals broke nothing
    /// since it had ended itself, and whether it loses data.
    fn end_fields(self, c: &Compared) -> Result<Fields, AllocError>
        ensures { IfOk result (λ fields. fields ≡ self ++ spec.end_fields c.now) }
    {
        let one = &c.connection;
        self.text(origin_field(c.origin))?
            .ending(one.ending)?
            .number(one.tally.after_its_end)?
            .text(losing_field(one.losing_data))
    }

    /// Appends nanoseconds as seconds.
    fn seconds(self, wait: u64) -> Result<Fields, AllocError>
        ensures { IfOk result (λ fields. fields ≡ self ++ times.seconds_text wait ∷ []) }
    {
        let text = format!(in self.alloc; "{}", SecondsText(wait))?;
        self.text(text.as_str())
    }
}

/// The flow of a connection, where it was first and last seen, and the server that accepted it
/// last.
fn seen_fields(alloc: Global, clock: Clock, c: &Connection) -> Result<Fields, AllocError>
    ensures { IfOk result (λ fields. fields ≡ spec.seen_fields clock.0 c.now) }
{
    Fields::new(alloc)
        .endpoint(c.flow.src, c.flow.sport)?
        .endpoint(c.flow.dst, c.flow.dport)?
        .sight(clock, c.first)?
        .sight(clock, c.last)?
        .server(c.server)
}

/// The fields of a connection up to the rack of the server that accepted it last.
fn own_fields(alloc: Global, clock: Clock, racks: u16, c: &Connection) -> Result<Fields, AllocError>
    ensures { IfOk result (λ fields. fields ≡ spec.own_fields clock.0 racks c.now) }
{
    seen_fields(alloc, clock, c)?
        .tally(c.tally)?
        .break_fields(clock, c.broken)?
        .forwarded(clock, c.forwarded)?
        .break_fields(clock, c.refused)?
        .rack(shown_rack(racks, c.server))
}

fn connection_fields(
    alloc: Global,
    clock: Clock,
    racks: u16,
    c: &Compared,
) -> Result<Fields, AllocError>
    ensures { IfOk result (λ fields. fields ≡ spec.connection_fields clock.0 racks c.now) }
{
    own_fields(alloc, clock, racks, &c.connection)?.end_fields(c)
}

/// The names of the fields.
const NAMES: [&[u8]; 32] = [
    b"client",
    b"service",
    b"opened",
    b"opened_at",
    b"last",
    b"last_at",
    b"server",
    b"accepted",
    b"processed",
    b"forwarded",
    b"dropped",
    b"reset",
    b"stray",
    b"broken",
    b"broken_at",
    b"broken_by",
    b"verdict",
    b"cause",
    b"forward",
    b"forward_at",
    b"forward_by",
    b"forward_wait",
    b"refused",
    b"refused_at",
    b"refused_by",
    b"refused_verdict",
    b"refused_cause",
    b"rack",
    b"why",
    b"end",
    b"after_its_end",
    b"losing_data",
];

/// Writes the names of the fields.
fn write_header<W: Write + Drop>(csv: &mut Writer<W>) -> Result<(), Memory>
    ensures { (octets : List ℕ) → HasWritten W.contents csv.old octets
        → OnOk result (HasWritten W.contents csv.new (octets ++ spec.csv_line spec.header)) }
{
    match csv.write_fields(&NAMES) {
        Ok(()) => Ok(()),
        Err(_) => Err(Memory),
    }
}

/// Writes a record. All records have the same number of fields, so only memory can be refused.
fn write_fields<W: Write + Drop>(csv: &mut Writer<W>, fields: &Fields) -> Result<(), Memory>
    ensures { (octets : List ℕ) → HasWritten W.contents csv.old octets
        → OnOk result (HasWritten W.contents csv.new (octets ++ spec.csv_line fields.now)) }
{
    match csv.write_byte_record(fields.row()) {
        Ok(()) => Ok(()),
        Err(_) => Err(Memory),
    }
}

/// Writes the record of a connection.
fn write_connection<W: Write + Drop>(
    alloc: Global,
    csv: &mut Writer<W>,
    clock: Clock,
    racks: u16,
    c: &Compared,
) -> Result<(), Memory>
    ensures { (octets : List ℕ) → HasWritten W.contents csv.old octets
        → OnOk result (HasWritten W.contents csv.new
        (octets ++ spec.connection_record clock.0 racks c.now)) }
{
    let fields = connection_fields(alloc, clock, racks, c)?;
    write_fields(csv, &fields)
}

fn write_connections<W: Write + Drop>(
    alloc: Global,
    csv: &mut Writer<W>,
    clock: Clock,
    racks: u16,
    table: &[Connection],
    wholes: &[bool],
) -> Result<(), Memory>
    ensures { (octets : List ℕ) → HasWritten W.contents csv.old octets
        → OnOk result (HasWritten W.contents csv.new (octets
        ++ flat_map (spec.connection_record clock.0 racks) (compared_with table.now wholes.now))) }
{
    for (place, connection) in table.iter().enumerate() {
        let compared = compare_one(wholes, place, connection);
        write_connection(alloc, csv, clock, racks, &compared)?;
    }
    Ok(())
}

/// The table as comma-separated fields: the names of the fields, and a record for each connection.
/// Moments are written by the clock, and waits in seconds.
pub(crate) fn table_csv(
    alloc: Global,
    clock: Clock,
    racks: u16,
    table: &[Connection],
    wholes: &[bool],
) -> Result<Vec<u8>, Memory>
    ensures { IfOk result (λ octets. octets.items ≡ spec.table_csv clock.0 racks (compared_with table.now wholes.now)) }
{
    let mut csv = Writer::from_writer(Vec::new(alloc));
    write_header(&mut csv)?;
    write_connections(alloc, &mut csv, clock, racks, table, wholes)?;
    match csv.into_inner() {
        Ok(octets) => Ok(octets),
        Err(_) => Err(Memory),
    }
}
