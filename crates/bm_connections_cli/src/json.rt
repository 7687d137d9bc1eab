//! Connections as JSON, a line for each.
ghost use Rattle.std.specs.Prelude.{◌≡◌, ◌++◌, IfOk, OnOk, string_bytes};
ghost use Rattle.serde_json.specs.Data.{string};
ghost use Rattle.serde_json.specs.View.{view};
ghost use Rattle.bm_trace.specs.Words.{endpoint};
ghost use Rattle.bm_connections.specs.Base.{compared_with};
ghost use Rattle.bm_connections.specs.Text.{ending_word};
ghost use Rattle.bm_connections_cli.specs.Json as spec;

use crate::fields::verdict_field;
use bm_base::{Memory, ServerId, Text};
use bm_connections::{
    Break, Clock, Compared, Connection, Ending, EndingWord, Forwarding, Origin, Sight, Tally,
    compare_one, origin_word, shown_rack,
};
use bm_core::Cause;
use bm_trace::{Endpoint, cause_word};
use serde_json::{Value, json};
use std::alloc::{AllocError, Global};

fn sight_value(alloc: Global, clock: Clock, sight: Sight) -> Result<Value, AllocError>
    ensures { IfOk result (λ value. view value ≡ spec.sight_value clock.0 sight) }
{
    json!(in alloc; {"packet": u64::from(sight.number), "at_ns": clock.shown(sight.moment)})
}

/// A server's number, or null.
fn server_value(server: Option<ServerId>) -> Value
    ensures { view result ≡ spec.server_value server }
{
    match server {
        None => Value::Null,
        Some(server) => Value::from(u64::from(server.0)),
    }
}

/// A rack, or null.
fn rack_value(rack: Option<u16>) -> Value
    ensures { view result ≡ spec.rack_value rack }
{
    match rack {
        None => Value::Null,
        Some(rack) => Value::from(u64::from(rack)),
    }
}

/// A cause's word, or null.
fn cause_value(alloc: Global, cause: Option<Cause>) -> Result<Value, AllocError>
    ensures { IfOk result (λ value. view value ≡ spec.cause_value cause) }
{
    match cause {
        None => Ok(Value::Null),
        Some(cause) => json!(in alloc; cause_word(cause)),
    }
}

/// The first packet that broke or refused a connection, or null.
fn break_or_null(alloc: Global, clock: Clock, found: Option<Break>) -> Result<Value, AllocError>
    ensures { IfOk result (λ value. view value ≡ spec.break_or_null clock.0 found) }
{
    match found {
        None => Ok(Value::Null),
        Some(first) => break_value(alloc, clock, first),
    }
}

fn break_value(alloc: Global, clock: Clock, first: Break) -> Result<Value, AllocError>
    ensures { IfOk result (λ value. view value ≡ spec.break_or_null clock.0 (Some first)) }
{
    json!(in alloc; {
        "packet": u64::from(first.packet),
        "at_ns": clock.shown(first.clock),
        "server": u64::from(first.server.0),
        "verdict": verdict_field(first.verdict),
        "cause": cause_value(alloc, first.cause)?
    })
}

/// The last packet that was forwarded, or null.
fn forward_value(
    alloc: Global,
    clock: Clock,
    forwarded: Option<Forwarding>,
) -> Result<Value, AllocError>
    ensures { IfOk result (λ value. view value ≡ spec.forward_value clock.0 forwarded) }
{
    match forwarded {
        None => Ok(Value::Null),
        Some(last) => forwarding_value(alloc, clock, last),
    }
}

fn forwarding_value(alloc: Global, clock: Clock, last: Forwarding) -> Result<Value, AllocError>
    ensures { IfOk result (λ value. view value ≡ spec.forward_value clock.0 (Some last)) }
{
    json!(in alloc; {
        "packet": u64::from(last.packet),
        "at_ns": clock.shown(last.clock),
        "server": u64::from(last.server.0),
        "wait_ns": last.wait
    })
}

/// How many arrivals had each verdict.
fn tally_value(alloc: Global, tally: Tally) -> Result<Value, AllocError>
    ensures { IfOk result (λ value. view value ≡ spec.tally_value tally) }
{
    json!(in alloc; {
        "accepted": tally.accepted,
        "after_its_end": tally.after_its_end,
        "processed": tally.processed,
        "forwarded": tally.forwarded,
        "reset": tally.reset,
        "dropped": tally.dropped,
        "stray": tally.stray
    })
}

/// An address and a port.
fn endpoint_text(alloc: Global, addr: u32, port: u16) -> Result<String, AllocError>
    ensures { IfOk result (λ text. string_bytes text ≡ endpoint addr port) }
{
    format!(in alloc; "{}", Endpoint { addr, port })
}

/// What broke a connection, or null.
fn origin_value(alloc: Global, origin: Option<Origin>) -> Result<Value, AllocError>
    ensures { IfOk result (λ value. view value ≡ spec.origin_value origin) }
{
    match origin {
        None => Ok(Value::Null),
        Some(origin) => json!(in alloc; origin_word(origin)),
    }
}

/// How a connection ended.
fn ending_value(alloc: Global, ending: Ending) -> Result<Value, AllocError>
    ensures { IfOk result (λ value. view value ≡ string (ending_word ending)) }
{
    let word = format!(in alloc; "{}", EndingWord(ending))?;
    json!(in alloc; word.as_str())
}

/// How a connection ended, whether it loses data, and what broke it.
fn outcome_value(alloc: Global, origin: Option<Origin>, c: &Connection) -> Result<Value, AllocError>
    ensures { IfOk result (λ value. view value ≡ spec.outcome_value origin c.now) }
{
    json!(in alloc; {
        "end": ending_value(alloc, c.ending)?,
        "losing_data": c.losing_data,
        "why": origin_value(alloc, origin)?
    })
}

fn connection_value(
    alloc: Global,
    clock: Clock,
    racks: u16,
    origin: Option<Origin>,
    c: &Connection,
) -> Result<Value, AllocError>
    ensures { IfOk result (λ value. view value ≡ spec.connection_value clock.0 racks origin c.now) }
{
    json!(in alloc; {
        "client": endpoint_text(alloc, c.flow.src, c.flow.sport)?,
        "service": endpoint_text(alloc, c.flow.dst, c.flow.dport)?,
        "opened": sight_value(alloc, clock, c.first)?,
        "last": sight_value(alloc, clock, c.last)?,
        "server": server_value(c.server),
        "rack": rack_value(shown_rack(racks, c.server)),
        "arrivals": tally_value(alloc, c.tally)?,
        "broken": break_or_null(alloc, clock, c.broken)?,
        "forward": forward_value(alloc, clock, c.forwarded)?,
        "refused": break_or_null(alloc, clock, c.refused)?,
        "outcome": outcome_value(alloc, origin, c)?
    })
}

/// Appends the connection on a line of its own.
fn write_value(
    alloc: Global,
    text: &mut String,
    clock: Clock,
    racks: u16,
    c: &Compared,
) -> Result<(), AllocError>
    ensures { OnOk result
        (string_bytes text.new ≡ string_bytes text.old ++ spec.json_line clock.0 racks c.now) }
{
    let line = connection_value(alloc, clock, racks, c.origin, &c.connection)?.to_string(alloc)?;
    writeln!(text, "{line}")
}

fn write_values(
    alloc: Global,
    text: &mut String,
    clock: Clock,
    racks: u16,
    table: &[Connection],
    wholes: &[bool],
) -> Result<(), AllocError>
    ensures { OnOk result (string_bytes text.new ≡ string_bytes text.old
        ++ spec.json_lines clock.0 racks (compared_with table.now wholes.now)) }
{
    for (place, connection) in table.iter().enumerate() {
        let compared = compare_one(wholes, place, connection);
        write_value(alloc, text, clock, racks, &compared)?;
    }
    Ok(())
}

/// The connections as JSON, a line for each. Moments are in nanoseconds, by the clock.
pub(crate) fn json_text(
    alloc: Global,
    clock: Clock,
    racks: u16,
    table: &[Connection],
    wholes: &[bool],
) -> Result<Text, Memory>
    ensures { IfOk result (λ text. text
        ≡ spec.json_lines clock.0 racks (compared_with table.now wholes.now)) }
{
    let mut text = String::new(alloc);
    write_values(alloc, &mut text, clock, racks, table, wholes)?;
    Ok(Text::of(text))
}
