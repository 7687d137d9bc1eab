//! The lines of servers and of causes.
ghost use Rattle.std.specs.Prelude.{◌≡◌, ◌++◌, OnOk, IfOk, flat_map, string_bytes};
ghost use Rattle.bm_connections.specs.Text as spec;

use crate::counts::CauseCount;
use crate::late::LongestLate;
use crate::servers::ServerCount;
use crate::text::RackWords;
use crate::times::SecondsText;
use bm_base::{Memory, Text};
use bm_trace::cause_word;
use std::alloc::{AllocError, Global};

/// A server with its rack, how many arrivals it accepted, and how many it processed.
fn write_served(text: &mut String, c: &ServerCount) -> Result<(), AllocError>
    ensures { OnOk result
        (string_bytes text.new ≡ string_bytes text.old ++ spec.served_text c.now) }
{
    let server = c.server.0;
    let rack = RackWords(c.rack);
    let accepted = c.accepted;
    let processed = c.processed;
    write!(
        text,
        "server {server}{rack} accepted {accepted} processed {processed}"
    )
}

/// The most that one of a server's shards held at once, and how many it can hold.
fn write_most(text: &mut String, c: &ServerCount) -> Result<(), AllocError>
    ensures { OnOk result
        (string_bytes text.new ≡ string_bytes text.old ++ spec.most_text c.now) }
{
    let most = c.most_held;
    let capacity = c.capacity;
    writeln!(text, " most-held {most} of {capacity}")
}

fn write_server(text: &mut String, c: &ServerCount) -> Result<(), AllocError>
    ensures { OnOk result
        (string_bytes text.new ≡ string_bytes text.old ++ spec.server_line c.now) }
{
    write_served(text, c)?;
    write_most(text, c)?;
    Ok(())
}

fn write_servers(text: &mut String, servers: &[ServerCount]) -> Result<(), AllocError>
    ensures { OnOk result (string_bytes text.new
        ≡ string_bytes text.old ++ flat_map spec.server_line servers.now) }
{
    for server in servers {
        write_server(text, server)?;
    }
    Ok(())
}

/// A line for each server.
pub fn servers_text(alloc: Global, servers: &[ServerCount]) -> Result<Text, Memory>
    ensures { IfOk result (λ text. text ≡ flat_map spec.server_line servers.now) }
{
    let mut text = String::new(alloc);
    write_servers(&mut text, servers)?;
    Ok(Text::of(text))
}

fn write_cause(text: &mut String, c: &CauseCount) -> Result<(), AllocError>
    ensures { OnOk result
        (string_bytes text.new ≡ string_bytes text.old ++ spec.cause_line c.now) }
{
    let word = cause_word(c.cause);
    let packets = c.packets;
    let broken = c.broken;
    let refused = c.refused;
    writeln!(
        text,
        "cause {word} packets {packets} broken {broken} refused {refused}"
    )
}

fn write_causes(text: &mut String, causes: &[CauseCount]) -> Result<(), AllocError>
    ensures { OnOk result (string_bytes text.new
        ≡ string_bytes text.old ++ flat_map spec.cause_line causes.now) }
{
    for cause in causes {
        write_cause(text, cause)?;
    }
    Ok(())
}

/// A line for each cause.
pub fn causes_text(alloc: Global, causes: &[CauseCount]) -> Result<Text, Memory>
    ensures { IfOk result (λ text. text ≡ flat_map spec.cause_line causes.now) }
{
    let mut text = String::new(alloc);
    write_causes(&mut text, causes)?;
    Ok(Text::of(text))
}

fn write_longest(text: &mut String, late: &LongestLate) -> Result<(), AllocError>
    ensures { OnOk result
        (string_bytes text.new ≡ string_bytes text.old ++ spec.late_line late.now) }
{
    let wait = SecondsText(late.wait);
    let seconds = late.timeout_s;
    writeln!(text, "chain-late longest {wait} timeout_s {seconds}")
}

fn write_late(text: &mut String, late: Option<LongestLate>) -> Result<(), AllocError>
    ensures { OnOk result (string_bytes text.new ≡ string_bytes text.old ++ spec.late_text late) }
{
    match late {
        None => Ok(()),
        Some(longest) => write_longest(text, &longest),
    }
}

/// The line of the longest wait of packets that came too late, or nothing.
pub fn late_text(alloc: Global, late: Option<LongestLate>) -> Result<Text, Memory>
    ensures { IfOk result (λ text. text ≡ spec.late_text late) }
{
    let mut text = String::new(alloc);
    write_late(&mut text, late)?;
    Ok(Text::of(text))
}
