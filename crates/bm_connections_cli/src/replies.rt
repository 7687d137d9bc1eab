//! What servers replied to the commands `close` and `retire`.
ghost use Rattle.std.specs.Prelude.{◌≡◌, ◌++◌, IfOk, OnOk, string_bytes};
ghost use Rattle.bm_core.specs.declared.events.What.TheVariants as event;
ghost use Rattle.bm_connections_cli.specs.Replies as spec;

use bm_base::{Flow, Memory, ServerId, Text};
use bm_connections::{Clock, TimeText};
use bm_core::{Event, What};
use bm_trace::{Endpoint, RetirementWords};
use std::alloc::{AllocError, Global};

fn closed_word(closed: bool) -> &'static str
    ensures { result.now ≡ spec.closed_word closed }
{
    if closed { "closed" } else { "none" }
}

/// The line of a reply to `close`.
fn write_close(
    text: &mut String,
    at: TimeText,
    server: ServerId,
    flow: Flow,
    closed: bool,
) -> Result<(), AllocError>
    ensures { OnOk result (string_bytes text.new ≡ string_bytes text.old
        ++ spec.reply_line at.0.0 at.1.0 (event.Close server flow closed)) }
{
    let server = server.0;
    let client = Endpoint {
        addr: flow.src,
        port: flow.sport,
    };
    let service = Endpoint {
        addr: flow.dst,
        port: flow.dport,
    };
    let reply = closed_word(closed);
    writeln!(text, "close {server} {client} {service} at {at} {reply}")
}

/// The line of a reply at this time, if the event is one.
fn write_reply(text: &mut String, clock: Clock, event: &Event) -> Result<(), AllocError>
    ensures { OnOk result (string_bytes text.new ≡ string_bytes text.old
        ++ spec.reply_line clock.0 event.now.clock.0 event.now.what) }
{
    match event.what {
        What::Close {
            server,
            flow,
            closed,
        } => write_close(text, TimeText(clock, event.clock), server, flow, closed),
        What::Retire {
            server,
            shard: 0,
            at,
            result,
        } => {
            let server = server.0;
            let at = TimeText(clock, at);
            let reply = RetirementWords(result);
            writeln!(text, "retire {server} at {at}{reply}")
        }
        _ => Ok(()),
    }
}

fn write_replies(text: &mut String, clock: Clock, events: &[Event]) -> Result<(), AllocError>
    ensures { OnOk result (string_bytes text.new
        ≡ string_bytes text.old ++ spec.replies_text clock.0 events.now) }
{
    for event in events {
        write_reply(text, clock, event)?;
    }
    Ok(())
}

/// A line for each reply to `close` and, for servers' first shards, to `retire`, in order. Times
/// are written by the clock.
pub(crate) fn replies_text(alloc: Global, clock: Clock, events: &[Event]) -> Result<Text, Memory>
    ensures { IfOk result (λ text. text ≡ spec.replies_text clock.0 events.now) }
{
    let mut text = String::new(alloc);
    write_replies(&mut text, clock, events)?;
    Ok(Text::of(text))
}
