//! Writing the connections of a history.
ghost use Rattle.std.specs.Prelude.{[], flat_map};
ghost use Rattle.bm_core.specs.Runs.{IsRun};
ghost use Rattle.bm_cli.specs.Statuses.{Writes, did};
ghost use Rattle.bm_connections.specs.Base.{compared_with};
ghost use Rattle.bm_connections.specs.Connections.{connections};
ghost use Rattle.bm_drawing.specs.Drawing.{drawing};
ghost use Rattle.bm_connections_cli.specs.Text.{report};
ghost use Rattle.bm_connections_words.specs.declared.options.Format.TheVariants as in_format;

use crate::parts::{drawing_of, fields_of, lines_of, values_of};
use crate::put::put_parts;
use bm_base::{Memory, Text};
use bm_cli::{Status, say};
use bm_connections::Clock;
use bm_connections_words::Format;
use bm_core::History;
use bm_io::{IoFault, Sink};
use bm_script::ChangeVerb;
use std::alloc::Global;

/// Writes the connections of the history in this format, with moments by the clock, and with what the
/// script's commands say. If memory is refused before all of it is put together, nothing is written.
pub(crate) fn tell<K: Sink>(
    alloc: Global,
    format: Format,
    clock: Clock,
    verbs: &[ChangeVerb],
    history: &History,
    wholes: &[bool],
    out: &mut K,
) -> Status
    requires { IsRun history.now }
    ensures { Writes Status.Done
        (report format clock.0 verbs.now history.now
        (compared_with (connections history.now) wholes.now))
        (did K.written K.faults out.old out.new) result }
{
    match format {
        Format::Lines => tell_lines(alloc, clock, verbs, history, wholes, out),
        Format::Csv => tell_fields(alloc, clock, history, wholes, out),
        Format::Json => tell_values(alloc, clock, history, wholes, out),
        Format::Svg => tell_drawing(alloc, clock, history, out),
    }
}

fn tell_lines<K: Sink>(
    alloc: Global,
    clock: Clock,
    verbs: &[ChangeVerb],
    history: &History,
    wholes: &[bool],
    out: &mut K,
) -> Status
    requires { IsRun history.now }
    ensures { Writes Status.Done (report in_format.Lines clock.0 verbs.now history.now
        (compared_with (connections history.now) wholes.now))
        (did K.written K.faults out.old out.new) result }
{
    match lines_of(alloc, clock, verbs, history, wholes) {
        Ok(parts) => tell_parts(parts.as_slice(), out),
        Err(Memory) => Status::Memory,
    }
}

/// Writes the texts, one after the other.
fn tell_parts<K: Sink>(parts: &[Text], out: &mut K) -> Status
    ensures { Writes Status.Done (flat_map (λ part. part) parts.now)
        (did K.written K.faults out.old out.new) result }
{
    match put_parts(out, parts) {
        Ok(()) => Status::Done,
        Err(IoFault::Failed) => Status::WriteFault,
        Err(IoFault::Memory) => Status::Memory,
    }
}

fn tell_fields<K: Sink>(
    alloc: Global,
    clock: Clock,
    history: &History,
    wholes: &[bool],
    out: &mut K,
) -> Status
    requires { IsRun history.now }
    ensures { Writes Status.Done (report in_format.Csv clock.0 [] history.now
        (compared_with (connections history.now) wholes.now))
        (did K.written K.faults out.old out.new) result }
{
    let Ok(octets) = fields_of(alloc, clock, history, wholes) else {
        return Status::Memory;
    };
    say(out, octets.as_slice(), Status::Done)
}

fn tell_values<K: Sink>(
    alloc: Global,
    clock: Clock,
    history: &History,
    wholes: &[bool],
    out: &mut K,
) -> Status
    requires { IsRun history.now }
    ensures { Writes Status.Done (report in_format.Json clock.0 [] history.now
        (compared_with (connections history.now) wholes.now))
        (did K.written K.faults out.old out.new) result }
{
    let Ok(values) = values_of(alloc, clock, history, wholes) else {
        return Status::Memory;
    };
    say(out, values.as_str().as_bytes(), Status::Done)
}

pub(crate) fn tell_drawing<K: Sink>(
    alloc: Global,
    clock: Clock,
    history: &History,
    out: &mut K,
) -> Status
    requires { IsRun history.now }
    ensures { Writes Status.Done (drawing clock.0 history.now (connections history.now))
        (did K.written K.faults out.old out.new) result }
{
    let Ok(picture) = drawing_of(alloc, clock, history) else {
        return Status::Memory;
    };
    say(out, picture.as_str().as_bytes(), Status::Done)
}
