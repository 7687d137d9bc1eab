//! The stories of the connections that are chosen.
ghost use Rattle.std.specs.Prelude.{◌≡◌, ◌++◌, ◌∷◌, [], IfOk, OnOk, filter, flat_map, string_bytes};
ghost use Rattle.std.specs.Prelude.{None, Some, option_map};
ghost use Rattle.std.specs.Str.{bytes_eq};
ghost use Rattle.bm_core.specs.Runs.{IsRun};
ghost use Rattle.bm_trace.specs.Swept.{AreCauses};
ghost use Rattle.bm_trace.specs.Words.{endpoint, line};
ghost use Rattle.bm_cli.specs.Statuses.{Writes, did};
ghost use Rattle.bm_connections.specs.Base.{compared_with};
ghost use Rattle.bm_connections.specs.Connections as tables;
ghost use Rattle.bm_connections_words.specs.Options.{chosen};
ghost use Rattle.bm_connections_cli.specs.Stories as spec;

use bm_base::{Memory, Text};
use bm_cli::{Status, say};
use bm_connections::{
    Clock, Compared, Connection, compare_one, connections, story_text, write_connection,
};
use bm_connections_words::Chosen;
use bm_core::History;
use bm_io::Sink;
use bm_trace::{CauseList, Endpoint, sweep};
use std::alloc::{AllocError, Global};

/// Whether this is the text of an address and a port.
fn is_endpoint(alloc: Global, text: &str, addr: u32, port: u16) -> Result<bool, AllocError>
    ensures { IfOk result (λ same. same ≡ bytes_eq (endpoint addr port) text.now) }
{
    let endpoint = format!(in alloc; "{}", Endpoint { addr, port })?;
    Ok(endpoint.as_str() == text)
}

/// Whether the connection is one of those that are picked.
fn is_chosen(alloc: Global, picked: &Chosen<'_>, c: &Connection) -> Result<bool, AllocError>
    ensures { IfOk result (λ is. is ≡ spec.is_chosen (chosen picked.now) c.now) }
{
    if !is_endpoint(alloc, picked.client, c.flow.src, c.flow.sport)? {
        return Ok(false);
    }
    match picked.service {
        None => Ok(true),
        Some(service) => is_endpoint(alloc, service, c.flow.dst, c.flow.dport),
    }
}

/// Appends the connection if it is picked.
fn push_chosen(
    alloc: Global,
    list: &mut Vec<Compared>,
    picked: &Chosen<'_>,
    c: Compared,
) -> Result<(), AllocError>
    ensures { OnOk result (list.new.items ≡ list.old.items
        ++ filter (λ x. spec.is_chosen (chosen picked.now) x.connection) (c ∷ [])) }
{
    if is_chosen(alloc, picked, &c.connection)? {
        list.push(c)?;
    }
    Ok(())
}

/// The connections that are picked, by whether each of the table is whole in the base.
fn chosen_in(
    alloc: Global,
    picked: &Chosen<'_>,
    table: &[Connection],
    wholes: &[bool],
) -> Result<Vec<Compared>, Memory>
    ensures { IfOk result (λ list. list.items ≡ filter
        (λ c. spec.is_chosen (chosen picked.now) c.connection) (compared_with table.now wholes.now)) }
{
    let mut list = Vec::new(alloc);
    for (place, connection) in table.iter().enumerate() {
        let compared = compare_one(wholes, place, connection);
        push_chosen(alloc, &mut list, picked, compared)?;
    }
    Ok(list)
}

/// Appends a connection's line, and its story.
fn write_told(
    alloc: Global,
    text: &mut String,
    clock: Clock,
    h: &History,
    causes: &CauseList,
    c: &Compared,
) -> Result<(), Memory>
    requires run { IsRun h.now }
    requires causes { AreCauses h.now causes.now }
    ensures { OnOk result
        (string_bytes text.new ≡ string_bytes text.old ++ spec.told clock.0 h.now c.now) }
{
    write_connection(text, clock, h.stage.script.setting.racks, c)?;
    let story = story_text(alloc, clock, h, causes, &c.connection.flow)?;
    text.push_str(story.as_str())?;
    Ok(())
}

fn write_all(
    alloc: Global,
    text: &mut String,
    clock: Clock,
    h: &History,
    causes: &CauseList,
    list: &[Compared],
) -> Result<(), Memory>
    requires run { IsRun h.now }
    requires causes { AreCauses h.now causes.now }
    ensures { OnOk result (string_bytes text.new
        ≡ string_bytes text.old ++ flat_map (spec.told clock.0 h.now) list.now) }
{
    for c in list {
        write_told(alloc, text, clock, h, causes, c)?;
    }
    Ok(())
}

fn write_no_client(text: &mut String, client: &str) -> Result<(), AllocError>
    ensures { OnOk result (string_bytes text.new
        ≡ string_bytes text.old ++ spec.none_line client.now None) }
{
    writeln!(text, "no-connection {client}")
}

fn write_no_flow(text: &mut String, client: &str, service: &str) -> Result<(), AllocError>
    ensures { OnOk result (string_bytes text.new
        ≡ string_bytes text.old ++ spec.none_line client.now (Some service.now)) }
{
    writeln!(text, "no-connection {client} {service}")
}

/// The line where there is no connection of the client to the service, or to any if none is named.
fn write_none(text: &mut String, client: &str, service: Option<&str>) -> Result<(), AllocError>
    ensures { OnOk result (string_bytes text.new ≡ string_bytes text.old
        ++ spec.none_line client.now (option_map (λ s. s.now) service.entry)) }
{
    match service {
        None => write_no_client(text, client),
        Some(service) => write_no_flow(text, client, service),
    }
}

/// The stories of these connections, or a line if there are none.
fn told_all(
    alloc: Global,
    picked: &Chosen<'_>,
    clock: Clock,
    h: &History,
    causes: &CauseList,
    list: &[Compared],
) -> Result<Text, Memory>
    requires run { IsRun h.now }
    requires causes { AreCauses h.now causes.now }
    ensures { IfOk result (λ text. text ≡ spec.told_all (chosen picked.now) clock.0 h.now list.now) }
{
    let mut text = String::new(alloc);
    if list.is_empty() {
        write_none(&mut text, picked.client, picked.service)?;
    } else {
        write_all(alloc, &mut text, clock, h, causes, list)?;
    }
    Ok(Text::of(text))
}

/// The stories of the connections of the history that are picked, by which of its connections are
/// whole in that of its base.
#[tactic(auto, using(bm_trace::proofs::Ranged::ranges_of))]
fn stories_of(
    alloc: Global,
    picked: &Chosen<'_>,
    clock: Clock,
    h: &History,
    wholes: &[bool],
) -> Result<Text, Memory>
    requires { IsRun h.now }
    ensures { IfOk result (λ text. text ≡ spec.story_report (chosen picked.now) clock.0 h.now
        (compared_with (tables.connections h.now) wholes.now)) }
{
    let causes = sweep(alloc, h)?;
    let table = connections(alloc, h, &causes)?;
    let list = chosen_in(alloc, picked, table.items(), wholes)?;
    told_all(alloc, picked, clock, h, &causes, list.as_slice())
}

/// Writes the stories of the connections of the history that are picked. If memory is refused
/// before all of it is put together, nothing is written.
pub(crate) fn tell_stories<K: Sink>(
    alloc: Global,
    picked: Chosen<'_>,
    clock: Clock,
    history: &History,
    wholes: &[bool],
    out: &mut K,
) -> Status
    requires { IsRun history.now }
    ensures { Writes Status.Done (spec.story_report (chosen picked.entry) clock.0 history.now
        (compared_with (tables.connections history.now) wholes.now))
        (did K.written K.faults out.old out.new) result }
{
    let Ok(text) = stories_of(alloc, &picked, clock, history, wholes) else {
        return Status::Memory;
    };
    say(out, text.as_str().as_bytes(), Status::Done)
}
