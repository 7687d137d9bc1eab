//! What is reported of a history's connections.
ghost use Rattle.std.specs.Prelude.{◌≡◌, ◌++◌, ◌∷◌, [], IfOk, IsOkAnd, OnOk};
ghost use Rattle.bm_table.specs.Scripts.{IsSoundScript};
ghost use Rattle.bm_core.specs.Runs.{IsRun};
ghost use Rattle.bm_trace.specs.Report.{note_line};
ghost use Rattle.bm_connections.specs.Base.{compared_with};
ghost use Rattle.bm_connections.specs.Connections as tables;
ghost use Rattle.bm_drawing.specs.Drawing as draw;
ghost use Rattle.bm_connections_cli.specs.Inside.Findings.{AreFindings};
ghost use Rattle.bm_connections_cli.specs.Text as spec;
ghost use Rattle.bm_connections_words.specs.declared.options.Format.TheVariants.{Csv, Json};

use crate::advice::{advice_text, end_text, nothing_text, open_text};
use crate::changes::changes_text;
use crate::fields::table_csv;
use crate::findings::{Findings, find_out};
use crate::json::json_text;
use crate::outlived::outlived_text;
use crate::replies::replies_text;
use bm_base::{List, Memory, Text};
use bm_connections::{
    Clock, Connection, after_end_text, answer_of, answer_text, causes_text, connections,
    copies_text, late_text, moved_thrice_text, needed_changes_text, needed_servers_text,
    open_ends_text, servers_text, table_text, unsteered_text,
};
use bm_core::History;
use bm_drawing::drawing;
use bm_script::ChangeVerb;
use bm_trace::sweep;
use std::alloc::Global;

/// What is reported in lines, part by part, by which of the connections are whole in the base.
#[tactic(auto, using(bm_trace::proofs::Ranged::ranges_of))]
pub(crate) fn lines_of(
    alloc: Global,
    clock: Clock,
    verbs: &[ChangeVerb],
    h: &History,
    wholes: &[bool],
) -> Result<Vec<Text>, Memory>
    requires { IsRun h.now }
    ensures { IfOk result (λ parts. parts.items ≡ spec.parts clock.0 verbs.now h.now
        (compared_with (tables.connections h.now) wholes.now)) }
{
    let causes = sweep(alloc, h)?;
    let table = connections(alloc, h, &causes)?;
    let found = find_out(alloc, h, &causes, table.items())?;
    parts_of(alloc, clock, verbs, h, table.items(), wholes, &found)
}

/// The parts, from the table of connections and the findings.
fn parts_of(
    alloc: Global,
    clock: Clock,
    verbs: &[ChangeVerb],
    h: &History,
    table: &[Connection],
    wholes: &[bool],
    found: &Findings,
) -> Result<Vec<Text>, Memory>
    requires script { IsSoundScript h.now.stage.script }
    requires table { table.now ≡ tables.connections h.now }
    requires found { AreFindings h.now found.now }
    ensures { IfOk result (λ parts. parts.items
        ≡ spec.parts clock.0 verbs.now h.now (compared_with table.now wholes.now)) }
{
    let mut parts = Vec::with_capacity(alloc, 20)?;
    add_outcome(alloc, &mut parts, clock, verbs, h, table, wholes, found)?;
    add_reasons(alloc, &mut parts, h, table, found)?;
    Ok(parts)
}

/// Appends what became of connections, servers and changes.
fn add_outcome(
    alloc: Global,
    parts: &mut Vec<Text>,
    clock: Clock,
    verbs: &[ChangeVerb],
    h: &History,
    table: &[Connection],
    wholes: &[bool],
    found: &Findings,
) -> Result<(), Memory>
    requires script { IsSoundScript h.now.stage.script }
    requires table { table.now ≡ tables.connections h.now }
    requires found { AreFindings h.now found.now }
    ensures { OnOk result (parts.new.items ≡ parts.old.items
        ++ spec.outcome_parts clock.0 verbs.now h.now (compared_with table.now wholes.now)) }
{
    add_table(alloc, parts, clock, h, table, wholes, found)?;
    add_changes(alloc, parts, clock, verbs, h, table, found)?;
    add_replies(alloc, parts, clock, h, found)?;
    Ok(())
}

/// Appends why, and what to do.
fn add_reasons(
    alloc: Global,
    parts: &mut Vec<Text>,
    h: &History,
    table: &[Connection],
    found: &Findings,
) -> Result<(), Memory>
    requires table { table.now ≡ tables.connections h.now }
    requires found { AreFindings h.now found.now }
    ensures { OnOk result (parts.new.items ≡ parts.old.items ++ spec.reason_parts h.now) }
{
    add_causes(alloc, parts, h, found)?;
    add_capture(alloc, parts, h, found)?;
    add_advice(alloc, parts, h, found)?;
    add_capture_advice(alloc, parts, h, table, found)?;
    Ok(())
}

/// Appends the answer, the connections and the servers.
fn add_table(
    alloc: Global,
    parts: &mut Vec<Text>,
    clock: Clock,
    h: &History,
    table: &[Connection],
    wholes: &[bool],
    found: &Findings,
) -> Result<(), Memory>
    requires table { table.now ≡ tables.connections h.now }
    requires found { AreFindings h.now found.now }
    ensures { OnOk result (parts.new.items ≡ parts.old.items
        ++ spec.table_parts clock.0 h.now (compared_with table.now wholes.now)) }
{
    let racks = h.stage.script.setting.racks;
    let summary = &found.summary;
    let answer = answer_of(table, wholes, found.ends.connections, found.needs.late);
    add(parts, answer_text(alloc, &answer))?;
    add(parts, table_text(alloc, clock, racks, table, wholes))?;
    add(parts, servers_text(alloc, summary.servers.items()))?;
    Ok(())
}

/// Appends the changes, what they allow, how long they need the old servers, and which connections
/// after them are left open.
fn add_changes(
    alloc: Global,
    parts: &mut Vec<Text>,
    clock: Clock,
    verbs: &[ChangeVerb],
    h: &History,
    table: &[Connection],
    found: &Findings,
) -> Result<(), Memory>
    requires script { IsSoundScript h.now.stage.script }
    requires table { table.now ≡ tables.connections h.now }
    requires found { AreFindings h.now found.now }
    ensures { OnOk result
        (parts.new.items ≡ parts.old.items ++ spec.change_parts clock.0 verbs.now h.now) }
{
    let script = &h.stage.script;
    let racks = script.setting.racks;
    add(
        parts,
        changes_text(alloc, clock, racks, &script.plan, verbs),
    )?;
    add(parts, outlived_text(alloc, script, table))?;
    add(
        parts,
        needed_changes_text(alloc, clock, found.needs.changes.items()),
    )?;
    add(parts, open_ends_text(alloc, found.ends.changes.items()))?;
    Ok(())
}

/// Appends what the servers replied to commands, and how long they were needed after they retired.
#[tactic(auto, using(crate::proofs::Told::replies_told))]
fn add_replies(
    alloc: Global,
    parts: &mut Vec<Text>,
    clock: Clock,
    h: &History,
    found: &Findings,
) -> Result<(), Memory>
    requires found { AreFindings h.now found.now }
    ensures { OnOk result
        (parts.new.items ≡ parts.old.items ++ spec.reply_parts clock.0 h.now) }
{
    add(
        parts,
        replies_text(alloc, clock, found.summary.replies.items()),
    )?;
    add(
        parts,
        needed_servers_text(alloc, clock, found.needs.servers.items()),
    )?;
    Ok(())
}

/// Appends the causes of what broke, what came too late, what moved three times, and what comes
/// after its connection's end.
fn add_causes(
    alloc: Global,
    parts: &mut Vec<Text>,
    h: &History,
    found: &Findings,
) -> Result<(), Memory>
    requires found { AreFindings h.now found.now }
    ensures { OnOk result (parts.new.items ≡ parts.old.items ++ spec.cause_parts h.now) }
{
    add(parts, causes_text(alloc, found.summary.causes.items()))?;
    add(parts, late_text(alloc, found.needs.late))?;
    add(parts, moved_thrice_text(alloc, found.needs.thirds.items()))?;
    add(parts, after_end_text(alloc, found.summary.after_end))?;
    Ok(())
}

/// Appends what isn't steered, and whether the capture is cut short.
fn add_capture(
    alloc: Global,
    parts: &mut Vec<Text>,
    h: &History,
    found: &Findings,
) -> Result<(), Memory>
    requires found { AreFindings h.now found.now }
    ensures { OnOk result (parts.new.items ≡ parts.old.items ++ spec.capture_parts h.now) }
{
    add(parts, unsteered_text(alloc, &found.unsteered))?;
    add(parts, cut_text(alloc, h.stage.capture.cut))?;
    Ok(())
}

/// Appends what to do about causes, and about connections that are left open.
fn add_advice(
    alloc: Global,
    parts: &mut Vec<Text>,
    h: &History,
    found: &Findings,
) -> Result<(), Memory>
    requires found { AreFindings h.now found.now }
    ensures { OnOk result (parts.new.items ≡ parts.old.items ++ spec.advice_parts h.now) }
{
    add(parts, advice_text(alloc, found.summary.causes.items()))?;
    add(parts, open_text(alloc, found.ends.connections))?;
    Ok(())
}

/// Appends what to do about the capture.
fn add_capture_advice(
    alloc: Global,
    parts: &mut Vec<Text>,
    h: &History,
    table: &[Connection],
    found: &Findings,
) -> Result<(), Memory>
    requires table { table.now ≡ tables.connections h.now }
    requires found { AreFindings h.now found.now }
    ensures { OnOk result (parts.new.items ≡ parts.old.items ++ spec.capture_advice h.now) }
{
    add(parts, copies_text(alloc, found.copies))?;
    add(parts, nothing_text(alloc, table))?;
    add(parts, end_text(alloc, &h.stage))?;
    Ok(())
}

/// Appends the part, unless memory was refused.
fn add(parts: &mut Vec<Text>, part: Result<Text, Memory>) -> Result<(), Memory>
    ensures { OnOk result (IsOkAnd part (λ text. parts.new.items ≡ parts.old.items ++ text ∷ [])) }
{
    parts.push(part?)?;
    Ok(())
}

/// The note that the record of this number is cut short, or nothing.
fn cut_text(alloc: Global, cut: Option<u32>) -> Result<Text, Memory>
    ensures { IfOk result (λ text. text ≡ note_line cut) }
{
    let mut text = String::new(alloc);
    if let Some(record) = cut {
        writeln!(text, "note record {record} cut short")?;
    }
    Ok(Text::of(text))
}

/// The table of the history's connections.
#[tactic(auto, using(bm_trace::proofs::Ranged::ranges_of))]
pub(crate) fn table_of(alloc: Global, h: &History) -> Result<List<Connection>, Memory>
    requires { IsRun h.now }
    ensures { IfOk result (λ table. table ≡ tables.connections h.now) }
{
    let causes = sweep(alloc, h)?;
    connections(alloc, h, &causes)
}

/// The fields of connections.
pub(crate) fn fields_of(
    alloc: Global,
    clock: Clock,
    h: &History,
    wholes: &[bool],
) -> Result<Vec<u8>, Memory>
    requires { IsRun h.now }
    ensures { IfOk result (λ octets. octets.items ≡ spec.report Csv clock.0 [] h.now
        (compared_with (tables.connections h.now) wholes.now)) }
{
    let table = table_of(alloc, h)?;
    table_csv(
        alloc,
        clock,
        h.stage.script.setting.racks,
        table.items(),
        wholes,
    )
}

/// Connections as JSON.
pub(crate) fn values_of(
    alloc: Global,
    clock: Clock,
    h: &History,
    wholes: &[bool],
) -> Result<Text, Memory>
    requires { IsRun h.now }
    ensures { IfOk result (λ text. text ≡ spec.report Json clock.0 [] h.now
        (compared_with (tables.connections h.now) wholes.now)) }
{
    let table = table_of(alloc, h)?;
    json_text(
        alloc,
        clock,
        h.stage.script.setting.racks,
        table.items(),
        wholes,
    )
}

pub(crate) fn drawing_of(alloc: Global, clock: Clock, h: &History) -> Result<Text, Memory>
    requires { IsRun h.now }
    ensures { IfOk result (λ text. text ≡ draw.drawing clock.0 h.now (tables.connections h.now)) }
{
    let table = table_of(alloc, h)?;
    drawing(alloc, clock, h, table.items())
}
