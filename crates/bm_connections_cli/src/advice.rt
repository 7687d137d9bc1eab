//! What an operator may do about the causes that occur.
ghost use Rattle.std.specs.Prelude.{◌≡◌, ◌++◌, length, IfOk, OnOk, Some, flat_map, string_bytes};
ghost use Rattle.std.specs.Option.{option_copied};
ghost use Rattle.bm_connections_cli.specs.Advice as spec;

use bm_base::{Memory, Moment, Record, Text, Version};
use bm_connections::{CauseCount, Connection};
use bm_core::{Cause, Stage};
use bm_table::{Change, Plan};
use bm_trace::cause_word;
use std::alloc::{AllocError, Global};

fn remedy(cause: Cause) -> &'static str
    ensures { result.now ≡ spec.remedy cause }
{
    match cause {
        Cause::NeverAccepted => {
            "begin the capture earlier, or use tools/open_midstream; or its SYN was dropped"
        }
        Cause::NotHeld => {
            "close later; after a retire raise timeout_s, or let every mux switch before; \
            without either, a client sent after its own reset"
        }
        Cause::StaleMux => "let every mux switch before connections open, or route by port",
        Cause::MovedThrice => "wait longer between the changes",
        Cause::ChainLate => "raise timeout_s, or change when fewer long connections are open",
        Cause::SynElsewhere =>
            "nothing to change: a client sent another SYN after the bucket had moved",
        Cause::Full => "raise capacity or shards, or add servers",
        Cause::OldTable => "retire later, or let every mux switch before",
    }
}

fn write_advice(text: &mut String, cause: Cause) -> Result<(), AllocError>
    ensures { OnOk result
        (string_bytes text.new ≡ string_bytes text.old ++ spec.advice_line cause) }
{
    let word = cause_word(cause);
    let remedy = remedy(cause);
    writeln!(text, "advice {word}: {remedy}")
}

fn write_all_advice(text: &mut String, counts: &[CauseCount]) -> Result<(), AllocError>
    ensures { OnOk result (string_bytes text.new
        ≡ string_bytes text.old ++ flat_map (λ c. spec.advice_line c.cause) counts.now) }
{
    for count in counts {
        write_advice(text, count.cause)?;
    }
    Ok(())
}

/// A line of advice for each of these causes.
pub(crate) fn advice_text(alloc: Global, counts: &[CauseCount]) -> Result<Text, Memory>
    ensures { IfOk result (λ text. text ≡ flat_map (λ c. spec.advice_line c.cause) counts.now) }
{
    let mut text = String::new(alloc);
    write_all_advice(&mut text, counts)?;
    Ok(Text::of(text))
}

/// A line of advice if connections are left open after a change.
pub(crate) fn open_text(alloc: Global, connections: u64) -> Result<Text, Memory>
    ensures { IfOk result (λ text. text ≡ spec.open_line connections) }
{
    let mut text = String::new(alloc);
    if connections > 0 {
        writeln!(
            text,
            "advice open-at-end: the capture doesn't show whether these connections break; \
            capture longer, or take a timeout_s for connections of any life (--lifetime)"
        )?;
    }
    Ok(Text::of(text))
}

/// A line of advice if there are no connections, since nothing is steered.
pub(crate) fn nothing_text(alloc: Global, table: &[Connection]) -> Result<Text, Memory>
    ensures { IfOk result (λ text. text ≡ spec.nothing_line table.now) }
{
    let mut text = String::new(alloc);
    if table.is_empty() {
        writeln!(
            text,
            "advice nothing-steered: name your services in vips; beamer replay tells why each \
            packet is unsteered"
        )?;
    }
    Ok(Text::of(text))
}

/// Whether all records come before the moment.
fn ends_before(records: &[Record], moment: Moment) -> bool
    ensures { result ≡ spec.ends_before records.now moment }
{
    records.iter().all(|record| record.moment.0 < moment.0)
}

/// Whether all records come less than this many nanoseconds after the moment.
fn ends_within(records: &[Record], timeout: u64, moment: Moment) -> bool
    ensures { result ≡ spec.ends_within records.now timeout moment }
{
    records.iter().all(|record| record.moment.0.saturating_sub(moment.0) < timeout)
}

/// The plan's last change.
fn last_change(plan: &Plan) -> Option<&Change>
    ensures { option_copied result ≡ spec.last_change plan.now.changes }
{
    plan.next_change(Version(plan.versions().saturating_sub(1)))
}

/// Whether there is a change, and it moves buckets.
fn moves_some(change: Option<&Change>) -> bool
    ensures { result ≡ spec.moves_some (option_copied change.entry) }
{
    match change {
        None => false,
        Some(change) => change.moves.items().len() > 0,
    }
}

/// The plan's last change that moves buckets. Takes time in proportion to the changes after it.
fn last_moving(plan: &Plan) -> Option<&Change>
    ensures { option_copied result
        ≡ spec.last_moving plan.now (length plan.now.changes) }
{
    let mut version = plan.versions();
    while version > 0 {
        version -= 1;
        let change = plan.next_change(Version(version));
        if moves_some(change) {
            return change;
        }
    }
    None
}

/// Lines of advice if the capture ends before the script's last change, and if it ends before the
/// timeout after the last change that moves buckets has passed.
pub(crate) fn end_text(alloc: Global, stage: &Stage) -> Result<Text, Memory>
    ensures { IfOk result (λ text. text ≡ spec.end_lines stage.now) }
{
    let records = stage.capture.records.items();
    let plan = &stage.script.plan;
    let mut text = String::new(alloc);
    write_early_end(&mut text, records, last_change(plan))?;
    write_timeout_end(
        &mut text,
        records,
        stage.script.setting.timeout,
        last_moving(plan),
    )?;
    Ok(Text::of(text))
}

fn write_early_end(
    text: &mut String,
    records: &[Record],
    change: Option<&Change>,
) -> Result<(), AllocError>
    ensures { OnOk result (string_bytes text.new
        ≡ string_bytes text.old ++ spec.early_end records.now (option_copied change.entry)) }
{
    let Some(change) = change else {
        return Ok(());
    };
    if ends_before(records, change.moment) {
        writeln!(
            text,
            "advice change-after-the-end: the capture ends before the last change; lower its \
            at_ns, or capture longer"
        )?;
    }
    Ok(())
}

fn write_timeout_end(
    text: &mut String,
    records: &[Record],
    timeout: u64,
    change: Option<&Change>,
) -> Result<(), AllocError>
    ensures { OnOk result (string_bytes text.new ≡ string_bytes text.old
        ++ spec.timeout_end records.now timeout (option_copied change.entry)) }
{
    let Some(change) = change else {
        return Ok(());
    };
    if !ends_before(records, change.moment) && ends_within(records, timeout, change.moment) {
        writeln!(
            text,
            "advice timeout-after-the-end: the capture ends before timeout_s has passed since \
            buckets last moved; capture longer, to see what comes too late"
        )?;
    }
    Ok(())
}
