//! What is written of a script's lifetime.
ghost use Rattle.std.specs.Prelude.{◌≡◌, ◌≢◌, ◌++◌, IfOk, OnOk, Some, string_bytes};
ghost use Rattle.bm_table.specs.Scripts.{IsSoundScript};
ghost use Rattle.bm_cli.specs.Statuses.{did};
ghost use Rattle.bm_cli.specs.Telling.{Tells};
ghost use Rattle.bm_connections_cli.specs.Lifetime as spec;
ghost use Rattle.bm_connections_cli.specs.Inside.Ends.{no_lines};
ghost use Rattle.bm_connections_cli.specs.Inside.Lifetime.{status_for};

use bm_base::{Memory, Text};
use bm_cli::{Status, say};
use bm_connections::SecondsText;
use bm_io::Sink;
use bm_lifetime::{Lifetime, NearMoves, lifetime};
use bm_table::Script;
use std::alloc::{AllocError, Global};

const SECOND: u64 = 1_000_000_000;

/// The greatest timeout of a script, in seconds.
const LONGEST_TIMEOUT: u64 = 86_400;

/// Writes the script's lifetime, with what bounds it. The status says whether connections that live
/// `seconds` are safe. If memory is refused before all of it is put together, nothing is written.
pub(crate) fn tell_lifetime<K: Sink>(
    alloc: Global,
    script: &Script,
    seconds: Option<u32>,
    out: &mut K,
) -> Status
    requires { IsSoundScript script.now }
    ensures { Tells no_lines (spec.lifetime_answer seconds script.now)
        (did K.written K.faults out.old out.new) result }
{
    let Ok(life) = lifetime(alloc, script) else {
        return Status::Memory;
    };
    let Ok(text) = explained_text(alloc, script.setting.timeout, life) else {
        return Status::Memory;
    };
    say(out, text.as_str().as_bytes(), status_for(seconds, life))
}

/// The status: whether connections that live `seconds` are safe by this lifetime.
fn status_for(seconds: Option<u32>, life: Option<Lifetime>) -> Status
    ensures status { result ≡ status_for (spec.outlives seconds life) }
    ensures write { result ≢ Status.WriteFault }
    ensures memory { result ≢ Status.Memory }
{
    if outlives(seconds, life) {
        Status::Exceeded
    } else {
        Status::Done
    }
}

/// Whether `seconds` exceed this lifetime.
fn outlives(seconds: Option<u32>, life: Option<Lifetime>) -> bool
    ensures { result ≡ spec.outlives seconds life }
{
    match (seconds, life) {
        (Some(seconds), Some(life)) => life.time < u64::from(seconds) * SECOND,
        _ => false,
    }
}

/// The lines of a lifetime, of a script with this timeout.
fn explained_text(alloc: Global, timeout: u64, life: Option<Lifetime>) -> Result<Text, Memory>
    ensures { IfOk result (λ text. text ≡ spec.explained_text timeout life) }
{
    let mut text = String::new(alloc);
    match life {
        None => writeln!(text, "lifetime unbounded")?,
        Some(life) => write_lifetime(&mut text, timeout, &life)?,
    }
    Ok(Text::of(text))
}

fn write_lifetime(text: &mut String, timeout: u64, life: &Lifetime) -> Result<(), AllocError>
    ensures { OnOk result (string_bytes text.new
        ≡ string_bytes text.old ++ spec.explained_text timeout (Some life.now)) }
{
    let time = SecondsText(life.time);
    writeln!(text, "lifetime {time}")?;
    write_bounds(text, timeout, life)?;
    write_raises(text, life)
}

/// A line for each thing that bounds the lifetime.
fn write_bounds(text: &mut String, timeout: u64, life: &Lifetime) -> Result<(), AllocError>
    ensures { OnOk result (string_bytes text.new
        ≡ string_bytes text.old ++ spec.bound_lines timeout life.now) }
{
    write_route_bound(text, life)?;
    write_timeout_bound(text, timeout, life)?;
    match life.by_moves {
        Some(near) => write_moves_bound(text, near),
        None => Ok(()),
    }
}

fn write_route_bound(text: &mut String, life: &Lifetime) -> Result<(), AllocError>
    ensures { OnOk result
        (string_bytes text.new ≡ string_bytes text.old ++ spec.route_bound_line life.now) }
{
    if life.by_timeout || life.by_moves.is_some() {
        return Ok(());
    }
    writeln!(text, "bound route turn")
}

fn write_timeout_bound(text: &mut String, timeout: u64, life: &Lifetime) -> Result<(), AllocError>
    ensures { OnOk result (string_bytes text.new
        ≡ string_bytes text.old ++ spec.timeout_bound_line timeout life.now) }
{
    if !life.by_timeout {
        return Ok(());
    }
    let timeout_s = timeout / SECOND;
    writeln!(text, "bound timeout_s {timeout_s}")
}

fn write_moves_bound(text: &mut String, near: NearMoves) -> Result<(), AllocError>
    ensures { OnOk result
        (string_bytes text.new ≡ string_bytes text.old ++ spec.moves_bound_line (Some near)) }
{
    let NearMoves {
        first,
        third,
        buckets,
        lowest,
    } = near;
    writeln!(
        text,
        "bound changes {first} {third} buckets {buckets} first {lowest}"
    )
}

/// A line for each thing that has to be raised for the next greater bound, if there is one.
fn write_raises(text: &mut String, life: &Lifetime) -> Result<(), AllocError>
    ensures { OnOk result (string_bytes text.new
        ≡ string_bytes text.old ++ spec.raise_lines life.now life.now.next) }
{
    let Some(next) = life.next else {
        return Ok(());
    };
    if let Some(timeout_s) = raised_timeout(life, next) {
        write_timeout_raise(text, timeout_s, next)?;
    }
    match life.by_moves {
        Some(near) => write_moves_raise(text, near, next.saturating_sub(life.time), next),
        None => Ok(()),
    }
}

/// Where the timeout bounds the lifetime, the least timeout, in seconds, that exceeds the next bound
/// by the slack, if a script may have it.
fn raised_timeout(life: &Lifetime, next: u64) -> Option<u64>
    ensures { result ≡ spec.raised_timeout life.now next }
{
    if !life.by_timeout {
        return None;
    }
    let seconds = next.checked_add(life.slack)?.div_ceil(SECOND);
    (seconds <= LONGEST_TIMEOUT).then_some(seconds)
}

fn write_timeout_raise(text: &mut String, timeout_s: u64, next: u64) -> Result<(), AllocError>
    ensures { OnOk result (string_bytes text.new
        ≡ string_bytes text.old ++ spec.timeout_raise_line (Some timeout_s) next) }
{
    let next = SecondsText(next);
    writeln!(text, "raise timeout_s {timeout_s} to {next}")
}

fn write_moves_raise(
    text: &mut String,
    near: NearMoves,
    wait: u64,
    next: u64,
) -> Result<(), AllocError>
    ensures { OnOk result (string_bytes text.new
        ≡ string_bytes text.old ++ spec.moves_raise_line (Some near) wait next) }
{
    let third = near.third;
    let wait = SecondsText(wait);
    let next = SecondsText(next);
    writeln!(text, "raise change {third} by {wait} to {next}")
}
