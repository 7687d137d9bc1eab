//! What the script changes.
ghost use Rattle.std.specs.Prelude.{◌≡◌, ◌++◌, ◌+◌, ◌<◌, ◌≤◌, Some, IfOk, OnOk, flat_map, length};
ghost use Rattle.std.specs.Prelude.{slice_get, string_bytes};
ghost use Rattle.bm_connections.specs.Owned.{owners_at};
ghost use Rattle.bm_table.specs.Plans.{IsPlan};
ghost use Rattle.bm_table.specs.Tables.{next_change};
ghost use Rattle.bm_trace.specs.Words.{spaced};
ghost use Rattle.bm_connections_cli.specs.Changes as spec;
ghost use Rattle.bm_connections_cli.specs.Inside.Changes as inside;

use bm_base::{Memory, Text, Version};
use bm_connections::{Clock, OwnedCount, Owners, TimeText};
use bm_script::ChangeVerb;
use bm_table::{Change, Kind, Plan};
use std::alloc::{AllocError, Global};
use std::fmt;

/// What the command of a change says, or without its verb what the change is for, each word after a
/// space.
#[derive(Clone, Copy)]
struct VerbWords(Option<ChangeVerb>, Kind);

impl fmt::Display for VerbWords {
    ghost output = { λ v. Some (spaced (spec.verb_words v.0 v.1)) };

    fn fmt<W: fmt::Write>(&self, f: &mut fmt::Formatter<W>) -> fmt::Result {
        match (self.0, self.1) {
            (Some(ChangeVerb::Add(server)), _) => write!(f, " add {}", server.0),
            (Some(ChangeVerb::Drain(server)), _) => write!(f, " drain {}", server.0),
            (Some(ChangeVerb::Move { bucket, to }), _) => write!(f, " move {bucket} {}", to.0),
            (Some(ChangeVerb::Weight { server, weight }), _) => {
                write!(f, " weight {} {weight}", server.0)
            }
            (None, Kind::Add(server)) => write!(f, " add {}", server.0),
            (None, Kind::Drain(server)) => write!(f, " drain {}", server.0),
            (None, Kind::Shift) => write!(f, " move"),
        }
    }
}

/// How moments are written, and how many racks there are.
#[derive(Clone, Copy)]
struct LineForm {
    clock: Clock,
    racks: u16,
}

/// The change that makes this version of the table, which has this many buckets: its moment, its
/// command, and its moves.
fn write_change(
    text: &mut String,
    clock: Clock,
    buckets: u32,
    version: u32,
    verb: Option<ChangeVerb>,
    change: &Change,
) -> Result<(), AllocError>
    ensures { OnOk result (string_bytes text.new
        ≡ string_bytes text.old ++ spec.change_text clock.0 buckets version verb change.now) }
{
    let at = TimeText(clock, change.moment);
    let words = VerbWords(verb, change.kind);
    let moves = change.moves.items().len();
    write!(
        text,
        "change {version} at {at}{words} buckets {moves} of {buckets}"
    )
}

/// How many moves bring their buckets home, if there is more than one rack and some do.
fn write_home(text: &mut String, racks: u16, home: usize) -> Result<(), AllocError>
    ensures { OnOk result
        (string_bytes text.new ≡ string_bytes text.old ++ spec.home_text racks home) }
{
    if racks > 1 && home > 0 {
        write!(text, " home {home}")
    } else {
        Ok(())
    }
}

fn write_owned(text: &mut String, count: &OwnedCount) -> Result<(), AllocError>
    ensures { OnOk result
        (string_bytes text.new ≡ string_bytes text.old ++ spec.owned_text count.now) }
{
    let server = count.server.0;
    let buckets = count.buckets;
    write!(text, " {server}:{buckets}")
}

fn write_each_owned(text: &mut String, counts: &[OwnedCount]) -> Result<(), AllocError>
    ensures { OnOk result (string_bytes text.new
        ≡ string_bytes text.old ++ flat_map spec.owned_text counts.now) }
{
    for count in counts {
        write_owned(text, count)?;
    }
    Ok(())
}

/// The servers that have buckets, and the end of the line.
fn write_owns(text: &mut String, counts: &[OwnedCount]) -> Result<(), AllocError>
    ensures { OnOk result
        (string_bytes text.new ≡ string_bytes text.old ++ spec.owns_text counts.now) }
{
    write!(text, " owns")?;
    write_each_owned(text, counts)?;
    writeln!(text)?;
    Ok(())
}

/// What the command of the change after this version says, if it is known.
fn verb_after(verbs: &[ChangeVerb], version: u32) -> Option<ChangeVerb>
    ensures { result ≡ slice_get verbs.now version }
{
    verbs.get(version as usize).copied()
}

/// The line of the change that follows this version, if there is one, and carries it out.
fn write_next(
    alloc: Global,
    text: &mut String,
    owners: &mut Owners,
    form: LineForm,
    plan: &Plan,
    verbs: &[ChangeVerb],
    version: u32,
) -> Result<(), Memory>
    requires racks { 1 ≤ form.racks }
    requires plan { IsPlan plan.now }
    requires version { version < length plan.now.changes }
    requires few { version < 4294967295 }
    requires owners { owners.old.owners ≡ owners_at plan.now version }
    ensures text { OnOk result (string_bytes text.new ≡ string_bytes text.old
        ++ inside.some_line form.clock.0 form.racks owners.old.servers plan.now verbs.now version
        (next_change plan.now version)) }
    ensures owners { OnOk result (owners.new.owners ≡ owners_at plan.now (version + 1)) }
    ensures servers { OnOk result (owners.new.servers ≡ owners.old.servers) }
{
    let Some(change) = plan.next_change(Version(version)) else {
        unreachable!();
    };
    let verb = verb_after(verbs, version);
    write_change(text, form.clock, plan.buckets(), version + 1, verb, change)?;
    let home = owners.homeward(form.racks, change.moves.items());
    write_home(text, form.racks, home)?;
    owners.apply(change);
    let counts = owners.counts(alloc)?;
    write_owns(text, counts.as_slice())?;
    Ok(())
}

fn write_changes(
    alloc: Global,
    text: &mut String,
    owners: &mut Owners,
    form: LineForm,
    plan: &Plan,
    verbs: &[ChangeVerb],
) -> Result<(), Memory>
    requires racks { 1 ≤ form.racks }
    requires owners { owners.old.owners ≡ owners_at plan.now 0 }
    ensures { OnOk result (string_bytes text.new ≡ string_bytes text.old
        ++ spec.lines_from form.clock.0 form.racks owners.old.servers plan.now verbs.now 0
        plan.now.changes) }
{
    for version in 0..plan.versions() {
        write_next(alloc, text, owners, form, plan, verbs, version)?;
    }
    Ok(())
}

/// A line for each change of the plan, with what its command says, and the servers that have buckets
/// after it. Moments are written by the clock.
pub(crate) fn changes_text(
    alloc: Global,
    clock: Clock,
    racks: u16,
    plan: &Plan,
    verbs: &[ChangeVerb],
) -> Result<Text, Memory>
    requires { 1 ≤ racks }
    ensures { IfOk result (λ text. text
        ≡ spec.changes_text clock.0 racks plan.now verbs.now) }
{
    let mut text = String::new(alloc);
    let mut owners = Owners::opening(alloc, plan, 1_025)?;
    write_changes(
        alloc,
        &mut text,
        &mut owners,
        LineForm { clock, racks },
        plan,
        verbs,
    )?;
    Ok(Text::of(text))
}
