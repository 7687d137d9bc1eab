//! The whole report. Its lines are put together in one buffer, which is written out whenever it is
//! full.
ghost use Rattle.std.specs.Prelude.{◌≡◌, ◌+◌, ◌<◌, ◌++◌, reverse, OnOk, OnErr};
ghost use Rattle.std.specs.Prelude.{string_bytes, []};
ghost use Rattle.std.specs.Io.KnownBytes.{Appends};
ghost use Rattle.bm_core.specs.Runs.{IsRun};
ghost use Rattle.bm_io.specs.Causes.{HasIoCause};
ghost use Rattle.bm_io.specs.Written.{WritesPart};
ghost use Rattle.bm_trace.specs.Inside.Parts.{HandsLess, HandsOn, HandsPart, last_lines};
ghost use Rattle.bm_trace.specs.Inside.Parts.{lines_after};
ghost use Rattle.bm_trace.specs.Ranges.{HasRanges};
ghost use Rattle.bm_trace.specs.Report as report;
ghost use Rattle.bm_trace.specs.Swept.{AreCauses};
ghost use Rattle.bm_trace.specs.Totals as totals;

use crate::endings::ends_of_packets;
use crate::lines::{write_cut, write_event, write_totals};
use crate::records::write_record;
use crate::sums::Totals;
use crate::swept::{CauseList, sweep, totals_of};
use bm_base::Memory;
use bm_core::History;
use bm_io::{IoFault, Sink, SureSink, put_all};
use bm_state::Versions;

/// The buffer is written out when it has this many octets.
const FULL: usize = 65_536;

/// Writes the lines out, if they fill the buffer.
fn put_full<K: Sink>(lines: &mut String, out: &mut K) -> Result<(), IoFault>
    ensures ok { OnOk result (HandsOn (K.written out.old) (string_bytes lines.old)
        (K.written out.new) (string_bytes lines.new) []) }
    ensures err { OnErr result
        (HandsPart (K.written out.old) (string_bytes lines.old) (K.written out.new) []) }
    ensures cause { HasIoCause (K.faults out.old) (K.faults out.new) result }
{
    if lines.len() < FULL {
        return Ok(());
    }
    put_all(out, lines.as_bytes())?;
    lines.clear();
    Ok(())
}

fn put_events<K: Sink>(
    h: &History,
    causes: &CauseList,
    lines: &mut String,
    out: &mut K,
) -> Result<(), IoFault>
    requires ranges { HasRanges h.now.stage }
    requires causes { AreCauses h.now causes.now }
    ensures ok { OnOk result (HandsOn (K.written out.old) (string_bytes lines.old)
        (K.written out.new) (string_bytes lines.new)
        (report.event_lines h.now.stage (reverse h.now.events))) }
    ensures err { OnErr result
        (HandsPart (K.written out.old) (string_bytes lines.old) (K.written out.new)
        (report.event_lines h.now.stage (reverse h.now.events))) }
    ensures cause { HasIoCause (K.faults out.old) (K.faults out.new) result }
{
    let events = h.events.items();
    let mut versions = Versions::new(*lines.allocator());
    for (place, event) in events.iter().enumerate() {
        let cause = causes.at(place);
        write_event(lines, &versions, &h.stage, event, cause)?;
        versions.observe(event.what)?;
        put_full(lines, out)?;
    }
    Ok(())
}

fn put_records<K: Sink>(h: &History, lines: &mut String, out: &mut K) -> Result<(), IoFault>
    requires { HasRanges h.now.stage }
    ensures ok { OnOk result (HandsOn (K.written out.old) (string_bytes lines.old)
        (K.written out.new) (string_bytes lines.new)
        (report.record_lines (reverse h.now.events) 1 h.now.stage.capture.records)) }
    ensures err { OnErr result
        (HandsPart (K.written out.old) (string_bytes lines.old) (K.written out.new)
        (report.record_lines (reverse h.now.events) 1 h.now.stage.capture.records)) }
    ensures cause { HasIoCause (K.faults out.old) (K.faults out.new) result }
{
    let records = h.stage.capture.records.items();
    let ends = ends_of_packets(*lines.allocator(), records.len(), h.events.items())?;
    for (place, record) in records.iter().enumerate() {
        write_record(
            lines,
            place as u32 + 1,
            &record.body,
            ends.first(place),
            ends.later(place),
        )?;
        put_full(lines, out)?;
    }
    Ok(())
}

/// Writes the lines that wait, and after them the note and the totals.
pub(crate) fn put_end<K: Sink>(
    h: &History,
    sums: &Totals,
    mut lines: String,
    out: &mut K,
) -> Result<(), IoFault>
    requires { sums.now ≡ totals.totals_of h.now }
    ensures ok { OnOk result (HandsOn (K.written out.old) (string_bytes lines)
        (K.written out.new) [] (last_lines h.now)) }
    ensures err { OnErr result (HandsLess (K.written out.old) (string_bytes lines)
        (K.written out.new) (last_lines h.now)) }
    ensures cause { HasIoCause (K.faults out.old) (K.faults out.new) result }
{
    write_cut(&mut lines, h.stage.capture.cut)?;
    write_totals(&mut lines, sums)?;
    put_all(out, lines.as_bytes())
}

/// Writes the lines that wait, and after them all that comes after the lines of the events.
fn put_rest<K: Sink>(
    h: &History,
    sums: &Totals,
    mut lines: String,
    out: &mut K,
) -> Result<(), IoFault>
    requires ranges { HasRanges h.now.stage }
    requires sums { sums.now ≡ totals.totals_of h.now }
    ensures ok { OnOk result (HandsOn (K.written out.old) (string_bytes lines)
        (K.written out.new) [] (lines_after h.now)) }
    ensures err { OnErr result (HandsLess (K.written out.old) (string_bytes lines)
        (K.written out.new) (lines_after h.now)) }
    ensures cause { HasIoCause (K.faults out.old) (K.faults out.new) result }
{
    put_records(h, &mut lines, out)?;
    put_end(h, sums, lines, out)
}

/// Writes the report of the history, with these causes of its events and these totals. The report
/// is never whole in memory. If an error is returned, only a first part of it was written, not all.
pub fn report_to<K: Sink>(
    h: &History,
    causes: &CauseList,
    sums: &Totals,
    out: &mut K,
) -> Result<(), IoFault>
    requires ranges { HasRanges h.now.stage }
    requires causes { AreCauses h.now causes.now }
    requires sums { sums.now ≡ totals.totals_of h.now }
    ensures ok { OnOk result (Appends (K.written out.old) (K.written out.new) (report.text h.now)) }
    ensures err { OnErr result (WritesPart (K.written out.old) (K.written out.new)
        (report.text h.now)) }
    ensures cause { HasIoCause (K.faults out.old) (K.faults out.new) result }
{
    let mut lines = String::new(causes.allocator());
    put_events(h, causes, &mut lines, out)?;
    put_rest(h, sums, lines, out)
}

/// Appends the report of the history. Where memory is refused, nothing is appended.
#[tactic(auto, using(crate::proofs::Ranged::ranges_of))]
pub fn report(h: &History, out: &mut Vec<u8>) -> Result<(), Memory>
    requires { IsRun h.now }
    ensures ok { OnOk result (out.new.items ≡ out.old.items ++ report.text h.now) }
    ensures err { OnErr result (out.new.items ≡ out.old.items) }
{
    let alloc = *out.allocator();
    let causes = sweep(alloc, h)?;
    let mut text = SureSink::new(alloc);
    let Ok(()) = report_to(h, &causes, &totals_of(h, &causes), &mut text) else {
        return Err(Memory);
    };
    out.extend_from_slice(text.written())?;
    Ok(())
}
