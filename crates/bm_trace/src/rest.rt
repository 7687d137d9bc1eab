//! What comes after the lines of a report's events.
ghost use Rattle.std.specs.Prelude.{◌≡◌, ◌+◌, IfOk, reverse, string_bytes};
ghost use Rattle.bm_trace.specs.Ranges.{HasRanges};
ghost use Rattle.bm_trace.specs.Report as report;
ghost use Rattle.bm_trace.specs.Inside.Rests.{IsRest};

use crate::counts::totals_but_strays;
use crate::endings::ends_of_packets;
use crate::records::write_record;
use crate::sums::Totals;
use bm_core::History;
use std::alloc::{AllocError, Global};

/// What comes after the lines of the events, except the note.
#[derive(Drop)]
pub(crate) struct Rest {
    /// The lines of all records.
    pub(crate) lines: String,
    pub(crate) sums: Totals,
}

fn lines_of_records(alloc: Global, h: &History) -> Result<String, AllocError>
    requires { HasRanges h.now.stage }
    ensures { IfOk result (λ lines. string_bytes lines
        ≡ report.record_lines (reverse h.now.events) 1 h.now.stage.capture.records) }
{
    let records = h.stage.capture.records.items();
    let ends = ends_of_packets(alloc, records.len(), h.events.items())?;
    let mut lines = String::new(alloc);
    for (place, record) in records.iter().enumerate() {
        write_record(
            &mut lines,
            place as u32 + 1,
            &record.body,
            ends.first(place),
            ends.later(place),
        )?;
    }
    Ok(lines)
}

/// The lines of all records, and the totals as if no event were a stray.
pub(crate) fn rest_but_strays(alloc: Global, h: &History) -> Result<Rest, AllocError>
    requires { HasRanges h.now.stage }
    ensures { IfOk result (IsRest h.now) }
{
    let lines = lines_of_records(alloc, h)?;
    let sums = totals_but_strays(h);
    Ok(Rest { lines, sums })
}
