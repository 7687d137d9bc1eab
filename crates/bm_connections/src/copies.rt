//! How many records look like copies of the one before.
ghost use Rattle.std.specs.Prelude.{◌≡◌, ◌<◌, ◌^◌, ◌≤◌, ◌+◌, ◌++◌, ◌∷◌, [], suc, IfOk, List, OnOk, Some};
ghost use Rattle.std.specs.Prelude.{◌&&◌, if◌then◌else◌, false, string_bytes};
ghost use Rattle.std.specs.Option.{option_map_or};
ghost use Rattle.std.specs.BTreeMap as tree;
ghost use Rattle.bm_base.specs.declared.capture.Body.TheVariants.{Steerable as steerable};
ghost use Rattle.bm_base.specs.declared.capture.Record.{Record};
ghost use Rattle.bm_base.specs.declared.flow.Flow.{Flow};
ghost use Rattle.bm_base.specs.Segments.{same_flow};
ghost use Rattle.bm_connections.specs.Copies as spec;
ghost use Rattle.bm_connections.specs.Inside.Copies.{KnowsCopies};

use crate::observed::one_more;
use bm_base::{Body, Capture, Flow, Memory, Moment, Record, Segment, Text};
use std::alloc::{AllocError, Global};
use std::collections::BTreeMap;

/// A millisecond in nanoseconds.
const MILLISECOND: u64 = 1_000_000;

/// How many records look like copies of the one before, of how many steered records whose segments
/// take up sequence numbers.
#[derive(Clone, Copy, PartialEq, Eq)]
pub struct CopyCount {
    pub copies: u64,
    pub numbered: u64,
}

fn record_of(flows: &BTreeMap<Flow, Record>, flow: &Flow) -> Option<Record>
    ensures { result ≡ tree.get ⟦<Flow as Ord>⟧.cmp flows.now flow.now }
{
    flows.get(flow).copied()
}

fn put_record(
    flows: &mut BTreeMap<Flow, Record>,
    flow: Flow,
    last: Record,
) -> Result<(), AllocError>
    ensures { OnOk result ((q : Flow) → tree.get ⟦<Flow as Ord>⟧.cmp flows.new q
        ≡ (if same_flow flow q then Some last
        else tree.get ⟦<Flow as Ord>⟧.cmp flows.old q)) }
{
    flows.insert(flow, last)?;
    Ok(())
}

fn same_numbers(a: &Segment, b: &Segment) -> bool
    ensures { result ≡ spec.same_numbers a.now b.now }
{
    a.seq == b.seq && a.ack == b.ack && a.len == b.len && a.flags == b.flags
}

/// Whether the record has a segment with the same numbers, and comes at most a millisecond before the
/// moment.
fn is_like(at: Moment, segment: &Segment, before: &Record) -> bool
    ensures { result ≡ spec.is_like at segment.now before.now }
{
    match before.body {
        Body::Steerable(found) => {
            same_numbers(&found, segment) && at.0.saturating_sub(before.moment.0) <= MILLISECOND
        }
        Body::Unsteered(_) => false,
    }
}

/// Whether the segment takes up sequence numbers, and the record before it is like it.
fn is_copy(at: Moment, segment: &Segment, before: Option<Record>) -> bool
    ensures { result ≡ spec.takes_numbers segment.now
        && option_map_or (spec.is_like at segment.now) before false }
{
    match before {
        Some(before) => segment.len > 0 && is_like(at, segment, &before),
        None => false,
    }
}

/// The last record of each flow, and how many copies there are, after some records.
#[derive(Drop)]
struct Copies {
    flows: BTreeMap<Flow, Record>,
    count: CopyCount,
}

impl Copies {
    fn new(alloc: Global) -> Copies
        ensures { KnowsCopies [] result }
    {
        Copies {
            flows: BTreeMap::new(alloc),
            count: CopyCount {
                copies: 0,
                numbered: 0,
            },
        }
    }

    /// Takes in a record that is steered.
    fn see_packet(&mut self, next: &Record, segment: Segment) -> Result<(), AllocError>
        requires copies { suc self.old.count.copies < 2 ^ 64 }
        requires numbered { suc self.old.count.numbered < 2 ^ 64 }
        requires body { next.now.body ≡ steerable segment }
        ensures { (records : List Record) → KnowsCopies records self.old
            → OnOk result (KnowsCopies (next.now ∷ records) self.new) }
    {
        let before = record_of(&self.flows, &segment.flow);
        let copied = is_copy(next.moment, &segment, before);
        self.count = CopyCount {
            copies: one_more(copied, self.count.copies),
            numbered: one_more(segment.len > 0, self.count.numbered),
        };
        put_record(&mut self.flows, segment.flow, *next)?;
        Ok(())
    }

    /// Takes in the record that comes next.
    fn see(&mut self, next: &Record) -> Result<(), AllocError>
        requires copies { suc self.old.count.copies < 2 ^ 64 }
        requires numbered { suc self.old.count.numbered < 2 ^ 64 }
        ensures { (records : List Record) → KnowsCopies records self.old
            → OnOk result (KnowsCopies (next.now ∷ records) self.new) }
    {
        match next.body {
            Body::Unsteered(_) => Ok(()),
            Body::Steerable(segment) => self.see_packet(next, segment),
        }
    }
}

/// How many records of a capture look like copies of the one before. `Memory` where memory was
/// refused.
pub fn copies_in(alloc: Global, capture: &Capture) -> Result<CopyCount, Memory>
    ensures { IfOk result (λ count. count ≡ spec.copies capture.now) }
{
    let mut copies = Copies::new(alloc);
    for record in capture.records.items() {
        copies.see(record)?;
    }
    Ok(copies.count)
}

/// Whether more than a tenth look like copies.
pub fn are_copies(count: CopyCount) -> bool
    ensures { result ≡ spec.are_copies count }
{
    count.numbered / 10 < count.copies
}

fn write_advice(text: &mut String, count: CopyCount) -> Result<(), AllocError>
    ensures { OnOk result
        (string_bytes text.new ≡ string_bytes text.old ++ spec.copies_line count) }
{
    let copies = count.copies;
    let numbered = count.numbered;
    writeln!(
        text,
        "advice copies: {copies} of {numbered} records with data, SYN or FIN look like copies of the \
        one before; capture on one interface, or remove them by editcap -d"
    )
}

/// The line of advice, if more than a tenth look like copies, or nothing. `Memory` where memory was
/// refused.
pub fn copies_text(alloc: Global, count: CopyCount) -> Result<Text, Memory>
    ensures { IfOk result (λ text. text ≡ spec.copies_text count) }
{
    let mut text = String::new(alloc);
    if are_copies(count) {
        write_advice(&mut text, count)?;
    }
    Ok(Text::of(text))
}
