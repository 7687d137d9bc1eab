//! How many records of a capture aren't steered, and for which reasons.
ghost use Rattle.std.specs.Prelude.{◌≡◌, ◌++◌, ◌∷◌, [], IfOk, OnOk, count_by, filter, flat_map};
ghost use Rattle.std.specs.Prelude.{string_bytes};
ghost use Rattle.bm_connections.specs.Unsteered as spec;

use bm_base::{Body, Capture, List, Memory, Reason, Record, Text};
use bm_trace::reason_word;
use std::alloc::{AllocError, Global};

/// How many records aren't steered for a reason.
#[derive(Clone, Copy, PartialEq, Eq)]
pub struct ReasonCount {
    pub reason: Reason,
    pub records: u64,
}

/// How many records of a capture aren't steered, and how many for each reason that occurs.
#[derive(Drop)]
pub struct Unsteered {
    pub records: u64,
    pub reasons: List<ReasonCount>,
}

/// All reasons, in the order in which they are told.
const REASONS: [Reason; 13] = [
    Reason::ShortLink,
    Reason::NotIpv4,
    Reason::ShortIp,
    Reason::NotVersion4,
    Reason::BadHeaderLength,
    Reason::BadTotalLength,
    Reason::Fragment,
    Reason::NotTcp,
    Reason::ShortTcp,
    Reason::BadOffset,
    Reason::OtherDestination,
    Reason::TooLong,
    Reason::Later,
];

/// The number of a reason, by which reasons are compared.
fn number(reason: Reason) -> usize
    ensures { result ≡ spec.number reason }
{
    reason as usize
}

fn is_unsteered(next: &Record) -> bool
    ensures { result ≡ spec.is_unsteered next.now }
{
    match next.body {
        Body::Steerable(_) => false,
        Body::Unsteered(_) => true,
    }
}

fn is_for(reason: Reason, next: &Record) -> bool
    ensures { result ≡ spec.is_for reason next.now }
{
    match next.body {
        Body::Steerable(_) => false,
        Body::Unsteered(why) => number(why) == number(reason),
    }
}

fn unsteered_count(records: &[Record]) -> u64
    ensures { result ≡ count_by spec.is_unsteered records.now }
{
    records.iter().filter(|r| is_unsteered(r)).count() as u64
}

fn reason_count(records: &[Record], reason: Reason) -> ReasonCount
    ensures { result ≡ spec.reason_count records.now reason }
{
    let count = records.iter().filter(|r| is_for(reason, r)).count();
    ReasonCount {
        reason,
        records: count as u64,
    }
}

/// Appends the count of a reason, if any record has it.
fn push_occurring(counts: &mut Vec<ReasonCount>, count: ReasonCount) -> Result<(), AllocError>
    ensures { OnOk result
        (counts.new.items ≡ counts.old.items ++ filter spec.occurs (count ∷ [])) }
{
    if count.records > 0 {
        counts.push(count)?;
    }
    Ok(())
}

/// The counts of the reasons that occur.
fn reasons_of(alloc: Global, records: &[Record]) -> Result<Vec<ReasonCount>, AllocError>
    ensures { IfOk result (λ counts. counts.items ≡ spec.reasons_of records.now) }
{
    let mut counts = Vec::with_capacity(alloc, REASONS.len())?;
    for reason in REASONS {
        push_occurring(&mut counts, reason_count(records, reason))?;
    }
    Ok(counts)
}

/// How many records of a capture aren't steered, and how many for each reason that occurs, in a fixed
/// order. `Memory` where memory was refused.
pub fn unsteered_in(alloc: Global, capture: &Capture) -> Result<Unsteered, Memory>
    ensures { IfOk result (λ found. found ≡ spec.unsteered capture.now) }
{
    let records = capture.records.items();
    let reasons = reasons_of(alloc, records)?;
    Ok(Unsteered {
        records: unsteered_count(records),
        reasons: List::of(reasons),
    })
}

fn write_reason(text: &mut String, count: &ReasonCount) -> Result<(), AllocError>
    ensures { OnOk result
        (string_bytes text.new ≡ string_bytes text.old ++ spec.reason_text count.now) }
{
    let word = reason_word(count.reason);
    let records = count.records;
    write!(text, " {word} {records}")
}

fn write_reasons(text: &mut String, counts: &[ReasonCount]) -> Result<(), AllocError>
    ensures { OnOk result (string_bytes text.new
        ≡ string_bytes text.old ++ flat_map spec.reason_text counts.now) }
{
    for count in counts {
        write_reason(text, count)?;
    }
    Ok(())
}

fn write_line(text: &mut String, found: &Unsteered) -> Result<(), AllocError>
    ensures { OnOk result
        (string_bytes text.new ≡ string_bytes text.old ++ spec.unsteered_line found.now) }
{
    let records = found.records;
    write!(text, "unsteered {records}")?;
    write_reasons(text, found.reasons.items())?;
    writeln!(text)?;
    Ok(())
}

/// The line of what isn't steered, or nothing if each record is steered. `Memory` where memory was
/// refused.
pub fn unsteered_text(alloc: Global, found: &Unsteered) -> Result<Text, Memory>
    ensures { IfOk result (λ text. text ≡ spec.unsteered_text found.now) }
{
    let mut text = String::new(alloc);
    if found.records > 0 {
        write_line(&mut text, found)?;
    }
    Ok(Text::of(text))
}
