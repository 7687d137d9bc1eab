//! The events that the lines of a report name.
ghost use Rattle.std.specs.Prelude.{◌≡◌, ◌<◌, ◌≤◌, ◌∷◌, ◌++◌, [], ℕ, List, IfOk, MatchBool};
ghost use Rattle.std.specs.Prelude.{length, slice_index, take, true};
ghost use Rattle.std.specs.Bool.{Decides};
ghost use Rattle.bm_trace.specs.Inside.Reading.{runs_on};
ghost use Rattle.bm_check.specs.Inside.Taking.{EndsLine, IsReading, IsTaken, is_feed};
ghost use Rattle.bm_check.specs.Lines.{AreGood, AreLinesOf, Begins, IsClosing, lines};

use crate::reader::read_event;
use bm_base::{List, Memory};
use bm_core::Event;
use std::alloc::Global;

/// The length of the first line without its line feed.
fn line_length(text: &[u8]) -> usize
    ensures within { result ≤ length text.now }
    ensures line { runs_on is_feed (take result text.now) ≡ true }
    ensures feed { result < length text.now → slice_index text.now result ≡ 10 }
{
    let mut place = 0;
    while place < text.len() && text[place] != b'\n' {
        place += 1;
    }
    place
}

/// The first line, with its line feed, if it has one, and the text after it.
fn first_line(text: &[u8]) -> (&[u8], &[u8])
    requires { 0 < length text.now }
    ensures line { lines text.now ≡ result.0.now ∷ lines result.1.now }
    ensures shorter { length result.1.now < length text.now }
{
    let place = line_length(text);
    if place < text.len() {
        (&text[..place + 1], &text[place + 1..])
    } else {
        (text, &[])
    }
}

/// Whether the text ends with a line feed.
fn ends_line(text: &[u8]) -> bool
    ensures { Decides result (EndsLine text.now) }
{
    text.strip_suffix(b"\n").is_some()
}

/// Whether the line begins with this text, and ends with a line feed.
fn begins(line: &[u8], text: &[u8]) -> bool
    ensures { Decides result (Begins text.now line.now) }
{
    match line.strip_prefix(text) {
        Some(rest) => ends_line(rest),
        None => false,
    }
}

/// Whether the line is one of those after the events.
fn is_closing(line: &[u8]) -> bool
    ensures { Decides result (IsClosing line.now) }
{
    begins(line, b"packet ") || begins(line, b"note ") || begins(line, b"total ")
}

/// What the lines of a report name: events, or the number of the first line that is out of place,
/// which counts from 1.
#[derive(Drop)]
pub(crate) enum Reading {
    Events(List<Event>),
    Bad(usize),
}

/// Takes the line as the next one. `number` lines were taken before it, and `events` were read from
/// them. The text is room for what the line should be. The answer is whether it may come next.
fn take_line(
    events: &mut Vec<Event>,
    number: usize,
    text: &mut String,
    line: &[u8],
) -> Result<bool, Memory>
    ensures { (done : List (List ℕ)) → IsTaken events.old.items number done
        → IfOk result (λ taken. MatchBool taken
        (AreLinesOf events.new.items (done ++ line.now ∷ []))
        (AreGood (done ++ line.now ∷ []) → ⊥)) }
{
    match read_event(text, line)? {
        Some(event) => {
            if events.len() < number {
                return Ok(false);
            }
            events.push(event)?;
            Ok(true)
        }
        None => Ok(is_closing(line)),
    }
}

/// The events that the lines name, if each line stands in its place.
pub(crate) fn read_lines(alloc: Global, trace: &[u8]) -> Result<Reading, Memory>
    ensures { IfOk result (IsReading trace.now) }
{
    let mut events = Vec::new(alloc);
    let mut text = String::new(alloc);
    let mut rest = trace;
    let mut number = 0;
    while !rest.is_empty() {
        let (line, later) = first_line(rest);
        if !take_line(&mut events, number, &mut text, line)? {
            return Ok(Reading::Bad(number + 1));
        }
        number += 1;
        rest = later;
    }
    Ok(Reading::Events(List::of(events)))
}
