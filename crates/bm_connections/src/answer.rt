//! The answer in one line.
ghost use Rattle.std.specs.Prelude.{◌≡◌, ◌++◌, Some, OnOk, IfOk, count_by, is_some, string_bytes};
ghost use Rattle.bm_connections.specs.Answers as spec;
ghost use Rattle.bm_connections.specs.Base.{compared_with};

use crate::compared::{Origin, compare_one};
use crate::connection::Connection;
use crate::late::LongestLate;
use bm_base::{Memory, Text};
use std::alloc::{AllocError, Global};
use std::fmt;

/// How many connections there are, how many of them are broken, how many the change broke, how many
/// lose data, how many were refused, and how many are left open and away; and the least
/// timeout in seconds under which no packet would have come too late, if one did.
#[derive(Clone, Copy, PartialEq, Eq)]
pub struct Answer {
    pub connections: u64,
    pub broken: u64,
    pub by_the_change: u64,
    pub losing_data: u64,
    pub refused: u64,
    pub open_at_end: u64,
    pub timeout_s: Option<u64>,
}

fn is_by_the_change(origin: Option<Origin>) -> bool
    ensures { result ≡ spec.is_by_the_change origin }
{
    match origin {
        None => false,
        Some(Origin::ByTheChange) => true,
        Some(Origin::Anyway) => false,
    }
}

fn broken_in(table: &[Connection]) -> u64
    ensures { result ≡ count_by (λ c. is_some c.broken) table.now }
{
    let mut count = 0;
    for c in table {
        if c.broken.is_some() {
            count += 1;
        }
    }
    count
}

fn losing_in(table: &[Connection]) -> u64
    ensures { result ≡ count_by (λ c. c.losing_data) table.now }
{
    let mut count = 0;
    for c in table {
        if c.losing_data {
            count += 1;
        }
    }
    count
}

fn refused_in(table: &[Connection]) -> u64
    ensures { result ≡ count_by (λ c. is_some c.refused) table.now }
{
    let mut count = 0;
    for c in table {
        if c.refused.is_some() {
            count += 1;
        }
    }
    count
}

/// How many of a table the change broke, by whether each is whole in the base.
fn changed_in(table: &[Connection], wholes: &[bool]) -> u64
    ensures { result
        ≡ count_by (λ c. spec.is_by_the_change c.origin) (compared_with table.now wholes.now) }
{
    let mut count = 0;
    for (place, connection) in table.iter().enumerate() {
        let compared = compare_one(wholes, place, connection);
        if is_by_the_change(compared.origin) {
            count += 1;
        }
    }
    count
}

/// The answer for a table, by whether each of it is whole in the base, by how many connections are
/// left open and away, and by the longest late wait.
pub fn answer_of(
    table: &[Connection],
    wholes: &[bool],
    open_at_end: u64,
    late: Option<LongestLate>,
) -> Answer
    ensures { result
        ≡ spec.answer_of table.now (compared_with table.now wholes.now) open_at_end late }
{
    Answer {
        connections: table.len() as u64,
        broken: broken_in(table),
        by_the_change: changed_in(table, wholes),
        losing_data: losing_in(table),
        refused: refused_in(table),
        open_at_end,
        timeout_s: late.map(|late| late.timeout_s),
    }
}

/// The timeout, if a packet came too late.
#[derive(Clone, Copy)]
struct TimeoutWords(Option<u64>);

impl fmt::Display for TimeoutWords {
    ghost output = { λ t. Some (spec.timeout_text t.0) };

    fn fmt<W: fmt::Write>(&self, f: &mut fmt::Formatter<W>) -> fmt::Result {
        match self.0 {
            None => Ok(()),
            Some(seconds) => write!(f, " timeout_s {seconds}"),
        }
    }
}

fn write_count(text: &mut String, word: &str, n: u64) -> Result<(), AllocError>
    ensures { OnOk result
        (string_bytes text.new ≡ string_bytes text.old ++ spec.count_text word.now n) }
{
    write!(text, " {word} {n}")
}

/// How many connections there are, and what became of them.
fn write_counts(text: &mut String, answer: &Answer) -> Result<(), AllocError>
    ensures { OnOk result
        (string_bytes text.new ≡ string_bytes text.old ++ spec.counts_text answer.now) }
{
    write_count(text, "connections", answer.connections)?;
    write_count(text, "broken", answer.broken)?;
    write_count(text, "by-the-change", answer.by_the_change)?;
    write_count(text, "losing-data", answer.losing_data)?;
    Ok(())
}

fn write_answer(text: &mut String, answer: &Answer) -> Result<(), AllocError>
    ensures { OnOk result
        (string_bytes text.new ≡ string_bytes text.old ++ spec.answer_line answer.now) }
{
    write!(text, "answer")?;
    write_counts(text, answer)?;
    write_count(text, "refused", answer.refused)?;
    write_count(text, "open-at-end", answer.open_at_end)?;
    let timeout = TimeoutWords(answer.timeout_s);
    writeln!(text, "{timeout}")?;
    Ok(())
}

/// The line of an answer.
pub fn answer_text(alloc: Global, answer: &Answer) -> Result<Text, Memory>
    ensures { IfOk result (λ text. text ≡ spec.answer_line answer.now) }
{
    let mut text = String::new(alloc);
    write_answer(&mut text, answer)?;
    Ok(Text::of(text))
}
