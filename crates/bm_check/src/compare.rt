//! Comparing a text with what is written to a sink.
ghost use Rattle.std.specs.Prelude.{◌≡◌, ◌≢◌, ◌+◌, ◌<◌, ◌≤◌, ◌^◌, ◌++◌, IfSome, MatchOption, length};
ghost use Rattle.std.specs.Prelude.{slice_index, take, drop, Some, [], List, ℕ};
ghost use Rattle.bm_check.specs.Answers.{DifferAt, IsLeast};
ghost use Rattle.bm_check.specs.Inside.Comparing.{feeds};

use bm_io::{IoFault, Sink};
use std::alloc::Global;

/// How many octets the texts have in common at their beginnings.
fn common_length(a: &[u8], b: &[u8]) -> usize
    ensures within_a { result ≤ length a.now }
    ensures within_b { result ≤ length b.now }
    ensures same { take result a.now ≡ take result b.now }
    ensures ends { result < length a.now → result < length b.now
        → slice_index a.now result ≢ slice_index b.now result }
{
    let mut place = 0;
    while place < a.len() && place < b.len() && a[place] == b[place] {
        place += 1;
    }
    place
}

/// How many line feeds the text has.
fn line_feeds(text: &[u8]) -> usize
    ensures count { result ≡ feeds text.now }
    ensures few { result ≤ length text.now }
{
    let mut count = 0;
    for octet in text {
        if *octet == b'\n' {
            count += 1;
        }
    }
    count
}

/// The number of the first line at which a text differs from these two parts of another, which
/// counts from 1, if they differ.
pub(crate) fn first_difference(text: &[u8], first: &[u8], second: &[u8]) -> Option<usize>
    requires { length text.now < 2 ^ 63 }
    ensures least { MatchOption result (text.now ≡ first.now ++ second.now)
        (IsLeast (DifferAt text.now (first.now ++ second.now))) }
    ensures few { IfSome result (λ n. n ≤ length text.now + 1) }
{
    let place = match text.strip_prefix(first) {
        Some(rest) => {
            let more = common_length(rest, second);
            if more == rest.len() && more == second.len() {
                return None;
            }
            first.len() + more
        }
        None => common_length(text, first),
    };
    Some(line_feeds(&text[..place]) + 1)
}

/// A sink that is expected to get a text. It keeps in memory only what comes after the octets that
/// are as expected.
#[derive(Drop)]
pub(crate) struct ExpectingSink<'a> {
    expected: &'a [u8],
    common: usize,
    other: Vec<u8>,
    ghost within: { common ≤ length expected.now },
}

impl<'a> ExpectingSink<'a> {
    /// A sink to which nothing was written.
    pub(crate) fn new(alloc: Global, expected: &'a [u8]) -> ExpectingSink<'a>
        ensures { ⟦<ExpectingSink<'a> as Sink>⟧.written result ≡ Some [] }
    {
        ExpectingSink {
            expected,
            common: 0,
            other: Vec::new(alloc),
        }
    }

    /// What was written, in two parts.
    pub(crate) fn written(&self) -> (&[u8], &[u8])
        ensures { Some (result.0.now ++ result.1.now)
            ≡ ⟦<ExpectingSink<'a> as Sink>⟧.written self.now }
    {
        (&self.expected[..self.common], self.other.as_slice())
    }

    /// How many octets of the piece are as expected.
    fn expected_length(&self, piece: &[u8]) -> usize
        ensures within { result ≤ length piece.now }
        ensures room { self.now.common + result ≤ length self.now.expected.now }
        ensures same { (written : List ℕ)
            → ⟦<ExpectingSink<'a> as Sink>⟧.written self.now ≡ Some written
            → take (self.now.common + result) self.now.expected.now
            ++ (self.now.other.items ++ drop result piece.now) ≡ written ++ piece.now }
    {
        if self.other.is_empty() {
            common_length(&self.expected[self.common..], piece)
        } else {
            0
        }
    }
}

impl<'a> Sink for ExpectingSink<'a> {
    ghost use Rattle.std.specs.Prelude.{IfOk};
    ghost use Rattle.std.specs.Io.{WritesAtMost};
    ghost use Rattle.std.specs.Io.KnownBytes.{WriteAppends};
    ghost use Rattle.bm_io.specs.Causes.{HasIoCause};

    ghost written = { λ s. Some (take s.common s.expected.now ++ s.other.items) };

    ghost faults = { λ _. 0 };

    fn put(&mut self, piece: &[u8]) -> Result<usize, IoFault>
        ensures bound { WritesAtMost result piece.now }
        ensures some { 0 < length piece.now → IfOk result (λ n. 0 < n) }
        ensures octets { WriteAppends
            (Some (take self.old.common self.old.expected.now ++ self.old.other.items))
            (Some (take self.new.common self.new.expected.now ++ self.new.other.items)) result
            piece.now }
        ensures cause { HasIoCause 0 0 result }
    {
        let more = self.expected_length(piece);
        self.other.extend_from_slice(&piece[more..])?;
        self.common += more;
        Ok(piece.len())
    }
}
