//! The lines of records.
#![tactic(auto, using(bm_state::proofs::Newest::reverse_take))]

ghost use Rattle.std.specs.Prelude.{◌≡◌, ℕ, ◌==◌, ◌∷◌, ◌++◌, []};
ghost use Rattle.std.specs.Prelude.{OnOk, MatchOption, codes, decimal, string_bytes};
ghost use Rattle.std.specs.Prelude.{if◌then◌else◌};
ghost use Rattle.bm_trace.specs.Inside.Ends.{words_of_end, words_of_ends, words_of_option};
ghost use Rattle.bm_trace.specs.Inside.Ends.{words_of_record};
ghost use Rattle.bm_trace.specs.Inside.EndTables.{with_later};
ghost use Rattle.bm_trace.specs.Words as words;
ghost use Rattle.bm_trace.specs.Report as report;

use crate::append::push_named;
use crate::words::reason_word;
use bm_base::{Body, Reason, ServerId};
use bm_core::{Event, Verdict, What};
use std::alloc::AllocError;

/// How a copy of a packet ended.
#[derive(Clone, Copy, Default)]
pub(crate) enum End {
    #[default]
    Lost,
    Accepted(ServerId),
    Processed(ServerId),
    Reset(ServerId),
    Dropped(ServerId),
}

fn end_of_arrival(server: ServerId, verdict: Verdict) -> Option<End>
    ensures { words_of_option result ≡ report.verdict_end server verdict }
{
    match verdict {
        Verdict::Accept => Some(End::Accepted(server)),
        Verdict::Process(_) => Some(End::Processed(server)),
        Verdict::Forward(_) => None,
        Verdict::Reset(_) => Some(End::Reset(server)),
        Verdict::Drop(_) => Some(End::Dropped(server)),
    }
}

/// The packet that an event is about, and how a copy of it ended there.
#[derive(Clone, Copy)]
pub(crate) struct Ending {
    pub(crate) packet: u32,
    pub(crate) end: End,
}

/// The end of a copy, if the event is one.
pub(crate) fn ending_of(what: &What) -> Option<Ending>
    ensures { MatchOption result
        ((k : ℕ) → report.end_words what.now k ≡ [])
        (λ e. (k : ℕ)
        → report.end_words what.now k ≡ (if e.packet == k then words_of_end e.end else [])) }
{
    match *what {
        What::Arrive {
            packet,
            server,
            verdict,
            ..
        } => {
            let end = end_of_arrival(server, verdict)?;
            Some(Ending { packet, end })
        }
        What::Lose { packet, .. } => Some(Ending {
            packet,
            end: End::Lost,
        }),
        _ => None,
    }
}

/// An end, each word after a space.
#[tactic(auto, using(crate::proofs::Spacing::named_is))]
fn write_end(line: &mut String, end: End) -> Result<(), AllocError>
    ensures { OnOk result
        (string_bytes line.new ≡ string_bytes line.old ++ words.spaced (words_of_end end)) }
{
    match end {
        End::Lost => line.push_str(" lost")?,
        End::Accepted(server) => push_named(line, " accepted ", u64::from(server.0))?,
        End::Processed(server) => push_named(line, " processed ", u64::from(server.0))?,
        End::Reset(server) => push_named(line, " reset ", u64::from(server.0))?,
        End::Dropped(server) => push_named(line, " dropped ", u64::from(server.0))?,
    }
    Ok(())
}

/// The later ends of a packet, each word after a space.
#[tactic(auto, using(crate::proofs::Spacing::spaced_more))]
fn write_later(line: &mut String, ends: &[End]) -> Result<(), AllocError>
    ensures { OnOk result
        (string_bytes line.new ≡ string_bytes line.old ++ words.spaced (words_of_ends ends.now)) }
{
    for end in ends {
        write_end(line, *end)?;
    }
    Ok(())
}

/// The first end of a packet, if it has one, each word after a space.
fn write_first(line: &mut String, first: Option<End>) -> Result<(), AllocError>
    ensures { OnOk result
        (string_bytes line.new ≡ string_bytes line.old ++ words.spaced (words_of_option first)) }
{
    match first {
        Some(end) => write_end(line, end),
        None => Ok(()),
    }
}

/// The ends of a packet, each word after a space.
fn write_ends(line: &mut String, first: Option<End>, later: &[End]) -> Result<(), AllocError>
    ensures { OnOk result (string_bytes line.new
        ≡ string_bytes line.old ++ words.spaced (words_of_ends (with_later first later.now))) }
{
    write_first(line, first)?;
    write_later(line, later)?;
    Ok(())
}

/// Why a record isn't steered, each word after a space.
fn write_reason(line: &mut String, reason: Reason) -> Result<(), AllocError>
    ensures { OnOk result (string_bytes line.new ≡ string_bytes line.old
        ++ words.spaced (codes "unsteered" ∷ words.reason_word reason ∷ [])) }
{
    line.push_str(" unsteered ")?;
    line.push_str(reason_word(reason))?;
    Ok(())
}

/// The line of a record, whose packet has this first end and these later ones.
pub(crate) fn write_record(
    line: &mut String,
    number: u32,
    body: &Body,
    first: Option<End>,
    later: &[End],
) -> Result<(), AllocError>
    ensures { OnOk result
        (string_bytes line.new ≡ string_bytes line.old ++ words.line (codes "packet")
        (decimal number ∷ words_of_record body.now (with_later first later.now))) }
{
    push_named(line, "packet ", u64::from(number))?;
    match body {
        Body::Unsteered(reason) => write_reason(line, *reason)?,
        Body::Steerable(_) => write_ends(line, first, later)?,
    }
    line.push('\n')?;
    Ok(())
}
