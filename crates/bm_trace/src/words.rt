//! The words of a report.
ghost use Rattle.std.specs.Prelude.{◌≡◌, Some};
ghost use Rattle.bm_core.specs.declared.events.Verdict.TheVariants.{Process};
ghost use Rattle.bm_trace.specs.Words as words;

use bm_base::{Hop, Reason, Taken};
use bm_core::{Cause, Verdict, Why};
use bm_table::Retirement;
use std::fmt;

pub(crate) fn hop_word(hop: Hop) -> &'static str
    ensures { result.now ≡ words.hop_word hop }
{
    match hop {
        Hop::Direct => "direct",
        Hop::Chained => "chained",
        Hop::Twice => "twice",
    }
}

/// The words of a packet that is processed, each after a space.
pub(crate) fn process_text(taken: Taken) -> &'static str
    ensures { result.now ≡ words.spaced (words.verdict_words (Process taken)) }
{
    match taken {
        Taken::Advance => " process advance",
        Taken::Duplicate => " process duplicate",
        Taken::Ahead => " process ahead",
        Taken::Outside => " process outside",
        Taken::Challenge => " process challenge",
        Taken::Ended => " process ended",
    }
}

pub(crate) fn why_word(why: Why) -> &'static str
    ensures { result.now ≡ words.why_word why }
{
    match why {
        Why::NoPrevious => "no-previous",
        Why::ChainExpired => "chain-expired",
        Why::ChainedUnknown => "chained-unknown",
        Why::Silent => "silent",
        Why::Full => "full",
        Why::Retired => "retired",
    }
}

/// The word by which a report's line names the cause.
pub fn cause_word(cause: Cause) -> &'static str
    ensures { result.now ≡ words.cause_word cause }
{
    match cause {
        Cause::NeverAccepted => "never-accepted",
        Cause::NotHeld => "not-held",
        Cause::StaleMux => "stale-mux",
        Cause::MovedThrice => "moved-thrice",
        Cause::ChainLate => "chain-late",
        Cause::SynElsewhere => "syn-elsewhere",
        Cause::Full => "full",
        Cause::OldTable => "old-table",
    }
}

/// The word of a reason against steering.
pub fn reason_word(reason: Reason) -> &'static str
    ensures { result.now ≡ words.reason_word reason }
{
    match reason {
        Reason::ShortLink => "short-link",
        Reason::NotIpv4 => "not-ipv4",
        Reason::ShortIp => "short-ip",
        Reason::NotVersion4 => "not-version-4",
        Reason::BadHeaderLength => "bad-header-length",
        Reason::BadTotalLength => "bad-total-length",
        Reason::Fragment => "fragment",
        Reason::NotTcp => "not-tcp",
        Reason::ShortTcp => "short-tcp",
        Reason::BadOffset => "bad-offset",
        Reason::OtherDestination => "other-destination",
        Reason::TooLong => "too-long",
        Reason::Later => "later",
    }
}

/// The words of a verdict, each after a space.
#[derive(Clone, Copy)]
pub struct VerdictWords(pub Verdict);

impl fmt::Display for VerdictWords {
    ghost output = { λ v. Some (words.spaced (words.verdict_words v.0)) };

    fn fmt<W: fmt::Write>(&self, f: &mut fmt::Formatter<W>) -> fmt::Result {
        match self.0 {
            Verdict::Accept => f.write_str(" accept"),
            Verdict::Process(taken) => f.write_str(process_text(taken)),
            Verdict::Forward(server) => write!(f, " forward {}", server.0),
            Verdict::Reset(why) => write!(f, " reset {}", why_word(why)),
            Verdict::Drop(why) => write!(f, " drop {}", why_word(why)),
        }
    }
}

/// The words of a cause, each after a space, or nothing.
#[derive(Clone, Copy)]
pub struct BecauseWords(pub Option<Cause>);

impl fmt::Display for BecauseWords {
    ghost output = { λ c. Some (words.spaced (words.because_words c.0)) };

    fn fmt<W: fmt::Write>(&self, f: &mut fmt::Formatter<W>) -> fmt::Result {
        match self.0 {
            None => Ok(()),
            Some(cause) => write!(f, " because {}", cause_word(cause)),
        }
    }
}

/// The words of the answer to a request to retire, each after a space.
#[derive(Clone, Copy)]
pub struct RetirementWords(pub Retirement);

impl fmt::Display for RetirementWords {
    ghost output = { λ r. Some (words.spaced (words.retirement_words r.0)) };

    fn fmt<W: fmt::Write>(&self, f: &mut fmt::Formatter<W>) -> fmt::Result {
        match self.0 {
            Retirement::Done => f.write_str(" done"),
            Retirement::NotDrained => f.write_str(" not-drained"),
            Retirement::TooEarly(bucket) => write!(f, " too-early {bucket}"),
        }
    }
}

/// An address and a port.
#[derive(Clone, Copy)]
pub struct Endpoint {
    pub addr: u32,
    pub port: u16,
}

impl fmt::Display for Endpoint {
    ghost output = { λ e. Some (words.endpoint e.addr e.port) };

    fn fmt<W: fmt::Write>(&self, f: &mut fmt::Formatter<W>) -> fmt::Result {
        let [a, b, c, d] = self.addr.to_be_bytes();
        let port = self.port;
        write!(f, "{a}.{b}.{c}.{d}:{port}")
    }
}

/// A name and a number, each after a space.
#[derive(Clone, Copy)]
pub(crate) struct Counted(pub(crate) &'static str, pub(crate) u64);

#[tactic(auto, unfolding(crate::specs::Words::counted))]
impl fmt::Display for Counted {
    ghost output = { λ c. Some (words.counted c.0.now c.1) };

    fn fmt<W: fmt::Write>(&self, f: &mut fmt::Formatter<W>) -> fmt::Result {
        let name = self.0;
        let number = self.1;
        write!(f, " {name} {number}")
    }
}
