//! Moments and waits as text, and the instant from which moments are counted.
ghost use Rattle.std.specs.Prelude.{◌≡◌, Some};
ghost use Rattle.bm_connections.specs.Times as spec;

use bm_base::Moment;
use jiff_core::Timestamp;
use jiff_fmt::temporal::DateTimePrinter;
use std::fmt;

const SECOND: u64 = 1_000_000_000;

/// What moments are counted from: record 1, or 1970 if it is known how many nanoseconds after
/// 1970-01-01T00:00:00Z record 1 was captured.
#[derive(Clone, Copy, PartialEq, Eq)]
pub struct Clock(pub Option<u64>);

impl Clock {
    /// A moment in nanoseconds since record 1, or since 1970-01-01T00:00:00Z. At most 2 ^ 64 - 1,
    /// in the year 2554.
    pub fn shown(self, moment: Moment) -> u64
        ensures { result ≡ spec.shown self.0 moment.0 }
    {
        match self.0 {
            None => moment.0,
            Some(began) => began.saturating_add(moment.0),
        }
    }
}

/// Nanoseconds as seconds, with nine digits after the point.
#[derive(Clone, Copy)]
pub struct SecondsText(pub u64);

impl fmt::Display for SecondsText {
    ghost output = { λ s. Some (spec.seconds_text s.0) };

    fn fmt<W: fmt::Write>(&self, f: &mut fmt::Formatter<W>) -> fmt::Result {
        let seconds = self.0 / SECOND;
        let rest = self.0 % SECOND;
        write!(f, "{seconds}.{rest:09}")
    }
}

/// An instant in UTC, by its nanoseconds since 1970-01-01T00:00:00Z.
#[derive(Clone, Copy)]
struct InstantText(u64);

impl fmt::Display for InstantText {
    ghost output = { λ i. Some (spec.instant_text i.0) };

    fn fmt<W: fmt::Write>(&self, f: &mut fmt::Formatter<W>) -> fmt::Result {
        let Ok(instant) = Timestamp::from_nanosecond(i128::from(self.0)) else {
            unreachable!()
        };
        let printer = DateTimePrinter::new().precision(Some(9));
        f.write_str(printer.timestamp_text(instant).as_str())
    }
}

/// A moment in seconds since record 1, or in UTC.
#[derive(Clone, Copy)]
pub struct TimeText(pub Clock, pub Moment);

impl fmt::Display for TimeText {
    ghost output = { λ t. Some (spec.time_text t.0.0 t.1.0) };

    fn fmt<W: fmt::Write>(&self, f: &mut fmt::Formatter<W>) -> fmt::Result {
        let TimeText(clock, moment) = *self;
        match clock.0 {
            None => write!(f, "{}", SecondsText(moment.0)),
            Some(_) => write!(f, "{}", InstantText(clock.shown(moment))),
        }
    }
}
