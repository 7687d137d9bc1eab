//! Where moments are drawn, and the ticks of the axis.
ghost use Rattle.std.specs.Prelude.{◌≡◌, ◌<◌, ◌≤◌, ◌+◌, ◌^◌, max, Some};
ghost use Rattle.bm_connections.specs.Times.{shown};
ghost use Rattle.bm_drawing.specs.Scales as spec;

use bm_base::Moment;
use bm_connections::Clock;
use std::fmt;

/// Where a moment is drawn, on an axis of `span` nanoseconds.
pub(crate) fn x_of(span: u64, moment: u64) -> u128
    ensures place { result ≡ spec.x span moment }
    ensures bound { result < 2 ^ 100 }
{
    40 + u128::from(moment) * 1_000 / u128::from(span.max(1))
}

/// The greatest power of ten that isn't above a number.
fn decade(n: u64) -> u64
    requires { 0 < n }
    ensures value { result ≡ spec.decade n }
    ensures some { 0 < result }
    ensures bound { result ≤ n }
{
    10u64.pow(n.ilog10())
}

/// A fifth or a half of a power of ten, or the power.
fn step_of(power: u64, times: u64) -> u64
    ensures value { result ≡ spec.step_of power times }
    ensures bound { result ≤ power }
{
    if times < 2 {
        power / 5
    } else if times < 5 {
        power / 2
    } else {
        power
    }
}

/// A step for at most ten steps.
fn decimal_step(n: u64) -> u64
    ensures value { result ≡ spec.decimal_step n }
    ensures some { 0 < result }
    ensures bound { result ≤ max 1 n }
{
    let n = n.max(1);
    let power = decade(n);
    step_of(power, n / power).max(1)
}

/// What the steps of an axis of `span` nanoseconds are counted in: a nanosecond, a minute or an
/// hour.
fn unit(span: u64) -> u64
    ensures value { result ≡ spec.unit span }
    ensures some { 0 < result }
    ensures bound { result ≤ max 1 span }
{
    if span < 120_000_000_000 {
        1
    } else if span < 7_200_000_000_000 {
        60_000_000_000
    } else {
        3_600_000_000_000
    }
}

/// How many nanoseconds there are between two ticks of an axis of `span` nanoseconds.
pub(crate) fn tick_step(span: u64) -> u64
    ensures step { result ≡ spec.tick_step span }
    ensures some { 0 < result }
    ensures bound { result ≤ max 1 span }
{
    let unit = unit(span);
    unit * decimal_step(span / unit)
}

/// How long after an instant the next multiple of the step comes.
pub(crate) fn first_tick(instant: u64, step: u64) -> u64
    requires { 0 < step }
    ensures value { result ≡ spec.first_tick instant step }
    ensures bound { result < step }
{
    (step - instant % step) % step
}

/// Three digits of a number below 1,000.
#[derive(Clone, Copy)]
struct ThreeDigits(u64);

impl fmt::Display for ThreeDigits {
    ghost output = { λ n. Some (spec.three_digits n.0) };

    fn fmt<W: fmt::Write>(&self, f: &mut fmt::Formatter<W>) -> fmt::Result {
        let hundreds = self.0 / 100;
        let tens = self.0 / 10 % 10;
        let ones = self.0 % 10;
        write!(f, "{hundreds}{tens}{ones}")
    }
}

/// The last three of a moment's digits after the point, or none.
#[derive(Clone, Copy)]
struct Nanoseconds {
    step: u64,
    moment: u64,
}

impl fmt::Display for Nanoseconds {
    ghost output = { λ n. Some (spec.nanoseconds n.step n.moment) };

    fn fmt<W: fmt::Write>(&self, f: &mut fmt::Formatter<W>) -> fmt::Result {
        if self.step % 1_000 == 0 {
            return Ok(());
        }
        write!(f, "{}", ThreeDigits(self.moment % 1_000))
    }
}

/// The last six, or fewer.
#[derive(Clone, Copy)]
struct Microseconds {
    step: u64,
    moment: u64,
}

impl fmt::Display for Microseconds {
    ghost output = { λ n. Some (spec.microseconds n.step n.moment) };

    fn fmt<W: fmt::Write>(&self, f: &mut fmt::Formatter<W>) -> fmt::Result {
        let Microseconds { step, moment } = *self;
        if step % 1_000_000 == 0 {
            return Ok(());
        }
        let digits = ThreeDigits(moment / 1_000 % 1_000);
        let rest = Nanoseconds { step, moment };
        write!(f, "{digits}{rest}")
    }
}

/// The point and what comes after it, or nothing.
#[derive(Clone, Copy)]
struct Milliseconds {
    step: u64,
    moment: u64,
}

impl fmt::Display for Milliseconds {
    ghost output = { λ n. Some (spec.milliseconds n.step n.moment) };

    fn fmt<W: fmt::Write>(&self, f: &mut fmt::Formatter<W>) -> fmt::Result {
        let Milliseconds { step, moment } = *self;
        if step % 1_000_000_000 == 0 {
            return Ok(());
        }
        let digits = ThreeDigits(moment / 1_000_000 % 1_000);
        let rest = Microseconds { step, moment };
        write!(f, ".{digits}{rest}")
    }
}

/// A moment in seconds, with as many groups of three digits after the point as multiples of the
/// step need.
#[derive(Clone, Copy)]
struct Seconds {
    step: u64,
    moment: u64,
}

#[tactic(auto, unfolding(crate::specs::Scales::seconds))]
impl fmt::Display for Seconds {
    ghost output = { λ n. Some (spec.seconds n.step n.moment) };

    fn fmt<W: fmt::Write>(&self, f: &mut fmt::Formatter<W>) -> fmt::Result {
        let Seconds { step, moment } = *self;
        let whole = moment / 1_000_000_000;
        let behind = Milliseconds { step, moment };
        write!(f, "{whole}{behind} s")
    }
}

/// Two digits of a number below 100.
#[derive(Clone, Copy)]
struct TwoDigits(u64);

impl fmt::Display for TwoDigits {
    ghost output = { λ n. Some (spec.two_digits n.0) };

    fn fmt<W: fmt::Write>(&self, f: &mut fmt::Formatter<W>) -> fmt::Result {
        let tens = self.0 / 10;
        let ones = self.0 % 10;
        write!(f, "{tens}{ones}")
    }
}

/// A time of day, by its seconds.
#[derive(Clone, Copy)]
struct TimeOfDay(u64);

#[tactic(auto, unfolding(crate::specs::Scales::time_of_day))]
impl fmt::Display for TimeOfDay {
    ghost output = { λ t. Some (spec.time_of_day t.0) };

    fn fmt<W: fmt::Write>(&self, f: &mut fmt::Formatter<W>) -> fmt::Result {
        let hours = TwoDigits(self.0 / 3_600);
        let minutes = TwoDigits(self.0 / 60 % 60);
        let seconds = TwoDigits(self.0 % 60);
        write!(f, "{hours}:{minutes}:{seconds}")
    }
}

/// The time of day of an instant, with as many groups of three digits after the point as multiples
/// of the step need.
#[derive(Clone, Copy)]
struct ClockTime {
    step: u64,
    instant: u64,
}

impl fmt::Display for ClockTime {
    ghost output = { λ n. Some (spec.clock_time n.step n.instant) };

    fn fmt<W: fmt::Write>(&self, f: &mut fmt::Formatter<W>) -> fmt::Result {
        let ClockTime { step, instant } = *self;
        let time = TimeOfDay(instant / 1_000_000_000 % 86_400);
        let behind = Milliseconds {
            step,
            moment: instant,
        };
        write!(f, "{time}{behind}")
    }
}

/// A moment at the axis: in seconds, or in UTC.
#[derive(Clone, Copy)]
pub(crate) struct TickWords {
    pub(crate) clock: Clock,
    pub(crate) step: u64,
    pub(crate) moment: u64,
}

impl fmt::Display for TickWords {
    ghost output = { λ t. Some (spec.tick_words t.clock.0 t.step t.moment) };

    fn fmt<W: fmt::Write>(&self, f: &mut fmt::Formatter<W>) -> fmt::Result {
        let TickWords {
            clock,
            step,
            moment,
        } = *self;
        match clock.0 {
            None => write!(f, "{}", Seconds { step, moment }),
            Some(_) => {
                let instant = clock.shown(Moment(moment));
                write!(f, "{}", ClockTime { step, instant })
            }
        }
    }
}
