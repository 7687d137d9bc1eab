//! The axis of time.
ghost use Rattle.std.specs.Prelude.{◌≡◌, ◌++◌, Some, OnOk, string_bytes};
ghost use Rattle.bm_drawing.specs.Drawing as spec;

use crate::plot::Plot;
use crate::scale::{TickWords, first_tick, tick_step, x_of};
use crate::shapes::{Group, Line, TextAt};
use bm_base::Moment;
use bm_connections::{Clock, TimeText};
use std::alloc::AllocError;
use std::fmt;

/// What is written at the axis.
#[derive(Clone, Copy)]
struct AxisWords(Clock);

impl fmt::Display for AxisWords {
    ghost output = { λ a. Some (spec.axis_words a.0.0) };

    fn fmt<W: fmt::Write>(&self, f: &mut fmt::Formatter<W>) -> fmt::Result {
        let clock = self.0;
        match clock.0 {
            None => write!(f, "seconds after record 1"),
            Some(_) => write!(f, "UTC; record 1 at {}", TimeText(clock, Moment(0))),
        }
    }
}

/// The same, at its place.
#[tactic(auto, unfolding(crate::specs::Drawing::axis_label))]
pub(crate) fn write_axis_label(text: &mut String, plot: Plot) -> Result<(), AllocError>
    ensures { OnOk result (string_bytes text.new
        ≡ string_bytes text.old ++ spec.axis_label plot) }
{
    let start = TextAt {
        x: 40,
        y: plot.top() - 18,
    };
    let words = AxisWords(plot.clock);
    writeln!(text, "{start}{words}</text>")
}

/// A moment at a point.
#[derive(Clone, Copy)]
struct MomentLabel {
    clock: Clock,
    x: u128,
    y: u128,
    step: u64,
    moment: u64,
}

#[tactic(auto, unfolding(crate::specs::Drawing::moment_label))]
impl fmt::Display for MomentLabel {
    ghost output = { λ m. Some (spec.moment_label m.clock.0 m.x m.y m.step m.moment) };

    fn fmt<W: fmt::Write>(&self, f: &mut fmt::Formatter<W>) -> fmt::Result {
        let MomentLabel {
            clock,
            x,
            y,
            step,
            moment,
        } = *self;
        let start = TextAt { x, y };
        let words = TickWords {
            clock,
            step,
            moment,
        };
        write!(f, "{start}{words}</text>")
    }
}

/// A line through the drawing at a moment, with the moment at both ends.
fn write_tick(text: &mut String, plot: Plot, moment: u64) -> Result<(), AllocError>
    ensures { OnOk result (string_bytes text.new
        ≡ string_bytes text.old ++ spec.tick plot moment) }
{
    let clock = plot.clock;
    let step = tick_step(plot.span);
    let x = x_of(plot.span, moment);
    let line = Line {
        x1: x,
        y1: plot.top() + 6,
        x2: x,
        y2: plot.bottom() + 6,
    };
    let above = MomentLabel {
        clock,
        x,
        y: plot.top(),
        step,
        moment,
    };
    let below = MomentLabel {
        clock,
        x,
        y: plot.bottom() + 18,
        step,
        moment,
    };
    let group = Group("#dddddd");
    write!(text, "{group}{line}")?;
    writeln!(text, "{above}{below}</g>")
}

pub(crate) fn write_axis(text: &mut String, plot: Plot) -> Result<(), AllocError>
    ensures { OnOk result (string_bytes text.new ≡ string_bytes text.old ++ spec.axis plot) }
{
    let step = tick_step(plot.span);
    let first = first_tick(plot.clock.shown(Moment(0)), step);
    let last = (plot.span - first) / step;
    for number in 0..last {
        write_tick(text, plot, first + number * step)?;
    }
    write_tick(text, plot, first + last * step)?;
    Ok(())
}
