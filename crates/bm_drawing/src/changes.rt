//! The changes of the table.
ghost use Rattle.std.specs.Prelude.{◌≡◌, ◌++◌, ◌<◌, ◌^◌, Some, IfOk, OnOk, string_bytes};
ghost use Rattle.bm_drawing.specs.Drawing as spec;
ghost use Rattle.bm_drawing.specs.Scales as scale;

use crate::lanes::Lanes;
use crate::plot::Plot;
use crate::scale::x_of;
use crate::shapes::{Dashed, Line, TextAt};
use bm_base::{Moment, Version};
use bm_connections::{Clock, TimeText};
use bm_core::{Event, What};
use bm_table::{Kind, Plan};
use std::alloc::{AllocError, Global};
use std::fmt;

/// A version of the table that was published, when, what the plan's change to it is for, and how
/// many buckets it moves.
#[derive(Clone, Copy)]
pub(crate) struct Published {
    pub(crate) version: Version,
    pub(crate) clock: Moment,
    pub(crate) kind: Option<Kind>,
    pub(crate) moves: u64,
}

fn as_published(plan: &Plan, version: Version, clock: Moment) -> Published
    ensures { result ≡ spec.as_published plan.now version.0 clock }
{
    match plan.next_change(Version(version.0.saturating_sub(1))) {
        None => Published {
            version,
            clock,
            kind: None,
            moves: 0,
        },
        Some(change) => Published {
            version,
            clock,
            kind: Some(change.kind),
            moves: change.moves.items().len() as u64,
        },
    }
}

/// Appends what an event publishes.
fn push_published(
    changes: &mut Vec<Published>,
    plan: &Plan,
    event: &Event,
) -> Result<(), AllocError>
    ensures { OnOk result (changes.new.items
        ≡ changes.old.items ++ spec.published plan.now event.now.clock event.now.what) }
{
    let clock = event.clock;
    match event.what {
        What::Publish(version) => {
            changes.push(as_published(plan, version, clock))?;
        }
        What::Switch { .. }
        | What::Steer { .. }
        | What::Lose { .. }
        | What::Arrive { .. }
        | What::Close { .. }
        | What::Retire { .. }
        | What::Sync => {}
    }
    Ok(())
}

/// Each change of the table.
pub(crate) fn changes_in(
    alloc: Global,
    plan: &Plan,
    events: &[Event],
) -> Result<Vec<Published>, AllocError>
    ensures { IfOk result (λ changes. changes.items ≡ spec.changes_in plan.now events.now) }
{
    let mut changes = Vec::new(alloc);
    for event in events {
        push_published(&mut changes, plan, event)?;
    }
    Ok(changes)
}

/// What a change is for.
#[derive(Clone, Copy)]
struct KindWords(Option<Kind>);

#[tactic(auto, unfolding(crate::specs::Drawing::kind_words))]
impl fmt::Display for KindWords {
    ghost output = { λ k. Some (spec.kind_words k.0) };

    fn fmt<W: fmt::Write>(&self, f: &mut fmt::Formatter<W>) -> fmt::Result {
        match self.0 {
            None => write!(f, "change"),
            Some(Kind::Add(server)) => write!(f, "add {}", server.0),
            Some(Kind::Drain(server)) => write!(f, "drain {}", server.0),
            Some(Kind::Shift) => write!(f, "move"),
        }
    }
}

/// The version that a change makes, and when.
#[derive(Clone, Copy)]
struct ChangeWords(Clock, Published);

#[tactic(auto, unfolding(crate::specs::Drawing::change_words))]
impl fmt::Display for ChangeWords {
    ghost output = { λ w. Some (spec.change_words w.0.0 w.1) };

    fn fmt<W: fmt::Write>(&self, f: &mut fmt::Formatter<W>) -> fmt::Result {
        let version = self.1.version.0;
        let at = TimeText(self.0, self.1.clock);
        write!(f, "change {version} at {at}")
    }
}

/// What a change is for, and how many of the buckets it moves, each word after a space.
#[derive(Clone, Copy)]
struct MovesWords(u32, Published);

#[tactic(auto, unfolding(crate::specs::Drawing::moves_words))]
impl fmt::Display for MovesWords {
    ghost output = { λ w. Some (spec.moves_words w.0 w.1) };

    fn fmt<W: fmt::Write>(&self, f: &mut fmt::Formatter<W>) -> fmt::Result {
        let kind = KindWords(self.1.kind);
        let moves = self.1.moves;
        let buckets = self.0;
        write!(f, " {kind} buckets {moves} of {buckets}")
    }
}

/// The title of a change.
#[tactic(auto, unfolding(crate::specs::Drawing::change_title))]
fn write_title(text: &mut String, plot: Plot, change: Published) -> Result<(), AllocError>
    ensures { OnOk result (string_bytes text.new
        ≡ string_bytes text.old ++ spec.change_title plot change) }
{
    let words = ChangeWords(plot.clock, change);
    let moves = MovesWords(plot.buckets, change);
    write!(text, "<title>{words}{moves}</title>")
}

/// The words of a change in a lane above the connections and in one below, or nowhere.
#[derive(Clone, Copy)]
struct ChangeLabels {
    plot: Plot,
    at: u128,
    lane: u128,
    kind: Option<Kind>,
}

#[tactic(auto, unfolding(crate::specs::Drawing::change_labels))]
impl fmt::Display for ChangeLabels {
    ghost output = { λ l. Some (spec.change_labels l.plot l.at l.lane l.kind) };

    fn fmt<W: fmt::Write>(&self, f: &mut fmt::Formatter<W>) -> fmt::Result {
        if self.lane >= 3 {
            return Ok(());
        }
        let x = self.at;
        let above = TextAt {
            x,
            y: self.plot.top() + 44 - 12 * self.lane,
        };
        let below = TextAt {
            x,
            y: self.plot.bottom() + 34 + 12 * self.lane,
        };
        let kind = KindWords(self.kind);
        write!(f, "{above}{kind}</text>{below}{kind}</text>")
    }
}

/// A line through the drawing at a place, with its title and its words.
fn write_change_at(
    text: &mut String,
    plot: Plot,
    at: u128,
    lane: u128,
    change: Published,
) -> Result<(), AllocError>
    requires { lane < 4 }
    ensures { OnOk result (string_bytes text.new
        ≡ string_bytes text.old ++ spec.change_at plot at lane change) }
{
    let line = Line {
        x1: at,
        y1: plot.top() + 48,
        x2: at,
        y2: plot.bottom(),
    };
    let labels = ChangeLabels {
        plot,
        at,
        lane,
        kind: change.kind,
    };
    write!(text, "{}", Dashed)?;
    write_title(text, plot, change)?;
    writeln!(text, "{line}{labels}</g>")
}

/// A change, at its clock.
fn write_change(
    text: &mut String,
    plot: Plot,
    free: Lanes,
    change: Published,
) -> Result<(), AllocError>
    ensures { OnOk result (string_bytes text.new
        ≡ string_bytes text.old ++ spec.change plot free change) }
{
    let at = x_of(plot.span, change.clock.0);
    write_change_at(text, plot, at, free.lane(at), change)
}

/// The lanes with the words of this change too.
fn after(free: Lanes, plot: Plot, change: Published) -> Lanes
    ensures { result ≡ spec.after free (scale.x plot.span change.clock.0) }
{
    free.after(x_of(plot.span, change.clock.0))
}

/// A line for each change, and the words for which there is room.
pub(crate) fn write_changes(
    text: &mut String,
    plot: Plot,
    changes: &[Published],
) -> Result<(), AllocError>
    ensures { OnOk result (string_bytes text.new
        ≡ string_bytes text.old ++ spec.changes plot spec.all_free changes.now) }
{
    let mut free = Lanes::all_free();
    for change in changes {
        write_change(text, plot, free, *change)?;
        free = after(free, plot, *change);
    }
    Ok(())
}
