//! The connections, one below another.
ghost use Rattle.std.specs.Prelude.{◌≡◌, ◌++◌, ◌-◌, Some, OnOk, string_bytes};
ghost use Rattle.bm_drawing.specs.Drawing as spec;

use crate::legend::colour_of;
use crate::plot::{Plot, break_of};
use crate::scale::x_of;
use crate::shapes::{Arrow, Coloured, Dashes, Line, Mark};
use bm_base::Moment;
use bm_connections::{
    Break, Clock, Connection, EndWords, Forwarding, RackWords, ServerWord, TimeText, is_left_open,
    shown_rack,
};
use bm_trace::Endpoint;
use std::alloc::AllocError;
use std::fmt;

/// The client, the service, and the server that accepted the connection last with its rack.
#[tactic(auto, unfolding(crate::specs::Drawing::who))]
fn write_who(text: &mut String, racks: u16, c: &Connection) -> Result<(), AllocError>
    ensures { OnOk result
        (string_bytes text.new ≡ string_bytes text.old ++ spec.who racks c.now) }
{
    let client = Endpoint {
        addr: c.flow.src,
        port: c.flow.sport,
    };
    let service = Endpoint {
        addr: c.flow.dst,
        port: c.flow.dport,
    };
    let server = ServerWord(c.server);
    let rack = RackWords(shown_rack(racks, c.server));
    write!(
        text,
        "client {client} service {service} server {server}{rack}"
    )
}

/// The moments of the first and last packets.
#[tactic(auto, unfolding(crate::specs::Drawing::when))]
fn write_when(text: &mut String, clock: Clock, c: &Connection) -> Result<(), AllocError>
    ensures { OnOk result
        (string_bytes text.new ≡ string_bytes text.old ++ spec.when clock.0 c.now) }
{
    let opened = TimeText(clock, c.first.moment);
    let last = TimeText(clock, c.last.moment);
    write!(text, " opened {opened} last {last}")
}

/// When the bucket moved of a packet that was forwarded.
fn moved(f: Forwarding) -> Moment
    ensures { result.0 ≡ f.clock.0 - f.wait }
{
    Moment(f.clock.0.saturating_sub(f.wait))
}

/// Since when and until when packets were forwarded, each word after a space, or nothing.
#[derive(Clone, Copy)]
struct ForwardedWords(Clock, Option<Forwarding>);

#[tactic(auto, unfolding(crate::specs::Drawing::forwarded_words))]
impl fmt::Display for ForwardedWords {
    ghost output = { λ w. Some (spec.forwarded_words w.0.0 w.1) };

    fn fmt<W: fmt::Write>(&self, f: &mut fmt::Formatter<W>) -> fmt::Result {
        let clock = self.0;
        match self.1 {
            None => Ok(()),
            Some(last) => {
                let from = TimeText(clock, moved(last));
                let to = TimeText(clock, last.clock);
                write!(f, " forwarded from {from} to {to}")
            }
        }
    }
}

/// When a connection broke or was refused, each word after a space, or nothing.
#[derive(Clone, Copy)]
struct AtWords(Clock, Option<Break>);

#[tactic(auto, unfolding(crate::specs::Drawing::at_words))]
impl fmt::Display for AtWords {
    ghost output = { λ w. Some (spec.at_words w.0.0 w.1) };

    fn fmt<W: fmt::Write>(&self, f: &mut fmt::Formatter<W>) -> fmt::Result {
        let clock = self.0;
        match self.1 {
            None => Ok(()),
            Some(found) => write!(f, " at {}", TimeText(clock, found.clock)),
        }
    }
}

/// The title of a connection.
#[tactic(auto, unfolding(crate::specs::Drawing::title))]
fn write_title(text: &mut String, plot: Plot, c: &Connection) -> Result<(), AllocError>
    ensures { OnOk result
        (string_bytes text.new ≡ string_bytes text.old ++ spec.title plot c.now) }
{
    let forwarded = ForwardedWords(plot.clock, c.forwarded);
    let end = EndWords {
        broken: c.broken,
        refused: c.refused,
        server: c.server,
    };
    let at = AtWords(plot.clock, break_of(c));
    text.push_str("<title>")?;
    write_who(text, plot.racks, c)?;
    write_when(text, plot.clock, c)?;
    write!(text, "{forwarded}{end}{at}</title>")
}

/// Dashes from the move to the last packet that was forwarded.
#[derive(Clone, Copy)]
struct ForwardedLine {
    plot: Plot,
    y: u128,
    opened: u64,
    forwarded: Option<Forwarding>,
}

#[tactic(auto, unfolding(crate::specs::Drawing::forwarded_line))]
impl fmt::Display for ForwardedLine {
    ghost output = { λ l. Some (spec.forwarded_line l.plot l.y l.opened l.forwarded) };

    fn fmt<W: fmt::Write>(&self, f: &mut fmt::Formatter<W>) -> fmt::Result {
        let ForwardedLine {
            plot,
            y,
            opened,
            forwarded,
        } = *self;
        match forwarded {
            None => Ok(()),
            Some(last) => {
                let line = Line {
                    x1: x_of(plot.span, opened.max(moved(last).0)),
                    y1: y,
                    x2: x_of(plot.span, last.clock.0),
                    y2: y,
                };
                write!(f, "{}{line}</g>", Dashes)
            }
        }
    }
}

/// An arrow at the last packet of a connection that may go on, or nothing.
#[derive(Clone, Copy)]
struct OpenMark {
    plot: Plot,
    y: u128,
    open: bool,
    last: u64,
}

#[tactic(auto, unfolding(crate::specs::Drawing::open_mark))]
impl fmt::Display for OpenMark {
    ghost output = { λ m. Some (spec.open_mark m.plot m.y m.«open» m.last) };

    fn fmt<W: fmt::Write>(&self, f: &mut fmt::Formatter<W>) -> fmt::Result {
        if !self.open {
            return Ok(());
        }
        let x = x_of(self.plot.span, self.last);
        write!(f, "{}", Arrow { x, y: self.y })
    }
}

/// The mark of what broke or refused a connection, or nothing.
#[derive(Clone, Copy)]
struct BreakMark {
    plot: Plot,
    y: u128,
    broken: Option<Break>,
    refused: Option<Break>,
}

#[tactic(auto, unfolding(crate::specs::Drawing::break_mark))]
impl fmt::Display for BreakMark {
    ghost output = { λ m. Some (spec.break_mark m.plot m.y m.broken m.refused) };

    fn fmt<W: fmt::Write>(&self, f: &mut fmt::Formatter<W>) -> fmt::Result {
        let y = self.y;
        let (broken, first) = match (self.broken, self.refused) {
            (Some(first), _) => (true, first),
            (None, Some(first)) => (false, first),
            (None, None) => return Ok(()),
        };
        let x = x_of(self.plot.span, first.clock.0);
        write!(f, "{}", Mark { broken, x, y })
    }
}

/// What lies over the line of a connection.
fn write_over(text: &mut String, plot: Plot, y: u128, c: &Connection) -> Result<(), AllocError>
    ensures { OnOk result
        (string_bytes text.new ≡ string_bytes text.old ++ spec.over plot y c.now) }
{
    let forwarded = ForwardedLine {
        plot,
        y,
        opened: c.first.moment.0,
        forwarded: c.forwarded,
    };
    let arrow = OpenMark {
        plot,
        y,
        open: is_left_open(c),
        last: c.last.moment.0,
    };
    let mark = BreakMark {
        plot,
        y,
        broken: c.broken,
        refused: c.refused,
    };
    write!(text, "{forwarded}{arrow}{mark}")
}

/// A line from the first to the last packet of a connection, with its title and what lies over it.
fn write_connection(
    text: &mut String,
    plot: Plot,
    place: usize,
    c: &Connection,
) -> Result<(), AllocError>
    ensures { OnOk result (string_bytes text.new
        ≡ string_bytes text.old ++ spec.connection plot place c.now) }
{
    let y = plot.row(place as u64);
    let group = Coloured(colour_of(c.server));
    let line = Line {
        x1: x_of(plot.span, c.first.moment.0),
        y1: y,
        x2: x_of(plot.span, c.last.moment.0),
        y2: y,
    };
    write!(text, "{group}")?;
    write_title(text, plot, c)?;
    write!(text, "{line}")?;
    write_over(text, plot, y, c)?;
    text.push_str("</g>\n")?;
    Ok(())
}

/// The connections, one below another.
pub(crate) fn write_connections(
    text: &mut String,
    plot: Plot,
    table: &[Connection],
) -> Result<(), AllocError>
    ensures { OnOk result (string_bytes text.new
        ≡ string_bytes text.old ++ spec.connections plot 0 table.now) }
{
    for (place, connection) in table.iter().enumerate() {
        write_connection(text, plot, place, connection)?;
    }
    Ok(())
}
