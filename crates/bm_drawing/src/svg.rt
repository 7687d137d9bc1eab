//! The whole drawing.
ghost use Rattle.std.specs.Prelude.{◌≡◌, ◌++◌, Some, OnOk, IfOk, string_bytes};
ghost use Rattle.bm_drawing.specs.Drawing as spec;

use crate::axis::{write_axis, write_axis_label};
use crate::changes::{Published, changes_in, write_changes};
use crate::choice::choice_of;
use crate::counts::write_counts;
use crate::legend::{write_legend, write_thick};
use crate::plot::{Plot, plot_of, servers_in};
use crate::rows::write_connections;
use bm_base::{Memory, Text};
use bm_connections::{Clock, Connection};
use bm_core::History;
use std::alloc::{AllocError, Global};
use std::fmt;

/// A width and a height.
#[derive(Clone, Copy)]
struct Size(u128);

#[tactic(auto, unfolding(crate::specs::Drawing::size))]
impl fmt::Display for Size {
    ghost output = { λ s. Some (spec.size s.0) };

    fn fmt<W: fmt::Write>(&self, f: &mut fmt::Formatter<W>) -> fmt::Result {
        let height = self.0;
        write!(f, " width='1080' height='{height}'")
    }
}

/// Which part of the plane is shown.
#[derive(Clone, Copy)]
struct View(u128);

#[tactic(auto, unfolding(crate::specs::Drawing::view))]
impl fmt::Display for View {
    ghost output = { λ v. Some (spec.view v.0) };

    fn fmt<W: fmt::Write>(&self, f: &mut fmt::Formatter<W>) -> fmt::Result {
        let height = self.0;
        write!(f, " viewBox='0 0 1080 {height}'")
    }
}

#[tactic(auto, unfolding(crate::specs::Drawing::svg_start))]
fn write_start(text: &mut String) -> Result<(), AllocError>
    ensures { OnOk result (string_bytes text.new ≡ string_bytes text.old ++ spec.svg_start) }
{
    text.push_str("<svg xmlns='http://www.w3.org/2000/svg' version='1.1'")?;
    Ok(())
}

/// The font, and a title.
#[tactic(auto, unfolding(crate::specs::Drawing::heading))]
fn write_heading(text: &mut String) -> Result<(), AllocError>
    ensures { OnOk result (string_bytes text.new ≡ string_bytes text.old ++ spec.heading) }
{
    text.push_str(
        " font-family='sans-serif' font-size='11'>\n\
         <title>connections</title>\n",
    )?;
    Ok(())
}

/// A white background.
#[tactic(auto, unfolding(crate::specs::Drawing::ground))]
fn write_ground(text: &mut String, height: u128) -> Result<(), AllocError>
    ensures { OnOk result (string_bytes text.new ≡ string_bytes text.old ++ spec.ground height) }
{
    let size = Size(height);
    writeln!(text, "<rect{size} fill='#ffffff'/>")
}

/// The beginning, a title, and a white background.
#[tactic(auto, unfolding(crate::specs::Drawing::frame))]
fn write_frame(text: &mut String, height: u128) -> Result<(), AllocError>
    ensures { OnOk result (string_bytes text.new ≡ string_bytes text.old ++ spec.frame height) }
{
    let size = Size(height);
    let view = View(height);
    write_start(text)?;
    write!(text, "{size}{view}")?;
    write_heading(text)?;
    write_ground(text, height)
}

/// The beginning of a group of texts centred on their points.
#[tactic(auto, unfolding(crate::specs::Drawing::middle))]
fn write_middle(text: &mut String) -> Result<(), AllocError>
    ensures { OnOk result (string_bytes text.new ≡ string_bytes text.old ++ spec.middle) }
{
    text.push_str("<g text-anchor='middle'>\n")?;
    Ok(())
}

/// The axis, and the changes of the table.
#[tactic(auto, unfolding(crate::specs::Drawing::times))]
fn write_times(text: &mut String, plot: Plot, changes: &[Published]) -> Result<(), AllocError>
    ensures { OnOk result (string_bytes text.new
        ≡ string_bytes text.old ++ spec.times plot changes.now) }
{
    write_axis_label(text, plot)?;
    write_middle(text)?;
    write_axis(text, plot)?;
    write_changes(text, plot, changes)?;
    text.push_str("</g>\n")?;
    Ok(())
}

/// The connections, and how many aren't drawn.
#[tactic(auto, unfolding(crate::specs::Drawing::rows))]
fn write_rows(text: &mut String, plot: Plot, shown: &[Connection]) -> Result<(), AllocError>
    ensures { OnOk result (string_bytes text.new
        ≡ string_bytes text.old ++ spec.rows plot shown.now) }
{
    write_thick(text)?;
    write_connections(text, plot, shown)?;
    write_counts(text, plot)?;
    text.push_str("</g>\n")?;
    Ok(())
}

/// The parts, one after another.
#[tactic(auto, unfolding(crate::specs::Drawing::parts))]
fn write_parts(
    text: &mut String,
    plot: Plot,
    changes: &[Published],
    servers: &[u16],
    shown: &[Connection],
) -> Result<(), AllocError>
    ensures { OnOk result (string_bytes text.new
        ≡ string_bytes text.old ++ spec.parts plot changes.now servers.now shown.now) }
{
    write_frame(text, plot.height())?;
    write_legend(text, servers)?;
    write_times(text, plot, changes)?;
    write_rows(text, plot, shown)?;
    text.push_str("</svg>\n")?;
    Ok(())
}

/// The drawing of these changes.
fn drawing_of(
    alloc: Global,
    clock: Clock,
    h: &History,
    changes: &[Published],
    table: &[Connection],
) -> Result<Text, Memory>
    ensures { IfOk result (λ text. text ≡ spec.drawing_of clock.0 h.now changes.now table.now) }
{
    let servers = servers_in(alloc, table)?;
    let choice = choice_of(alloc, changes, table)?;
    let plot = plot_of(clock, h, changes, servers.as_slice(), &choice, table);
    let mut text = String::new(alloc);
    write_parts(
        &mut text,
        plot,
        changes,
        servers.as_slice(),
        choice.rows.items(),
    )?;
    Ok(Text::of(text))
}

/// A drawing of the table's connections over time, as an SVG 1.1 text that is 1,080 units wide and
/// at most 1,500 high. Each connection is a line from its first to its last packet, in the colour
/// of the server that accepted it last. Those that a change touched come first, and where there are
/// many connections the others are only counted. An upright line for each change of the table is
/// at its clock. Moments are seconds since record 1, or in UTC by the clock.
pub fn drawing(
    alloc: Global,
    clock: Clock,
    history: &History,
    table: &[Connection],
) -> Result<Text, Memory>
    ensures { IfOk result (λ text. text ≡ spec.drawing clock.0 history.now table.now) }
{
    let changes = changes_in(alloc, &history.stage.script.plan, history.events.items())?;
    drawing_of(alloc, clock, history, changes.as_slice(), table)
}
