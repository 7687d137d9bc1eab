//! The legend: what lines and marks mean, and the colours of servers.
ghost use Rattle.std.specs.Prelude.{◌≡◌, ◌++◌, OnOk, string_bytes, take};
ghost use Rattle.bm_drawing.specs.Drawing as spec;

use crate::shapes::{Group, Line, TextAt};
use bm_base::ServerId;
use std::alloc::AllocError;

/// One of twelve colours; none is like that of a break.
fn colour(number: u16) -> &'static str
    ensures { result.now ≡ spec.colour number }
{
    match number % 12 {
        0 => "#555555",
        1 => "#0072b2",
        2 => "#e69f00",
        3 => "#009e73",
        4 => "#7b3fa0",
        5 => "#56b4e9",
        6 => "#8b5a14",
        7 => "#10205c",
        8 => "#8fce00",
        9 => "#00cfcf",
        10 => "#f0e020",
        _ => "#cfaef0",
    }
}

/// The colour of a server, or grey.
pub(crate) fn colour_of(server: Option<ServerId>) -> &'static str
    ensures { result.now ≡ spec.colour_of server }
{
    match server {
        None => "#bbbbbb",
        Some(server) => colour(server.0),
    }
}

/// The beginning of a group of thick lines.
#[tactic(auto, unfolding(crate::specs::Drawing::thick))]
pub(crate) fn write_thick(text: &mut String) -> Result<(), AllocError>
    ensures { OnOk result (string_bytes text.new ≡ string_bytes text.old ++ spec.thick) }
{
    text.push_str("<g stroke-width='4' stroke-linecap='round'>\n")?;
    Ok(())
}

/// What lines mean.
#[tactic(auto, unfolding(crate::specs::Drawing::key_lines))]
fn write_key_lines(text: &mut String) -> Result<(), AllocError>
    ensures { OnOk result (string_bytes text.new ≡ string_bytes text.old ++ spec.key_lines) }
{
    text.push_str(
        "<g stroke='#bbbbbb'><line x1='40' y1='20' x2='60' y2='20'/>\
         <text x='68' y='24' stroke='none'>accepted by no server</text></g>\n\
         <g stroke='#555555'><line x1='206' y1='20' x2='236' y2='20'/>\
         <g stroke='#ffffff' stroke-width='2' stroke-dasharray='3 3' stroke-linecap='butt'>\
         <line x1='206' y1='20' x2='236' y2='20'/></g>\
         <text x='244' y='24' stroke='none'>forwarded to the server before</text></g>\n",
    )?;
    Ok(())
}

/// What marks mean.
#[tactic(auto, unfolding(crate::specs::Drawing::key_marks))]
fn write_key_marks(text: &mut String) -> Result<(), AllocError>
    ensures { OnOk result (string_bytes text.new ≡ string_bytes text.old ++ spec.key_marks) }
{
    text.push_str(
        "<circle cx='424' cy='20' r='4' fill='#e0001b' stroke='#ffffff' stroke-width='1'/>\
         <text x='434' y='24' stroke='none'>broken</text>\n\
         <circle cx='498' cy='20' r='3' fill='#ffffff' stroke='#e0001b' stroke-width='2'/>\
         <text x='508' y='24' stroke='none'>refused</text>\n\
         <g stroke='#000000' stroke-width='1' stroke-dasharray='4 2'>\
         <line x1='584' y1='12' x2='584' y2='28'/>\
         <text x='592' y='24' stroke='none'>change of the table</text></g>\n",
    )?;
    Ok(())
}

/// The colour of a server, at its place in the legend.
fn write_server_key(text: &mut String, place: usize, server: u16) -> Result<(), AllocError>
    ensures { OnOk result (string_bytes text.new
        ≡ string_bytes text.old ++ spec.server_key place server) }
{
    let place = place as u128;
    let left = 40 + 125 * (place % 8);
    let y = 38 + 18 * (place / 8);
    let line = Line {
        x1: left,
        y1: y,
        x2: left + 20,
        y2: y,
    };
    let start = TextAt {
        x: left + 28,
        y: y + 4,
    };
    let group = Group(colour(server));
    write!(text, "{group}{line}")?;
    writeln!(text, "{start}server {server}</text></g>")
}

fn write_server_keys(text: &mut String, servers: &[u16]) -> Result<(), AllocError>
    ensures { OnOk result (string_bytes text.new
        ≡ string_bytes text.old ++ spec.server_keys 0 servers.now) }
{
    for (place, server) in servers.iter().enumerate() {
        write_server_key(text, place, *server)?;
    }
    Ok(())
}

/// How many more servers there are, if there are more than 24.
#[tactic(auto, unfolding(crate::specs::Drawing::more_servers))]
fn write_more_servers(text: &mut String, n: usize) -> Result<(), AllocError>
    ensures { OnOk result
        (string_bytes text.new ≡ string_bytes text.old ++ spec.more_servers n) }
{
    if n <= 24 {
        return Ok(());
    }
    let start = TextAt { x: 40, y: 96 };
    let more = n - 24;
    writeln!(text, "{start}and {more} more servers</text>")
}

/// The first 24 servers.
fn first_servers(servers: &[u16]) -> &[u16]
    ensures { result.now ≡ take 24 servers.now }
{
    if servers.len() <= 24 {
        servers
    } else {
        &servers[..24]
    }
}

/// What lines and marks mean, and the colours of these servers.
#[tactic(auto, unfolding(crate::specs::Drawing::legend))]
pub(crate) fn write_legend(text: &mut String, servers: &[u16]) -> Result<(), AllocError>
    ensures { OnOk result (string_bytes text.new
        ≡ string_bytes text.old ++ spec.legend servers.now) }
{
    write_thick(text)?;
    write_key_lines(text)?;
    write_key_marks(text)?;
    write_server_keys(text, first_servers(servers))?;
    write_more_servers(text, servers.len())?;
    text.push_str("</g>\n")?;
    Ok(())
}
