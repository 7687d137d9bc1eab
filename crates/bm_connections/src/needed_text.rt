//! The lines of how long the old servers are needed, and of third changes that came too soon.
ghost use Rattle.std.specs.Prelude.{◌≡◌, ◌++◌, Some, OnOk, IfOk, flat_map, string_bytes};
ghost use Rattle.bm_connections.specs.NeededText as spec;

use crate::needed::{NeededChange, NeededServer};
use crate::needs::Need;
use crate::thrice::MovedThrice;
use crate::times::{Clock, SecondsText, TimeText};
use bm_base::{Flow, Memory, Text};
use bm_trace::Endpoint;
use std::alloc::{AllocError, Global};
use std::fmt;

fn client_of(flow: &Flow) -> Endpoint
    ensures { result ≡ record { addr = flow.now.src; port = flow.now.sport } }
{
    Endpoint {
        addr: flow.src,
        port: flow.sport,
    }
}

/// The clock of a need's packet after a word, each after a space, or nothing where moments aren't
/// written in UTC.
#[derive(Clone, Copy)]
struct UntilWords(Clock, Need);

impl fmt::Display for UntilWords {
    ghost output = { λ u. Some (spec.until_text u.0.0 u.1) };

    fn fmt<W: fmt::Write>(&self, f: &mut fmt::Formatter<W>) -> fmt::Result {
        let UntilWords(clock, need) = *self;
        match clock.0 {
            None => Ok(()),
            Some(_) => write!(f, " until {}", TimeText(clock, need.clock)),
        }
    }
}

/// How long a need is, by which client, and until when, each word after a space.
#[derive(Clone, Copy)]
struct NeedWords(Clock, Need);

#[tactic(auto, unfolding(crate::specs::NeededText::need_text))]
impl fmt::Display for NeedWords {
    ghost output = { λ n. Some (spec.need_text n.0.0 n.1) };

    fn fmt<W: fmt::Write>(&self, f: &mut fmt::Formatter<W>) -> fmt::Result {
        let time = SecondsText(self.1.time);
        let client = client_of(&self.1.flow);
        let until = UntilWords(self.0, self.1);
        write!(f, " for {time} by {client}{until}")
    }
}

fn write_change(text: &mut String, clock: Clock, c: &NeededChange) -> Result<(), AllocError>
    ensures { OnOk result
        (string_bytes text.new ≡ string_bytes text.old ++ spec.change_line clock.0 c.now) }
{
    let change = c.change;
    let need = NeedWords(clock, c.need);
    writeln!(text, "needed change {change}{need}")
}

fn write_changes(
    text: &mut String,
    clock: Clock,
    changes: &[NeededChange],
) -> Result<(), AllocError>
    ensures { OnOk result (string_bytes text.new
        ≡ string_bytes text.old ++ spec.changes_text clock.0 changes.now) }
{
    for change in changes {
        write_change(text, clock, change)?;
    }
    Ok(())
}

/// A line for each change that packets were forwarded after: how long after it, and by whom.
pub fn needed_changes_text(
    alloc: Global,
    clock: Clock,
    changes: &[NeededChange],
) -> Result<Text, Memory>
    ensures { IfOk result (λ text. text ≡ spec.changes_text clock.0 changes.now) }
{
    let mut text = String::new(alloc);
    write_changes(&mut text, clock, changes)?;
    Ok(Text::of(text))
}

fn write_server(text: &mut String, clock: Clock, s: &NeededServer) -> Result<(), AllocError>
    ensures { OnOk result
        (string_bytes text.new ≡ string_bytes text.old ++ spec.server_line clock.0 s.now) }
{
    let server = s.server.0;
    let need = NeedWords(clock, s.need);
    writeln!(text, "needed retire {server}{need}")
}

fn write_servers(
    text: &mut String,
    clock: Clock,
    servers: &[NeededServer],
) -> Result<(), AllocError>
    ensures { OnOk result (string_bytes text.new
        ≡ string_bytes text.old ++ spec.servers_text clock.0 servers.now) }
{
    for server in servers {
        write_server(text, clock, server)?;
    }
    Ok(())
}

/// A line for each server that retired too soon: how long after that it was needed, and by whom.
pub fn needed_servers_text(
    alloc: Global,
    clock: Clock,
    servers: &[NeededServer],
) -> Result<Text, Memory>
    ensures { IfOk result (λ text. text ≡ spec.servers_text clock.0 servers.now) }
{
    let mut text = String::new(alloc);
    write_servers(&mut text, clock, servers)?;
    Ok(Text::of(text))
}

/// Three changes after a word, each after a space.
#[derive(Clone, Copy)]
struct ChangesWords(MovedThrice);

#[tactic(auto, unfolding(crate::specs::NeededText::thrice_changes))]
impl fmt::Display for ChangesWords {
    ghost output = { λ m. Some (spec.thrice_changes m.0) };

    fn fmt<W: fmt::Write>(&self, f: &mut fmt::Formatter<W>) -> fmt::Result {
        let first = self.0.first;
        let second = self.0.second;
        let third = self.0.third;
        write!(f, " changes {first} {second} {third}")
    }
}

/// How much later a change must come, and for which client, each word after a space.
#[derive(Clone, Copy)]
struct DelayWords(Need);

#[tactic(auto, unfolding(crate::specs::NeededText::delay_text))]
impl fmt::Display for DelayWords {
    ghost output = { λ n. Some (spec.delay_text n.0) };

    fn fmt<W: fmt::Write>(&self, f: &mut fmt::Formatter<W>) -> fmt::Result {
        let time = SecondsText(self.0.time);
        let client = client_of(&self.0.flow);
        write!(f, " by {time} for {client}")
    }
}

fn write_moved(text: &mut String, m: &MovedThrice) -> Result<(), AllocError>
    ensures { OnOk result
        (string_bytes text.new ≡ string_bytes text.old ++ spec.thrice_line m.now) }
{
    let changes = ChangesWords(*m);
    let delay = DelayWords(m.need);
    writeln!(text, "moved-thrice{changes}{delay}")
}

fn write_all_moved(text: &mut String, moved: &[MovedThrice]) -> Result<(), AllocError>
    ensures { OnOk result (string_bytes text.new
        ≡ string_bytes text.old ++ spec.thrice_text moved.now) }
{
    for m in moved {
        write_moved(text, m)?;
    }
    Ok(())
}

/// A line for each third change that came too soon: the three changes, how much later the third
/// must come, and for whom.
pub fn moved_thrice_text(alloc: Global, moved: &[MovedThrice]) -> Result<Text, Memory>
    ensures { IfOk result (λ text. text ≡ spec.thrice_text moved.now) }
{
    let mut text = String::new(alloc);
    write_all_moved(&mut text, moved)?;
    Ok(Text::of(text))
}
