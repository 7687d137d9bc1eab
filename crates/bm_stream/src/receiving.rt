//! What each accepted connection received.
ghost use Rattle.std.specs.Prelude.{◌≡◌, ◌++◌, ◌≤◌, List, IfOk, OnErr, OnOk, length, reverse};
ghost use Rattle.bm_core.specs.declared.events.Event.{Event};
ghost use Rattle.bm_core.specs.Runs.{IsRun};
ghost use Rattle.bm_link.specs.Fits.{ArePackets};
ghost use Rattle.bm_stream.specs.Inside.Found.{HasFound, list_in};
ghost use Rattle.bm_stream.specs.Inside.Lines.{received_line};
ghost use Rattle.bm_stream.specs.Text.{AppendsPart, line_at, stream_text};

use crate::Stream;
use crate::collect::collect;
use crate::lines::{Received, append_line};
use crate::packets::Found;
use bm_base::{Memory, Octets};
use bm_core::{Event, History, Stage, Verdict, What};
use std::alloc::Global;

/// The packets of each Accept of the history.
fn find(alloc: Global, h: &History) -> Result<Found, Memory>
    requires { IsRun h.now }
    ensures { IfOk result (HasFound h.now.stage (reverse h.now.events)) }
{
    let mut found = Found::new(alloc);
    let events = h.events.items();
    for (place, event) in events.iter().enumerate() {
        found.observe(alloc, &h.stage, place, event)?;
    }
    Ok(found)
}

/// What the connection received that is accepted by the event at this place, if it accepts one.
fn receive(
    stage: &Stage,
    octets: &Octets,
    found: &Found,
    stream: &mut Stream,
    place: usize,
    event: &Event,
) -> Option<Received>
    requires packets { ArePackets stage.now.capture.records octets.now }
    requires few { length (list_in found.now.packets place) ≤ 25000000 }
    ensures { (all : List Event) → HasFound stage.now all found.now
        → received_line result
        ≡ line_at stage.now octets.now all place event.now.clock event.now.what }
{
    let What::Arrive {
        packet,
        server,
        verdict: Verdict::Accept,
        ..
    } = event.what
    else {
        return None;
    };
    let segment = stage.segment(packet)?;
    collect(stream, stage, octets, segment.seq, found.packets.get(place));
    Some(Received {
        clock: event.clock,
        server,
        flow: segment.flow,
        octets: stream.length(),
        hash: stream.hash(),
        ended: stream.ended(),
    })
}

/// Appends a line for each Accept of the history, in their order: the stream that the connection
/// received. `octets` has the packet of each record. `Memory` where memory was refused; a first
/// part of the lines may have been appended then.
pub fn streams(alloc: Global, h: &History, octets: &Octets, out: &mut Vec<u8>) -> Result<(), Memory>
    requires run { IsRun h.now }
    requires packets { ArePackets h.now.stage.capture.records octets.now }
    requires few { length h.now.events ≤ 25000000 }
    ensures ok { OnOk result (out.new.items ≡ out.old.items ++ stream_text h.now octets.now) }
    ensures part { OnErr result
        (AppendsPart (stream_text h.now octets.now) out.old.items out.new.items) }
{
    let found = find(alloc, h)?;
    let mut stream = Stream::open(alloc)?;
    let mut line = String::new(alloc);
    let events = h.events.items();
    for (place, event) in events.iter().enumerate() {
        let received = receive(&h.stage, octets, &found, &mut stream, place, event);
        append_line(out, &mut line, received)?;
    }
    Ok(())
}
