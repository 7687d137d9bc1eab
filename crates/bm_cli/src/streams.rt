//! The streams of a replay.
ghost use Rattle.std.specs.Prelude.{◌≡◌, ◌++◌, ◌<◌, IfOk, Some};
ghost use Rattle.bm_core.specs.Stages.{IsSound};
ghost use Rattle.bm_link.specs.Fits.{ArePackets};
ghost use Rattle.bm_words.specs.Form.{Streams as OfStreams, named};
ghost use Rattle.bm_cli.specs.Dues.{Shown, due};
ghost use Rattle.bm_cli.specs.Ends.{Ends};
ghost use Rattle.bm_cli.specs.Lines.{beamer_lines};
ghost use Rattle.bm_cli.specs.Reading.{Holds};
ghost use Rattle.bm_cli.specs.Statuses.{did};
ghost use Rattle.bm_cli.specs.Streams.{IsStreamsOf};
ghost use Rattle.bm_cli.specs.Telling.{Tells};

use crate::history::replay_with_packets;
use crate::lines::refuse;
use crate::mode::Mode;
use crate::stage::read_stage;
use crate::status::{Status, say};
use bm_base::{Memory, Octets};
use bm_core::Stage;
use bm_io::{Files, Sink};
use bm_stream::streams;
use bm_words::Names;
use std::alloc::Global;
use std::sync::Wait;
use std::thread::Threads;

/// Replays the capture that the words name, through the servers of the script that they name, and
/// writes the lines of its streams.
pub(crate) fn play_streams<R: Threads + Wait + Sync, F: Files, K: Sink>(
    rt: &R,
    alloc: Global,
    names: Names<'_>,
    files: &mut F,
    out: &mut K,
) -> Status
    requires room { F.open_now files.old < 4294967295 }
    ensures ends { Holds (F.octets files.old) (λ reads.
        Ends beamer_lines (due (Some (OfStreams (named names.entry))) reads)
        (did F.asked F.faults files.old files.new)
        (did K.written K.faults out.old out.new) result) }
    ensures octets { F.octets files.new ≡ F.octets files.old }
    ensures open { F.open_now files.new ≡ F.open_now files.old }
{
    match read_stage(alloc, files, Mode::Replay, names) {
        Ok(named) => show_streams(rt, alloc, named.stage, named.packets, out),
        Err(fault) => refuse(alloc, &fault, out),
    }
}

/// Replays the stage, and writes the lines of its streams. `packets` has the packet of each record.
fn show_streams<R: Threads + Wait + Sync, K: Sink>(
    rt: &R,
    alloc: Global,
    stage: Stage,
    packets: Octets,
    out: &mut K,
) -> Status
    requires sound { IsSound stage }
    requires packets { ArePackets stage.capture.records packets }
    ensures { Tells beamer_lines (Shown (IsStreamsOf packets stage))
        (did K.written K.faults out.old out.new) result }
{
    match lines_of(rt, alloc, stage, packets) {
        Ok(lines) => say(out, lines.as_slice(), Status::Done),
        Err(Memory) => Status::Memory,
    }
}

/// The lines of the streams of the stage's replay.
fn lines_of<R: Threads + Wait + Sync>(
    rt: &R,
    alloc: Global,
    stage: Stage,
    packets: Octets,
) -> Result<Vec<u8>, Memory>
    requires sound { IsSound stage }
    requires packets { ArePackets stage.capture.records packets }
    ensures { IfOk result (λ lines. IsStreamsOf packets stage lines.items) }
{
    let (history, packets) = replay_with_packets(rt, alloc, stage, packets)?;
    let mut lines = Vec::new(alloc);
    streams(alloc, &history, &packets, &mut lines)?;
    Ok(lines)
}
