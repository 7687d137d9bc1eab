//! The whole report, with the lines of events and records written by several threads in parallel.
ghost use Rattle.std.specs.Prelude.{◌≡◌, ◌+◌, ◌<◌, ◌≤◌, ℕ, All, IfOk, MatchBool, OnErr, OnOk};
ghost use Rattle.std.specs.Prelude.{[], false, length, reverse, string_bytes, take};
ghost use Rattle.std.specs.Prelude.{vec_len, ◌-◌};
ghost use Rattle.std.specs.Io.KnownBytes.{Appends};
ghost use Rattle.bm_core.specs.Runs.{IsRun};
ghost use Rattle.bm_core.specs.declared.events.History.{History};
ghost use Rattle.bm_io.specs.Causes.{HasIoCause};
ghost use Rattle.bm_io.specs.Written.{WritesPart};
ghost use Rattle.bm_trace.specs.CauseOf.{cause_of};
ghost use Rattle.bm_trace.specs.Inside.Parts.{HandsOn, HandsPart, all_lines};
ghost use Rattle.bm_trace.specs.Inside.Pieces.{AreLines, AreWritten, CanWrite, HasDealt, HasPut};
ghost use Rattle.bm_trace.specs.Inside.Pieces.{HasWritten, HaveWritten, IsRound, PutsLines};
ghost use Rattle.bm_trace.specs.Inside.Pieces.{PutsPart};
ghost use Rattle.bm_trace.specs.Inside.Pieces.{place_of};
ghost use Rattle.bm_trace.specs.Ranges.{HasRanges};
ghost use Rattle.bm_trace.specs.Report as report;
ghost use Rattle.bm_trace.specs.Inside.Rests.{IsRest};
ghost use Rattle.bm_state.specs.Versions.{KeepsVersions};
ghost use Rattle.bm_trace.specs.Inside.Swept.{AreCausesOf, HasSwept};
ghost use Rattle.bm_trace.specs.Totals as totals;
ghost use Rattle.std.specs.Thread.{IsSync};

use crate::document::put_end;
use crate::lines::write_event;
use crate::rest::{Rest, rest_but_strays};
use crate::sums::Totals;
use crate::swept::{Sweeper, cause_in};
use bm_core::{Cause, History};
use bm_io::{IoFault, Sink, put_all};
use bm_state::Versions;
use std::alloc::{AllocError, Global};
use std::mem::swap;
use std::thread;
use std::thread::{Threads, join_mut};

/// How many lines a piece has, except for the last one.
const PIECE: usize = 16_384;

/// Writes the line of the event at a place, with this cause. `versions` are the versions before it.
fn write_line(
    lines: &mut String,
    versions: &mut Versions,
    h: &History,
    place: usize,
    cause: Option<Cause>,
) -> Result<(), AllocError>
    requires ranges { HasRanges h.now.stage }
    requires place { place < length h.now.events }
    requires cause { cause ≡ cause_of h.now place }
    requires known { KeepsVersions (reverse (take place h.now.events)) versions.old }
    ensures line { OnOk result ((from : ℕ)
        → AreLines h.now from place (string_bytes lines.old)
        → AreLines h.now from (place + 1) (string_bytes lines.new)) }
    ensures known { OnOk result
        (KeepsVersions (reverse (take (place + 1) h.now.events)) versions.new) }
{
    let events = h.events.items();
    let event = &events[place];
    write_event(lines, versions, &h.stage, event, cause)?;
    versions.observe(event.what)?;
    Ok(())
}

/// The lines of some events in a row.
#[derive(Drop)]
pub(crate) struct Piece {
    from: usize,
    to: usize,
    /// The versions before the piece's next line.
    versions: Versions,
    /// The causes of the piece's events.
    causes: Vec<Option<Cause>>,
    lines: String,
    /// Whether memory was refused for the lines.
    refused: bool,
}

/// Writes the lines of the events from one place to another, with these causes. `versions` are the
/// versions before them.
fn write_lines(
    lines: &mut String,
    versions: &mut Versions,
    causes: &[Option<Cause>],
    h: &History,
    from: usize,
    to: usize,
) -> Result<(), AllocError>
    requires ranges { HasRanges h.now.stage }
    requires order { (from ≤ to) × (to ≤ length h.now.events) }
    requires known { KeepsVersions (reverse (take from h.now.events)) versions.old }
    requires causes { AreCausesOf h.now from to causes.now }
    requires empty { string_bytes lines.old ≡ [] }
    ensures { OnOk result (AreLines h.now from to (string_bytes lines.new)) }
{
    for place in from..to {
        write_line(lines, versions, h, place, cause_in(causes, place - from))?;
    }
    Ok(())
}

impl Piece {
    /// A piece without lines.
    fn new(alloc: Global) -> Piece {
        Piece {
            from: 0,
            to: 0,
            versions: Versions::new(alloc),
            causes: Vec::new(alloc),
            lines: String::new(alloc),
            refused: false,
        }
    }

    /// Takes the events from one place to another, for which it advances the sweep. It keeps the
    /// memory that it has.
    fn begin(
        &mut self,
        alloc: Global,
        h: &History,
        sweeper: &mut Sweeper,
        from: usize,
        to: usize,
    ) -> Result<(), AllocError>
        requires ranges { HasRanges h.now.stage }
        requires order { (from ≤ to) × (to ≤ length h.now.events) }
        requires swept { HasSwept h.now from sweeper.old }
        ensures place { OnOk result ((self.new.from ≡ from) × (self.new.to ≡ to)) }
        ensures can { OnOk result (CanWrite h.now self.new) }
        ensures swept { OnOk result (HasSwept h.now to sweeper.new) }
    {
        self.from = from;
        self.to = to;
        self.lines.clear();
        self.versions.copy_from(sweeper.versions())?;
        self.causes.clear();
        sweeper.advance(alloc, h, from, to, &mut self.causes)
    }

    /// Writes the piece's lines.
    fn write(&mut self, h: &History)
        requires ranges { HasRanges h.now.stage }
        requires can { CanWrite h.now self.old }
        ensures { HasWritten h.now self.old self.new }
    {
        let written = write_lines(
            &mut self.lines,
            &mut self.versions,
            &self.causes,
            h,
            self.from,
            self.to,
        );
        self.refused = written.is_err();
    }

    /// Writes the piece's lines to the sink.
    fn put<K: Sink>(&self, out: &mut K) -> Result<(), IoFault>
        ensures ok { OnOk result ((self.now.refused ≡ false)
            × Appends (K.written out.old) (K.written out.new) (string_bytes self.now.lines)) }
        ensures err { OnErr result (MatchBool self.now.refused
            (K.written out.new ≡ K.written out.old)
            (WritesPart (K.written out.old) (K.written out.new) (string_bytes self.now.lines))) }
        ensures cause { HasIoCause (K.faults out.old) (K.faults out.new) result }
    {
        if self.refused {
            return Err(IoFault::Memory);
        }
        put_all(out, self.lines.as_bytes())
    }
}

/// This many pieces without lines.
fn no_pieces(alloc: Global, count: usize) -> Result<Vec<Piece>, AllocError>
    ensures { IfOk result (λ pieces. vec_len pieces ≡ count) }
{
    let mut pieces = Vec::new(alloc);
    for _ in 0..count {
        pieces.push(Piece::new(alloc))?;
    }
    Ok(pieces)
}

/// Gives the pieces the events from this place on, and returns the place where they end, which the
/// sweep has then reached.
fn deal_out(
    alloc: Global,
    h: &History,
    sweeper: &mut Sweeper,
    pieces: &mut [Piece],
    from: usize,
) -> Result<usize, AllocError>
    requires ranges { HasRanges h.now.stage }
    requires from { from ≤ length h.now.events }
    requires swept { HasSwept h.now from sweeper.old }
    ensures count { length pieces.new ≡ length pieces.old }
    ensures dealt { IfOk result (HasDealt h.now from pieces.new sweeper.new) }
{
    let end = h.events.items().len();
    let mut at = from;
    for number in 0..pieces.len() {
        let to = at + PIECE.min(end - at);
        pieces[number].begin(alloc, h, sweeper, at, to)?;
        at = to;
    }
    Ok(at)
}

/// Writes the lines of all pieces in parallel, and waits for all of them.
fn write_all<R: Threads + Sync>(rt: &R, h: &History, pieces: &mut [Piece])
    requires ranges { HasRanges h.now.stage }
    requires can { All (CanWrite h.now) pieces.old }
    ensures count { length pieces.new ≡ length pieces.old }
    ensures each { HaveWritten h.now pieces.old pieces.new }
{
    let threads = pieces.len().max(1);
    thread::for_each_mut(
        rt,
        pieces,
        threads,
        &|_, piece: &mut Piece|
            requires { HasRanges h.now.stage × CanWrite h.now piece.now }
            ensures { HasWritten h.entry.now piece.entry.now piece.exit.now }
        { piece.write(h) },
    );
}

/// Writes the lines of all pieces. In parallel the spare pieces get the events from this place on;
/// returns where these end.
fn write_beside<R: Threads + Sync>(
    rt: &R,
    alloc: Global,
    h: &History,
    pieces: &mut [Piece],
    sweeper: &mut Sweeper,
    spare: &mut [Piece],
    to: usize,
) -> Result<usize, AllocError>
    requires ranges { HasRanges h.now.stage }
    requires can { All (CanWrite h.now) pieces.old }
    requires to { to ≤ length h.now.events }
    requires swept { HasSwept h.now to sweeper.old }
    ensures count { length pieces.new ≡ length pieces.old }
    ensures each { HaveWritten h.now pieces.old pieces.new }
    ensures spare { length spare.new ≡ length spare.old }
    ensures dealt { IfOk result (HasDealt h.now to spare.new sweeper.new) }
{
    let ((), dealt) = join_mut(
        rt,
        &mut ||
            requires { IsSync R.row × HasRanges h.now.stage × All (CanWrite h.now) pieces.now }
            ensures { (length pieces.exit.now ≡ length pieces.entry.now)
                × HaveWritten h.entry.now pieces.entry.now pieces.exit.now }
        { write_all(rt, h, pieces) },
        &mut || -> Result<usize, AllocError>
            requires { HasRanges h.now.stage × (to ≤ length h.now.events)
                × HasSwept h.now to sweeper.now }
            ensures { (length spare.exit.now ≡ length spare.entry.now)
                × IfOk result (HasDealt h.entry.now to spare.exit.now sweeper.exit.now) }
        { deal_out(alloc, h, sweeper, spare, to) },
    );
    dealt
}

/// Writes the lines of the pieces to the sink.
fn put_pieces<K: Sink>(pieces: &[Piece], out: &mut K) -> Result<(), IoFault>
    ensures ok { (h : History) (from : ℕ) → from ≤ length h.events → AreWritten h from pieces.now
        → OnOk result (PutsLines h from (place_of h from (length pieces.now))
        (K.written out.old) (K.written out.new)) }
    ensures err { (h : History) (from : ℕ) → from ≤ length h.events → AreWritten h from pieces.now
        → OnErr result (PutsPart h from (K.written out.old) (K.written out.new)) }
    ensures cause { HasIoCause (K.faults out.old) (K.faults out.new) result }
{
    for piece in pieces {
        piece.put(out)?;
    }
    Ok(())
}

/// The pieces that are written next, and how far the sweep is.
#[derive(Drop)]
struct Round {
    sweeper: Sweeper,
    pieces: Vec<Piece>,
    /// As many pieces again, which meanwhile get the events after those.
    spare: Vec<Piece>,
    /// Where the pieces begin.
    from: usize,
    /// Where they end, which the sweep has reached.
    to: usize,
}

impl Round {
    ghost use Rattle.bm_trace.specs.Inside.Pieces.{IsRound};

    /// The first round, with this many pieces.
    fn first(alloc: Global, h: &History, count: usize) -> Result<Round, AllocError>
        requires ranges { HasRanges h.now.stage }
        requires count { 0 < count }
        ensures round { IfOk result (IsRound h.now) }
        ensures from { IfOk result (λ round. round.from ≡ 0) }
    {
        let mut sweeper = Sweeper::new(alloc, h)?;
        let mut pieces = no_pieces(alloc, count)?;
        let spare = no_pieces(alloc, count)?;
        let to = deal_out(alloc, h, &mut sweeper, pieces.as_mut_slice(), 0)?;
        Ok(Round {
            sweeper,
            pieces,
            spare,
            from: 0,
            to,
        })
    }

    /// Writes the lines of a round to the sink, and prepares the next round.
    fn put<R: Threads + Sync, K: Sink>(
        &mut self,
        rt: &R,
        alloc: Global,
        h: &History,
        out: &mut K,
    ) -> Result<(), IoFault>
        requires ranges { HasRanges h.now.stage }
        requires round { IsRound h.now self.old }
        ensures round { OnOk result (IsRound h.now self.new) }
        ensures from { OnOk result (self.new.from ≡ self.old.to) }
        ensures lines { OnOk result (PutsLines h.now self.old.from self.old.to
            (K.written out.old) (K.written out.new)) }
        ensures err { OnErr result (PutsPart h.now self.old.from
            (K.written out.old) (K.written out.new)) }
        ensures cause { HasIoCause (K.faults out.old) (K.faults out.new) result }
    {
        let behind = write_beside(
            rt,
            alloc,
            h,
            self.pieces.as_mut_slice(),
            &mut self.sweeper,
            self.spare.as_mut_slice(),
            self.to,
        )?;
        put_pieces(&self.pieces, out)?;
        swap(&mut self.pieces, &mut self.spare);
        self.from = self.to;
        self.to = behind;
        Ok(())
    }
}

/// Writes the lines of the events, round after round. Returns how many strays there are among the
/// events of a run.
fn put_rounds<R: Threads + Sync, K: Sink>(
    rt: &R,
    alloc: Global,
    h: &History,
    round: &mut Round,
    out: &mut K,
) -> Result<u64, IoFault>
    requires ranges { HasRanges h.now.stage }
    requires first { round.old.from ≡ 0 }
    requires round { IsRound h.now round.old }
    ensures ok { OnOk result
        (PutsLines h.now 0 (length h.now.events) (K.written out.old) (K.written out.new)) }
    ensures strays { IfOk result (λ count. IsRun h.now
        → count ≡ totals.strays h.now.stage (reverse h.now.events)) }
    ensures err { OnErr result (PutsPart h.now 0 (K.written out.old) (K.written out.new)) }
    ensures cause { HasIoCause (K.faults out.old) (K.faults out.new) result }
{
    let end = h.events.items().len();
    while round.from < end {
        round.put(rt, alloc, h, out)?;
    }
    Ok(round.sweeper.strays())
}

/// Writes the lines of the events with this many threads. Returns how many strays there are among
/// the events of a run.
fn put_lines_of_events<R: Threads + Sync, K: Sink>(
    rt: &R,
    alloc: Global,
    threads: usize,
    h: &History,
    out: &mut K,
) -> Result<u64, IoFault>
    requires threads { 0 < threads }
    requires ranges { HasRanges h.now.stage }
    ensures ok { OnOk result
        (PutsLines h.now 0 (length h.now.events) (K.written out.old) (K.written out.new)) }
    ensures strays { IfOk result (λ count. IsRun h.now
        → count ≡ totals.strays h.now.stage (reverse h.now.events)) }
    ensures err { OnErr result (PutsPart h.now 0 (K.written out.old) (K.written out.new)) }
    ensures cause { HasIoCause (K.faults out.old) (K.faults out.new) result }
{
    let mut round = Round::first(alloc, h, threads)?;
    put_rounds(rt, alloc, h, &mut round, out)
}

/// Writes the lines of the events with this many threads. Meanwhile one more thread puts together
/// and returns what comes after them.
fn put_lines<R: Threads + Sync, K: Sink>(
    rt: &R,
    alloc: Global,
    threads: usize,
    h: &History,
    out: &mut K,
) -> Result<Rest, IoFault>
    requires threads { 0 < threads }
    requires ranges { HasRanges h.now.stage }
    ensures ok { IfOk result (λ rest. HandsOn (K.written out.old) [] (K.written out.new)
        (string_bytes rest.lines) (all_lines h.now)) }
    ensures sums { IfOk result (λ rest. IsRun h.now → rest.sums ≡ totals.totals_of h.now) }
    ensures err { OnErr result
        (HandsPart (K.written out.old) [] (K.written out.new) (all_lines h.now)) }
    ensures cause { HasIoCause (K.faults out.old) (K.faults out.new) result }
{
    let (rest, strays) = join_mut(
        rt,
        &mut || -> Result<Rest, AllocError>
            requires { HasRanges h.now.stage }
            ensures { IfOk result (IsRest h.entry.now) }
        { rest_but_strays(alloc, h) },
        &mut || -> Result<u64, IoFault>
            requires { IsSync R.row × (0 < threads) × HasRanges h.now.stage }
            ensures { HasPut h.entry.now (K.written out.entry.now) (K.written out.exit.now) result
                × HasIoCause (K.faults out.entry.now) (K.faults out.exit.now) result }
        { put_lines_of_events(rt, alloc, threads, h, out) },
    );
    let stray = strays?;
    let Rest { lines, sums } = rest?;
    Ok(Rest {
        lines,
        sums: Totals { stray, ..sums },
    })
}

/// Writes the report of the history with this many threads (0 counts as 1), besides the caller's
/// own and one more. The caller's thread meanwhile finds the causes of the next round's events; the
/// other one puts the lines of the records together and counts the totals. The lines of the records
/// are whole in memory, those of the events never. If an error is returned, only a first part of
/// the report was written, not all.
#[tactic(auto, using(crate::proofs::Ranged::ranges_of))]
pub fn report_beside<R: Threads + Sync, K: Sink>(
    rt: &R,
    alloc: Global,
    threads: usize,
    h: &History,
    out: &mut K,
) -> Result<(), IoFault>
    requires { IsRun h.now }
    ensures ok { OnOk result (Appends (K.written out.old) (K.written out.new) (report.text h.now)) }
    ensures err { OnErr result (WritesPart (K.written out.old) (K.written out.new)
        (report.text h.now)) }
    ensures cause { HasIoCause (K.faults out.old) (K.faults out.new) result }
{
    let Rest { lines, sums } = put_lines(rt, alloc, threads.max(1), h, out)?;
    put_end(h, &sums, lines, out)
}
