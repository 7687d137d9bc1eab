//! A reader of captures of the pcapng form.
ghost use Rattle.std.specs.Prelude.{◌≡◌, ◌≤◌, ◌<◌, ◌+◌, ◌^◌, ℕ, [], length, None, IfOk, IfErr};
ghost use Rattle.std.specs.Prelude.{IfSome};
ghost use Rattle.std.specs.Prelude.{IsErrOf};
ghost use Rattle.std.specs.Io.KnownBytes.{Keeps};
ghost use Rattle.bm_base.specs.Captures.{IsFit, IsReplayable};
ghost use Rattle.bm_link.specs.Fits.{ArePackets, IsPacketOf};
ghost use Rattle.bm_pcap.specs.Causes.{HasStepCause};
ghost use Rattle.bm_pcap.specs.Window.{rest, source_of, width};
ghost use Rattle.bm_pcapng.specs.Limits.{longest_block};
ghost use Rattle.bm_pcapng.specs.Capture.{classified_by};
ghost use Rattle.bm_pcapng.specs.Causes.{IsBlockFault, IsCaptureFault, IsStartFault};
ghost use Rattle.bm_pcapng.specs.Reader.{Advances, EndsWith, GivesNext, HasEnded};
ghost use Rattle.bm_pcapng.specs.Inside.Reader.{GivesStop};
ghost use Rattle.bm_pcapng.specs.Reader.{IsBounded, IsFresh, KnowsBegan};
ghost use Rattle.bm_pcapng.specs.Inside.Reader.{IsStopLast, OpensIn};
ghost use Rattle.bm_pcapng.specs.Reader.{ReadsCapture, StartLeaves, Starts, StartsWithCause};
ghost use Rattle.bm_pcapng.specs.Reader.{octets_in};
ghost use Rattle.bm_pcapng.specs.Reader.{time_began};
ghost use Rattle.bm_pcapng.specs.Inside.Parts.{IsLast, last_of, own_octets};

use crate::item::NgItem;
use crate::place::{LATEST, LONGEST_BLOCK};
use crate::section::Section;
use crate::step::{Step, look, read_order, read_step};
use crate::{Packet, Place};
use bm_base::{Body, Capture, List, Octets, Reason, Record, Vip};
use bm_io::Source;
use bm_link::{classify, is_link};
use bm_pcap::{CaptureFault, Window};
use std::alloc::Global;
use std::marker::Model;

/// Reads a capture block by block, over any source. It reads at most 16,777,216 octets ahead.
#[derive(Drop)]
pub struct NgReader<S> {
    window: Window<S>,
    section: Section,
    place: Place,
    ended: Option<Result<Step, CaptureFault>>,
}

impl<S> Model for NgReader<S> {
    ghost use Rattle.std.specs.Prelude.{◌≡◌, ◌+◌, ◌≤◌, length};
    ghost use Rattle.bm_pcap.specs.Limits.{latest, most_octets, most_records};
    ghost use Rattle.bm_pcap.specs.Window.{buffered, passed, source_of, width};
    ghost use Rattle.bm_pcapng.specs.Limits.{longest_block};
    ghost use Rattle.bm_pcapng.specs.Reader.{Reader};
    ghost use Rattle.bm_pcapng.specs.Inside.Reader.{EndsWell};

    ghost Value = { Reader S };

    ghost view = { λ a. record {
      source = source_of a.window;
      order = a.section.order;
      interfaces = a.section.interfaces.items;
      place = a.place;
      buffered = buffered a.window;
      passed = passed a.window;
      ended = a.ended;
    } };

    ghost invariant = { λ a. (length (buffered a.window) ≤ longest_block) × EndsWell a.ended
        × (a.place.block + a.place.room ≤ most_octets + 1)
        × (a.place.number ≤ most_records + 1) × (width a.window ≡ longest_block) };
}

/// What `next` finds after the blocks that it skips.
#[derive(Clone, Copy, PartialEq, Eq)]
pub enum Stop {
    Packet(u32, u32, Packet),
    Cut(u32),
    End,
}

impl<S: Source> NgReader<S> {
    ghost use Rattle.std.specs.Borrow.{sem};
    ghost use Rattle.std.specs.Io.BufRead.{Rests};
    ghost use Rattle.bm_pcapng.specs.contracts.reader.NgReader.{the_row};

    /// Reads the first block of a capture, and returns a reader at its front. On a fault the source
    /// is given back, after at most 16,777,216 octets that were read ahead.
    pub fn start(alloc: Global, src: S) -> Result<NgReader<S>, (S, CaptureFault)>
        ensures starts { Starts S.left src result }
        ensures leaves { StartLeaves S.left src result }
        ensures fresh { IfOk result IsFresh }
        ensures others { IfErr result (λ refused. IsStartFault refused.1) }
        ensures cause { StartsWithCause S.faults src result }
    {
        let mut window = match Window::new(alloc, src, LONGEST_BLOCK) {
            Ok(window) => window,
            Err(src) => return Err((src, CaptureFault::Memory)),
        };
        match open(alloc, &mut window) {
            Ok(section) => Ok(NgReader {
                window,
                section,
                place: Place::first(),
                ended: None,
            }),
            Err(e) => Err((window.into_source(), e)),
        }
    }

    /// The time of the first packet that has one, in nanoseconds since 1970 and at most
    /// 4,400,000,000,000,000,000, or 0 before such a packet was returned.
    pub fn began(&self) -> u64
        ensures { result ≡ time_began self.now }
    {
        self.place.first.unwrap_or(0).min(u128::from(LATEST)) as u64
    }

    /// The source, after what was read ahead.
    pub fn into_source(self) -> S
        ensures { result ≡ self.source }
    {
        let NgReader {
            window,
            section: _,
            place: _,
            ended: _,
        } = self;
        window.into_source()
    }

    /// Reads the next block. After a fault, a block that is cut short, or the end, it returns the
    /// same again.
    fn advance(&mut self) -> Result<Step, CaptureFault>
        ensures advances { Advances S.left S.faults self.old self.new result
            (own_octets result self.new.passed) }
        ensures last { IfOk result (IsLast self.new.passed) }
        ensures bounded { IsBounded self.new }
        ensures others { IfErr result IsBlockFault }
    {
        if let Some(ended) = self.ended {
            return ended;
        }
        let result = read_step(&mut self.window, &self.section, &self.place);
        match result {
            Ok(Step::Block(size, content)) => {
                self.section.pass(&content);
                self.place = self.place.next(size, &content);
            }
            _ => self.ended = Some(result),
        }
        result
    }

    /// Skips blocks without a packet.
    fn stop(&mut self) -> Result<Stop, CaptureFault>
        ensures gives { GivesStop S.left S.faults self.old self.new result }
        ensures last { IfOk result (IsStopLast self.new.passed) }
        ensures bounded { IsBounded self.new }
        ensures others { IfErr result IsBlockFault }
    {
        loop {
            let number = self.place.number;
            let (size, content) = match self.advance()? {
                Step::Block(size, content) => (size, content),
                Step::Cut => return Ok(Stop::Cut(number)),
                Step::End => return Ok(Stop::End),
            };
            if let Some(packet) = content.packet() {
                return Ok(Stop::Packet(number, size, packet));
            }
        }
    }

    /// The octets of a packet in the last block, which has `size` octets.
    fn octets(&self, size: u32, packet: &Packet) -> &[u8]
        requires last { size ≤ length self.now.passed }
        requires within { packet.now.at + packet.now.len ≤ size }
        ensures octets { result.now ≡ octets_in packet.now (last_of size self.now.passed) }
        ensures count { length result.now ≡ packet.now.len }
    {
        let block = self.window.last(size as usize);
        let at = packet.at as usize;
        &block[at..at + packet.len as usize]
    }

    /// The next record, the one that is cut short, or the end. After a fault, a record that is cut
    /// short, or the end, it returns the same again. Takes no memory.
    pub fn next(&mut self) -> Result<NgItem<'_>, CaptureFault>
        ensures others { IfErr result IsBlockFault }
        ensures* after { sem 𝓛
            (Rests (the_row S.row) self.entry
            (λ new. GivesNext S.left S.faults self.old new result × IsBounded new)) }
    {
        match self.stop()? {
            Stop::Packet(number, size, packet) => Ok(NgItem::Record {
                number,
                moment: self.place.last,
                link: packet.link,
                octets: self.octets(size, &packet),
            }),
            Stop::Cut(number) => Ok(NgItem::Cut(number)),
            Stop::End => Ok(NgItem::End),
        }
    }
}

/// Reads the first block of a capture, and consumes none of its octets.
fn open<S: Source>(alloc: Global, window: &mut Window<S>) -> Result<Section, CaptureFault>
    requires { width window.old ≡ longest_block }
    ensures opens { OpensIn (rest S.left window.old) result }
    ensures keeps { Keeps (rest S.left window.old) (rest S.left window.new) }
    ensures none { IfOk result (λ section. section.interfaces.items ≡ []) }
    ensures others { IfErr result IsStartFault }
    ensures wide { width window.new ≡ longest_block }
    ensures cause { HasStepCause (S.faults (source_of window.old))
        (S.faults (source_of window.new)) result }
{
    let order = read_order(window)?;
    let section = Section::new(alloc, order)?;
    let _first = look(window, &section, &Place::first())?;
    Ok(section)
}

/// Reads all records of a capture, classified for these services, and the packet of each. The
/// reader's `next` must not have been called yet. Afterwards it returns the end, the cut or the
/// fault again, unless memory was refused, and knows when the capture began. A fault is the first
/// in order of place; but `ReadFault` where the source failed, and `Memory` where memory was
/// refused, may come at any place.
pub fn read_ng<S: Source>(
    alloc: Global,
    r: &mut NgReader<S>,
    vips: &[Vip],
) -> Result<(Capture, Octets), CaptureFault>
    requires { IsFresh r.old }
    ensures capture { ReadsCapture S.left r.old vips.now result }
    ensures replayable { IfOk result (λ read. IsReplayable vips.now read.0) }
    ensures packets { IfOk result (λ read. ArePackets read.0.records read.1) }
    ensures others { IfErr result IsCaptureFault }
    ensures ended { HasEnded result r.new.ended }
    ensures last { EndsWith S.left S.faults result r.new }
    ensures number { IfOk result (λ read. IfSome read.0.cut (λ n. r.new.place.number ≡ n)) }
    ensures open { IsErrOf result CaptureFault.Memory → r.new.ended ≡ None }
    ensures began { IfOk result (λ read. KnowsBegan S.left r.old r.new) }
    ensures cause { HasStepCause (S.faults r.old.source) (S.faults r.new.source) result }
{
    let mut records = Vec::new(alloc);
    let mut packets = Octets::new(alloc);
    loop {
        let (size, content) = match r.advance()? {
            Step::Block(size, content) => (size, content),
            Step::Cut => return Ok((captured(records, Some(r.place.number)), packets)),
            Step::End => return Ok((captured(records, None), packets)),
        };
        let Some(packet) = content.packet() else {
            continue;
        };
        let (body, part) = classify_by(packet.link, r.octets(size, &packet), vips);
        let moment = r.place.last;
        records.push(Record { moment, body })?;
        packets.push(part)?;
    }
}

/// What a record of this link type contains; one of an unsupported type is not IPv4.
fn classify_by<'a>(link: u16, octets: &'a [u8], vips: &[Vip]) -> (Body, &'a [u8])
    requires { length octets.now < 2 ^ 32 }
    ensures class { (result.0, result.1.now) ≡ classified_by link vips.now octets.now }
    ensures fit { (moment : ℕ)
        → IsFit vips.now (record { moment = record { 0 = moment }; body = result.0 }) }
    ensures packet { IsPacketOf result.0 result.1.now }
{
    if is_link(link) {
        classify(link, octets, vips)
    } else {
        (Body::Unsteered(Reason::NotIpv4), &[])
    }
}

fn captured(records: Vec<Record>, cut: Option<u32>) -> Capture
    ensures { result ≡ record { records = records.items; cut = cut } }
{
    Capture {
        records: List::of(records),
        cut,
    }
}
