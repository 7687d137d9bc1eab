//! A reader of captures.
ghost use Rattle.std.specs.Prelude.{◌≡◌, ◌≤◌, length, IfOk, IfErr, IfSome, IsErrOf, IsTrue};
ghost use Rattle.std.specs.Prelude.{None};
ghost use Rattle.bm_base.specs.Captures.{IsReplayable};
ghost use Rattle.bm_link.specs.Fits.{ArePackets};
ghost use Rattle.bm_link.specs.Links.{is_link};
ghost use Rattle.bm_pcap.specs.Causes.{HasStepCause, IsCaptureFault, IsHeaderFault, IsRecordFault};
ghost use Rattle.bm_pcap.specs.Reader.{Advances, GivesNext, EndsWith, HasEnded, IsBounded, IsFresh};
ghost use Rattle.bm_pcap.specs.Limits.{latest};
ghost use Rattle.bm_pcap.specs.Reader.{KnowsBegan, ReadsCapture, StartLeaves, Starts};
ghost use Rattle.bm_pcap.specs.Inside.Reader.{IsLast, own_octets};
ghost use Rattle.bm_pcap.specs.Reader.{StartsWithCause, time_began};

use crate::CaptureFault;
use crate::form::{Form, read_form};
use crate::item::Item;
use crate::place::{Place, WIDEST};
use crate::step::{Step, read_step};
use crate::window::Window;
use bm_base::{Capture, List, Octets, Record, Vip};
use bm_io::Source;
use bm_link::classify;
use std::alloc::Global;
use std::marker::Model;

/// Reads a capture record by record, over any source. It reads at most 262,160 octets ahead.
#[derive(Drop)]
pub struct PcapReader<S> {
    window: Window<S>,
    form: Form,
    place: Place,
    ended: Option<Result<Step, CaptureFault>>,
}

impl<S> Model for PcapReader<S> {
    ghost use Rattle.std.specs.Prelude.{◌≡◌, ◌≤◌, length, IsTrue};
    ghost use Rattle.bm_link.specs.Links.{is_link};
    ghost use Rattle.bm_pcap.specs.Limits.{widest};
    ghost use Rattle.bm_pcap.specs.Reader.{Reader};
    ghost use Rattle.bm_pcap.specs.Inside.Reader.{EndsWell};
    ghost use Rattle.bm_pcap.specs.Window.{buffered, passed, width};

    ghost Value = { Reader S };

    ghost view = { λ a. record {
      source = a.window.src;
      form = a.form;
      place = a.place;
      buffered = buffered a.window;
      passed = passed a.window;
      ended = a.ended;
    } };

    ghost invariant = { λ a. (length (buffered a.window) ≤ widest) × IsTrue (is_link a.form.link)
        × EndsWell a.ended × (width a.window ≡ widest) };
}

impl<S: Source> PcapReader<S> {
    ghost use Rattle.std.specs.Borrow.{sem};
    ghost use Rattle.std.specs.Io.BufRead.{Rests};
    ghost use Rattle.bm_pcap.specs.contracts.reader.PcapReader.{the_row};

    /// Reads the header of a capture, and returns a reader of its records. On a fault the source is
    /// given back.
    pub fn start(alloc: Global, mut src: S) -> Result<PcapReader<S>, (S, CaptureFault)>
        ensures starts { Starts S.left src result }
        ensures leaves { StartLeaves S.left src result }
        ensures fresh { IfOk result IsFresh }
        ensures others { IfErr result (λ refused. IsHeaderFault refused.1) }
        ensures cause { StartsWithCause S.faults src result }
    {
        match read_form(&mut src) {
            Ok(form) => PcapReader::after_header(alloc, src, form),
            Err(e) => Err((src, e)),
        }
    }

    /// A reader of a capture whose header was read.
    fn after_header(alloc: Global, src: S, form: Form) -> Result<PcapReader<S>, (S, CaptureFault)>
        requires { IsTrue (is_link form.link) }
        ensures reader { IfOk result
            (λ reader. (reader.source ≡ src) × (reader.form ≡ form) × IsFresh reader) }
        ensures memory { IfErr result
            (λ refused. (refused.0 ≡ src) × (refused.1 ≡ CaptureFault.Memory)) }
    {
        match Window::new(alloc, src, WIDEST as usize) {
            Ok(window) => Ok(PcapReader {
                window,
                form,
                place: Place::first(),
                ended: None,
            }),
            Err(src) => Err((src, CaptureFault::Memory)),
        }
    }

    /// The capture's link type.
    pub fn link(&self) -> u16
        ensures link { result ≡ self.now.form.link }
        ensures read { IsTrue (is_link result) }
    {
        self.form.link
    }

    /// The captured time of record 1, in nanoseconds since 1970, or 0 before a record was returned.
    pub fn began(&self) -> u64
        ensures { result ≡ time_began self.now }
    {
        self.place.first.unwrap_or(0)
    }

    /// The source, after what was read ahead.
    pub fn into_source(self) -> S
        ensures { result ≡ self.source }
    {
        let PcapReader {
            window,
            form: _,
            place: _,
            ended: _,
        } = self;
        window.into_source()
    }

    /// Reads what comes next. After a fault, a record that is cut short, or the end, it returns the
    /// same again.
    fn advance(&mut self) -> Result<Step, CaptureFault>
        ensures advances { Advances S.left S.faults self.old self.new result
            (own_octets result self.new.passed) }
        ensures last { IfOk result (IsLast self.new.passed) }
        ensures bounded { IsBounded self.new }
        ensures others { IfErr result IsRecordFault }
    {
        if let Some(ended) = self.ended {
            return ended;
        }
        let result = read_step(&mut self.window, &self.form, &self.place);
        match result {
            Ok(Step::Record { time, len }) => self.place = self.place.next(time, len),
            _ => self.ended = Some(result),
        }
        result
    }

    /// The next record, the one that is cut short, or the end. After a fault, a record that is cut
    /// short, or the end, it returns the same again. Takes no memory.
    pub fn next(&mut self) -> Result<Item<'_>, CaptureFault>
        ensures others { IfErr result IsRecordFault }
        ensures* after { sem 𝓛
            (Rests (the_row S.row) self.entry
            (λ new. GivesNext S.left S.faults self.old new result × IsBounded new)) }
    {
        let number = self.place.number;
        match self.advance()? {
            Step::Record { time: _, len } => Ok(Item::Record {
                number,
                moment: self.place.last,
                octets: self.window.last(len as usize),
            }),
            Step::Cut => Ok(Item::Cut(number)),
            Step::End => Ok(Item::End),
        }
    }
}

/// Reads all records of a capture, classified for these services, and the packet of each. The
/// reader must not have been asked for a record yet. Afterwards it returns the end, the cut or the
/// fault again, unless memory was refused, and knows when the capture began. A fault is the first
/// in order of place; but `ReadFault` where the source failed, and `Memory` where memory was
/// refused, may come at any place.
pub fn read_capture<S: Source>(
    alloc: Global,
    r: &mut PcapReader<S>,
    vips: &[Vip],
) -> Result<(Capture, Octets), CaptureFault>
    requires { IsFresh r.old }
    ensures capture { ReadsCapture S.left r.old vips.now result }
    ensures replayable { IfOk result (λ read. IsReplayable vips.now read.0) }
    ensures packets { IfOk result (λ read. ArePackets read.0.records read.1) }
    ensures others { IfErr result IsCaptureFault }
    ensures ended { HasEnded result r.new.ended }
    ensures form { r.new.form ≡ r.old.form }
    ensures last { EndsWith S.left S.faults result r.new }
    ensures number { IfOk result (λ read. IfSome read.0.cut (λ n. r.new.place.number ≡ n)) }
    ensures open { IsErrOf result CaptureFault.Memory → r.new.ended ≡ None }
    ensures began { IfOk result (λ read. KnowsBegan S.left r.old r.new) }
    ensures early { IfOk result (λ read. time_began r.new ≤ latest) }
    ensures cause { HasStepCause (S.faults r.old.source) (S.faults r.new.source) result }
{
    let link = r.link();
    let mut records = Vec::new(alloc);
    let mut packets = Octets::new(alloc);
    loop {
        match r.next()? {
            Item::Record {
                number: _,
                moment,
                octets,
            } => {
                let (body, packet) = classify(link, octets, vips);
                records.push(Record { moment, body })?;
                packets.push(packet)?;
            }
            Item::Cut(number) => return Ok((captured(records, Some(number)), packets)),
            Item::End => return Ok((captured(records, None), packets)),
        }
    }
}

fn captured(records: Vec<Record>, cut: Option<u32>) -> Capture
    ensures { result ≡ record { records = records.items; cut = cut } }
{
    Capture {
        records: List::of(records),
        cut,
    }
}
