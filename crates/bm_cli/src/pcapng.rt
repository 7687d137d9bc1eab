//! A capture of the pcapng form, read from its source.
ghost use Rattle.std.specs.Prelude.{◌≡◌, ◌≤◌, ℕ, List, IfOk};
ghost use Rattle.bm_base.specs.Captures.{IsReplayable};
ghost use Rattle.bm_link.specs.Fits.{ArePackets};
ghost use Rattle.bm_pcap.specs.Causes.{HasStepCause};
ghost use Rattle.bm_pcap.specs.Limits.{latest};
ghost use Rattle.bm_pcapng.specs.Began.{began};
ghost use Rattle.bm_pcapng.specs.Reader.{IsFresh, ReadsCapture, StandsIn, to_come};
ghost use Rattle.bm_cli.specs.Captures.{is_pcapng};
ghost use Rattle.bm_cli.specs.Inside.Captures.{BeganIn, ReadsPcapng};

use bm_base::{Capture, Octets, Vip};
use bm_io::Source;
use bm_pcap::CaptureFault;
use bm_pcapng::{NgReader, read_ng};
use std::alloc::Global;

/// A capture of this form begins with these octets, the type of a section header.
pub(crate) fn is_pcapng(magic: &[u8]) -> bool
    ensures { result ≡ is_pcapng magic.now }
{
    magic == [0x0a, 0x0d, 0x0d, 0x0a].as_slice()
}

/// Reads a capture. Returns its source too, and when a capture without a fault began.
pub(crate) fn read_pcapng<S: Source>(
    alloc: Global,
    src: S,
    vips: &[Vip],
) -> (S, Result<(Capture, Octets), CaptureFault>, u64)
    ensures capture { ReadsPcapng (S.left src) vips.now result.1 }
    ensures began { IfOk result.1 (λ read. BeganIn began (S.left src) result.2) }
    ensures early { result.2 ≤ latest }
    ensures replayable { IfOk result.1 (λ read. IsReplayable vips.now read.0) }
    ensures packets { IfOk result.1 (λ read. ArePackets read.0.records read.1) }
    ensures cause { HasStepCause (S.faults src) (S.faults result.0) result.1 }
{
    match NgReader::start(alloc, src) {
        Ok(reader) => read_blocks(alloc, reader, vips),
        Err((src, fault)) => (src, Err(fault), 0),
    }
}

/// Reads a capture whose first block was read. Returns its source too, and when a capture without a
/// fault began.
fn read_blocks<S: Source>(
    alloc: Global,
    mut reader: NgReader<S>,
    vips: &[Vip],
) -> (S, Result<(Capture, Octets), CaptureFault>, u64)
    requires { IsFresh reader }
    ensures capture { ReadsCapture S.left reader vips.now result.1 }
    ensures began { IfOk result.1 (λ read. (octets : List ℕ) →
        StandsIn (to_come S.left reader) reader.order octets → result.2 ≡ began octets) }
    ensures early { result.2 ≤ latest }
    ensures replayable { IfOk result.1 (λ read. IsReplayable vips.now read.0) }
    ensures packets { IfOk result.1 (λ read. ArePackets read.0.records read.1) }
    ensures cause { HasStepCause (S.faults reader.source) (S.faults result.0) result.1 }
{
    let result = read_ng(alloc, &mut reader, vips);
    let began = reader.began();
    (reader.into_source(), result, began)
}
