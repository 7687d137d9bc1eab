//! A capture of the classic form, read from its source.
ghost use Rattle.std.specs.Prelude.{◌≡◌, ◌≤◌, ℕ, List, IfOk};
ghost use Rattle.bm_base.specs.Captures.{IsReplayable};
ghost use Rattle.bm_link.specs.Fits.{ArePackets};
ghost use Rattle.bm_pcap.specs.Began.{began};
ghost use Rattle.bm_pcap.specs.Causes.{HasStepCause};
ghost use Rattle.bm_pcap.specs.Limits.{latest};
ghost use Rattle.bm_pcap.specs.Reader.{IsFresh, ReadsCapture, StandsIn};
ghost use Rattle.bm_cli.specs.Inside.Captures.{BeganIn, ReadsClassic};

use bm_base::{Capture, Octets, Vip};
use bm_io::Source;
use bm_pcap::{CaptureFault, PcapReader, read_capture};
use std::alloc::Global;

/// Reads a capture. Returns its source too, and when a capture without a fault began.
pub(crate) fn read_classic<S: Source>(
    alloc: Global,
    src: S,
    vips: &[Vip],
) -> (S, Result<(Capture, Octets), CaptureFault>, u64)
    ensures capture { ReadsClassic (S.left src) vips.now result.1 }
    ensures began { IfOk result.1 (λ read. BeganIn began (S.left src) result.2) }
    ensures early { IfOk result.1 (λ read. result.2 ≤ latest) }
    ensures replayable { IfOk result.1 (λ read. IsReplayable vips.now read.0) }
    ensures packets { IfOk result.1 (λ read. ArePackets read.0.records read.1) }
    ensures cause { HasStepCause (S.faults src) (S.faults result.0) result.1 }
{
    match PcapReader::start(alloc, src) {
        Ok(reader) => read_records(alloc, reader, vips),
        Err((src, fault)) => (src, Err(fault), 0),
    }
}

/// Reads a capture whose header was read. Returns its source too, and when a capture without a
/// fault began.
fn read_records<S: Source>(
    alloc: Global,
    mut reader: PcapReader<S>,
    vips: &[Vip],
) -> (S, Result<(Capture, Octets), CaptureFault>, u64)
    requires { IsFresh reader }
    ensures capture { ReadsCapture S.left reader vips.now result.1 }
    ensures began { IfOk result.1 (λ read. (octets : List ℕ) →
        StandsIn (S.left reader.source) reader.form octets → result.2 ≡ began octets) }
    ensures early { IfOk result.1 (λ read. result.2 ≤ latest) }
    ensures replayable { IfOk result.1 (λ read. IsReplayable vips.now read.0) }
    ensures packets { IfOk result.1 (λ read. ArePackets read.0.records read.1) }
    ensures cause { HasStepCause (S.faults reader.source) (S.faults result.0) result.1 }
{
    let result = read_capture(alloc, &mut reader, vips);
    let began = reader.began();
    (reader.into_source(), result, began)
}
