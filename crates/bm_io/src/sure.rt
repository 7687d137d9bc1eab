//! A source and a sink in memory that never fail.
ghost use Rattle.std.specs.Prelude.{◌≡◌, ◌≤◌, [], length, drop, Some};

use crate::give::give;
use crate::{Failed, IoFault, Sink, Source};
use std::alloc::Global;

/// Octets in memory, given at most `step` at a time. It never fails.
#[derive(Drop)]
pub struct SureSource {
    octets: Vec<u8>,
    at: usize,
    step: usize,
    ghost within: { at ≤ length octets.items },
    ghost steps: { 1 ≤ step },
}

impl SureSource {
    /// A source of these octets, at most `step` at a time.
    pub fn new(octets: Vec<u8>, step: usize) -> SureSource
        requires { 1 ≤ step }
        ensures left { ⟦<SureSource as Source>⟧.left result ≡ Some octets.items }
        ensures faults { ⟦<SureSource as Source>⟧.faults result ≡ 0 }
        ensures step { result.step ≡ step }
    {
        SureSource {
            octets,
            at: 0,
            step,
        }
    }
}

impl Source for SureSource {
    ghost use Rattle.std.specs.Prelude.{IfOk};
    ghost use Rattle.std.specs.Io.{ReadsAtMost};
    ghost use Rattle.std.specs.Io.KnownBytes.{ReadConsumes};
    ghost use Rattle.bm_io.specs.Causes.{HasCause};

    ghost left = { λ s. Some (drop s.at s.octets.items) };

    ghost faults = { λ _. 0 };

    fn take(&mut self, buf: &mut [u8]) -> Result<usize, Failed>
        ensures bound { ReadsAtMost result buf.new }
        ensures octets { ReadConsumes (Some (drop self.old.at self.old.octets.items))
            (Some (drop self.new.at self.new.octets.items)) result buf.new }
        ensures cause { HasCause 0 0 result }
        ensures step { IfOk result (λ n. n ≤ self.old.step) }
        ensures same { self.new.step ≡ self.old.step }
    {
        let count = give(&self.octets[self.at..], self.step, buf);
        self.at += count;
        Ok(count)
    }
}

/// Keeps in memory what is written to it. It never fails, but memory may run out.
#[derive(Drop)]
pub struct SureSink {
    octets: Vec<u8>,
}

impl SureSink {
    /// A sink to which nothing was written.
    pub fn new(alloc: Global) -> SureSink
        ensures written { ⟦<SureSink as Sink>⟧.written result ≡ Some [] }
        ensures faults { ⟦<SureSink as Sink>⟧.faults result ≡ 0 }
    {
        SureSink {
            octets: Vec::new(alloc),
        }
    }

    /// The octets written so far.
    pub fn written(&self) -> &[u8]
        ensures { Some result.now ≡ ⟦<SureSink as Sink>⟧.written self.now }
    {
        &self.octets
    }
}

impl Sink for SureSink {
    ghost use Rattle.std.specs.Prelude.{IfOk};
    ghost use Rattle.std.specs.Io.{WritesAtMost};
    ghost use Rattle.std.specs.Io.KnownBytes.{WriteAppends};
    ghost use Rattle.bm_io.specs.Causes.{HasIoCause};

    ghost written = { λ s. Some s.octets.items };

    ghost faults = { λ _. 0 };

    fn put(&mut self, piece: &[u8]) -> Result<usize, IoFault>
        ensures bound { WritesAtMost result piece.now }
        ensures octets { WriteAppends (Some self.old.octets.items) (Some self.new.octets.items)
            result piece.now }
        ensures cause { HasIoCause 0 0 result }
        ensures whole { IfOk result (λ n. n ≡ length piece.now) }
    {
        self.octets.extend_from_slice(piece)?;
        Ok(piece.len())
    }
}
