//! A source whose first octets can be looked at.
ghost use Rattle.std.specs.Prelude.{◌≡◌, ◌≤◌};

use bm_io::{Failed, Source, fill};

/// A source, and its first four octets (all, if it has fewer), which it gives first.
#[derive(Drop)]
pub struct Front<S> {
    src: S,
    octets: [u8; 4],
    from: usize,
    upto: usize,
    ghost ordered: { from ≤ upto },
    ghost within: { upto ≤ 4 },
}

impl<S: Source> Front<S> {
    ghost use Rattle.std.specs.Prelude.{IfOk};
    ghost use Rattle.std.specs.Io.KnownBytes.{Keeps};
    ghost use Rattle.bm_pcapng.specs.Front.{HasFrontCause, IsMagic, left_in, magic_in};

    /// Takes the first four octets of a source. The source is given back where it failed.
    pub fn new(mut src: S) -> Result<Front<S>, (S, Failed)>
        ensures octets { IfOk result (λ front. Keeps (S.left src) (left_in S.left front)) }
        ensures magic { IfOk result (λ front. IsMagic (S.left src) (magic_in front)) }
        ensures cause { HasFrontCause S.faults src result }
    {
        let mut octets = [0u8; 4];
        match fill(&mut src, &mut octets) {
            Ok(upto) => Ok(Front {
                src,
                octets,
                from: 0,
                upto,
            }),
            Err(e) => Err((src, e)),
        }
    }

    /// The first octets of the source, at most four.
    pub fn magic(&self) -> &[u8]
        ensures { result.now ≡ magic_in self.now }
    {
        &self.octets[..self.upto]
    }

    /// The source after the first octets.
    pub fn into_source(self) -> S
        ensures { result ≡ self.src }
    {
        let Front {
            src,
            octets: _,
            from: _,
            upto: _,
        } = self;
        src
    }
}

impl<S: Source> Source for Front<S> {
    ghost use Rattle.bm_pcapng.specs.Front.{left_in};

    ghost left = { λ front. left_in S.left front };

    ghost faults = { λ front. S.faults front.src };

    fn take(&mut self, buf: &mut [u8]) -> Result<usize, Failed> {
        if self.from == self.upto {
            return self.src.take(buf);
        }
        let count = buf.len().min(self.upto - self.from);
        let next = self.from + count;
        buf[..count].copy_from_slice(&self.octets[self.from..next]);
        self.from = next;
        Ok(count)
    }
}
