//! A source that is read ahead of what is consumed.
ghost use Rattle.std.specs.Prelude.{◌≡◌, ◌<◌, ◌≤◌, ◌+◌, ◌-◌, [], ◌++◌, length, take, drop, IfOk};
ghost use Rattle.std.specs.Prelude.{IfErr, OnErr};
ghost use Rattle.std.specs.Io.KnownBytes.{Keeps, IsAtEnd};
ghost use Rattle.bm_io.specs.Causes.{HasCause};

use bm_io::{Failed, Source};
use std::alloc::Global;

/// A source, and the octets that were read ahead and aren't consumed yet: those from `from` to
/// `upto`. Those before them were consumed.
#[derive(Drop)]
pub struct Window<S> {
    src: S,
    octets: Vec<u8>,
    from: usize,
    upto: usize,
    ghost ordered: { from ≤ upto },
    ghost within: { upto ≤ length octets.items },
}

impl<S> Window<S> {
    ghost use Rattle.bm_pcap.specs.Window.{buffered, passed, source_of, width};

    /// A window of a source, from which at most `most` octets are read ahead, and none yet. The
    /// source is given back where memory was refused.
    pub fn new(alloc: Global, src: S, most: usize) -> Result<Window<S>, S>
        ensures ok { IfOk result (λ window. (source_of window ≡ src) × (buffered window ≡ [])) }
        ensures width { IfOk result (λ window. width window ≡ most) }
        ensures err { IfErr result (λ back. back ≡ src) }
    {
        let mut octets = Vec::new(alloc);
        if octets.resize(most, 0).is_err() {
            return Err(src);
        }
        Ok(Window {
            src,
            octets,
            from: 0,
            upto: 0,
        })
    }

    /// The source, after what was read ahead.
    pub fn into_source(self) -> S
        ensures { result ≡ source_of self }
    {
        let Window {
            src,
            octets: _,
            from: _,
            upto: _,
        } = self;
        src
    }

    /// What was read ahead.
    pub fn buffered(&self) -> &[u8]
        ensures { result.now ≡ buffered self.now }
    {
        &self.octets[self.from..self.upto]
    }

    /// The last `count` octets that were consumed.
    pub fn last(&self, count: usize) -> &[u8]
        requires { count ≤ length (passed self.now) }
        ensures { result.now ≡ drop (length (passed self.now) - count) (passed self.now) }
    {
        &self.octets[self.from - count..self.from]
    }

    /// Consumes the first octets that were read ahead.
    pub fn skip(&mut self, count: usize)
        requires { count ≤ length (buffered self.old) }
        ensures buffered { buffered self.new ≡ drop count (buffered self.old) }
        ensures passed { passed self.new ≡ passed self.old ++ take count (buffered self.old) }
        ensures source { source_of self.new ≡ source_of self.old }
        ensures wide { width self.new ≡ width self.old }
    {
        self.from += count;
    }

    /// Moves what was read ahead to the front of the buffer.
    fn move_to_front(&mut self)
        ensures buffered { buffered self.new ≡ buffered self.old }
        ensures front { self.new.from ≡ 0 }
        ensures source { self.new.src ≡ self.old.src }
        ensures wide { width self.new ≡ width self.old }
    {
        let (from, upto) = (self.from, self.upto);
        self.octets.as_mut_slice().copy_within(from..upto, 0);
        self.from = 0;
        self.upto = upto - from;
    }
}

impl<S: Source> Window<S> {
    ghost use Rattle.bm_pcap.specs.Window.{Ahead, buffered, rest, source_of, width};

    /// Reads one more piece of the source, as much as it gives and the buffer has room for. Returns
    /// how many octets these are.
    fn read(&mut self) -> Result<usize, Failed>
        ensures keeps { Keeps (rest S.left self.old) (rest S.left self.new) }
        ensures grows { take (length (buffered self.old)) (buffered self.new) ≡ buffered self.old }
        ensures count { IfOk result (λ n. self.new.upto ≡ self.old.upto + n) }
        ensures end { IfOk result
            (λ n. n ≡ 0 → self.old.upto < width self.old → IsAtEnd (S.left self.new.src)) }
        ensures err { OnErr result (self.new.upto ≡ self.old.upto) }
        ensures from { self.new.from ≡ self.old.from }
        ensures wide { width self.new ≡ width self.old }
        ensures cause { HasCause (S.faults self.old.src) (S.faults self.new.src) result }
    {
        let upto = self.upto;
        let count = self.src.take(&mut self.octets[upto..])?;
        self.upto = upto + count;
        Ok(count)
    }

    /// Reads until `most` octets are read ahead, or all that are left, and returns how many of
    /// these there are. It reads nothing if they were read already, and otherwise in pieces as
    /// large as the buffer has room for. After a failure what was read ahead is kept.
    pub fn want(&mut self, most: usize) -> Result<usize, Failed>
        requires { most ≤ width self.old }
        ensures bound { IfOk result (λ n. (n ≤ most) × (n ≤ length (buffered self.new))) }
        ensures ahead { IfOk result (λ n. Ahead (rest S.left self.old) most n (buffered self.new)) }
        ensures keeps { Keeps (rest S.left self.old) (rest S.left self.new) }
        ensures grows { take (length (buffered self.old)) (buffered self.new) ≡ buffered self.old }
        ensures short { OnErr result (length (buffered self.new) < most) }
        ensures still { most ≤ length (buffered self.old) → self.new ≡ self.old }
        ensures wide { width self.new ≡ width self.old }
        ensures cause { HasCause (S.faults (source_of self.old)) (S.faults (source_of self.new))
            result }
    {
        if self.upto - self.from >= most {
            return Ok(most);
        }
        self.move_to_front();
        while self.upto < most {
            if self.read()? == 0 {
                break;
            }
        }
        Ok(self.upto.min(most))
    }
}
