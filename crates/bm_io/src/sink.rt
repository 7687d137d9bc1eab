//! What octets are written to.
ghost use Rattle.std.specs.Prelude.{List, ℕ, ◌<◌, length, IfOk};
ghost use Rattle.std.specs.declared.option.Option.{Option};
ghost use Rattle.std.specs.Io.{WritesAtMost};
ghost use Rattle.std.specs.Io.KnownBytes.{WriteAppends};
ghost use Rattle.bm_io.specs.Causes.{HasIoCause};

use crate::IoFault;

/// What octets are written to.
pub trait Sink {
    /// The octets written so far, or None if they aren't known.
    ghost written: { Self → Option (List ℕ) };

    /// How often the sink has failed, at most 2^64 - 1.
    ghost faults: { Self → ℕ };

    /// Appends the first octets of the piece, and returns how many: at least one, unless the piece
    /// is empty. On an error nothing is appended.
    fn put(&mut self, piece: &[u8]) -> Result<usize, IoFault>
        ensures bound { WritesAtMost result piece.now }
        ensures some { 0 < length piece.now → IfOk result (λ n. 0 < n) }
        ensures octets { WriteAppends (written self.old) (written self.new) result piece.now }
        ensures cause { HasIoCause (faults self.old) (faults self.new) result };
}
