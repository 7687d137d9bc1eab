//! What octets are read from.
ghost use Rattle.std.specs.Prelude.{List, ℕ};
ghost use Rattle.std.specs.declared.option.Option.{Option};
ghost use Rattle.std.specs.Io.{ReadsAtMost};
ghost use Rattle.std.specs.Io.KnownBytes.{ReadConsumes};
ghost use Rattle.bm_io.specs.Causes.{HasCause};

use crate::Failed;

/// What octets are read from. A source of `Files` that is dropped without `close` still counts as
/// open.
pub trait Source: Drop {
    /// The octets that are left, or None if they aren't known.
    ghost left: { Self → Option (List ℕ) };

    /// How often the source has failed, at most 2^64 - 1.
    ghost faults: { Self → ℕ };

    /// Moves the first octets that are left into the buffer, and returns how many. 0 means that
    /// nothing is left, unless the buffer is empty. `Failed` where the source failed, which is
    /// counted.
    fn take(&mut self, buf: &mut [u8]) -> Result<usize, Failed>
        ensures bound { ReadsAtMost result buf.new }
        ensures octets { ReadConsumes (left self.old) (left self.new) result buf.new }
        ensures cause { HasCause (faults self.old) (faults self.new) result };
}
