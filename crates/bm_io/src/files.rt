//! Files that are opened by name.
ghost use Rattle.std.specs.Prelude.{◌≡◌, ◌≤◌, ◌<◌, ◌+◌, List, ℕ, IfOk, IsErrOf};
ghost use Rattle.std.specs.declared.option.Option.{Option};
ghost use Rattle.bm_io.specs.Causes.{Rose, HasIoCause};
ghost use Rattle.bm_io.specs.Names.{HasOctetsOf, Asks, open_after, opening};
ghost use Rattle.bm_io.specs.declared.fault.IoFault.TheVariants.{Memory};
ghost use Rattle.bm_io.specs.declared.opening.Opening.{Opening};

use crate::{IoFault, Source};

/// Files that are opened by name.
pub trait Files {
    type Src: Source;

    /// The octets of each name (none for a name that isn't there), or None if they aren't known.
    ghost octets: { Self → Option (List ℕ → List ℕ) };

    /// The names asked for so far, each with how often the files had failed by then and how many
    /// sources were open; None if they aren't known.
    ghost asked: { Self → Option (List Opening) };

    /// How often the files have failed, at most 2^64 - 1.
    ghost faults: { Self → ℕ };

    /// How many sources are open now.
    ghost open_now: { Self → ℕ };

    /// Opens the file of this name: all its octets are left, and it hasn't failed. `Failed` where
    /// the files failed, which is counted; `Memory` where memory was refused, which isn't.
    fn open(&mut self, name: &str) -> Result<Self::Src, IoFault>
        requires room { open_now self.old < 4294967295 }
        ensures left { IfOk result
            (λ src. HasOctetsOf (octets self.old) name.now (Self.Src.left src)) }
        ensures new { IfOk result (λ src. Self.Src.faults src ≡ 0) }
        ensures octets { octets self.new ≡ octets self.old }
        ensures asked { Asks (asked self.old) (asked self.new)
            (opening (faults self.old) (open_now self.old) name.now) result }
        ensures cause { HasIoCause (faults self.old) (faults self.new) result }
        ensures memory { IsErrOf result Memory → faults self.new ≡ faults self.old }
        ensures open { open_now self.new ≡ open_after result (open_now self.old) };

    /// Takes a source back, and counts a failure where the source failed.
    fn close(&mut self, src: Self::Src)
        requires open { 1 ≤ open_now self.old }
        ensures octets { octets self.new ≡ octets self.old }
        ensures asked { asked self.new ≡ asked self.old }
        ensures later { faults self.old ≤ faults self.new }
        ensures counted { 0 < Self.Src.faults src → Rose (faults self.old) (faults self.new) }
        ensures same { Self.Src.faults src ≡ 0 → faults self.new ≡ faults self.old }
        ensures closed { open_now self.new + 1 ≡ open_now self.old };
}
