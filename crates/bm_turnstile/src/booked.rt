//! A state that keeps a book of its calls.
ghost use Rattle.std.specs.Prelude.{◌≡◌, ℕ, ◌^◌, ◌<◌, List, length, IfOk, OnErr};
ghost use Rattle.bm_turnstile.specs.Seen.{Adds};

use bm_base::Memory;

/// A state that keeps a book of its calls: an entry for each that was made, in their order. The
/// reply to a call follows from the state's fixed data and from the entries before it.
pub trait Booked {
    type Call;

    type Reply;

    /// What no call changes. Only contracts use it.
    type Fixed;

    /// A call that was made, and the seat that made it. Only contracts use it.
    type Entry;

    // the fixed data
    ghost fixed: { Self → Self.Fixed };

    // the entries, in their order
    ghost entries: { Self → List Self.Entry };

    // the number of an entry's seat
    ghost seat_of: { Self.Entry → ℕ };

    // the call of an entry
    ghost call_of: { Self.Entry → Self.Call };

    // which calls the state takes
    ghost takes: { Self.Fixed → Self.Call → Type 0 };

    // the reply to a seat's call after these entries
    ghost reply: { Self.Fixed → List Self.Entry → ℕ → Self.Call → Self.Reply };

    // each entry is what its call makes of the entries before it
    ghost replays: { Self.Fixed → List Self.Entry → Type 0 };

    /// Makes a call under the number of a seat, and keeps it in the book. `Memory` where memory was
    /// refused; no call was then made.
    fn apply(&mut self, seat: u16, call: Self::Call) -> Result<Self::Reply, Memory>
        requires taken { takes (fixed self.old) call }
        requires few { length (entries self.old) < 2 ^ 48 }
        ensures fixed { fixed self.new ≡ fixed self.old }
        ensures reply { IfOk result (λ r. r ≡ reply (fixed self.old) (entries self.old) seat call) }
        ensures entry { IfOk result (λ _.
            Adds seat_of call_of seat call (entries self.old) (entries self.new)) }
        ensures kept { replays (fixed self.old) (entries self.old)
            → replays (fixed self.new) (entries self.new) }
        ensures memory { OnErr result (entries self.new ≡ entries self.old) };
}
