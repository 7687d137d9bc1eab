//! What the definitions of sequence numbers mean. Each law is a function that does nothing: its
//! contract is the law.
ghost use Rattle.std.specs.Prelude.{◌≡◌, ◌+◌, ◌%◌, ◌^◌, ◌<◌, ◌≤◌, ℕ, true};
ghost use Rattle.bm_seq.specs.Receivers.{is_in_window};

/// A window has exactly the `size` numbers from `next` on, also around the end of the sequence
/// numbers (RFC 9293, section 3.4).
pub fn window(next: u32, size: u32)
    requires { size ≤ 65535 }
    ensures has { (k : ℕ) → k < size → is_in_window next size ((next + k) % 2 ^ 32) ≡ true }
    ensures only { (x : ℕ) → x < 2 ^ 32 → is_in_window next size x ≡ true
        → (k : ℕ) × (k < size) × ((next + k) % 2 ^ 32 ≡ x) }
{}
