//! Sequence numbers modulo 2^32 (RFC 9293, section 3.4), and the receiver of a connection.
ghost use Rattle.std.specs.Prelude.{◌≡◌, ◌≤◌};
ghost use Rattle.bm_seq.specs.Receivers as receivers;

use bm_base::flags::{FIN, RST, SYN};
use bm_base::{Segment, Taken, is_opening};

/// The receive window, in octets.
const WINDOW: u32 = 65_535;

/// The receiving end of a connection: the sequence number that opened it, the next one expected,
/// and whether a FIN came in turn.
#[derive(Clone, Copy, PartialEq, Eq)]
pub struct Receiver {
    pub start: u32,
    pub next: u32,
    pub finished: bool,
}

/// How far sequence number `a` is after `b`.
#[tactic(auto, unfolding(crate::specs::Receivers::distance))]
fn distance(a: u32, b: u32) -> u32
    ensures { result ≡ receivers.distance a b }
{
    a.wrapping_sub(b)
}

/// RFC 9293's test of acceptability (section 3.10.7.4): whether a segment that begins at `seq` and
/// takes `len` sequence numbers begins or ends in the window of `window` octets that begins at
/// `next`; where both are empty, whether it begins at `next`.
#[tactic(auto, unfolding(crate::specs::Receivers::acceptable))]
pub fn acceptable(next: u32, window: u32, seq: u32, len: u32) -> bool
    requires window { window ≤ 65535 }
    requires len { len ≤ 1048576 }
    ensures { result ≡ receivers.acceptable next window seq len }
{
    match (len, window) {
        (0, 0) => seq == next,
        (0, _) => distance(seq, next) < window,
        (_, 0) => false,
        (_, _) => {
            distance(seq, next) < window || distance(seq.wrapping_add(len - 1), next) < window
        }
    }
}

impl Receiver {
    /// The receiver that an accepted segment opens.
    #[tactic(auto, unfolding(crate::specs::Receivers::opened))]
    pub fn open(s: &Segment) -> Receiver
        ensures { result ≡ receivers.opened s.now }
    {
        Receiver {
            start: s.seq,
            next: s.seq.wrapping_add(s.len),
            finished: false,
        }
    }

    /// What the receiver makes of a segment; the receiver doesn't change.
    #[tactic(auto, unfolding(crate::specs::Receivers::taken, crate::specs::Receivers::comes_in_turn))]
    pub fn judge(&self, s: &Segment) -> Taken
        requires { s.now.len ≤ 1048576 }
        ensures { result ≡ receivers.taken self.now s.now }
    {
        if is_opening(s) {
            return if s.seq == self.start {
                Taken::Duplicate
            } else {
                Taken::Challenge
            };
        }
        if s.has(RST) {
            return self.judge_reset(s);
        }
        if s.has(SYN) {
            return Taken::Challenge;
        }
        if !acceptable(self.next, WINDOW, s.seq, s.len) {
            return if distance(self.next, s.seq.wrapping_add(s.len)) < 1 << 31 {
                Taken::Duplicate
            } else {
                Taken::Outside
            };
        }
        if distance(self.next, s.seq) < s.len || (s.len == 0 && s.seq == self.next) {
            Taken::Advance
        } else {
            Taken::Ahead
        }
    }

    #[tactic(auto, unfolding(crate::specs::Receivers::taken_reset))]
    fn judge_reset(&self, s: &Segment) -> Taken
        ensures { result ≡ receivers.taken_reset self.now s.now }
    {
        if distance(s.seq, self.next) >= WINDOW {
            Taken::Outside
        } else if s.seq == self.next {
            Taken::Ended
        } else {
            Taken::Challenge
        }
    }

    /// Takes a segment, and says what it made of it.
    #[tactic(auto, unfolding(crate::specs::Receivers::receiver_after, crate::specs::Receivers::after_taken))]
    pub fn take(&mut self, s: &Segment) -> Taken
        requires { s.now.len ≤ 1048576 }
        ensures taken { result ≡ receivers.taken self.old s.now }
        ensures after { self.new ≡ receivers.receiver_after self.old s.now }
    {
        let taken = self.judge(s);
        if taken == Taken::Advance {
            self.next = s.seq.wrapping_add(s.len);
            self.finished = self.finished || s.has(FIN);
        }
        taken
    }
}
