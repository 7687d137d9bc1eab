//! A rule for the fate of each sending, with the fact that its answers are within the limits.
ghost use Rattle.std.specs.Prelude.{◌≡◌, ◌≤◌, ◌*◌, ◌^◌};
ghost use Rattle.bm_fault.specs.Faults.{Gives, IsRule};

use bm_base::{Fate, Hop};

/// A rule that says, by a packet's number and a hop, what becomes of that sending.
#[derive(Drop)]
pub struct Faults<F> {
    pub rule: F,
}

impl<F: Fn(u32, Hop) -> Fate> Faults<F> {
    /// Impairments by a rule whose answers are all within the limits: at most 3 copies, at most a
    /// minute late.
    pub fn new(f: F) -> Faults<F>
        requires { IsRule F.Fn f }
        ensures value { result.rule ≡ f }
        ensures rule { IsRule F.Fn result.rule }
    {
        Faults { rule: f }
    }

    /// The fate of a sending of this packet with this hop, by the rule. The delay is in
    /// nanoseconds.
    pub fn fate(&self, packet: u32, hop: Hop) -> Fate
        requires { IsRule F.Fn self.now.rule }
        ensures gives { Gives F.Fn self.now.rule packet hop result }
        ensures copies { result.copies ≤ 3 }
        ensures delay { result.delay ≤ 60 * 10 ^ 9 }
    {
        (self.rule)(packet, hop)
    }
}
