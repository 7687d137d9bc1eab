//! A rule for the rack of each server. No type can keep a fact about a closure, so it stands beside.
ghost use Rattle.std.specs.Prelude.{◌≡◌, ◌<◌};
ghost use Rattle.bm_policy.specs.Policies.{IsNumber, IsPolicy};

use bm_base::ServerId;

/// A rule that names the rack of each server, a number below `racks`.
#[derive(Drop)]
pub struct Policy<P> {
    pub rule: P,
    pub racks: u16,
}

impl<P: Fn(ServerId) -> u16> Policy<P> {
    /// The policy by a rule that has exactly one answer for each server number, 1 to 1,024, below
    /// `racks`, which is 1 to 64.
    pub fn new(rule: P, racks: u16) -> Policy<P>
        requires { IsPolicy P.Fn rule racks }
        ensures value { (result.rule ≡ rule) × (result.racks ≡ racks) }
    {
        Policy { rule, racks }
    }

    /// The server's rack: what the rule answers.
    pub fn rack(&self, s: ServerId) -> u16
        requires number { IsNumber s }
        requires policy { IsPolicy P.Fn self.now.rule self.now.racks }
        ensures rack { (policy : IsPolicy P.Fn self.now.rule self.now.racks)
            → result ≡ policy.rack s }
        ensures below { result < self.now.racks }
    {
        (self.rule)(s)
    }
}
