//! The longest needs of packets, by the numbers of changes or of servers.
ghost use Rattle.std.specs.Prelude.{◌≡◌, ℕ, ◌==◌, if◌then◌else◌, OnOk, Some, None};
ghost use Rattle.std.specs.BTreeMap as tree;
ghost use Rattle.std.specs.Ordering.{nat_cmp};
ghost use Rattle.bm_connections.specs.Needed as spec;

use bm_base::{Flow, Moment};
use std::alloc::{AllocError, Global};
use std::collections::BTreeMap;

/// How many nanoseconds a packet needed something, with the packet's clock and flow.
#[derive(Clone, Copy, PartialEq, Eq)]
pub struct Need {
    pub time: u64,
    pub clock: Moment,
    pub flow: Flow,
}

/// A need, and the number of the change or the server that it counts for.
#[derive(Clone, Copy)]
pub struct NeedOf {
    pub number: u32,
    pub need: Need,
}

fn longer(longest: Option<Need>, next: Need) -> Need
    ensures { result ≡ spec.longer longest next }
{
    match longest {
        None => next,
        Some(longest) => {
            if longest.time < next.time {
                next
            } else {
                longest
            }
        }
    }
}

/// The longest need under each number, after some events.
#[derive(Drop)]
pub(crate) struct LongestNeeds {
    needs: BTreeMap<u32, Need>,
}

impl LongestNeeds {
    ghost use Rattle.bm_connections.specs.Inside.Needs.{need_in};

    pub(crate) fn new(alloc: Global) -> LongestNeeds
        ensures { (n : ℕ) → need_in result n ≡ None }
    {
        LongestNeeds {
            needs: BTreeMap::new(alloc),
        }
    }

    /// The longest need under the number.
    pub(crate) fn get(&self, number: u32) -> Option<Need>
        ensures { result ≡ need_in self.now number }
    {
        self.needs.get(&number).copied()
    }

    fn put(&mut self, number: u32, need: Need) -> Result<(), AllocError>
        ensures { OnOk result ((n : ℕ) → need_in self.new n
            ≡ (if number == n then Some need else need_in self.old n)) }
    {
        self.needs.insert(number, need)?;
        Ok(())
    }

    /// Records the need of the event that comes next, if it has one.
    pub(crate) fn observe(&mut self, next: Option<NeedOf>) -> Result<(), AllocError>
        ensures { OnOk result
            ((n : ℕ) → need_in self.new n ≡ spec.with_need n next (need_in self.old n)) }
    {
        if let Some(next) = next {
            let need = longer(self.get(next.number), next.need);
            self.put(next.number, need)?;
        }
        Ok(())
    }
}
