//! The law of the generated load, over every run of it in threads. It is a function that does
//! nothing: its contract is the law.
ghost use Rattle.std.specs.Prelude.{◌≤◌};
ghost use Rattle.bm_load.specs.Loaded.{IsLoadTotals, IsRunOfLoad};
ghost use Rattle.bm_trace.specs.Totals.{totals_of};

use bm_core::History;

/// In every run in threads of the load of n connections n packets are accepted and 3n are
/// processed; none is reset, dropped or lost.
pub fn loaded(h: &History, n: u32)
    requires few { (1 ≤ n) × (n ≤ 20000) }
    requires run { IsRunOfLoad n h.now }
    ensures { IsLoadTotals n (totals_of h.now) }
{}
