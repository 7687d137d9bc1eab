//! What holds of the table of every run. Each is a function that does nothing: its contract is the
//! law.
ghost use Rattle.std.specs.Prelude.{◌≡◌, ◌*◌, ◌^◌, ◌<◌, ℕ, count_by, if◌then◌else◌, is_some, true};
ghost use Rattle.std.specs.Prelude.{false, IfSome, reverse, sum_by};
ghost use Rattle.bm_base.specs.declared.flow.Flow.{Flow};
ghost use Rattle.bm_base.specs.Segments.{same_flow};
ghost use Rattle.bm_core.specs.Runs.{IsRun};
ghost use Rattle.bm_trace.specs.Totals.{totals_of};
ghost use Rattle.bm_connections.specs.Connections.{connection_in, connections};
ghost use Rattle.bm_connections.specs.Late.{is_one_late, longest_late};
ghost use Rattle.bm_connections.specs.Laws.{is_broken};
ghost use Rattle.bm_connections.specs.Seen.{flows_of, is_seen, records_of};

use bm_core::{History, Stage};

/// Each flow of the capture's packets has exactly one connection, and no other flow has one.
pub fn once(stage: &Stage)
    ensures { (f : Flow) → count_by (same_flow f) (flows_of (records_of stage.now))
        ≡ (if is_seen (records_of stage.now) f then 1 else 0) }
{}

/// Over all connections the counts are those of the report's last line.
pub fn sums(h: &History)
    requires { IsRun h.now }
    ensures accepted { sum_by (λ c. c.tally.accepted) (connections h.now)
        ≡ (totals_of h.now).accepted }
    ensures processed { sum_by (λ c. c.tally.processed) (connections h.now)
        ≡ (totals_of h.now).processed }
    ensures forwarded { sum_by (λ c. c.tally.forwarded) (connections h.now)
        ≡ (totals_of h.now).forwarded }
    ensures reset { sum_by (λ c. c.tally.reset) (connections h.now) ≡ (totals_of h.now).reset }
    ensures dropped { sum_by (λ c. c.tally.dropped) (connections h.now)
        ≡ (totals_of h.now).dropped }
    ensures stray { sum_by (λ c. c.tally.stray) (connections h.now) ≡ (totals_of h.now).stray }
{}

/// A connection is broken exactly if one of the events breaks it.
pub fn broken(h: &History)
    ensures { (f : Flow) → is_some (connection_in h.now f).broken
        ≡ is_broken h.now.stage f (reverse h.now.events) }
{}

/// Under a timeout of the seconds that go with the longest wait, none of the history's packets that
/// came too late would have come too late at its clock. Under fewer seconds one would.
pub fn timeout(h: &History)
    ensures enough { IfSome (longest_late h.now) (λ late.
        is_one_late (late.timeout_s * 10 ^ 9) h.now.stage (reverse h.now.events) ≡ false) }
    ensures least { IfSome (longest_late h.now) (λ late. (s : ℕ) → s < late.timeout_s
        → is_one_late (s * 10 ^ 9) h.now.stage (reverse h.now.events) ≡ true) }
{}
