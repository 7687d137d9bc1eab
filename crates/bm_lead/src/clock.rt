//! Clocks, and moments that may be passed to shards.
ghost use Rattle.std.specs.Prelude.{◌≡◌, ◌*◌, ◌^◌, ◌<◌, ◌≤◌, max, IfErr, IfOk};
ghost use Rattle.bm_core.specs.Runs.{next_clock};
ghost use Rattle.bm_lead.specs.Leaders.{IsStopFrom};

use bm_base::{LAST, Moment};
use bm_core::next_clock;
use bm_worker::Stop;

/// The clock after both, if it is at most `most`.
pub(crate) fn clock_up_to(most: u64, last: Moment, cause: Moment) -> Result<Moment, Stop>
    requires most { most ≤ 9 * 10 ^ 18 }
    requires cause { cause.0 < most }
    ensures ok { IfOk result (λ clock. (clock.0 ≡ next_clock last.0 cause.0) × (clock.0 ≤ most)) }
    ensures stop { IfErr result (IsStopFrom most last.0) }
{
    if last.0 >= most {
        return Err(Stop::Late {
            moment: Moment(last.0.saturating_add(1)),
            clock: last,
        });
    }
    Ok(next_clock(last, cause))
}

/// The moment that is passed on for a command: its own, or the controller's clock if that is later.
pub(crate) fn due_moment(at: Moment, clock: Moment) -> Result<Moment, Stop>
    requires at { at.0 ≤ 9 * 10 ^ 18 }
    ensures ok { IfOk result (λ due. (due.0 ≡ max at.0 clock.0) × (due.0 ≤ 9 * 10 ^ 18)) }
    ensures stop { IfErr result (IsStopFrom (9 * 10 ^ 18) clock.0) }
{
    let due = at.max(clock);
    if due.0 > LAST {
        return Err(Stop::Late { moment: due, clock });
    }
    Ok(due)
}
