//! Clocks.
ghost use Rattle.std.specs.Prelude.{◌≡◌, ◌<◌, ◌^◌};
ghost use Rattle.bm_core.specs.Runs.{next_clock};

use bm_base::Moment;

/// The least clock after both the clock `last` and the moment `cause`. All three are nanoseconds.
pub fn next_clock(last: Moment, cause: Moment) -> Moment
    requires last { last.0 < 2 ^ 63 }
    requires cause { cause.0 < 2 ^ 63 }
    ensures { result.0 ≡ next_clock last.0 cause.0 }
{
    Moment(last.0.max(cause.0) + 1)
}
