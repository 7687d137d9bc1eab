//! The limit on the seats of a run.
ghost use Rattle.std.specs.Prelude.{◌≡◌, Ok, Err, MatchResult};
ghost use Rattle.bm_table.specs.Scripts.{IsSoundScript};
ghost use Rattle.bm_cli.specs.Reading.{taken};

use crate::fault::StageFault;
use crate::mode::Mode;
use bm_table::Script;
use bm_world::seats;

const MOST_SEATS: u64 = 65_536;

/// Whether a stage with this script may be played in this mode: a run has at most 65,536 seats.
pub(crate) fn check_seats(mode: Mode, script: &Script) -> Result<(), StageFault>
    requires { IsSoundScript script.now }
    ensures { MatchResult result (λ _. taken mode script.now ≡ Ok script.now)
        (λ fault. (taken mode script.now ≡ Err fault) × (fault ≡ StageFault.Seats)) }
{
    match mode {
        Mode::Run if seats(script) > MOST_SEATS => Err(StageFault::Seats),
        Mode::Run | Mode::Replay => Ok(()),
    }
}
