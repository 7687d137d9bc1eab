//! What a check answers of a printed report. The law is a function that does nothing: its contract
//! says it.
ghost use Rattle.std.specs.Prelude.{◌≡◌, ℕ, List};
ghost use Rattle.bm_check.specs.declared.answer.Answer.{Answer as Checked};
ghost use Rattle.bm_check.specs.declared.answer.Answer.TheVariants.{Yes};
ghost use Rattle.bm_cli.specs.Checks.{IsCheckOf};
ghost use Rattle.bm_cli.specs.Headline.{IsReportOf};

use crate::mode::Mode;
use bm_core::Stage;

/// What `replay` or `run` prints of a stage with status 0 is a report to which `check` answers yes,
/// by the same capture and script.
pub fn printed_is_yes(mode: Mode, stage: &Stage)
    ensures { (octets : List ℕ) (answer : Checked)
        → IsReportOf mode stage.now octets → IsCheckOf stage.now octets answer
        → (e : ℕ) × (answer ≡ Yes e) }
{}
