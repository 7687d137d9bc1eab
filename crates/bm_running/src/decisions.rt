//! Whether what an event says is what is due.
ghost use Rattle.std.specs.Prelude.{◌≡◌};
ghost use Rattle.std.specs.Bool.{Decides};

use bm_core::Verdict;
use bm_table::Retirement;

#[tactic(auto, using(bm_state::proofs::Same::verdict_decides))]
pub(crate) fn is_verdict(a: Verdict, b: Verdict) -> bool
    ensures { Decides result (a ≡ b) }
{
    a == b
}

#[tactic(auto, using(bm_state::proofs::Same::retirement_decides))]
pub(crate) fn is_answer(a: Retirement, b: Retirement) -> bool
    ensures { Decides result (a ≡ b) }
{
    a == b
}
