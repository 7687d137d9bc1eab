//! What the answers of a check are worth. Each law is a function that does nothing: its contract is
//! the law.
ghost use Rattle.std.specs.Prelude.{◌≡◌, ℕ, List};
ghost use Rattle.bm_base.specs.declared.fate.Fate.{Fate};
ghost use Rattle.bm_base.specs.declared.flow.Flow.{Flow};
ghost use Rattle.bm_base.specs.declared.label.Hop.{Hop};
ghost use Rattle.bm_core.specs.Rules.{RouteBy, RuleBy};
ghost use Rattle.bm_check.specs.Answers.{IsAnswered};
ghost use Rattle.bm_check.specs.declared.answer.Answer.{Answer};

use bm_core::Stage;

/// A check of a report has at most one answer.
pub fn one_answer(stage: &Stage)
    ensures { (mux : ℕ → Flow → ℕ) (fate : ℕ → Hop → Fate) (trace : List ℕ) (a b : Answer)
        → IsAnswered (RouteBy mux) (RuleBy fate) stage.now trace a
        → IsAnswered (RouteBy mux) (RuleBy fate) stage.now trace b → a ≡ b }
{}
