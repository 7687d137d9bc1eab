//! What worker 0 has done at the end. The law is a function that does nothing: its contract is the
//! law.
ghost use Rattle.std.specs.Prelude.{◌≡◌, List, length};
ghost use Rattle.bm_core.specs.Past.{newest};
ghost use Rattle.bm_merge.specs.Notes.{Note};
ghost use Rattle.bm_merge.specs.Workers.{IsController};
ghost use Rattle.bm_server.specs.Servings.{Serving};
ghost use Rattle.bm_publish.specs.Posts.{Posted};
ghost use Rattle.bm_lead.specs.declared.leader.Leader.{Leader as Leading};
ghost use Rattle.bm_lead.specs.Commands.{control_log};
ghost use Rattle.bm_lead.specs.Leaders.{IsReady};
ghost use Rattle.bm_lead.specs.Leads.{IsLed};

use bm_core::Stage;

/// If no command is left, worker 0 has done what a threaded run asks of it, and all changes are
/// published.
pub fn carried_out(stage: &Stage)
    ensures { (servers : List Serving) (posted : Posted) (leader : Leading) (notes : List Note)
        → IsReady stage.now servers posted leader → IsLed stage.now posted leader notes
        → leader.next ≡ length stage.now.script.commands
        → IsController stage.now notes
        × (newest (control_log stage.now notes) ≡ length stage.now.script.plan.changes) }
{}
