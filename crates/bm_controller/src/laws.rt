//! The law of one rack.
ghost use Rattle.std.specs.Prelude.{◌≡◌, ◌<◌, All};
ghost use Rattle.bm_controller.specs.Commands as commands;

use crate::Member;
use bm_base::Moment;
use bm_table::{Kind, Plan};

/// With one rack a change that rebalances racks is the change that brings all servers to their
/// quotas of all buckets. So a `RackController` with one rack makes the plan of a `Controller`.
pub fn one_rack(plan: &Plan, at: Moment, kind: Kind, members: &[Member])
    requires { All (λ m. m.rack < 1) members.now }
    ensures { commands.change_to plan.now 1 at kind members.now
        ≡ commands.change_of_all plan.now at kind members.now }
{}
