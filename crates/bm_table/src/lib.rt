//! The plan of changes, the table of each version, and the script around them.
#![tactic(auto)]

mod plan;
mod script;
mod setting;
mod table;

pub use plan::{Change, Kind, Limit, Move, Plan, PlanFault, Retirement};
pub use script::{Command, Script};
pub use setting::{FaultRow, RouteKind, Setting, rack_of};
pub use table::Table;
