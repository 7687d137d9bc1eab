//! A script: a setting, the plan of its changes, and its commands.
use crate::{Plan, Setting};
use bm_base::{Flow, List, Moment, ServerId, Version};

/// A command. A Change leads to the version that it names, at that change's moment.
#[derive(Clone, Copy, PartialEq, Eq)]
pub enum Command {
    Change(Version),
    Close {
        at: Moment,
        server: ServerId,
        flow: Flow,
    },
    Retire {
        at: Moment,
        server: ServerId,
    },
    Sync {
        at: Moment,
    },
}

/// A setting, its plan and its commands.
#[derive(Drop)]
pub struct Script {
    pub setting: Setting,
    pub plan: Plan,
    pub commands: List<Command>,
}
