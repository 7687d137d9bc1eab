//! What can come next in a replay.
ghost use Rattle.std.specs.Prelude.{◌≡◌};
ghost use Rattle.bm_core.specs.Schedule.{rank_of};

use bm_base::{Flow, Hop, ServerId};

/// An event without its result.
#[derive(Clone, Copy, PartialEq, Eq)]
pub enum Call {
    Publishes(u32),
    Switches(u16, u32),
    Closes(ServerId, Flow),
    Retires(ServerId, u16, u64),
    Syncs,
    Arrives(u32, Hop),
    Steers(u32),
    Loses(u32, Hop),
}

impl Call {
    /// The place of the call's kind among the calls of one moment, from 0.
    pub fn rank(&self) -> u8
        ensures { result ≡ rank_of self.now }
    {
        match self {
            Call::Publishes(_) => 0,
            Call::Switches(..) => 1,
            Call::Closes(..) => 2,
            Call::Retires(..) => 3,
            Call::Syncs => 4,
            Call::Arrives(..) => 5,
            Call::Steers(_) | Call::Loses(..) => 6,
        }
    }
}

/// A call that can come next, with its stated moment and, for calls of one moment and kind, its
/// number.
#[derive(Clone, Copy, PartialEq, Eq)]
pub struct Due {
    pub moment: u64,
    pub number: usize,
    pub call: Call,
}
