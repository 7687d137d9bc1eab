//! Who keeps a clock.
ghost use Rattle.std.specs.Prelude.{◌≡◌, option_map};
ghost use Rattle.bm_core.specs.Runs.{actor_of};
ghost use Rattle.bm_state.specs.Authors.{actor};
ghost use Rattle.bm_table.specs.Settings.{IsWithin};

use bm_core::{Stage, What};
use bm_hash::shard_of;

/// Who keeps the clock of an event: the controller, a mux, or a shard of a server.
#[derive(Clone, Copy, PartialEq, Eq, PartialOrd, Ord, Drop)]
pub enum Author {
    Controller,
    Mux(u16),
    Shard(u16, u16),
}

/// Who keeps the clock of the event. A loss has no author.
pub fn author_of(stage: &Stage, what: What) -> Option<Author>
    requires { IsWithin 1 64 stage.now.script.setting.shards }
    ensures { option_map actor result ≡ actor_of stage.now what }
{
    let shards = stage.script.setting.shards;
    match what {
        What::Publish(_) | What::Sync => Some(Author::Controller),
        What::Switch { mux, .. } | What::Steer { mux, .. } => Some(Author::Mux(mux.0)),
        What::Arrive { packet, server, .. } => {
            let segment = stage.segment(packet)?;
            Some(Author::Shard(server.0, shard_of(&segment.flow, shards)))
        }
        What::Close { server, flow, .. } => Some(Author::Shard(server.0, shard_of(&flow, shards))),
        What::Retire { server, shard, .. } => Some(Author::Shard(server.0, shard)),
        What::Lose { .. } => None,
    }
}
