//! The shards of servers as the keys of maps.
ghost use Rattle.std.specs.Prelude.{◌≡◌};
ghost use Rattle.bm_state.specs.ShardKeys.{key_at};

use bm_base::ServerId;

/// A shard of a server.
#[derive(Clone, Copy, PartialEq, Eq, PartialOrd, Ord, Hash, Drop)]
pub struct ShardKey {
    pub server: u16,
    pub shard: u16,
}

impl ShardKey {
    pub fn at(server: ServerId, shard: u16) -> ShardKey
        ensures { result ≡ key_at server shard }
    {
        ShardKey {
            server: server.0,
            shard,
        }
    }
}
