//! How many seats a run has.
ghost use Rattle.std.specs.Prelude.{◌≡◌, ◌+◌, ◌*◌, ◌≤◌};
ghost use Rattle.bm_world.specs.Seats.{known_up_to, seats_of};

use crate::known::is_known_at_last;
use bm_base::ServerId;
use bm_table::Script;

/// How many of the servers 1 to 1,024 the script knows once all its changes are published.
fn count_servers(script: &Script) -> u64
    requires { script.now.plan.servers ≡ script.now.setting.servers }
    ensures known { result ≡ known_up_to script.now.plan 1024 }
    ensures few { result ≤ 1024 }
{
    let mut known = 0u64;
    for number in 1..1025 {
        if is_known_at_last(script, ServerId(number)) {
            known += 1;
        }
    }
    known
}

/// This many servers, each with this many shards, each with a seat for worker 0 and for each mux's
/// worker.
fn product(servers: u64, shards: u16, muxes: u16) -> u64
    requires { servers ≤ 1024 }
    ensures { result ≡ servers * shards * (muxes + 1) }
{
    servers * u64::from(shards) * (u64::from(muxes) + 1)
}

/// How many seats a run of the script has: one for each worker at each shard of each server that
/// the script knows. Takes no memory.
pub fn seats(script: &Script) -> u64
    requires { script.now.plan.servers ≡ script.now.setting.servers }
    ensures { result ≡ seats_of script.now }
{
    let setting = &script.setting;
    product(count_servers(script), setting.shards, setting.muxes)
}
