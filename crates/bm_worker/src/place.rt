//! The place of a server among those of a run.
ghost use Rattle.std.specs.Prelude.{◌≡◌, ◌≢◌, ℕ, Some, None, slice_get};
ghost use Rattle.bm_server.specs.Servings.{Serving};
ghost use Rattle.bm_worker.specs.WorkerNotes.{NumbersRise};

use bm_base::ServerId;
use bm_server::Server;

/// The place of the server of this number. Takes time in proportion to the logarithm of the number
/// of servers, and no memory.
pub fn place_of(servers: &[Server], id: ServerId) -> Option<usize>
    requires { NumbersRise servers.now }
    ensures some { (place : ℕ) → result ≡ Some place → (server : Serving)
        × (slice_get servers.now place ≡ Some server) × (server.id ≡ id) }
    ensures none { result ≡ None → (s : ℕ) (server : Serving)
        → slice_get servers.now s ≡ Some server → server.id ≢ id }
{
    servers
        .binary_search_by_key(&id.0, |server| server.id().0)
        .ok()
}
