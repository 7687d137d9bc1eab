//! A seat of a server.
use bm_shard::ShardBook;
use bm_turnstile::TurnSeat;
use std::marker::Model;

/// A seat at each shard of a server, in their order; one thread owns it. Contracts see the list of
/// them.
#[derive(Drop)]
pub struct ServerSeat {
    pub(crate) seats: Vec<TurnSeat<ShardBook>>,
}

impl Model for ServerSeat {
    ghost use Rattle.std.specs.Prelude.{List};
    ghost use Rattle.bm_server.specs.Seats.{Seated};

    ghost Value = { List Seated };

    ghost view = { λ seat. seat.seats.items };
}
