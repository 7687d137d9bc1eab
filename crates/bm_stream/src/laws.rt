//! What the definitions of streams mean. Each law is a function that does nothing: its contract is
//! the law.
ghost use Rattle.std.specs.Prelude.{◌≡◌, List, length};
ghost use Rattle.bm_stream.specs.Laws.{IsLength};
ghost use Rattle.bm_stream.specs.Pieces.{Piece, kept, stream};

/// The length is the least place that no piece kept, or the FIN if that is lower, and the stream
/// has that many octets.
pub fn least()
    ensures least { (pieces : List Piece) → IsLength (kept pieces) }
    ensures octets { (pieces : List Piece) → length (stream pieces) ≡ (kept pieces).length }
{}
