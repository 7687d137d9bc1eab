//! What a receiver makes of a segment.

/// What the receiver of a connection makes of a segment.
#[derive(Clone, Copy, PartialEq, Eq)]
pub enum Taken {
    /// It brings the next octet expected.
    Advance,
    /// All of it was received before.
    Duplicate,
    /// It is in the window, after a gap.
    Ahead,
    /// It is outside the window.
    Outside,
    /// It isn't acceptable here; RFC 9293 answers it with a challenge ACK.
    Challenge,
    /// It ends the connection.
    Ended,
}
