//! Numbers with names of their own.

/// A server's number, 1 to 1,024.
#[derive(Clone, Copy, PartialEq, Eq, PartialOrd, Ord)]
pub struct ServerId(pub u16);

/// A mux's number, 0 to 63.
#[derive(Clone, Copy, PartialEq, Eq, PartialOrd, Ord)]
pub struct MuxId(pub u16);

/// How many changes of the plan a table has.
#[derive(Clone, Copy, PartialEq, Eq, PartialOrd, Ord)]
pub struct Version(pub u32);

/// Nanoseconds since the first record of the capture.
#[derive(Clone, Copy, PartialEq, Eq, PartialOrd, Ord)]
pub struct Moment(pub u64);

/// The last moment that may be passed to a shard, 9 * 10^18 nanoseconds.
pub const LAST: u64 = 9_000_000_000_000_000_000;
