//! What a script's lifetime is, and what bounds it.

/// How long a connection may live so that no change of a script breaks it, and what bounds that.
/// Where neither the timeout nor moves bound it, muxes with different lags take turns, and no time is
/// safe.
#[derive(Clone, Copy, Debug, PartialEq, Eq)]
pub struct Lifetime {
    /// In nanoseconds.
    pub time: u64,
    /// Whether the timeout, less the slack, bounds it.
    pub by_timeout: bool,
    /// The three moves that bound it, if moves do.
    pub by_moves: Option<NearMoves>,
    /// The next greater bound, if there is one: the lifetime once all that bounds it now is raised.
    pub next: Option<u64>,
    /// The slack, in nanoseconds: a timeout must exceed a lifetime by this.
    pub slack: u64,
}

/// Three moves of a bucket, one after another. No other three of any bucket lie nearer together.
#[derive(Clone, Copy, Debug, PartialEq, Eq)]
pub struct NearMoves {
    /// The number of the first move's change. Changes are counted from 1.
    pub first: usize,
    /// The number of the third move's change.
    pub third: usize,
    /// How many buckets have three moves as near.
    pub buckets: usize,
    /// The lowest of these buckets. The numbers of changes are those of its first three such moves.
    pub lowest: usize,
}
