//! What the changes of a plan, from the last one back, say of each bucket.
ghost use Rattle.std.specs.Prelude.{◌≡◌, ◌<◌, ◌+◌, ◌-◌, ◌^◌, ℕ, [], ◌∷◌, length, nat_lt, slice_get};
ghost use Rattle.std.specs.Prelude.{IfSome};
ghost use Rattle.std.specs.Option.{option_map};
ghost use Rattle.bm_lifetime.specs.Inside.Seen as inside;
ghost use Rattle.bm_lifetime.specs.Inside.Seen.{IsSeen};
ghost use Rattle.bm_lifetime.specs.Lifetime as spec;

use crate::explained::NearMoves;
use bm_base::Version;
use bm_table::{Change, Move, Plan};

/// A move of a bucket: the number of its change, from 1, and its moment.
#[derive(Clone, Copy)]
pub struct Moved {
    pub change: usize,
    pub moment: u64,
}

/// Three moves of a bucket, one after another: the numbers of the first change and of the third, and
/// the time between these.
#[derive(Clone, Copy)]
pub struct Span {
    pub first: usize,
    pub third: usize,
    pub time: u64,
}

/// The shortest span of a bucket, of several the first, and the time of the next longer one.
#[derive(Clone, Copy)]
pub(crate) struct Shortest {
    pub(crate) span: Option<Span>,
    pub(crate) next: Option<u64>,
}

/// A bucket's first two moves, and its shortest span.
#[derive(Clone, Copy)]
pub(crate) struct Seen {
    pub(crate) first: Option<Moved>,
    pub(crate) second: Option<Moved>,
    pub(crate) shortest: Shortest,
}

/// Nothing yet.
pub(crate) fn unseen() -> Seen
    ensures { result ≡ inside.unseen }
{
    Seen {
        first: None,
        second: None,
        shortest: Shortest {
            span: None,
            next: None,
        },
    }
}

/// The lesser of two bounds, where None is no bound.
fn lesser(a: Option<u64>, b: Option<u64>) -> Option<u64>
    ensures { result ≡ spec.lesser a b }
{
    match (a, b) {
        (Some(x), Some(y)) => Some(x.min(y)),
        (Some(x), None) => Some(x),
        (None, y) => y,
    }
}

/// With a span before the others.
fn with_span(span: Span, old: Shortest) -> Shortest
    ensures { result ≡ inside.with_span span old }
{
    let Some(least) = old.span else {
        return Shortest {
            span: Some(span),
            next: None,
        };
    };
    if least.time < span.time {
        return Shortest {
            span: Some(least),
            next: lesser(Some(span.time), old.next),
        };
    }
    if span.time < least.time {
        return Shortest {
            span: Some(span),
            next: Some(least.time),
        };
    }
    Shortest {
        span: Some(span),
        next: old.next,
    }
}

/// With a move before the others.
fn with_move(first: Moved, old: Seen) -> Seen
    ensures { result ≡ inside.with_move first old }
{
    let shortest = match old.second {
        Some(third) => with_span(between(first, third), old.shortest),
        None => old.shortest,
    };
    Seen {
        first: Some(first),
        second: old.first,
        shortest,
    }
}

/// From one move to another.
fn between(first: Moved, third: Moved) -> Span
    ensures { result ≡ inside.between first third }
{
    Span {
        first: first.change,
        third: third.change,
        time: third.moment.saturating_sub(first.moment),
    }
}

/// Notes a move.
fn note_move(seen: &mut [Seen], m: &Move, at: Moved)
    ensures { (b : ℕ) → slice_get seen.new b
        ≡ option_map (inside.after_moves at (m.now ∷ []) b) (slice_get seen.old b) }
{
    let place = m.bucket as usize;
    if place < seen.len() {
        let old = seen[place];
        seen[place] = with_move(at, old);
    }
}

/// Notes the moves of a change.
fn note_moves(seen: &mut [Seen], moves: &[Move], at: Moved)
    ensures { (b : ℕ) → slice_get seen.new b
        ≡ option_map (inside.after_moves at moves.now b) (slice_get seen.old b) }
{
    for m in moves {
        note_move(seen, m, at);
    }
}

/// Whether packets may come before a mux with this lag knows a change of this moment.
fn may_precede(at: u64, lag: u64) -> bool
    ensures { result ≡ nat_lt 0 (at + lag) }
{
    if at > 0 {
        return true;
    }
    lag > 0
}

/// Notes a plan's changes, from the last one back.
pub(crate) fn note_plan(seen: &mut [Seen], plan: &Plan, lag: u64)
    requires { IsSeen lag (length seen.old) 1 [] seen.old }
    ensures { IsSeen lag (length seen.old) 1 plan.now.changes seen.new }
{
    let mut left = plan.versions();
    while left > 0 {
        let number = left as usize;
        left -= 1;
        if let Some(change) = plan.next_change(Version(left)) {
            let moment = change.moment.0;
            if may_precede(moment, lag) {
                let at = Moved {
                    change: number,
                    moment,
                };
                note_moves(seen, change.moves.items(), at);
            }
        }
    }
}

/// The least bound of a bucket.
fn own_bound(seen: &Seen, most: u64) -> Option<u64>
    ensures { result ≡ inside.bound_seen most seen.now }
{
    seen.first?;
    match seen.shortest.span {
        Some(span) => Some(most.min(span.time)),
        None => Some(most),
    }
}

/// The least bound of all.
pub(crate) fn least_bound(seen: &[Seen], most: u64) -> Option<u64>
    ensures { result ≡ inside.least_seen most seen.now (length seen.now) }
{
    let mut least = None;
    for s in seen {
        least = lesser(least, own_bound(s, most));
    }
    least
}

/// The least bound of a bucket above this time, where it has none below.
fn own_next(seen: &Seen, most: u64, time: u64) -> Option<u64>
    ensures { result ≡ inside.next_seen most time seen.now }
{
    seen.first?;
    let by_timeout = (most > time).then_some(most);
    lesser(by_timeout, next_span(seen.shortest, time))
}

/// The time of the shortest span above this time, where none is below.
fn next_span(shortest: Shortest, time: u64) -> Option<u64>
    ensures { result ≡ inside.next_of time shortest }
{
    let span = shortest.span?;
    if span.time > time {
        return Some(span.time);
    }
    shortest.next
}

/// The least bound of all above this time, where none is below.
pub(crate) fn next_bound(seen: &[Seen], most: u64, time: u64) -> Option<u64>
    ensures { result ≡ inside.least_next most time seen.now (length seen.now) }
{
    let mut next = None;
    for s in seen {
        next = lesser(next, own_next(s, most, time));
    }
    next
}

/// The shortest span, if it takes this time.
fn near_span(shortest: Shortest, time: u64) -> Option<Span>
    ensures { result ≡ inside.near_of time shortest }
{
    let span = shortest.span?;
    (span.time == time).then_some(span)
}

/// With a bucket more.
fn with_bucket(near: Option<NearMoves>, bucket: usize, span: Span) -> NearMoves
    requires { IfSome near (λ n. n.buckets + 1 < 2 ^ 64) }
    ensures { result ≡ inside.with_bucket bucket span near }
{
    match near {
        Some(near) => NearMoves {
            buckets: near.buckets + 1,
            ..near
        },
        None => NearMoves {
            first: span.first,
            third: span.third,
            buckets: 1,
            lowest: bucket,
        },
    }
}

/// The buckets of which the shortest span takes this time.
pub(crate) fn near_moves(seen: &[Seen], time: u64) -> Option<NearMoves>
    ensures { result ≡ inside.near_seen time seen.now (length seen.now) }
{
    let mut near = None;
    for (bucket, s) in seen.iter().enumerate() {
        if let Some(span) = near_span(s.shortest, time) {
            near = Some(with_bucket(near, bucket, span));
        }
    }
    near
}
