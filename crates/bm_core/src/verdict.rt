//! The verdict on a copy of a packet.
ghost use Rattle.std.specs.Prelude.{◌≡◌, ◌≤◌, ◌+◌, ◌&&◌, nat_le, if◌then◌else◌, false, None};
ghost use Rattle.bm_core.specs.declared.events.Local.{Local};
ghost use Rattle.bm_core.specs.Past.{is_direct};
ghost use Rattle.bm_core.specs.Verdicts.{verdict_on};
ghost use Rattle.bm_base.specs.Segments.{has_flag, is_opening};

use crate::{Local, Verdict, Why};
use bm_base::flags::RST;
use bm_base::{Hop, Moment, Past, Segment, Tag, is_opening};

/// The verdict on a segment that carries a tag, at a shard that knows this of the segment's flow.
/// `clock` and `timeout` are in nanoseconds. Takes no memory.
pub fn decide(local: &Local, tag: &Tag, s: &Segment, clock: Moment, timeout: u64) -> Verdict
    requires len { s.now.len ≤ 1048576 }
    ensures { result ≡ verdict_on local.now timeout clock.0 tag.now s.now }
{
    if local.retired {
        return Verdict::Drop(Why::Retired);
    }
    let opens = tag.hop == Hop::Direct && is_opening(s);
    match local.held {
        Some(receiver) if opens && receiver.finished && s.seq != receiver.start => Verdict::Accept,
        Some(receiver) => Verdict::Process(receiver.judge(s)),
        None if opens && local.full => Verdict::Drop(Why::Full),
        None if opens => Verdict::Accept,
        None => pass_on(tag, s, clock, timeout),
    }
}

/// The verdict on a copy that no connection takes: its flow isn't held, and it may not begin one.
fn pass_on(tag: &Tag, s: &Segment, clock: Moment, timeout: u64) -> Verdict
    ensures { (local : Local) → local.retired ≡ false → local.held ≡ None
        → (is_direct tag.now.hop && is_opening s.now) ≡ false
        → result ≡ verdict_on local timeout clock.0 tag.now s.now }
{
    match tag.onward() {
        Some(past) if is_in_time(&past, clock, timeout) => Verdict::Forward(past.server),
        Some(_) => refuse(Why::ChainExpired, s),
        None if tag.hop == Hop::Direct => refuse(Why::NoPrevious, s),
        None => refuse(Why::ChainedUnknown, s),
    }
}

/// Whether at most the timeout has passed since the bucket left the server.
fn is_in_time(past: &Past, clock: Moment, timeout: u64) -> bool
    ensures { result ≡ nat_le clock.0 (past.now.stamp.0 + timeout) }
{
    u128::from(clock.0) <= u128::from(past.stamp.0) + u128::from(timeout)
}

fn refuse(why: Why, s: &Segment) -> Verdict
    ensures { result ≡ (if has_flag RST s.now then Verdict.Drop Why.Silent else Verdict.Reset why) }
{
    if s.has(RST) {
        Verdict::Drop(Why::Silent)
    } else {
        Verdict::Reset(why)
    }
}
