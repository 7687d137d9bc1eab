//! What a shard is asked, what it replies, and what its book keeps.
ghost use Rattle.std.specs.Prelude.{◌≡◌};
ghost use Rattle.bm_shard.specs.Replies.{answer_for};
ghost use Rattle.bm_shard.specs.Turns.{call_moment};

use bm_base::{Flow, Moment, Segment, Tag};
use bm_core::{Event, Verdict};
use bm_table::Retirement;
use bm_tcp::reset_for;

/// What a shard is asked. Moments are nanoseconds.
#[derive(Clone, Copy, PartialEq, Eq)]
pub enum ShardCall {
    /// A copy of a packet, which was due at this moment, arrives.
    Arrive {
        packet: u32,
        tag: Tag,
        segment: Segment,
        due: Moment,
    },
    /// The server ends a connection.
    Close {
        flow: Flow,
        at: Moment,
    },
    /// A request to retire the shard, and its result.
    Retire {
        at: Moment,
        result: Retirement,
    },
}

/// What a shard replies to each kind of call. An arrival's answer is the packet that resets it, if
/// it is reset.
#[derive(Clone, Copy, PartialEq, Eq)]
pub enum ShardReply {
    Arrived {
        clock: Moment,
        verdict: Verdict,
        answer: Option<[u8; 40]>,
    },
    Closed {
        clock: Moment,
        closed: bool,
    },
    Retired {
        clock: Moment,
    },
}

/// A call that was made, the seat that made it, and its event.
#[derive(Clone, Copy, PartialEq, Eq)]
pub struct ShardEntry {
    pub seat: u16,
    pub call: ShardCall,
    pub event: Event,
}

impl ShardCall {
    /// When an arrival was due, or a close or retirement was made.
    pub(crate) fn moment(&self) -> Moment
        ensures { result ≡ call_moment self.now }
    {
        match *self {
            ShardCall::Arrive { due, .. } => due,
            ShardCall::Close { at, .. } | ShardCall::Retire { at, .. } => at,
        }
    }
}

/// The packet that resets a segment, if the verdict is to reset it.
pub(crate) fn answer_to(verdict: Verdict, segment: &Segment) -> Option<[u8; 40]>
    ensures { result ≡ answer_for verdict segment.now }
{
    match verdict {
        Verdict::Reset(_) => reset_for(segment),
        _ => None,
    }
}
