//! The events of a history.
ghost use Rattle.std.specs.Prelude.{◌≡◌};
ghost use Rattle.bm_core.specs.Past as past;

use bm_base::{Body, Capture, Flow, Hop, List, Moment, MuxId, Segment, ServerId, Taken, Version};
use bm_seq::Receiver;
use bm_table::{Retirement, Script};

/// Why a packet is dropped or reset.
#[derive(Clone, Copy, PartialEq, Eq)]
pub enum Why {
    NoPrevious,
    ChainExpired,
    ChainedUnknown,
    Silent,
    Full,
    Retired,
}

/// What a server does with a packet.
#[derive(Clone, Copy, PartialEq, Eq)]
pub enum Verdict {
    Accept,
    Process(Taken),
    Forward(ServerId),
    Reset(Why),
    Drop(Why),
}

/// What happens in one event.
#[derive(Clone, Copy, PartialEq, Eq)]
pub enum What {
    Publish(Version),
    Switch {
        mux: MuxId,
        version: Version,
    },
    Steer {
        packet: u32,
        mux: MuxId,
    },
    Lose {
        packet: u32,
        hop: Hop,
    },
    Arrive {
        packet: u32,
        hop: Hop,
        server: ServerId,
        verdict: Verdict,
    },
    Close {
        server: ServerId,
        flow: Flow,
        closed: bool,
    },
    Retire {
        server: ServerId,
        shard: u16,
        at: Moment,
        result: Retirement,
    },
    Sync,
}

/// An event and its clock.
#[derive(Clone, Copy, PartialEq, Eq)]
pub struct Event {
    pub clock: Moment,
    pub what: What,
}

/// What a server's shard knows of a flow.
#[derive(Clone, Copy, PartialEq, Eq)]
pub struct Local {
    pub retired: bool,
    pub held: Option<Receiver>,
    pub full: bool,
}

/// Which premise is broken.
#[derive(Clone, Copy, PartialEq, Eq)]
pub enum Cause {
    NeverAccepted,
    NotHeld,
    StaleMux,
    MovedThrice,
    ChainLate,
    SynElsewhere,
    Full,
    OldTable,
}

/// What a history is about.
#[derive(Drop)]
pub struct Stage {
    pub script: Script,
    pub capture: Capture,
}

impl Stage {
    /// The segment of the packet of this number, counted from 1, if it is steered.
    pub fn segment(&self, packet: u32) -> Option<Segment>
        ensures { result ≡ past.segment_of self.now packet }
    {
        let place = packet.checked_sub(1)? as usize;
        match self.capture.records.items().get(place)?.body {
            Body::Steerable(segment) => Some(segment),
            Body::Unsteered(_) => None,
        }
    }
}

/// What happened, in order.
#[derive(Drop)]
pub struct History {
    pub stage: Stage,
    pub events: List<Event>,
}

/// The events of one actor, in the order in which it recorded them.
pub type Log = List<Event>;
