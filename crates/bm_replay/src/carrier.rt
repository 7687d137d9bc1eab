//! The octets of a packet under way.
ghost use Rattle.std.specs.Prelude.{◌≡◌, ◌≤◌, length, IfSome, OnOk, Ok as ok};
ghost use Rattle.bm_base.specs.Tags.{IsTag};
ghost use Rattle.bm_encap.specs.Faults.{chained};
ghost use Rattle.bm_encap.specs.Spellings.{spelling};
ghost use Rattle.bm_replay.specs.Inside.Carriers.{carried, next_tag};

use bm_base::{Memory, Segment, ServerId, Tag};
use bm_encap::{chain, wrap};
use bm_shard::read_copy;
use std::alloc::Global;
use std::marker::Model;

/// A packet under way: a carrier header, and the packet within. One carrier serves all packets in
/// turn.
#[derive(Drop)]
pub(crate) struct Carrier {
    octets: Vec<u8>,
}

impl Model for Carrier {
    ghost use Rattle.std.specs.Prelude.{All, List, ℕ, ◌<◌};

    ghost Value = { List ℕ };

    ghost view = { λ carrier. carrier.octets.items };

    ghost invariant = { λ carrier. All (λ octet. octet < 256) carrier.octets.items };
}

impl Carrier {
    /// No octets yet. Takes no memory.
    pub(crate) fn empty(alloc: Global) -> Carrier {
        Carrier {
            octets: Vec::new(alloc),
        }
    }

    /// The packet after the header of the tag, in place of what was there.
    pub(crate) fn load(&mut self, tag: &Tag, packet: &[u8]) -> Result<(), Memory>
        requires tag { IsTag tag.now }
        requires short { length packet.now ≤ 65479 }
        ensures { OnOk result (self.new ≡ spelling tag.now packet.now) }
    {
        self.octets.clear();
        wrap(tag, packet, &mut self.octets)
    }

    /// The tag and the segment that the server reads, where the packet is on its way there.
    pub(crate) fn read(&self, server: ServerId) -> Option<(Tag, Segment)>
        ensures carried { result ≡ carried server self.now }
        ensures tag { IfSome result (λ read. IsTag read.0) }
    {
        read_copy(server, &self.octets).ok()
    }

    /// Rewrites the octets for the next hop, and returns its tag.
    pub(crate) fn go_on(&mut self) -> Option<Tag>
        ensures next { result ≡ next_tag self.old }
        ensures octets { IfSome result (λ _. chained self.old ≡ ok self.new) }
    {
        chain(&mut self.octets).ok()
    }
}
