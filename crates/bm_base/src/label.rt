//! A table's entry for a bucket, and the label that a mux writes on a packet.
ghost use Rattle.std.specs.Prelude.{◌≡◌, IsSome, Some};
ghost use Rattle.bm_base.specs.Labels as labels;

use crate::{Moment, MuxId, ServerId, Version};

/// Which hop a copy of a packet makes: from a mux to a server, from there to the previous server, or
/// from there to the older one.
#[derive(Clone, Copy, PartialEq, Eq)]
pub enum Hop {
    Direct,
    Chained,
    Twice,
}

impl Hop {
    /// The hop that follows, if one may.
    pub fn next(self) -> Option<Hop>
        ensures { result ≡ labels.hop_after self }
    {
        match self {
            Hop::Direct => Some(Hop::Chained),
            Hop::Chained => Some(Hop::Twice),
            Hop::Twice => None,
        }
    }
}

/// A server that had a bucket, and the moment at which the bucket left it.
#[derive(Clone, Copy, PartialEq, Eq)]
pub struct Past {
    pub server: ServerId,
    pub stamp: Moment,
}

/// A table's entry for a bucket: its server, the previous one, and the older one before that.
#[derive(Clone, Copy, PartialEq, Eq)]
pub struct Entry {
    pub cur: ServerId,
    pub prev: Option<Past>,
    pub older: Option<Past>,
}

impl Entry {
    /// The server at which a copy of this hop arrives, if there is one.
    pub fn arrives_at(&self, hop: Hop) -> Option<ServerId>
        ensures { result ≡ labels.arrives_at self.now hop }
    {
        match hop {
            Hop::Direct => Some(self.cur),
            Hop::Chained => Some(self.prev?.server),
            Hop::Twice => Some(self.older?.server),
        }
    }

    /// The server to which a copy of this hop may be passed on, if there is one.
    pub fn onward(&self, hop: Hop) -> Option<Past>
        ensures { result ≡ labels.onward self.now hop }
    {
        match hop {
            Hop::Direct => self.prev,
            Hop::Chained => self.older,
            Hop::Twice => None,
        }
    }
}

/// A mux's label on a packet: the mux, the version of its table, and the bucket's entry there.
#[derive(Clone, Copy, PartialEq, Eq)]
pub struct Label {
    pub mux: MuxId,
    pub version: Version,
    pub entry: Entry,
}

/// What a copy of a packet carries: its hop and destination, and the previous servers of its label.
#[derive(Clone, Copy, PartialEq, Eq)]
pub struct Tag {
    pub hop: Hop,
    pub dest: ServerId,
    pub prev: Option<Past>,
    pub older: Option<Past>,
    pub version: Version,
    pub mux: MuxId,
}

impl Tag {
    /// The server to which the copy may be passed on, if there is one.
    pub fn onward(&self) -> Option<Past>
        ensures { result ≡ labels.onward (labels.entry_of self.now) self.now.hop }
    {
        let entry = Entry {
            cur: self.dest,
            prev: self.prev,
            older: self.older,
        };
        entry.onward(self.hop)
    }
}

/// The tag of a copy of this hop, which goes to the bucket's server, to the previous one or to the
/// older one. The label must have that server.
pub fn tag_of(label: &Label, hop: Hop) -> Tag
    requires { IsSome (labels.arrives_at label.now.entry hop) }
    ensures { labels.tag_of label.now hop ≡ Some result }
{
    let entry = label.entry;
    let Some(dest) = entry.arrives_at(hop) else {
        unreachable!()
    };
    Tag {
        hop,
        dest,
        prev: entry.prev,
        older: entry.older,
        version: label.version,
        mux: label.mux,
    }
}
