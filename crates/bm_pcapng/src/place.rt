//! A reader's place in a capture.
ghost use Rattle.std.specs.Prelude.{◌≡◌, ◌≤◌, ◌<◌, ◌+◌, ◌^◌};
ghost use Rattle.bm_pcapng.specs.Places.{first_place, moment_at, place_after};

use crate::Content;
use bm_base::Moment;
use bm_pcap::MOST_OCTETS;
pub(crate) use bm_pcap::{LONGEST, MOST_RECORDS};

/// The most octets of a block.
pub const LONGEST_BLOCK: usize = 16_777_216;

/// The most interfaces of a section.
pub const MOST_INTERFACES: usize = 1024;

/// The latest captured moment, in nanoseconds.
pub(crate) const LATEST: u64 = 4_400_000_000_000_000_000;

/// The numbers of the next block and of the next record, how many octets the capture may have from
/// here on, the time of the first packet that has one, and the moment of the record before.
#[derive(Clone, Copy, PartialEq, Eq)]
pub struct Place {
    pub block: u32,
    pub number: u32,
    pub room: u32,
    pub first: Option<u128>,
    pub last: Moment,
}

impl Place {
    /// The front of a capture.
    pub(crate) fn first() -> Place
        ensures { result ≡ first_place }
    {
        Place {
            block: 1,
            number: 1,
            room: MOST_OCTETS,
            first: None,
            last: Moment(0),
        }
    }

    /// The moment of a packet with this time.
    fn moment(&self, time: Option<u128>) -> Moment
        ensures { result ≡ moment_at self.now time }
    {
        match time {
            Some(time) => {
                let since = time.saturating_sub(self.first.unwrap_or(time));
                let capped = since.min(u128::from(LATEST)) as u64;
                Moment(self.last.0.max(capped))
            }
            None => self.last,
        }
    }

    /// The place after a block of `size` octets.
    pub(crate) fn next(&self, size: u32, content: &Content) -> Place
        requires blocks { self.now.block < 2 ^ 31 }
        requires few { self.now.number < 2 ^ 31 }
        requires fits { size ≤ self.now.room }
        ensures { result ≡ place_after self.now size content.now }
    {
        let mut next = Place {
            block: self.block + 1,
            number: self.number,
            room: self.room - size,
            first: self.first,
            last: self.last,
        };
        if let Content::Holds(packet) = content {
            next.number = self.number + 1;
            next.last = self.moment(packet.time);
            next.first = match packet.time {
                Some(time) => Some(self.first.unwrap_or(time)),
                None => self.first,
            };
        }
        next
    }
}
