//! A reader's place in a capture.
ghost use Rattle.std.specs.Prelude.{◌≡◌, ◌≤◌, ◌<◌, ◌+◌, ◌^◌};
ghost use Rattle.bm_pcap.specs.Records.{first_place, after_record};

use bm_base::Moment;

/// The most records of a capture.
pub const MOST_RECORDS: u32 = 200_000;

/// The most octets of a capture.
pub const MOST_OCTETS: u32 = 268_435_456;

/// The most octets of a record.
pub const LONGEST: u32 = 262_144;

/// How many octets the header of a capture has.
const CAPTURE_HEADER: u32 = 24;

/// How many octets the header of a record has.
pub(crate) const RECORD_HEADER: u32 = 16;

/// The most octets that are read ahead: the longest record and its header.
pub const WIDEST: u32 = LONGEST + RECORD_HEADER;

/// The number of the next record, how many octets the capture may have from here on, the captured
/// time of record 1, and the moment of the record before.
#[derive(Clone, Copy, PartialEq, Eq)]
pub struct Place {
    pub number: u32,
    pub room: u32,
    pub first: Option<u64>,
    pub last: Moment,
}

impl Place {
    /// The place after the header of a capture.
    pub(crate) fn first() -> Place
        ensures { result ≡ first_place }
    {
        Place {
            number: 1,
            room: MOST_OCTETS - CAPTURE_HEADER,
            first: None,
            last: Moment(0),
        }
    }

    /// The place after a record with this captured time and `len` octets.
    pub(crate) fn next(&self, time: u64, len: u32) -> Place
        requires few { self.now.number < 2 ^ 31 }
        requires fits { 16 + len ≤ self.now.room }
        ensures { result ≡ after_record self.now time len }
    {
        let first = self.first.unwrap_or(time);
        Place {
            number: self.number + 1,
            room: self.room - RECORD_HEADER - len,
            first: Some(first),
            last: Moment(self.last.0.max(time.saturating_sub(first))),
        }
    }
}
