//! The stream of one Accept.
ghost use Rattle.std.specs.Prelude.{◌≤◌, List, length};
ghost use Rattle.bm_link.specs.Fits.{ArePackets};
ghost use Rattle.bm_stream.specs.Accepts.{pieces_of, with_packet};
ghost use Rattle.bm_stream.specs.Inside.Keeping.{IsShort};
ghost use Rattle.bm_stream.specs.Pieces.{Piece};
ghost use Rattle.bm_stream.specs.Views.{HasTaken};

use crate::Stream;
use crate::places::{fin_of, place_of};
use bm_base::Octets;
use bm_core::Stage;
use bm_tcp::read_data;

/// Takes the piece that is the packet's segment, if it has one.
fn take_packet(stream: &mut Stream, stage: &Stage, octets: &Octets, start: u32, packet: u32)
    requires packets { ArePackets stage.now.capture.records octets.now }
    requires short { IsShort stream.old }
    ensures { (pieces : List Piece) → HasTaken pieces stream.old
        → HasTaken (with_packet stage.now octets.now start pieces packet) stream.new }
{
    let Some(segment) = stage.segment(packet) else {
        return;
    };
    let data = read_data(octets.get(packet - 1));
    let place = place_of(start, stream.length(), &segment);
    stream.take(place, data, fin_of(place, &segment));
}

/// Makes it the stream of these packets. `start` is the sequence number of the SYN.
pub(crate) fn collect(
    stream: &mut Stream,
    stage: &Stage,
    octets: &Octets,
    start: u32,
    packets: &[u32],
)
    requires packets { ArePackets stage.now.capture.records octets.now }
    requires few { length packets.now ≤ 25000000 }
    ensures { HasTaken (pieces_of stage.now octets.now start packets.now) stream.new }
{
    stream.clear();
    for packet in packets {
        take_packet(stream, stage, octets, start, *packet);
    }
}
