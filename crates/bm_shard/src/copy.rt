//! What the octets of a copy say.
ghost use Rattle.std.specs.Prelude.{◌≡◌, ◌≤◌, IfOk};
ghost use Rattle.bm_base.specs.Tags.{IsTag};
ghost use Rattle.bm_shard.specs.Copies.{copy_in};

use crate::HandleFault;
use bm_base::{Segment, ServerId, Tag};
use bm_encap::unwrap;
use bm_tcp::read_packet;

/// The tag and the segment of a copy for this server, or the first fault. Takes no memory.
pub fn read_copy(id: ServerId, octets: &[u8]) -> Result<(Tag, Segment), HandleFault>
    ensures read { result ≡ copy_in id octets.now }
    ensures tag { IfOk result (λ read. IsTag read.0) }
    ensures short { IfOk result (λ read. read.1.len ≤ 1048576) }
{
    let (tag, packet) = match unwrap(octets) {
        Ok(read) => read,
        Err(fault) => return Err(HandleFault::BadEncap(fault)),
    };
    if tag.dest != id {
        return Err(HandleFault::NotMine);
    }
    match read_packet(packet) {
        Ok((segment, _)) => Ok((tag, segment)),
        Err(fault) => Err(HandleFault::BadInner(fault)),
    }
}
